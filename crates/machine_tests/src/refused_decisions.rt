//! What the coordinator does where its store refuses a call.

use crate::desks::{
    ACKED, DECIDED, MOVED, READ, READ_AND_WRITTEN, RESTARTED, SENT_AGAIN, UNDECIDED, VOTED_NO,
    VOTED_YES,
};
use crate::refused::{Case, Machine, holds};
use std::test::*;

const ACKED_CALLS: &str = "load: start
load: start
next_incarnation: start
keep_commit: south>desk Vote T1 1.1 YES
load: rows
load: rows
drop_commit: south>desk Ack T1 1.1
load: rows
none
";

/// The transaction is unknown from then on, and a second ticket hears Abort too.
const ACKED_UNKEPT: &str = "south>desk Vote T1 1.1 YES
not kept
T1: aborted 5 Store
desk>north Abort T1 1.1
desk>south Abort T1 1.1
rows
north>desk Ack T1 1.1
north>desk Ticket T1 1.2
desk>north Abort T1 1.2
north>desk Refused T1 1.1 Gone
north>desk Refused T1 1.1 Gone
north>desk Vote T1 1.1 NO
north>desk Ack T1 1.1
rows
south>desk Ack T1 1.1
rows
";

const SENT_AGAIN_CALLS: &str = "load: start
load: start
next_incarnation: start
keep_commit: south>desk Vote T1 1.1 YES
load: rows
load: restart
next_incarnation: restart
load: rows
drop_commit: south>desk Ack T1 1.1
load: rows
none
";

/// A restart finds no row, and sends no Commit.
const SENT_AGAIN_UNKEPT: &str = "south>desk Vote T1 1.1 YES
not kept
T1: aborted 5 Store
desk>north Abort T1 1.1
desk>south Abort T1 1.1
rows
restart
north>desk Ack T1 1.1
rows
south>desk Ack T1 1.1
rows
";

const DECIDED_CALLS: &str = "load: start
load: start
next_incarnation: start
keep_commit: south>desk Vote T1 1.1 YES
load: rows
none
";

/// Who inquires hears Abort.
const DECIDED_UNKEPT: &str = "south>desk Vote T1 1.1 YES
not kept
T1: aborted 5 Store
desk>north Abort T1 1.1
desk>south Abort T1 1.1
rows
north>desk Inquire T1 1.1
desk>north Abort T1 1.1
";

const RESTARTED_CALLS: &str = "load: start
load: start
next_incarnation: start
load: restart
next_incarnation: restart
load: rows
none
";

const READ_AND_WRITTEN_CALLS: &str = "load: start
load: start
next_incarnation: start
keep_commit: south>desk Vote T1 1.1 YES
load: rows
drop_commit: south>desk Ack T1 1.1
load: rows
none
";

/// Who voted READ has let go, and hears no Abort.
const READ_AND_WRITTEN_UNKEPT: &str = "south>desk Vote T1 1.1 YES
not kept
T1: aborted 5 Store
desk>south Abort T1 1.1
rows
south>desk Ack T1 1.1
rows
";

/// Where nothing is to be kept.
const NOTHING_KEPT_CALLS: &str = "load: start
load: start
next_incarnation: start
load: rows
none
";

const CASES: [Case; 7] = [
    Case {
        name: "committed",
        machine: Machine::Desk,
        pieces: &[MOVED, VOTED_YES, ACKED],
        calls: ACKED_CALLS,
        unkept: &[ACKED_UNKEPT],
    },
    Case {
        name: "sent again",
        machine: Machine::Desk,
        pieces: &[MOVED, VOTED_YES, SENT_AGAIN],
        calls: SENT_AGAIN_CALLS,
        unkept: &[SENT_AGAIN_UNKEPT],
    },
    Case {
        name: "in doubt",
        machine: Machine::Desk,
        pieces: &[MOVED, UNDECIDED, VOTED_YES, DECIDED],
        calls: DECIDED_CALLS,
        unkept: &[DECIDED_UNKEPT],
    },
    Case {
        name: "restarted",
        machine: Machine::Desk,
        pieces: &[MOVED, RESTARTED],
        calls: RESTARTED_CALLS,
        unkept: &[],
    },
    Case {
        name: "read and written",
        machine: Machine::Desk,
        pieces: &[READ_AND_WRITTEN],
        calls: READ_AND_WRITTEN_CALLS,
        unkept: &[READ_AND_WRITTEN_UNKEPT],
    },
    Case {
        name: "read",
        machine: Machine::Desk,
        pieces: &[READ],
        calls: NOTHING_KEPT_CALLS,
        unkept: &[],
    },
    Case {
        name: "lost",
        machine: Machine::Desk,
        pieces: &[MOVED, VOTED_NO],
        calls: NOTHING_KEPT_CALLS,
        unkept: &[],
    },
];

#[test]
fn refused_decisions(rt: HostRuntime) {
    for case in &CASES {
        assert!(rt; holds(rt.alloc(), case), "{}", case.name);
    }
}
