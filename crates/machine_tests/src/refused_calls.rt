//! What a site does where its store refuses a call.

use crate::refused::{Case, Machine, holds};
use crate::sites::{ABORTED, HELD, LOST, MOVED, MOVED_IN, NOTHING, PARTS, STAYS, WORKED};
use std::test::*;

const WORKED_CALLS: &str = "rows: start north emp.1 emp.2
next_incarnation: start north emp.1 emp.2
keep_prepared: desk>north Prepare T2 1.3 1
rows: restart
next_incarnation: restart
apply: desk>north Commit T2 1.3
load: leaf emp.2
none
";

/// The leaf is free for another visit, and a Commit finds nothing to do.
const WORKED_UNKEPT: &str = "desk>north Prepare T2 1.3 1
north>desk Vote T2 1.3 NO
restart
desk>north Open T3
north>desk Ticket T3 2.1
desk>north Fetch T3 2.1 1 emp.2
north>desk Rows T3 2.1 1 0
inquire
desk>north Commit T2 1.3
north>desk Ack T2 1.3
desk>north Commit T2 1.3
north>desk Ack T2 1.3
leaf emp.2
desk>south Open T4
4 Stranger
desk>north Open T4
north>desk Ticket T4 2.2
desk>north Fetch T4 2.2 1 emp.3
4 Stranger
";

const MOVED_CALLS: &str = "rows: start north emp.1 emp.2
next_incarnation: start north emp.1 emp.2
find: desk>north Fetch T1 1.1 1 emp.1 where id = 1
find: desk>north Fetch T1 1.1 2 emp.2 where id = 1
keep_prepared: desk>north Prepare T1 1.1 3
apply: desk>north Commit T1 1.1
load: leaf emp.1
load: leaf emp.2
none
";

/// The visit has ended, and the row is where it was.
const MOVED_UNKEPT: &str = "desk>north Prepare T1 1.1 3
north>desk Vote T1 1.1 NO
desk>north Commit T1 1.1
north>desk Ack T1 1.1
desk>north Open T1
north>desk Ticket T1 1.2
desk>north Fetch T1 1.1 1 emp.1 where id = 1
north>desk Refused T1 1.1 Gone
desk>north Fetch T1 1.1 2 emp.2 where id = 1
north>desk Refused T1 1.1 Gone
desk>north Del T1 1.1 3 emp.2 1
desk>north Prepare T1 1.1 3
north>desk Vote T1 1.1 NO
desk>north Commit T1 1.1
north>desk Ack T1 1.1
leaf emp.1
1, 'Ada'
leaf emp.2
1, 7, 100
";

const MOVED_IN_CALLS: &str = "rows: start south emp.3
next_incarnation: start south emp.3
find: desk>south Fetch T1 1.1 1 emp.3 where id = 1
keep_prepared: desk>south Prepare T1 1.1 2
load: leaf emp.3
apply: desk>south Commit T1 1.1
load: leaf emp.3
none
";

const MOVED_IN_UNKEPT: &str = "desk>south Prepare T1 1.1 2
south>desk Vote T1 1.1 NO
leaf emp.3
desk>south Commit T1 1.1
south>desk Ack T1 1.1
leaf emp.3
";

const LOST_CALLS: &str = "rows: start south emp.3
next_incarnation: start south emp.3
find: desk>south Fetch T1 1.1 1 emp.3 where id = 1
load: leaf emp.3
none
";

const STAYS_CALLS: &str = "rows: start north emp.1 emp.2
next_incarnation: start north emp.1 emp.2
find: desk>north Fetch T1 1.1 1 emp.1 where id = 1
find: desk>north Fetch T1 1.1 2 emp.2 where id = 1
keep_prepared: desk>north Prepare T1 1.1 3
discard: desk>north Abort T1 1.1
load: leaf emp.2
none
";

/// An Abort finds nothing to do, and the vote stays NO.
const STAYS_UNKEPT: &str = "desk>north Prepare T1 1.1 3
north>desk Vote T1 1.1 NO
desk>north Abort T1 1.1
desk>north Prepare T1 1.1 3
north>desk Vote T1 1.1 NO
leaf emp.2
1, 7, 100
";

const ABORTED_CALLS: &str = "rows: start north emp.1 emp.2
next_incarnation: start north emp.1 emp.2
scan: desk>north Fetch T1 1.1 1 emp.2
find: desk>north Fetch T1 1.1 3 emp.2 where id = 2
find: desk>north Fetch T1 1.1 5 emp.2 where id = 1
keep_prepared: desk>north Prepare T1 1.1 5
rows: restart
next_incarnation: restart
discard: desk>north Abort T1 1.1
load: leaf emp.2
none
";

/// A restart finds no row to inquire after.
const ABORTED_UNKEPT: &str = "desk>north Prepare T1 1.1 5
north>desk Vote T1 1.1 NO
restart
inquire
desk>north Abort T1 1.1
desk>north Abort T1 1.1
inquire
leaf emp.2
1, 7, 100
";

const HELD_CALLS: &str = "rows: start north emp.1 emp.2
next_incarnation: start north emp.1 emp.2
keep_prepared: desk>north Prepare T1 1.1 1
keep_prepared: desk>north Prepare T2 1.2 1
apply: desk>north Commit T1 1.1
discard: desk>north Abort T2 1.2
scan: desk>north Fetch T3 1.3 1 emp.1
scan: desk>north Fetch T4 1.4 1 emp.2
rows: restart
next_incarnation: restart
load: leaf emp.1
load: leaf emp.2
none
";

/// The first row isn't kept, and the second one is.
const FIRST_UNKEPT: &str = "desk>north Prepare T1 1.1 1
north>desk Vote T1 1.1 NO
desk>north Prepare T2 1.2 1
north>desk Vote T2 1.2 YES
desk>north Commit T1 1.1
north>desk Ack T1 1.1
desk>north Abort T2 1.2
inquire
desk>north Open T3
north>desk Ticket T3 1.3
desk>north Fetch T3 1.3 1 emp.1
north>desk Rows T3 1.3 1 0
desk>north Open T4
north>desk Ticket T4 1.4
desk>north Fetch T4 1.4 1 emp.2
north>desk Rows T4 1.4 1 0
restart
desk>north Fetch T4 1.4 2 emp.1
north>desk Refused T4 1.4 Gone
leaf emp.1
leaf emp.2
";

/// The second row isn't kept, and the first one is.
const SECOND_UNKEPT: &str = "desk>north Prepare T2 1.2 1
north>desk Vote T2 1.2 NO
desk>north Commit T1 1.1
north>desk Ack T1 1.1
desk>north Abort T2 1.2
inquire
desk>north Open T3
north>desk Ticket T3 1.3
desk>north Fetch T3 1.3 1 emp.1
north>desk Rows T3 1.3 1 1
desk>north Open T4
north>desk Ticket T4 1.4
desk>north Fetch T4 1.4 1 emp.2
north>desk Rows T4 1.4 1 0
restart
desk>north Fetch T4 1.4 2 emp.1
north>desk Refused T4 1.4 Gone
leaf emp.1
1, 'Ada'
leaf emp.2
";

const CASES: [Case; 7] = [
    Case {
        name: "worked",
        machine: Machine::Site(&NOTHING),
        pieces: &[WORKED],
        calls: WORKED_CALLS,
        unkept: &[WORKED_UNKEPT],
    },
    Case {
        name: "moved",
        machine: Machine::Site(&PARTS),
        pieces: &[MOVED],
        calls: MOVED_CALLS,
        unkept: &[MOVED_UNKEPT],
    },
    Case {
        name: "moved in",
        machine: Machine::Site(&NOTHING),
        pieces: &[MOVED_IN],
        calls: MOVED_IN_CALLS,
        unkept: &[MOVED_IN_UNKEPT],
    },
    Case {
        name: "lost",
        machine: Machine::Site(&NOTHING),
        pieces: &[LOST],
        calls: LOST_CALLS,
        unkept: &[],
    },
    Case {
        name: "stays",
        machine: Machine::Site(&PARTS),
        pieces: &[STAYS],
        calls: STAYS_CALLS,
        unkept: &[STAYS_UNKEPT],
    },
    Case {
        name: "aborted",
        machine: Machine::Site(&PARTS),
        pieces: &[ABORTED],
        calls: ABORTED_CALLS,
        unkept: &[ABORTED_UNKEPT],
    },
    Case {
        name: "held",
        machine: Machine::Site(&NOTHING),
        pieces: &[HELD],
        calls: HELD_CALLS,
        unkept: &[FIRST_UNKEPT, SECOND_UNKEPT],
    },
];

#[test]
fn refused_calls(rt: HostRuntime) {
    for case in &CASES {
        assert!(rt; holds(rt.alloc(), case), "{}", case.name);
    }
}
