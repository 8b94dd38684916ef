//! A relation gets the split of the next catalogue: what its coordinator puts out, line by line.

use crate::desks::plays;
use desk::desk::Desk;
use desk::refusal::Refusal;
use samples::chains::chain;
use std::alloc::Global;
use std::test::*;
use store::desk_store::DeskStore;
use store::name::Txn;
use store::plain_desk::PlainDesk;
use terms::memory::Memory;

/// A relation that was split by columns and rows is split by rows alone: its parts move, and nothing begins beside it.
const MOVES: &str = "start
REFRAGMENT dept
refused 10 NoNext
REFRAGMENT emp
T1: begun
desk>north Open T1
desk>south Open T1
begin
refused 9 NotAlone
do T1 SELECT name FROM emp
refused 2 Busy
north>desk Ticket T1 1.1
desk>north Fetch T1 1.1 1 emp.1
desk>north Fetch T1 1.1 2 emp.2
south>desk Ticket T1 1.1
desk>south Fetch T1 1.1 1 emp.3
part 1, 'Ada'
part 2, 'Bo'
north>desk Rows T1 1.1 1 2
part 1, 7, 100
north>desk Rows T1 1.1 2 1
part 2, 12, 200
south>desk Rows T1 1.1 1 1
T1: changed 2
desk>north Del T1 1.1 3 emp.1 1
desk>north Del T1 1.1 4 emp.1 2
desk>north Del T1 1.1 5 emp.2 1
desk>north Put T1 1.1 6 emp.2 2, 'Bo', 12, 200
desk>south Put T1 1.1 2 emp.1 1, 'Ada', 7, 100
desk>south Del T1 1.1 3 emp.3 2
do T1 SELECT name FROM emp
refused 2 Busy
commit T1
desk>north Prepare T1 1.1 6
desk>south Prepare T1 1.1 3
";

/// Both sites can commit, and the next catalogue is in force: no other comes after it, and statements read its leaves.
const DECIDED: &str = "north>desk Vote T1 1.1 YES
south>desk Vote T1 1.1 YES
T1: committed
desk>north Commit T1 1.1
desk>south Commit T1 1.1
REFRAGMENT emp
refused 9 NotAlone
north>desk Ack T1 1.1
south>desk Ack T1 1.1
REFRAGMENT emp
refused 10 NoNext
begin T2
T2: begun
do T2 SELECT name FROM emp
desk>north Open T2
desk>south Open T2
south>desk Ticket T2 1.2
desk>south Fetch T2 1.2 1 emp.1
north>desk Ticket T2 1.2
desk>north Fetch T2 1.2 1 emp.2
part 1, 'Ada', 7, 100
south>desk Rows T2 1.2 1 1
part 2, 'Bo', 12, 200
north>desk Rows T2 1.2 1 1
T2: name
T2: Ada
T2: Bo
T2: 2 rows
";

/// One site can't: the old catalogue stays in force.
const LOST: &str = "north>desk Vote T1 1.1 NO
T1: aborted 1 Vote
desk>south Abort T1 1.1
begin T2
T2: begun
do T2 SELECT name FROM emp
desk>north Open T2
north>desk Ticket T2 1.2
desk>north Fetch T2 1.2 1 emp.1
";

/// The coordinator restarts before the decision: the old catalogue stays in force, and the relation can move again.
const RESTARTED: &str = "restart
T1: aborted 4 Restart
south>desk Vote T1 1.1 YES
REFRAGMENT emp
T1: begun
desk>north Open T1
desk>south Open T1
";

#[test]
fn letters_of_a_refragmentation(rt: HostRuntime) {
    let cases = [
        ("decided", &[MOVES, DECIDED][..]),
        ("lost", &[MOVES, LOST][..]),
        ("restarted", &[MOVES, RESTARTED][..]),
    ];
    for (name, pieces) in cases {
        let same = plays(rt.alloc(), pieces).or_else(|_| plays(rt.alloc(), pieces));
        assert!(rt; same == Ok(true), "{name}");
    }
}

/// How many catalogues come after the one in force, where the store of a coordinator of two keeps this number; none where it is
/// refused, since neither has the number.
fn later_than(alloc: Global, version: u64) -> Result<Option<usize>, Memory> {
    let chain = chain(alloc)?;
    let mut store = PlainDesk::new(alloc);
    store
        .keep_commit(Txn { life: 1, number: 1 }, &[], version)
        .map_err(|_| Memory)?;
    match Desk::start(alloc, &chain, store) {
        Ok(desk) => Ok(Some(desk.later().len())),
        Err(unstarted) => {
            if unstarted.refusal == Refusal::Chain {
                Ok(None)
            } else {
                Err(Memory)
            }
        }
    }
}

#[test]
fn starts_under_the_number_of_its_store(rt: HostRuntime) {
    let cases = [(0, None), (1, Some(1)), (2, Some(0)), (3, None)];
    for (version, later) in cases {
        let found = later_than(rt.alloc(), version).or_else(|_| later_than(rt.alloc(), version));
        assert!(rt; found == Ok(later), "{version}");
    }
}
