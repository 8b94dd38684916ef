//! What a world's events come to, and what a client alone hears of its commands.

use crate::statements::{empty, line};
use catalog::catalogue::Catalog;
use catalog::chain::Chain;
use desk::refusal::Refusal;
use heard::notice::put_notice;
use meaning::whole::Whole;
use reader::print_answer::print_answer;
use samples::catalogues::EMP_AND_DEPT;
use samples::chains::catalog;
use std::alloc::Global;
use std::fmt::Write;
use std::test::*;
use store::desk_store::DeskStore;
use store::name::Txn;
use store::plain_desk::PlainDesk;
use store::plain_site::PlainSite;
use store::site_store::SiteStore;
use terms::memory::Memory;
use terms::text::Text;
use world::chain::alone;
use world::event::{Call, Event};
use world::solo::{Solo, open as open_client};
use world::world::{World, open};

/// Whole relations as these statements leave them.
pub(crate) fn loaded(alloc: Global, catalog: &Catalog, script: &str) -> Result<Whole, Memory> {
    let mut whole = empty(alloc, catalog.schema())?;
    for statement in script.lines() {
        let _answer = line(alloc, catalog.schema(), &mut whole, statement, false)?;
    }
    Ok(whole)
}

/// Something that happens: a call of the client of a transaction, or the letters from one number up to another
/// come in order.
enum Step {
    Begin,
    State(u64, &'static str),
    Commit(u64),
    Letters(usize, usize),
}

fn txn(number: u64) -> Txn {
    Txn { life: 1, number }
}

fn events(alloc: Global, steps: &[Step]) -> Result<Vec<Event>, Memory> {
    let mut events = Vec::new(alloc);
    for step in steps {
        match step {
            Step::Begin => events.push(Event::Call(Call::Begin))?,
            Step::State(number, text) => events.push(Event::Call(Call::State(
                txn(*number),
                Text::copy_of(alloc, text)?,
            )))?,
            Step::Commit(number) => events.push(Event::Call(Call::Commit(txn(*number))))?,
            Step::Letters(from, to) => {
                for number in *from..*to {
                    events.push(Event::Deliver(number, true))?;
                }
            }
        }
    }
    Ok(events)
}

/// A world over these relations.
pub(crate) fn opened(alloc: Global, load: &str) -> Result<World<PlainDesk, PlainSite>, Memory> {
    let catalog = catalog(alloc, EMP_AND_DEPT)?;
    opened_over(alloc, &alone(alloc, &catalog)?, load)
}

/// A world of these catalogues over these relations.
pub(crate) fn opened_over(
    alloc: Global,
    chain: &Chain,
    load: &str,
) -> Result<World<PlainDesk, PlainSite>, Memory> {
    let catalog = catalog(alloc, EMP_AND_DEPT)?;
    let whole = loaded(alloc, &catalog, load)?;
    match open(alloc, chain, &whole) {
        Ok(world) => Ok(world),
        Err(_) => Err(Memory),
    }
}

/// A client's database, without rows.
pub(crate) fn opened_for_one(alloc: Global) -> Result<Solo<PlainDesk, PlainSite>, Memory> {
    let catalog = catalog(alloc, EMP_AND_DEPT)?;
    let whole = empty(alloc, catalog.schema())?;
    match open_client(alloc, &alone(alloc, &catalog)?, &whole) {
        Ok(client) => Ok(client),
        Err(_) => Err(Memory),
    }
}

/// The committed transactions, each with its texts and answers.
fn committed(alloc: Global, load: &str, steps: &[Step]) -> Result<String, Memory> {
    let mut world = opened(alloc, load)?;
    if world.run(events(alloc, steps)?.as_slice()).is_err() {
        return Err(Memory);
    }
    let mut told = String::new(alloc);
    for one in world.committed()?.as_slice() {
        writeln!(told, "T{}", one.txn.number)?;
        for text in one.texts.as_slice() {
            writeln!(told, "{}", text.as_str())?;
        }
        for answer in one.answers.as_slice() {
            writeln!(told, "{}", print_answer(alloc, answer)?.as_str())?;
        }
    }
    Ok(told)
}

/// What a client alone hears over lists, command by command.
fn heard(alloc: Global, script: &str) -> Result<String, Memory> {
    let mut client = opened_for_one(alloc)?;
    heard_from(alloc, &mut client, script)
}

/// What a client alone hears from its database, command by command.
pub(crate) fn heard_from<D: DeskStore, S: SiteStore>(
    alloc: Global,
    client: &mut Solo<D, S>,
    script: &str,
) -> Result<String, Memory> {
    let mut told = String::new(alloc);
    for text in script.lines() {
        match client.execute(text) {
            Ok(notices) => {
                for notice in notices.as_slice() {
                    put_notice(alloc, &mut told, notice)?;
                }
            }
            Err(Refusal::NoTransaction) => writeln!(told, "no transaction")?,
            Err(Refusal::Busy) => writeln!(told, "busy")?,
            Err(Refusal::NoNext) => writeln!(told, "no next")?,
            Err(Refusal::Read(_)) => writeln!(told, "not read")?,
            Err(_) => return Err(Memory),
        }
    }
    Ok(told)
}

/// The first phases stand in another order than the decisions: the vote that decides the first transaction comes
/// after the second one is committed.
const CROSSED: [Step; 13] = [
    Step::Begin,
    Step::State(1, "SELECT name FROM emp"),
    Step::Letters(0, 4),
    Step::State(1, "UPDATE dept SET title = 'pier' WHERE no = 12"),
    Step::Letters(4, 9),
    Step::Commit(1),
    Step::Letters(9, 12),
    Step::Begin,
    Step::State(2, "UPDATE emp SET name = 'Eve' WHERE id = 1"),
    Step::Letters(13, 24),
    Step::Commit(2),
    Step::Letters(24, 40),
    Step::Letters(12, 13),
];

const CROSSED_LOAD: &str = "INSERT INTO emp VALUES (1, 'Ada', 7, 100)
INSERT INTO dept VALUES (12, 'dock')";

const CROSSED_COMMITTED: &str = "T1
SELECT name FROM emp
UPDATE dept SET title = 'pier' WHERE no = 12
name
Ada
1 row
changed 1
T2
UPDATE emp SET name = 'Eve' WHERE id = 1
changed 1
";

/// A transaction of several statements, one that is rolled back, and what is refused.
pub(crate) const ALONE: &str = "INSERT INTO dept VALUES (7, 'paint')
INSERT INTO dept VALUES (12, 'dock')
INSERT INTO emp VALUES (1, 'Ada', 7, 100)
INSERT INTO emp VALUES (2, 'Bo', 12, 200)
UPDATE emp SET dept = dept + 5 WHERE id = 1
BEGIN
BEGIN
INSERT INTO emp VALUES (3, 'Cy', 1, 9223372036854775807)
UPDATE emp SET pay = pay + 1
SELECT pay FROM emp
COMMIT
COMMIT
BEGIN
DELETE FROM emp
SELECT id FROM emp
ROLLBACK
SELECT nam FROM emp
SELECT emp.id, emp.name, dept.title FROM emp JOIN dept ON emp.dept = dept.no";

pub(crate) const ALONE_HEARD: &str = "T1: changed 1
T2: changed 1
T3: changed 1
T4: changed 1
T5: changed 1
T6: begun
busy
T6: changed 1
T6: overflow
T6: pay
T6: 100
T6: 200
T6: 9223372036854775807
T6: 3 rows
T6: committed
no transaction
T7: begun
T7: changed 3
T7: id
T7: 0 rows
T7: rolled back
not read
T8: emp.id\temp.name\tdept.title
T8: 1\tAda\tdock
T8: 2\tBo\tdock
T8: 2 rows
";

/// Once more where memory ran out.
fn is_committed(alloc: Global) -> bool {
    match committed(alloc, CROSSED_LOAD, &CROSSED) {
        Ok(told) => told.as_str() == CROSSED_COMMITTED,
        Err(_) => committed(alloc, CROSSED_LOAD, &CROSSED).is_ok_and(|told| told.as_str()
            == CROSSED_COMMITTED),
    }
}

#[test]
fn order_of_first_phases(rt: HostRuntime) {
    assert!(rt; is_committed(rt.alloc()));
}

/// Once more where memory ran out.
fn is_heard(alloc: Global) -> bool {
    match heard(alloc, ALONE) {
        Ok(told) => told.as_str() == ALONE_HEARD,
        Err(_) => heard(alloc, ALONE).is_ok_and(|told| told.as_str() == ALONE_HEARD),
    }
}

#[test]
fn client_alone(rt: HostRuntime) {
    assert!(rt; is_heard(rt.alloc()));
}
