//! What transactions come to that a client hands over at once.

use crate::worlds::opened_for_one;
use desk::refusal::Refusal;
use desk::reply::Notice;
use heard::notice::put_notice;
use std::alloc::Global;
use std::fmt::Write;
use std::test::*;
use terms::memory::Memory;
use terms::seq::Seq;
use terms::text::Text;
use world::transaction::{Came, End, Outcome, Transaction};

/// The transaction of these texts, one on a line.
fn transaction(alloc: Global, lines: &str, end: End) -> Result<Transaction, Memory> {
    let mut texts = Vec::new(alloc);
    for line in lines.lines() {
        texts.push(Text::copy_of(alloc, line)?)?;
    }
    Ok(Transaction {
        texts: Seq::new(texts),
        end,
    })
}

fn put_notices(alloc: Global, told: &mut String, notices: &[Notice]) -> Result<(), Memory> {
    for notice in notices {
        put_notice(alloc, told, notice)?;
    }
    Ok(())
}

fn put_came(alloc: Global, told: &mut String, came: &Came) -> Result<(), Memory> {
    match came {
        Came::Heard(heard) => put_notices(alloc, told, heard.as_slice())?,
        Came::Refused(Refusal::Read(_)) => writeln!(told, "not read")?,
        Came::Refused(_) => writeln!(told, "refused")?,
    }
    Ok(())
}

fn put_outcome(alloc: Global, told: &mut String, outcome: &Outcome) -> Result<(), Memory> {
    if let Outcome::Ran(course) = outcome {
        put_notices(alloc, told, course.greeted.as_slice())?;
        for came in course.came.as_slice() {
            put_came(alloc, told, came)?;
        }
    }
    if outcome.is_committed() {
        writeln!(told, "kept")?;
    } else {
        writeln!(told, "not kept")?;
    }
    Ok(())
}

/// What the client hears of these transactions.
fn outcomes(alloc: Global, handed: &[(&str, End)]) -> Result<String, Memory> {
    let mut transactions = Vec::new(alloc);
    for (lines, end) in handed {
        transactions.push(transaction(alloc, lines, *end)?)?;
    }
    let mut client = opened_for_one(alloc)?;
    let Ok(outcomes) = client.run(transactions.as_slice()) else {
        return Err(Memory);
    };
    let mut told = String::new(alloc);
    for outcome in outcomes.as_slice() {
        put_outcome(alloc, &mut told, outcome)?;
    }
    Ok(told)
}

/// One that commits, one that is rolled back, and one of which two texts are refused.
const HANDED: [(&str, End); 3] = [
    (
        "INSERT INTO dept VALUES (7, 'paint')
INSERT INTO emp VALUES (1, 'Ada', 7, 100)",
        End::Commit,
    ),
    (
        "DELETE FROM emp
SELECT id FROM emp",
        End::Rollback,
    ),
    (
        "COMMIT
SELECT nam FROM emp
SELECT emp.name, dept.title FROM emp JOIN dept ON emp.dept = dept.no",
        End::Commit,
    ),
];

const HEARD: &str = "T1: begun
T1: changed 1
T1: changed 1
T1: committed
kept
T2: begun
T2: changed 1
T2: id
T2: 0 rows
T2: rolled back
not kept
T3: begun
not read
not read
T3: emp.name\tdept.title
T3: Ada\tpaint
T3: 1 row
T3: committed
kept
";

/// Once more where memory ran out.
fn is_heard(alloc: Global) -> bool {
    match outcomes(alloc, &HANDED) {
        Ok(told) => told.as_str() == HEARD,
        Err(_) => outcomes(alloc, &HANDED).is_ok_and(|told| told.as_str() == HEARD),
    }
}

#[test]
fn transactions_at_once(rt: HostRuntime) {
    assert!(rt; is_heard(rt.alloc()));
}
