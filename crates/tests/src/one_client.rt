//! A client alone over three catalogues: relations get another split meanwhile, and no answer tells of it.

use crate::catalogue_schedules::three;
use crate::statements::empty;
use crate::worlds::heard_from;
use samples::catalogues::EMP_AND_DEPT;
use samples::chains::catalog;
use std::alloc::Global;
use std::fmt::Write;
use std::test::*;
use store::plain_desk::PlainDesk;
use store::plain_site::PlainSite;
use terms::leaf::Leaf;
use terms::memory::Memory;
use terms::text::Text;
use world::solo::{Solo, open};

/// What the client asks for, the last thing of which is that `dept` gets its split a second time.
const SCRIPT: &str = "INSERT INTO dept VALUES (7, 'paint')
INSERT INTO dept VALUES (12, 'dock')
INSERT INTO emp VALUES (1, 'Ada', 7, 100)
INSERT INTO emp VALUES (2, 'Bo', 12, 200)
BEGIN
REFRAGMENT emp
ROLLBACK
REFRAGMENT dept
REFRAGMENT emp
SELECT name FROM emp
REFRAGMENT emp
UPDATE emp SET dept = dept + 5 WHERE id = 1
REFRAGMENT dept
SELECT emp.id, emp.name, dept.title FROM emp JOIN dept ON emp.dept = dept.no
REFRAGMENT dept";

/// What it hears, and then how many parts the leaves of both relations have.
const HEARD: &str = "T1: changed 1
T2: changed 1
T3: changed 1
T4: changed 1
T5: begun
busy
T5: rolled back
no next
T6: changed 2
T7: name
T7: Ada
T7: Bo
T7: 2 rows
no next
T8: changed 1
T9: changed 2
T10: emp.id\temp.name\tdept.title
T10: 1\tAda\tdock
T10: 2\tBo\tdock
T10: 2 rows
no next
emp.1 0
emp.2 2
emp.3 none
dept.1 0
dept.2 1
dept.3 1
";

/// The leaves whose parts are counted.
const LEAVES: [(&str, usize); 6] = [
    ("emp", 1),
    ("emp", 2),
    ("emp", 3),
    ("dept", 1),
    ("dept", 2),
    ("dept", 3),
];

/// Tells how many parts each leaf has.
fn put_counts(
    alloc: Global,
    told: &mut String,
    client: &mut Solo<PlainDesk, PlainSite>,
) -> Result<(), Memory> {
    for (relation, number) in LEAVES {
        let leaf = Leaf {
            relation: Text::copy_of(alloc, relation)?,
            number,
        };
        match client.parts(&leaf) {
            Ok(Some(parts)) => writeln!(told, "{relation}.{number} {}", parts.len())?,
            Ok(None) => writeln!(told, "{relation}.{number} none")?,
            Err(_) => return Err(Memory),
        }
    }
    Ok(())
}

/// What the client hears over lists, and what its leaves have at the end.
fn heard(alloc: Global) -> Result<String, Memory> {
    let catalog = catalog(alloc, EMP_AND_DEPT)?;
    let whole = empty(alloc, catalog.schema())?;
    let Ok(mut client) = open(alloc, &three(alloc)?, &whole) else {
        return Err(Memory);
    };
    let mut told = heard_from(alloc, &mut client, SCRIPT)?;
    put_counts(alloc, &mut told, &mut client)?;
    Ok(told)
}

/// Once more where memory ran out.
fn is_heard(alloc: Global) -> bool {
    match heard(alloc) {
        Ok(told) => told.as_str() == HEARD,
        Err(_) => heard(alloc).is_ok_and(|told| told.as_str() == HEARD),
    }
}

#[test]
fn client_over_catalogues(rt: HostRuntime) {
    assert!(rt; is_heard(rt.alloc()));
}
