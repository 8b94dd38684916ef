//! Statements over whole relations, from their texts.

use meaning::relation::Relation;
use meaning::run::run;
use meaning::schema::Schema;
use meaning::whole::Whole;
use reader::command::Command;
use reader::fault::Rule;
use reader::print_answer::print_answer;
use reader::print_statement::print;
use reader::read::read;
use samples::catalogues::EMP_AND_DEPT;
use samples::chains::catalog;
use std::alloc::Global;
use std::test::*;
use terms::copy::TryCopy;
use terms::memory::Memory;

/// A database of a schema's relations, each without rows.
pub(crate) fn empty(alloc: Global, schema: &Schema) -> Result<Whole, Memory> {
    let mut whole = Whole::new(alloc);
    for relation in schema.relations.as_slice() {
        whole.put(relation.name.copy()?, Relation::new(alloc))?;
    }
    Ok(whole)
}

/// The line of an answer or of a refusal, or the printed statement where `prints`.
pub(crate) fn line(
    alloc: Global,
    schema: &Schema,
    whole: &mut Whole,
    text: &str,
    prints: bool,
) -> Result<String, Memory> {
    match read(alloc, text, schema) {
        Ok(Command::Run(statement)) if prints => print(alloc, &statement),
        Ok(Command::Run(statement)) => print_answer(alloc, &run(alloc, whole, &statement)?),
        Ok(_) => Ok(String::from_str(alloc, "no statement")?),
        Err(fault) if fault.rule() == Rule::Memory => Err(Memory),
        Err(fault) => Ok(format!(in alloc; "{fault}")?),
    }
}

/// What the statements of a script answer, one after another over empty relations.
fn answers(alloc: Global, text: &str, script: &str, prints: bool) -> Result<String, Memory> {
    let catalog = catalog(alloc, text)?;
    let mut whole = empty(alloc, catalog.schema())?;
    let mut lines = String::new(alloc);
    for statement in script.split('\n') {
        lines.push_str(line(alloc, catalog.schema(), &mut whole, statement, prints)?.as_str())?;
        lines.push('\n')?;
    }
    Ok(lines)
}

fn gives(alloc: Global, catalogue: &str, script: &str, wanted: &str, prints: bool) -> bool {
    match answers(alloc, catalogue, script, prints) {
        Ok(lines) => lines.as_str() == wanted,
        Err(_) => answers(alloc, catalogue, script, prints).is_ok_and(|lines| lines.as_str()
            == wanted),
    }
}

/// Joined, moved and overflowing rows.
const JOINS: &str = "INSERT INTO dept VALUES (7, 'paint')
INSERT INTO dept VALUES (12, 'dock')
INSERT INTO emp VALUES (1, 'Ada', 7, 100)
INSERT INTO emp VALUES (2, 'Bo', 12, 200)
SELECT emp.id, emp.name, dept.title FROM emp JOIN dept ON emp.dept = dept.no
SELECT emp.id, emp.name, dept.title FROM emp JOIN dept ON dept.no = emp.dept
SELECT * FROM emp JOIN dept ON dept = no WHERE title > 'e'
UPDATE emp SET dept = dept + 5 WHERE id = 1
SELECT id, dept, pay FROM emp
INSERT INTO emp VALUES (3, 'Cy', 1, 9223372036854775807)
UPDATE emp SET pay = pay + 1
SELECT pay FROM emp
SELECT emp.id FROM emp JOIN dept ON emp.dept = dept.no
UPDATE emp SET pay = dept + 1, dept = pay - 100 WHERE id < 3
SELECT * FROM emp
DELETE FROM emp WHERE name >= 'B' AND pay < 100
SELECT name FROM emp";

const JOINED: &str = "changed 1
changed 1
changed 1
changed 1
emp.id\temp.name\tdept.title
1\tAda\tpaint
2\tBo\tdock
2 rows
emp.id\temp.name\tdept.title
1\tAda\tpaint
2\tBo\tdock
2 rows
emp.id\temp.name\temp.dept\temp.pay\tdept.no\tdept.title
1\tAda\t7\t100\t7\tpaint
1 row
changed 1
id\tdept\tpay
1\t12\t100
2\t12\t200
2 rows
changed 1
overflow
pay
100
200
9223372036854775807
3 rows
emp.id
1
2
2 rows
changed 2
id\tname\tdept\tpay
1\tAda\t0\t13
2\tBo\t100\t13
3\tCy\t1\t9223372036854775807
3 rows
changed 1
name
Ada
Cy
2 rows
";

#[test]
fn whole_relations(rt: HostRuntime) {
    assert!(rt; gives(rt.alloc(), EMP_AND_DEPT, JOINS, JOINED, false));
}

/// Statements and what they print as.
const TEXTS: &str = "update emp set dept=dept- 1 , name='it''s' where id>=2;
select * from emp join dept on no=dept where title<>'x'
INSERT INTO dept VALUES (-9223372036854775808, '')
delete from emp";

const PRINTED: &str = "UPDATE emp SET dept = dept - 1, name = 'it''s' WHERE id >= 2
SELECT emp.id, emp.name, emp.dept, emp.pay, dept.no, dept.title FROM emp JOIN dept ON emp.dept = dept.no WHERE dept.title <> 'x'
INSERT INTO dept VALUES (-9223372036854775808, '')
DELETE FROM emp
";

#[test]
fn printed_statements(rt: HostRuntime) {
    assert!(rt; gives(rt.alloc(), EMP_AND_DEPT, TEXTS, PRINTED, true));
}
