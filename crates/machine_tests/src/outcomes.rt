//! What statements over fragments answer and write, from parts that are given by hand.

ghost use Rattle.machine_tests.specs.Planned.{IsPlanned};

use answers::evaluate::evaluate_counted;
use answers::finish::{Outcome, finish};
use answers::table::{Brought, FetchRows, Table, are_all_parts, lent};
use answers::work::work;
use catalog::catalogue::Catalog;
use meaning::statement::Statement;
use plan::fetch::Fetch;
use plan::nodes::{ReducedNodes, reduced_nodes};
use reader::command::Command;
use reader::print_answer::print_answer;
use reader::print_statement::print_part;
use reader::read::read;
use samples::catalogues::{EMP_AND_DEPT, ITEM, PAIR};
use std::alloc::Global;
use std::test::*;
use terms::copy::TryCopy;
use terms::memory::Memory;
use terms::part::Part;
use terms::text::Text;
use terms::value::Value;
use terms::write::Write;

/// A part that a leaf's fetch brings: the leaf's relation and number, and the values.
type Given = (&'static str, usize, &'static str);

/// The part of a text such as `1, Ada`.
fn part(alloc: Global, text: &str) -> Result<Part, Memory> {
    let mut values = Vec::new(alloc);
    for word in text.split(", ") {
        values.push(match word.parse::<i64>() {
            Ok(number) => Value::Int(number),
            Err(_) => Value::Text(Text::copy_of(alloc, word)?),
        })?;
    }
    Part::new(values)?.ok_or(Memory)
}

/// What the fetches bring, of these parts.
fn brought(alloc: Global, fetches: &[Fetch], parts: &[Given]) -> Result<Vec<Brought>, Memory> {
    let mut rows = Vec::new(alloc);
    for read in fetches {
        let mut found = Vec::new(alloc);
        for (relation, number, text) in parts {
            if *relation == read.leaf.relation.as_str() && *number == read.leaf.number {
                found.push(part(alloc, text)?)?;
            }
        }
        rows.push(Brought::new(read.leaf.copy()?, found))?;
    }
    Ok(rows)
}

/// An answer, and each write on a line after it.
fn shown(alloc: Global, outcome: &Outcome) -> Result<String, Memory> {
    let mut text = print_answer(alloc, &outcome.answer)?;
    text.push('\n')?;
    for write in outcome.writes.as_slice() {
        let line = match write {
            Write::Put(leaf, part) => {
                let values = print_part(alloc, part.values())?;
                format!(in alloc; "Put {leaf} {values}\n")?
            }
            Write::Del(leaf, key) => format!(in alloc; "Del {leaf} {key}\n")?,
        };
        text.push_str(line.as_str())?;
    }
    Ok(text)
}

/// What a statement answers and writes by what its fetches brought.
fn worked(
    alloc: Global,
    catalog: &Catalog,
    statement: &Statement,
    less: &ReducedNodes,
    rows: &[FetchRows],
) -> Result<Outcome, Memory>
    requires { IsPlanned less.now }
{
    let reads = less.fetches.as_slice();
    if !are_all_parts(reads, rows) {
        return Err(Memory);
    }
    let nodes = less.nodes.as_slice();
    work(alloc, catalog, statement, nodes, reads, rows)
}

/// The table of a statement's plan by what its fetches brought, and the steps of its evaluation.
fn evaluated(alloc: Global, less: &ReducedNodes, rows: &[FetchRows]) -> Result<(Table, u64), Memory>
    requires { IsPlanned less.now }
{
    let reads = less.fetches.as_slice();
    if !are_all_parts(reads, rows) {
        return Err(Memory);
    }
    let nodes = less.nodes.as_slice();
    evaluate_counted(alloc, nodes, rows)
}

/// The same by the table, which is evaluated first.
fn worked_by_table(
    alloc: Global,
    catalog: &Catalog,
    statement: &Statement,
    less: &ReducedNodes,
    rows: &[FetchRows],
) -> Result<Outcome, Memory>
    requires { IsPlanned less.now }
{
    let (table, _) = evaluated(alloc, less, rows)?;
    finish(alloc, catalog, statement, &table)
}

/// What a statement answers and writes by these parts, as text: by `work`, and by its table.
fn shown_both(
    alloc: Global,
    catalog: &Catalog,
    statement: &Statement,
    less: &ReducedNodes,
    parts: &[Given],
) -> Result<(String, String), Memory>
    requires { IsPlanned less.now }
{
    let brought = brought(alloc, less.fetches.as_slice(), parts)?;
    let rows = lent(alloc, brought.as_slice())?;
    let one = worked(alloc, catalog, statement, less, rows.as_slice())?;
    let other = worked_by_table(alloc, catalog, statement, less, rows.as_slice())?;
    Ok((shown(alloc, &one)?, shown(alloc, &other)?))
}

/// So by the texts of the catalogue and of the statement.
fn outcomes(
    alloc: Global,
    text: &str,
    statement: &str,
    parts: &[Given],
) -> Result<(String, String), Memory> {
    let catalog = Catalog::read(alloc, text).map_err(|_| Memory)?;
    let Ok(Command::Run(statement)) = read(alloc, statement, catalog.schema()) else {
        return Err(Memory);
    };
    let less = reduced_nodes(alloc, &catalog, &statement)?;
    shown_both(alloc, &catalog, &statement, &less, parts)
}

fn is_outcome(alloc: Global, text: &str, statement: &str, parts: &[Given], wanted: &str) -> bool {
    let both = outcomes(alloc, text, statement, parts).or_else(|_| outcomes(
        alloc, text, statement, parts,
    ));
    both.is_ok_and(|(one, other)| one.as_str() == wanted && other.as_str() == wanted)
}

#[test]
fn joined(rt: HostRuntime) {
    let parts = [
        ("emp", 1, "1, Ada"),
        ("emp", 1, "2, Bo"),
        ("emp", 2, "1, 7, 100"),
        ("emp", 3, "2, 12, 200"),
        ("dept", 1, "7, paint"),
        ("dept", 2, "12, dock"),
    ];
    assert!(rt;
        is_outcome(
            rt.alloc(),
            EMP_AND_DEPT,
            "SELECT emp.id, emp.name, dept.title FROM emp JOIN dept ON emp.dept = dept.no",
            &parts,
            "emp.id\temp.name\tdept.title\n1\tAda\tpaint\n2\tBo\tdock\n2 rows\n"
        )
    );
}

#[test]
fn changed(rt: HostRuntime) {
    let parts = [
        ("emp", 1, "1, Ada"),
        ("emp", 1, "2, Bo"),
        ("emp", 1, "3, Cy"),
        ("emp", 2, "1, 7, 100"),
        ("emp", 2, "3, 1, 9223372036854775807"),
        ("emp", 3, "2, 12, 200"),
    ];
    let cases = [
        (
            "UPDATE emp SET dept = dept + 5 WHERE id = 1",
            "changed 1\nDel emp.2 1\nPut emp.3 1, 12, 100\n",
        ),
        ("UPDATE emp SET pay = pay + 1", "overflow\n"),
        (
            "UPDATE emp SET pay = 100 WHERE dept < 8 AND id < 3",
            "changed 1\n",
        ),
        (
            "DELETE FROM emp WHERE dept > 1",
            "changed 2\nDel emp.1 1\nDel emp.1 2\nDel emp.2 1\nDel emp.3 2\n",
        ),
        (
            "SELECT id FROM emp WHERE dept = 12 AND dept < 10",
            "id\n0 rows\n",
        ),
        ("INSERT INTO emp VALUES (2, 'Di', 1, 5)", "exists\n"),
    ];
    for (statement, wanted) in cases {
        assert!(rt;
            is_outcome(rt.alloc(), EMP_AND_DEPT, statement, &parts, wanted),
            "{statement}"
        );
    }
}

#[test]
fn inserted(rt: HostRuntime) {
    assert!(rt;
        is_outcome(
            rt.alloc(),
            ITEM,
            "INSERT INTO item VALUES (1, 50, 'b')",
            &[("item", 1, "1, 3, a")],
            "exists\n"
        )
    );
    assert!(rt;
        is_outcome(
            rt.alloc(),
            ITEM,
            "INSERT INTO item VALUES (2, 50, 'b')",
            &[],
            "changed 1\nPut item.2 2, 50, 'b'\n"
        )
    );
}

/// Parts at so many first keys of each of two leaves.
fn first_parts(alloc: Global, reads: &[Fetch], counts: [i64; 2]) -> Result<Vec<Brought>, Memory> {
    let mut rows = Vec::new(alloc);
    for (read, count) in reads.iter().zip(counts) {
        let mut parts = Vec::new(alloc);
        for key in 0..count {
            parts.push(part(alloc, format!(in alloc; "{key}, {key}")?.as_str())?)?;
        }
        rows.push(Brought::new(read.leaf.copy()?, parts))?;
    }
    Ok(rows)
}

/// The rows of two columns that are in a leaf each, and the steps that putting them together takes, where the
/// leaves have parts at so many first keys.
fn put_together(alloc: Global, counts: [i64; 2]) -> Result<(usize, u64), Memory> {
    let catalog = Catalog::read(alloc, PAIR).map_err(|_| Memory)?;
    let Ok(Command::Run(statement)) = read(alloc, "SELECT one, other FROM pair", catalog.schema())
    else {
        return Err(Memory);
    };
    let less = reduced_nodes(alloc, &catalog, &statement)?;
    steps_of(alloc, &less, counts)
}

/// The rows of a reduced plan and the steps of its evaluation, where its leaves have parts at so many first keys.
fn steps_of(alloc: Global, less: &ReducedNodes, counts: [i64; 2]) -> Result<(usize, u64), Memory>
    requires { IsPlanned less.now }
{
    let brought = first_parts(alloc, less.fetches.as_slice(), counts)?;
    let rows = lent(alloc, brought.as_slice())?;
    let (table, steps) = evaluated(alloc, less, rows.as_slice())?;
    Ok((table.count(), steps))
}

#[test]
fn steps_counted(rt: HostRuntime) {
    let cases = [
        ([1000, 1000], 1000, 1000),
        ([1000, 0], 0, 0),
        ([0, 1000], 0, 0),
    ];
    for (counts, wanted, least) in cases {
        let made = put_together(rt.alloc(), counts).or_else(|_| put_together(rt.alloc(), counts));
        assert!(rt;
            made.is_ok_and(|(rows, steps)| rows == wanted
                && steps >= least
                && steps <= least + 1000)
        );
    }
}
