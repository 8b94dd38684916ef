//! SELECT, over whole relations.

ghost use Rattle.std.specs.Prelude.{◌≡◌, ◌++◌, ◌∷◌, IfOk, OnOk, find};
ghost use Rattle.std.specs.List.{slice_get};
ghost use Rattle.std.specs.Option.{option_copied};
ghost use Rattle.std.specs.Ordering.{int_eq};
ghost use Rattle.terms.specs.Row.{key_of};
ghost use Rattle.meaning.specs.declared.answer.Answer.TheVariants.{Rows};
ghost use Rattle.meaning.specs.Listed.{listed};
ghost use Rattle.meaning.specs.Meaning.{select_answer};
ghost use Rattle.meaning.specs.Selected.{names_joined, names_read, qualified, partner, paired, joined, rows_joined, selected};

use crate::answer::Answer;
use crate::listed::listed;
use crate::statement::{Join, Select, Source};
use crate::whole::Whole;
use std::alloc::Global;
use terms::copy::{TryCopy, copy_all};
use terms::memory::Memory;
use terms::row::Row;
use terms::seq::Seq;
use terms::text::Text;
use terms::value::Value;

/// What a SELECT answers.
pub fn run_select(alloc: Global, whole: &Whole, select: &Select) -> Result<Answer, Memory>
    ensures { IfOk result (λ answer. answer ≡ select_answer select.now whole.now) }
{
    let rows = whole.rows(&select.from.name);
    let joins = select.joins.as_slice();
    let Some((first, others)) = joins.split_first() else {
        return table(alloc, select, select.from.columns.as_slice(), rows);
    };
    let names = joined_names(alloc, &select.from, joins)?;
    let pairs = joined(alloc, first.col, whole.rows(&first.relation.name), rows)?;
    let rows = joined_on(alloc, whole, others, pairs)?;
    table(alloc, select, names.as_slice(), rows.as_slice())
}

/// The answer of a SELECT that reads rows with columns of these names.
fn table(alloc: Global, select: &Select, names: &[Text], rows: &[Row]) -> Result<Answer, Memory>
    ensures { IfOk result (λ answer. answer ≡ Rows (listed select.now.columns names.now) (selected select.now rows.now)) }
{
    let header = listed(alloc, select.columns.as_slice(), names)?;
    let rows = selected(alloc, select, rows)?;
    Ok(Answer::Rows(Seq::new(header), Seq::new(rows)))
}

/// What a SELECT makes of the rows that it reads.
pub fn selected(alloc: Global, select: &Select, rows: &[Row]) -> Result<Vec<Row>, Memory>
    ensures { IfOk result (λ found. found.items ≡ selected select.now rows.now) }
{
    let mut found = Vec::new(alloc);
    for row in rows {
        if select.conds.hold(row) {
            let values = listed(alloc, select.columns.as_slice(), row.values())?;
            found.push(Row::new(values)?)?;
        }
    }
    Ok(found)
}

/// The names of the columns that a SELECT lists.
pub fn header(alloc: Global, select: &Select) -> Result<Vec<Text>, Memory>
    ensures { IfOk result (λ names. names.items ≡ listed select.now.columns (names_read select.now.from select.now.joins)) }
{
    let joins = select.joins.as_slice();
    if joins.is_empty() {
        let names = select.from.columns.as_slice();
        return listed(alloc, select.columns.as_slice(), names);
    }
    let names = joined_names(alloc, &select.from, joins)?;
    listed(alloc, select.columns.as_slice(), names.as_slice())
}

/// The names of the columns of joined relations, qualified.
fn joined_names(alloc: Global, from: &Source, joins: &[Join]) -> Result<Vec<Text>, Memory>
    ensures { IfOk result (λ names. names.items ≡ names_joined from.now joins.now) }
{
    let mut names = Vec::new(alloc);
    add_qualified(alloc, &mut names, from)?;
    for join in joins {
        add_qualified(alloc, &mut names, &join.relation)?;
    }
    Ok(names)
}

/// Adds the names of a relation's columns, each after the relation's name and a dot.
fn add_qualified(alloc: Global, names: &mut Vec<Text>, source: &Source) -> Result<(), Memory>
    ensures { OnOk result (names.new.items ≡ names.old.items ++ qualified source.now) }
{
    for column in source.columns.as_slice() {
        let name = qualified_name(alloc, &source.name, column)?;
        names.push(name)?;
    }
    Ok(())
}

fn qualified_name(alloc: Global, relation: &Text, column: &Text) -> Result<Text, Memory>
    ensures { IfOk result (λ name. name ≡ relation.now ++ 46 ∷ column.now) }
{
    let mut name = String::from_str(alloc, relation.as_str())?;
    name.push('.')?;
    name.push_str(column.as_str())?;
    Text::new(name)
}

/// Rows joined with one relation after another.
fn joined_on(
    alloc: Global,
    whole: &Whole,
    joins: &[Join],
    rows: Vec<Row>,
) -> Result<Vec<Row>, Memory>
    ensures { IfOk result (λ all. all.items ≡ rows_joined whole.now joins.now rows.items) }
{
    let mut all = rows;
    for join in joins {
        let others = whole.rows(&join.relation.name);
        all = joined(alloc, join.col, others, all.as_slice())?;
    }
    Ok(all)
}

/// Each row followed by its partner among the others. Rows without one are dropped.
fn joined(alloc: Global, col: usize, others: &[Row], rows: &[Row]) -> Result<Vec<Row>, Memory>
    ensures { IfOk result (λ pairs. pairs.items ≡ joined col others.now rows.now) }
{
    let mut pairs = Vec::new(alloc);
    for row in rows {
        if let Some(pair) = paired(alloc, col, others, row)? {
            pairs.push(pair)?;
        }
    }
    Ok(pairs)
}

/// A row followed by its partner, if it has one.
fn paired(alloc: Global, col: usize, others: &[Row], row: &Row) -> Result<Option<Row>, Memory>
    ensures { IfOk result (λ pair. pair ≡ paired col others.now row.now) }
{
    match partner(others, row, col) {
        Some(other) => Ok(Some(pair(alloc, row, other)?)),
        None => Ok(None),
    }
}

/// The first row whose key is the value that another row has in a column.
fn partner<'a>(rows: &'a [Row], row: &Row, col: usize) -> Option<&'a Row>
    ensures { option_copied result ≡ partner rows.now (slice_get row.now col) }
{
    match row.values().get(col) {
        Some(Value::Int(key)) => with_key(rows, *key),
        _ => None,
    }
}

fn with_key(rows: &[Row], key: i64) -> Option<&Row>
    ensures { option_copied result ≡ find (λ row. int_eq (key_of row) key) rows.now }
{
    rows.iter().find(|row| row.key() == key)
}

/// A row followed by another.
fn pair(alloc: Global, row: &Row, other: &Row) -> Result<Row, Memory>
    ensures { IfOk result (λ both. both ≡ row.now ++ other.now) }
{
    let mut values = copy_all(alloc, row.values())?;
    for value in other.values() {
        values.push(value.copy()?)?;
    }
    Row::new(values)
}
