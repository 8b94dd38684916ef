//! Values of rows by their columns.

ghost use Rattle.std.specs.Prelude.{◌≡◌, ◌==◌, ◌++◌, ◌+◌, ◌<◌, ◌↔◌, ℕ, not, length, IfOk, IsTrue, OnOk, filter, map};
ghost use Rattle.std.specs.List.{AllByRecursion, list_all};
ghost use Rattle.terms.specs.Cond.{holds_of};
ghost use Rattle.catalog.specs.Counts.{has};
ghost use Rattle.plan.specs.Rows.{is_seen};
ghost use Rattle.plan.specs.Uniform.{AreOnce};
ghost use Rattle.answers.specs.Laid.{laid_beside, laid_from, laid_meets, laid_past, moved, numbers, row_of, seen_in};

use crate::joined::{Column, Joined, column_of};
use std::alloc::Global;
use terms::cond::Cond;
use terms::copy::TryCopy;
use terms::memory::Memory;
use terms::row::Row;
use terms::value::Value;

/// Whether a row over these columns meets conditions on columns.
pub(crate) fn meets(conds: &[Cond], columns: &[Column], row: &Joined) -> bool
    ensures { result ≡ laid_meets conds.now columns.now row.now }
{
    conds.iter().all(|cond| holds(cond, columns, row))
}

fn holds(cond: &Cond, columns: &[Column], row: &Joined) -> bool
    ensures { result ≡ holds_of cond.now (seen_in columns.now row.now cond.now.col) }
{
    match column_of(columns, cond.col) {
        Some(column) => match row.value_at(column) {
            Some(value) => cond.cmp.compares(value, &cond.value),
            None => cond.cmp.compares(&Value::Int(0), &cond.value),
        },
        None => false,
    }
}

/// Whether a column is among these.
fn has(columns: &[usize], col: usize) -> bool
    ensures { result ≡ has columns.now col }
{
    columns.iter().any(|other| *other == col)
}

/// Whether a column of this number is among these.
fn has_column(columns: &[Column], number: usize) -> bool
    ensures { result ≡ has (numbers columns.now) number }
{
    let Some((first, rest)) = columns.split_first() else {
        return false;
    };
    first.number == number || has_column(rest, number)
}

/// Whether a column is the key or among these.
fn is_seen(columns: &[usize], col: usize) -> bool
    ensures { result ≡ is_seen columns.now col }
{
    col == 0 || has(columns, col)
}

/// Whether each row begins with one that has as many values as there are columns.
pub(crate) fn are_wide(columns: &[Column], rows: &[Joined]) -> bool
    ensures { result ≡ list_all (λ row. length row.first == length columns.now) rows.now }
{
    rows.iter()
        .all(|row| row.first.values().len() == columns.len())
}

/// Whether no column stands twice.
pub(crate) fn are_once(columns: &[usize]) -> bool
    ensures { IsTrue result ↔ AreOnce columns.now }
{
    let Some((first, rest)) = columns.split_first() else {
        return true;
    };
    !has(rest, *first) && are_once(rest)
}

/// Those of the columns that are the key or among the wanted ones.
pub(crate) fn columns_cut(wanted: &[usize], columns: Vec<Column>) -> Vec<Column>
    ensures { result.items ≡ filter (λ column. is_seen wanted.now column.number) columns.items }
{
    let mut columns = columns;
    columns.retain(|column| is_seen(wanted, column.number));
    columns
}

/// Columns of rows made of so many, and behind them those others that are not among them, of rows that stand behind.
pub(crate) fn columns_beside(
    alloc: Global,
    count: usize,
    columns: &[Column],
    others: &[Column],
) -> Result<Vec<Column>, Memory>
    ensures { IfOk result (λ found. found.items ≡ laid_beside count columns.now others.now) }
{
    let mut found = Vec::with_capacity(alloc, columns.len().saturating_add(others.len()))?;
    for column in columns {
        found.push(*column)?;
    }
    put_moved(&mut found, count, columns, others)?;
    Ok(found)
}

/// Puts those columns that are not among others behind these, of rows that stand behind so many.
fn put_moved(
    found: &mut Vec<Column>,
    count: usize,
    columns: &[Column],
    others: &[Column],
) -> Result<(), Memory>
    ensures { OnOk result (found.new.items ≡ found.old.items ++ map (moved count) (filter (λ column. not (has (numbers columns.now) column.number)) others.now)) }
{
    for column in others {
        if !has_column(columns, column.number) {
            let Some(source) = count.checked_add(column.source) else {
                return Err(Memory);
            };
            found.push(Column {
                number: column.number,
                source,
                place: column.place,
            })?;
        }
    }
    Ok(())
}

/// Columns counted on from a width.
pub(crate) fn columns_past(
    alloc: Global,
    width: usize,
    columns: &[Column],
) -> Result<Vec<Column>, Memory>
    requires { AllByRecursion (λ column. width + column.number < 18446744073709551616) columns.now }
    ensures { IfOk result (λ found. found.items ≡ laid_past width columns.now) }
{
    let mut found = Vec::with_capacity(alloc, columns.len())?;
    for column in columns {
        found.push(Column {
            number: width + column.number,
            source: column.source,
            place: column.place,
        })?;
    }
    Ok(found)
}

/// Columns of these numbers, whose values stand in order in one row.
pub(crate) fn columns_from(alloc: Global, columns: &[usize]) -> Result<Vec<Column>, Memory>
    ensures { IfOk result (λ found. found.items ≡ laid_from 0 columns.now) }
{
    let mut found = Vec::with_capacity(alloc, columns.len())?;
    for (place, number) in columns.iter().enumerate() {
        found.push(Column {
            number: *number,
            source: 0,
            place,
        })?;
    }
    Ok(found)
}

/// The numbers of columns.
pub(crate) fn numbers(alloc: Global, columns: &[Column]) -> Result<Vec<usize>, Memory>
    ensures { IfOk result (λ found. found.items ≡ numbers columns.now) }
{
    let mut found = Vec::with_capacity(alloc, columns.len())?;
    for column in columns {
        found.push(column.number)?;
    }
    Ok(found)
}

/// The values of a row over columns, as a row of its own.
#[inline(always)]
pub(crate) fn row_of(alloc: Global, columns: &[Column], row: &Joined) -> Result<Row, Memory>
    ensures { IfOk result (λ found. found ≡ row_of columns.now row.now) }
{
    let mut values = Vec::with_capacity(alloc, columns.len())?;
    for column in columns {
        match row.value_at(column) {
            Some(value) => values.push(value.copy()?)?,
            None => values.push(Value::Int(0))?,
        }
    }
    Row::new(values)
}

/// Whether the columns' values stand in order in one row.
pub(crate) fn are_in_order(columns: &[Column]) -> bool
    ensures { IsTrue result → columns.now ≡ laid_from 0 (numbers columns.now) }
{
    for (place, column) in columns.iter().enumerate() {
        if column.source != 0 || column.place != place {
            return false;
        }
    }
    true
}

/// Whether these are the columns' numbers.
pub(crate) fn are_numbers(places: &[usize], columns: &[Column]) -> bool
    ensures { IsTrue result → places.now ≡ numbers columns.now }
{
    match (places.split_first(), columns.split_first()) {
        (Some((place, places)), Some((column, columns))) => {
            *place == column.number && are_numbers(places, columns)
        }
        (None, None) => true,
        _ => false,
    }
}

/// Whether both are the same columns, in the same places.
pub(crate) fn are_same(columns: &[Column], others: &[Column]) -> bool
    ensures { IsTrue result → columns.now ≡ others.now }
{
    match (columns.split_first(), others.split_first()) {
        (Some((column, columns)), Some((other, others))) => {
            is_same(column, other) && are_same(columns, others)
        }
        (None, None) => true,
        _ => false,
    }
}

/// Whether both are the same column, in the same place.
fn is_same(column: &Column, other: &Column) -> bool
    ensures { IsTrue result → column.now ≡ other.now }
{
    column.number == other.number && column.source == other.source && column.place == other.place
}
