//! Whether each row meets exactly one branch of a row split. Its cells decide that: rows of the test
//! values of each column.

ghost use Rattle.std.specs.Prelude.{◌≡◌, ◌≤◌, ◌↔◌, ◌++◌, ◌∷◌, [], ◌==◌, IfOk, OnOk, IsTrue, if◌then◌else◌, filter};
ghost use Rattle.terms.specs.Cond.{cond_holds, conds_hold};
ghost use Rattle.terms.specs.TestValues.{column_holds};
ghost use Rattle.catalog.specs.Cells.{cell_count, conds_of_split, AreTestColumns, met_by, is_fault, first_fault_behind, values_of, on_way, IsSought, AllFit};
ghost use Rattle.catalog.specs.Exactness.{IsAnswer};

use crate::laws::cells_decide;
use std::alloc::Global;
use terms::cond::{Cond, Conds};
use terms::copy::{TryCopy, copy_all};
use terms::memory::Memory;
use terms::row::Row;
use terms::seq::Seq;
use terms::test_values::{column_holds, test_values};
use terms::value::{Kind, Value};

/// The most cells of a row split.
pub const CELLS: usize = 4096;

/// What the cells of a row split show.
#[derive(Debug, Drop)]
pub enum Exactness {
    /// Each row that meets the conditions on the way meets exactly one branch.
    Exact,
    /// The first faulty cell, which meets no branch.
    Gap(Row),
    /// The first faulty cell, which meets two or more branches.
    Overlap(Row),
    /// There are more than `CELLS` cells.
    TooMany,
}

/// Whether each row of these types that meets the conditions on the way meets exactly one branch.
pub fn try_cells(
    alloc: Global,
    kinds: &[Kind],
    way: &[Cond],
    branches: &[Conds],
) -> Result<Exactness, Memory>
    requires { AllFit kinds.now way.now branches.now }
    ensures { IfOk result (λ answer. IsAnswer kinds.now way.now branches.now 4096 answer) }
{
    cells_decide();
    let conds = conds_of_split(alloc, way, branches)?;
    let columns = test_columns(alloc, kinds, conds.as_slice())?;
    if !are_few(columns.as_slice()) {
        return Ok(Exactness::TooMany);
    }
    let kept = columns_on_way(alloc, way, columns.as_slice())?;
    let mut cell = Vec::new(alloc);
    if seek_fault(way, branches, kept.as_slice(), &mut cell)? {
        named(alloc, branches, cell.as_slice())
    } else {
        Ok(Exactness::Exact)
    }
}

/// The conditions on the way and those of the branches.
pub(crate) fn conds_of_split(
    alloc: Global,
    way: &[Cond],
    branches: &[Conds],
) -> Result<Vec<Cond>, Memory>
    ensures { IfOk result (λ conds. conds.items ≡ conds_of_split way.now branches.now) }
{
    let mut conds = copy_all(alloc, way)?;
    for branch in branches {
        push_copies(&mut conds, branch.as_slice())?;
    }
    Ok(conds)
}

fn push_copies(conds: &mut Vec<Cond>, more: &[Cond]) -> Result<(), Memory>
    ensures { OnOk result (conds.new.items ≡ conds.old.items ++ more.now) }
{
    for cond in more {
        conds.push(cond.copy()?)?;
    }
    Ok(())
}

/// The test values of each column for these conditions.
fn test_columns(alloc: Global, kinds: &[Kind], conds: &[Cond]) -> Result<Vec<Seq<Value>>, Memory>
    ensures { IfOk result (λ columns. AreTestColumns conds.now 0 kinds.now columns.items) }
{
    let mut columns = Vec::new(alloc);
    for col in 0..kinds.len() {
        let values = test_values(alloc, kinds[col], conds, col)?;
        columns.push(Seq::new(values))?;
    }
    Ok(columns)
}

/// Whether there are at most `CELLS` cells.
fn are_few(columns: &[Seq<Value>]) -> bool
    ensures { IsTrue result ↔ (cell_count columns.now ≤ 4096) }
{
    let mut cells: usize = 1;
    for values in columns {
        cells = cells.saturating_mul(values.as_slice().len());
    }
    cells <= CELLS
}

/// The values of each column that meet the conditions on the way. No cell with another is faulty.
fn columns_on_way(
    alloc: Global,
    way: &[Cond],
    columns: &[Seq<Value>],
) -> Result<Vec<Seq<Value>>, Memory>
    ensures { IfOk result (λ kept. kept.items ≡ on_way way.now 0 columns.now) }
{
    let mut kept = Vec::new(alloc);
    for col in 0..columns.len() {
        let values = values_on_way(alloc, way, col, columns[col].as_slice())?;
        kept.push(Seq::new(values))?;
    }
    Ok(kept)
}

fn values_on_way(
    alloc: Global,
    way: &[Cond],
    col: usize,
    values: &[Value],
) -> Result<Vec<Value>, Memory>
    ensures { IfOk result (λ kept. kept.items ≡ filter (column_holds way.now col) values.now) }
{
    let mut kept = Vec::new(alloc);
    for value in values {
        if column_holds(way, col, value) {
            kept.push(value.copy()?)?;
        }
    }
    Ok(kept)
}

/// Looks for the first faulty cell among those that begin with the values of `row`, and have a value of
/// each of the columns behind them. The first column's values vary slowest. Where there is such a cell,
/// `row` is then that cell, else it is as before.
#[cycle(cells)]
fn seek_fault<'a>(
    way: &[Cond],
    branches: &[Conds],
    columns: &'a [Seq<Value>],
    row: &mut Vec<&'a Value>,
) -> Result<bool, Memory>
    ensures { IfOk result (λ found. IsSought (first_fault_behind way.now branches.now (values_of row.old.items) columns.now) found row.old.items row.new.items) }
{
    let Some((values, rest)) = columns.split_first() else {
        return Ok(is_fault(way, branches, row.as_slice()));
    };
    for value in values.as_slice() {
        if seek_fault_with(way, branches, rest, row, value)? {
            return Ok(true);
        }
    }
    Ok(false)
}

/// The same where this value comes next.
#[cycle(cells)]
fn seek_fault_with<'a>(
    way: &[Cond],
    branches: &[Conds],
    columns: &'a [Seq<Value>],
    row: &mut Vec<&'a Value>,
    value: &'a Value,
) -> Result<bool, Memory>
    ensures { IfOk result (λ found. IsSought (first_fault_behind way.now branches.now (values_of row.old.items ++ value.now ∷ []) columns.now) found row.old.items row.new.items) }
{
    row.push(value)?;
    let found = seek_fault(way, branches, columns, row)?;
    if !found {
        row.pop();
    }
    Ok(found)
}

/// Whether a cell meets the conditions on the way, but not exactly one branch.
fn is_fault(way: &[Cond], branches: &[Conds], cell: &[&Value]) -> bool
    ensures { result ≡ is_fault way.now branches.now (values_of cell.now) }
{
    all_hold(way, cell) && met_by(branches, cell) != 1
}

/// How many branches a cell meets.
fn met_by(branches: &[Conds], cell: &[&Value]) -> usize
    ensures { result ≡ met_by branches.now (values_of cell.now) }
{
    let mut met = 0;
    for conds in branches {
        if all_hold(conds.as_slice(), cell) {
            met += 1;
        }
    }
    met
}

/// Whether all conditions hold of a cell.
fn all_hold(conds: &[Cond], cell: &[&Value]) -> bool
    ensures { result ≡ conds_hold conds.now (values_of cell.now) }
{
    conds.iter().all(|cond| holds(cond, cell))
}

fn holds(cond: &Cond, cell: &[&Value]) -> bool
    ensures { result ≡ cond_holds cond.now (values_of cell.now) }
{
    match cell.get(cond.col) {
        Some(value) => cond.cmp.compares(value, &cond.value),
        None => false,
    }
}

/// A faulty cell by its kind.
fn named(alloc: Global, branches: &[Conds], cell: &[&Value]) -> Result<Exactness, Memory>
    ensures { IfOk result (λ answer. answer ≡ (if met_by branches.now (values_of cell.now) == 0 then Exactness.Gap (values_of cell.now) else Exactness.Overlap (values_of cell.now))) }
{
    let row = row_of(alloc, cell)?;
    if met_by(branches, cell) == 0 {
        Ok(Exactness::Gap(row))
    } else {
        Ok(Exactness::Overlap(row))
    }
}

/// A row of these values.
fn row_of(alloc: Global, cell: &[&Value]) -> Result<Row, Memory>
    ensures { IfOk result (λ row. row ≡ values_of cell.now) }
{
    let mut values = Vec::new(alloc);
    for value in cell {
        values.push(value.copy()?)?;
    }
    Row::new(values)
}
