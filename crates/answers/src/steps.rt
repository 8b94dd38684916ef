//! What each node of a plan makes of the tables below it.

ghost use Rattle.std.specs.Prelude.{◌≡◌, ◌⊎◌, ◌+◌, ◌<◌, ◌≤◌, [], IfOk, OnOk, filter, length, map};
ghost use Rattle.std.specs.List.{AllByRecursion};
ghost use Rattle.meaning.specs.Relation.{Ascends};
ghost use Rattle.plan.specs.Rows.{met};
ghost use Rattle.answers.specs.Evaluated as spec;
ghost use Rattle.answers.specs.Evaluated.{cut, filtered, keyed, partnered};
ghost use Rattle.answers.specs.Laid.{laid_meets, row_of};

use crate::joined::{Column, Joined, sources_of};
use crate::ledger::Ledger;
use crate::pairs::key_pairs;
use crate::partner::partner_pairs;
use crate::pick::{columns_beside, columns_cut, columns_from, columns_past, meets};
use crate::table::Table;
use plan::fetch::Fetch;
use std::alloc::Global;
use terms::cond::{Cond, Conds};
use terms::copy::TryCopy;
use terms::memory::Memory;
use terms::part::Part;
use terms::row::Row;
use terms::seq::Seq;

/// What a read leaves of the parts of its leaf.
pub(crate) fn table_read(alloc: Global, read: &Fetch, parts: &[Part]) -> Result<Table, Memory>
    requires { AllByRecursion (λ part. length part ≡ length read.now.columns) parts.now }
    ensures { IfOk result (λ table. table ≡ spec.table_read read.now parts.now) }
{
    let columns = columns_from(alloc, read.columns.as_slice())?;
    let rows = met(alloc, read.conds.as_slice(), parts)?;
    Ok(Table::new(columns, rows))
}

/// The parts that meet conditions on their places, as rows.
fn met(alloc: Global, conds: &[Cond], parts: &[Part]) -> Result<Vec<Joined>, Memory>
    ensures { IfOk result (λ found. map (λ row. row.first) found.items ≡ met conds.now parts.now) }
{
    let mut found = Vec::with_capacity(alloc, parts.len())?;
    for part in parts {
        if part.meets(conds) {
            found.push(Joined::alone(Row::of_part(part)?))?;
        }
    }
    Ok(found)
}

/// The rows that meet conditions on columns.
pub(crate) fn filtered(conds: &[Cond], table: Table) -> Table
    ensures { result ≡ filtered conds.now table }
{
    let Table { columns, rows } = table;
    let rows = meeting(conds, columns.as_slice(), rows.into_vec());
    Table {
        columns,
        rows: Seq::new(rows),
    }
}

/// Those of rows over these columns that meet conditions.
fn meeting(conds: &[Cond], columns: &[Column], rows: Vec<Joined>) -> Vec<Joined>
    ensures { result.items ≡ filter (laid_meets conds.now columns.now) rows.items }
{
    if conds.is_empty() {
        return rows;
    }
    let mut rows = rows;
    rows.retain(|row| meets(conds, columns, row));
    rows
}

/// The rows cut to the key and the wanted columns.
pub(crate) fn cut(wanted: &[usize], table: Table) -> Table
    ensures { result ≡ cut wanted.now table }
{
    let Table { columns, rows } = table;
    let columns = columns_cut(wanted, columns.into_vec());
    Table {
        columns: Seq::new(columns),
        rows,
    }
}

/// The rows of both tables that have one key, put together.
pub(crate) fn keyed(
    alloc: Global,
    ledger: &mut Ledger,
    one: Table,
    other: Table,
) -> Result<Table, Memory>
    requires one { Ascends one.rows }
    requires other { Ascends other.rows }
    ensures made { IfOk result (λ made. made ≡ keyed one other) }
    ensures most { OnOk result (ledger.new.steps ≤ ledger.old.steps + (length one.rows + length other.rows)) }
{
    let Table { columns, rows } = one;
    let Table {
        columns: others,
        rows: other_rows,
    } = other;
    let (columns, others) = (columns.as_slice(), others.as_slice());
    let count = sources_of(columns)?;
    let made = columns_beside(alloc, count, columns, others)?;
    let rows = key_pairs(
        alloc,
        ledger,
        count,
        columns,
        others,
        rows.into_vec(),
        other_rows.into_vec(),
    )?;
    Ok(Table::new(made, rows))
}

/// The rows of the left table that have a partner in the right one by the value in a column, each put
/// together with it; the columns of the right one are counted on from a width.
pub(crate) fn partnered(
    alloc: Global,
    ledger: &mut Ledger,
    col: usize,
    width: usize,
    left: Table,
    right: &Table,
) -> Result<Table, Memory>
    requires order { Ascends right.now.rows }
    requires within { (right.now.rows ≡ []) ⊎ AllByRecursion (λ col. width + col < 18446744073709551616) right.now.columns }
    ensures made { IfOk result (λ made. made ≡ partnered col width left right.now) }
    ensures most { OnOk result (ledger.new.steps ≤ ledger.old.steps + (length left.rows + length right.now.rows)) }
{
    let Table { columns, rows } = left;
    if right.rows.as_slice().is_empty() {
        return Ok(Table {
            columns,
            rows: Seq::new(Vec::new(alloc)),
        });
    }
    let columns = columns.as_slice();
    let count = sources_of(columns)?;
    let others = columns_past(alloc, width, right.columns.as_slice())?;
    let made = columns_beside(alloc, count, columns, others.as_slice())?;
    let rows = partner_pairs(
        alloc,
        ledger,
        col,
        count,
        columns,
        others.as_slice(),
        rows.into_vec(),
        right.rows.as_slice(),
    )?;
    Ok(Table::new(made, rows))
}
