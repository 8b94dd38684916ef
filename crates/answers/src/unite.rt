//! The rows of two tables together.

ghost use Rattle.std.specs.Prelude.{◌≡◌, ◌⊎◌, [], ◌+◌, ◌≤◌, IfOk, OnOk, length, map};
ghost use Rattle.meaning.specs.Relation.{Ascends};
ghost use Rattle.answers.specs.Evaluated as spec;
ghost use Rattle.answers.specs.Evaluated.{united};
ghost use Rattle.answers.specs.Laid.{row_of};

use crate::joined::{Column, Joined};
use crate::ledger::Ledger;
use crate::merge::merged;
use crate::pick::{are_same, columns_from, numbers, row_of};
use crate::table::Table;
use std::alloc::Global;
use terms::memory::Memory;
use terms::seq::Seq;

/// The table without rows.
pub(crate) fn no_rows(alloc: Global) -> Result<Table, Memory>
    ensures { IfOk result (λ table. table ≡ spec.no_rows) }
{
    let mut columns = Vec::new(alloc);
    columns.push(Column {
        number: 0,
        source: 0,
        place: 0,
    })?;
    Ok(Table::new(columns, Vec::new(alloc)))
}

/// The rows of both tables, which have one list of columns unless one of them has no row.
pub(crate) fn united(
    alloc: Global,
    ledger: &mut Ledger,
    one: Table,
    other: Table,
) -> Result<Table, Memory>
    requires one { Ascends one.rows }
    requires other { Ascends other.rows }
    requires columns { (one.rows ≡ []) ⊎ ((other.rows ≡ []) ⊎ (one.columns ≡ other.columns)) }
    ensures made { IfOk result (λ made. made ≡ united one other) }
    ensures most { OnOk result (ledger.new.steps ≤ ledger.old.steps + (length one.rows + length other.rows)) }
{
    if one.rows.as_slice().is_empty() {
        return Ok(other);
    }
    if other.rows.as_slice().is_empty() {
        return Ok(one);
    }
    let (columns, others) = (one.columns.as_slice(), other.columns.as_slice());
    if are_same(columns, others) {
        let rows = merged(
            alloc,
            ledger,
            columns,
            one.rows.as_slice(),
            other.rows.as_slice(),
        )?;
        return Ok(Table {
            columns: one.columns,
            rows: Seq::new(rows),
        });
    }
    let rows = alone(alloc, columns, one.rows.as_slice())?;
    let other_rows = alone(alloc, others, other.rows.as_slice())?;
    let columns = columns_from(alloc, numbers(alloc, columns)?.as_slice())?;
    let rows = merged(
        alloc,
        ledger,
        columns.as_slice(),
        rows.as_slice(),
        other_rows.as_slice(),
    )?;
    Ok(Table::new(columns, rows))
}

/// The rows over columns, each as one alone.
fn alone(alloc: Global, columns: &[Column], rows: &[Joined]) -> Result<Vec<Joined>, Memory>
    ensures { IfOk result (λ found. map (λ row. row.first) found.items ≡ map (row_of columns.now) rows.now) }
{
    let mut found = Vec::with_capacity(alloc, rows.len())?;
    for row in rows {
        found.push(Joined::alone(row_of(alloc, columns, row)?))?;
    }
    Ok(found)
}
