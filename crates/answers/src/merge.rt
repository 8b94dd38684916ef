//! Rows of two lists by ascending keys, merged in one pass over both.

ghost use Rattle.std.specs.Prelude.{◌≡◌, ◌++◌, ◌+◌, ◌≤◌, ◌<◌, IfOk, OnOk, length, map};
ghost use Rattle.meaning.specs.Relation.{Ascends};
ghost use Rattle.answers.specs.Laid.{row_of};
ghost use Rattle.answers.specs.Merged.{merged_rows};

use crate::joined::{Column, Joined};
use crate::ledger::Ledger;
use std::alloc::Global;
use std::cmp::Ordering;
use terms::copy::TryCopy;
use terms::memory::Memory;

/// The rows of both by ascending keys; of two with one key that of the first.
pub(crate) fn merged(
    alloc: Global,
    ledger: &mut Ledger,
    columns: &[Column],
    rows: &[Joined],
    others: &[Joined],
) -> Result<Vec<Joined>, Memory>
    requires rows { Ascends (map (row_of columns.now) rows.now) }
    requires others { Ascends (map (row_of columns.now) others.now) }
    ensures rows { IfOk result (λ found. map (row_of columns.now) found.items ≡ merged_rows (map (row_of columns.now) rows.now) (map (row_of columns.now) others.now)) }
    // After each comparison one row more is done with.
    ensures most { OnOk result (ledger.new.steps ≤ ledger.old.steps + (length rows.now + length others.now)) }
    // Each row that is left out was compared with the one that has its key.
    ensures least { IfOk result (λ found. ledger.new.steps < 18446744073709551615 → ledger.old.steps + (length rows.now + length others.now) ≤ ledger.new.steps + length found.items) }
{
    let mut found = Vec::with_capacity(alloc, rows.len().saturating_add(others.len()))?;
    let (mut rest, mut rest_others) = (rows, others);
    while let (Some((row, later)), Some((other, later_others))) = (
        rest.split_first(),
        rest_others.split_first(),
    ) {
        match ledger.compared(columns, row, columns, other) {
            Ordering::Less => {
                found.push(row.copy()?)?;
                rest = later;
            }
            Ordering::Equal => {
                found.push(row.copy()?)?;
                rest = later;
                rest_others = later_others;
            }
            Ordering::Greater => {
                found.push(other.copy()?)?;
                rest_others = later_others;
            }
        }
    }
    put_rows(&mut found, rest)?;
    put_rows(&mut found, rest_others)?;
    Ok(found)
}

/// Puts copies of rows behind others.
fn put_rows(out: &mut Vec<Joined>, rows: &[Joined]) -> Result<(), Memory>
    ensures { OnOk result (out.new.items ≡ out.old.items ++ rows.now) }
{
    for row in rows {
        out.push(row.copy()?)?;
    }
    Ok(())
}
