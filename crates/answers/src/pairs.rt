//! Rows of two lists that have one key, found in one pass over both.

ghost use Rattle.std.specs.Prelude.{◌≡◌, ◌+◌, ◌≤◌, ◌<◌, IfOk, OnOk, length, map};
ghost use Rattle.std.specs.List.{AllByRecursion};
ghost use Rattle.meaning.specs.Relation.{Ascends};
ghost use Rattle.answers.specs.Evaluated.{key_pairs};
ghost use Rattle.answers.specs.Laid.{laid_beside, numbers, row_of};

use crate::joined::{Column, Joined};
use crate::ledger::Ledger;
use std::alloc::Global;
use std::cmp::Ordering;
use terms::memory::Memory;

/// The rows, made of so many, that have one of the same key among the others, each put together with it.
pub(crate) fn key_pairs(
    alloc: Global,
    ledger: &mut Ledger,
    count: usize,
    columns: &[Column],
    others_columns: &[Column],
    rows: Vec<Joined>,
    others: Vec<Joined>,
) -> Result<Vec<Joined>, Memory>
    requires some { 0 < count }
    requires within { AllByRecursion (λ column. column.source < count) columns.now }
    requires rows { Ascends (map (row_of columns.now) rows.items) }
    requires others { Ascends (map (row_of others_columns.now) others.items) }
    ensures rows { IfOk result (λ found. map (row_of (laid_beside count columns.now others_columns.now)) found.items ≡ key_pairs (numbers columns.now) (numbers others_columns.now) (map (row_of columns.now) rows.items) (map (row_of others_columns.now) others.items)) }
    ensures most { OnOk result (ledger.new.steps ≤ ledger.old.steps + (length rows.items + length others.items)) }
    // The rows of each pair were compared.
    ensures least { IfOk result (λ found. ledger.new.steps < 18446744073709551615 → ledger.old.steps + length found.items ≤ ledger.new.steps) }
{
    let mut found = Vec::with_capacity(alloc, rows.len().min(others.len()))?;
    let (mut rest, mut rest_others) = (rows.into_iter(), others.into_iter());
    let (mut first, mut first_other) = (rest.next(), rest_others.next());
    while let (Some(row), Some(other)) = (first, first_other) {
        match ledger.compared(columns, &row, others_columns, &other) {
            Ordering::Less => {
                first = rest.next();
                first_other = Some(other);
            }
            Ordering::Equal => {
                found.push(row.beside(alloc, count, other)?)?;
                first = rest.next();
                first_other = rest_others.next();
            }
            Ordering::Greater => {
                first = Some(row);
                first_other = rest_others.next();
            }
        }
    }
    Ok(found)
}
