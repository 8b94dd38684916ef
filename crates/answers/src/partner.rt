//! The partners of rows by the values in a column, found by an ordered map from keys to places.

ghost use Rattle.std.specs.Prelude.{◌≡◌, [], ◌++◌, ◌+◌, ◌≤◌, ◌<◌, if◌then◌else◌, IfOk, OnOk, is_some, length, map, option_and_then, option_map};
ghost use Rattle.std.specs.BTreeMap.{get};
ghost use Rattle.std.specs.List.{AllByRecursion, cons_option, slice_get};
ghost use Rattle.std.specs.Option.{option_copied};
ghost use Rattle.std.specs.Ordering.{int_cmp};
ghost use Rattle.meaning.specs.Relation.{Ascends};
ghost use Rattle.answers.specs.Evaluated.{partner_pairs};
ghost use Rattle.answers.specs.Laid.{integer, laid_beside, numbers, padded, row_of, sources, value_of};
ghost use Rattle.answers.specs.Ledger.{HasPlaces};

use crate::joined::{Column, Joined, column_of};
use crate::ledger::Ledger;
use std::alloc::Global;
use std::collections::BTreeMap;
use terms::memory::Memory;
use terms::value::Value;

/// The rows, made of so many, that have a partner among the others by the value in a column, each put together with it.
pub(crate) fn partner_pairs(
    alloc: Global,
    ledger: &mut Ledger,
    col: usize,
    count: usize,
    columns: &[Column],
    others_columns: &[Column],
    rows: Vec<Joined>,
    others: &[Joined],
) -> Result<Vec<Joined>, Memory>
    requires some { 0 < count }
    requires within { AllByRecursion (λ column. column.source < count) columns.now }
    requires order { Ascends (map (row_of others_columns.now) others.now) }
    ensures rows { IfOk result (λ found. map (row_of (laid_beside count columns.now others_columns.now)) found.items ≡ partner_pairs col (numbers columns.now) (numbers others_columns.now) (map (row_of columns.now) rows.items) (map (row_of others_columns.now) others.now)) }
    ensures most { OnOk result (ledger.new.steps ≤ ledger.old.steps + (length rows.items + length others.now)) }
    // Each of the others went into the map, and each row that has a partner was looked up.
    ensures least { IfOk result (λ found. ledger.new.steps < 18446744073709551615 → ledger.old.steps + (length found.items + length others.now) ≤ ledger.new.steps) }
{
    let places = places_of(alloc, ledger, others_columns, others)?;
    let column = column_of(columns, col);
    let mut found = Vec::with_capacity(alloc, rows.len())?;
    for row in rows {
        let other = partner(ledger, &places, others, column, &row);
        put_found(&mut found, with_partner(alloc, count, row, other)?)?;
    }
    Ok(found)
}

/// A row, made of so many, put together with its partner; nothing where it has none.
fn with_partner(
    alloc: Global,
    count: usize,
    row: Joined,
    other: Option<&Joined>,
) -> Result<Option<Joined>, Memory>
    requires { 0 < count }
    ensures { IfOk result (λ both. option_map sources both ≡ option_map (λ partner. padded count (sources row) ++ sources partner) (option_copied other.entry)) }
{
    match other {
        Some(other) => Ok(Some(row.beside_copy(alloc, count, other)?)),
        None => Ok(None),
    }
}

/// Puts a row behind others, if there is one.
fn put_found(found: &mut Vec<Joined>, row: Option<Joined>) -> Result<(), Memory>
    ensures { OnOk result (found.new.items ≡ found.old.items ++ cons_option row []) }
{
    if let Some(row) = row {
        found.push(row)?;
    }
    Ok(())
}

/// The map from the keys of rows to their places.
fn places_of(
    alloc: Global,
    ledger: &mut Ledger,
    columns: &[Column],
    rows: &[Joined],
) -> Result<BTreeMap<i64, usize>, Memory>
    requires { Ascends (map (row_of columns.now) rows.now) }
    ensures places { IfOk result (λ places. HasPlaces places (map (row_of columns.now) rows.now)) }
    ensures most { OnOk result (ledger.new.steps ≤ ledger.old.steps + length rows.now) }
    ensures least { OnOk result (ledger.new.steps < 18446744073709551615 → ledger.old.steps + length rows.now ≤ ledger.new.steps) }
{
    let mut places = BTreeMap::new(alloc);
    for (place, row) in rows.iter().enumerate() {
        ledger.inserted(&mut places, columns, row, place)?;
    }
    Ok(places)
}

/// The one of the rows whose key is the value that another row has in a column; none for a text, and none without the column.
fn partner<'a>(
    ledger: &mut Ledger,
    places: &BTreeMap<i64, usize>,
    rows: &'a [Joined],
    column: Option<&Column>,
    row: &Joined,
) -> Option<&'a Joined>
    ensures row { option_copied result ≡ option_and_then (λ at. option_and_then (slice_get rows.now) (get int_cmp places.now at)) (integer (option_map (value_of row.now) (option_copied column.entry))) }
    ensures most { ledger.new.steps ≤ ledger.old.steps + 1 }
    ensures least { ledger.new.steps < 18446744073709551615 → ledger.old.steps + (if is_some result then 1 else 0) ≤ ledger.new.steps }
{
    match column {
        Some(column) => match row.value_at(column) {
            Some(Value::Int(key)) => with_key(ledger, places, rows, key),
            Some(_) => None,
            None => with_key(ledger, places, rows, &0),
        },
        None => None,
    }
}

/// The row of a key, by the map of the rows' keys.
fn with_key<'a>(
    ledger: &mut Ledger,
    places: &BTreeMap<i64, usize>,
    rows: &'a [Joined],
    key: &i64,
) -> Option<&'a Joined>
    ensures row { option_copied result ≡ option_and_then (slice_get rows.now) (get int_cmp places.now key.now) }
    ensures most { ledger.new.steps ≤ ledger.old.steps + 1 }
    ensures least { ledger.new.steps < 18446744073709551615 → ledger.old.steps + 1 ≤ ledger.new.steps }
{
    match ledger.looked_up(places, key) {
        Some(place) => rows.get(place),
        None => None,
    }
}
