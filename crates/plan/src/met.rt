//! Whether some row meets a leaf's conditions and others. It is told column by column, so no row is made.

ghost use Rattle.std.specs.Prelude.{◌≡◌, ◌++◌, ◌==◌, IfOk, flat_map, map};
ghost use Rattle.std.specs.List.{list_any};
ghost use Rattle.terms.specs.TestValues.{column_holds, constants, test_values, with_after};
ghost use Rattle.plan.specs.Picked.{can_be_met, is_free, place_of, put_on};

use crate::stated::Places;
use meaning::schema::Column;
use std::alloc::Global;
use terms::cond::Cond;
use terms::memory::Memory;
use terms::test_values::{after, column_holds, least};
use terms::value::{Kind, Value};

/// Whether some row of these types meets the conditions of a leaf, whose columns are on these places, and
/// the others.
pub(crate) fn some_row_meets(
    alloc: Global,
    kinds: &[Kind],
    places: Places,
    of_leaf: &[Cond],
    others: &[Cond],
) -> Result<bool, Memory>
    ensures { IfOk result (λ met. met ≡ can_be_met kinds.now (put_on places of_leaf.now ++ others.now)) }
{
    for col in 0..kinds.len() {
        if !some_value_meets(alloc, kinds[col], places, of_leaf, others, col)? {
            return Ok(false);
        }
    }
    Ok(true)
}

/// So of rows of a relation with these columns.
pub(crate) fn some_row_of_meets(
    alloc: Global,
    columns: &[Column],
    places: Places,
    of_leaf: &[Cond],
    others: &[Cond],
) -> Result<bool, Memory>
    ensures { IfOk result (λ met. met ≡ can_be_met (map (λ column. column.kind) columns.now) (put_on places of_leaf.now ++ others.now)) }
{
    for col in 0..columns.len() {
        if !some_value_meets(alloc, columns[col].kind, places, of_leaf, others, col)? {
            return Ok(false);
        }
    }
    Ok(true)
}

/// Whether some test value of a column meets the conditions on it. Where there is none, any value does.
fn some_value_meets(
    alloc: Global,
    kind: Kind,
    places: Places,
    of_leaf: &[Cond],
    others: &[Cond],
    col: usize,
) -> Result<bool, Memory>
    ensures { IfOk result (λ met. let conds = put_on places of_leaf.now ++ others.now in met ≡ list_any (column_holds conds col) (test_values kind (constants conds col))) }
{
    if is_free(places, of_leaf, others, col) {
        return Ok(true);
    }
    if other_constant_meets(alloc, places, of_leaf, others, col)? {
        return Ok(true);
    }
    let least = least(alloc, kind)?;
    if holds(places, of_leaf, others, col, &least) {
        return Ok(true);
    }
    own_constant_meets(alloc, places, of_leaf, others, col)
}

/// Whether no condition is on a column.
fn is_free(places: Places, of_leaf: &[Cond], others: &[Cond], col: usize) -> bool
    ensures { result ≡ is_free (put_on places of_leaf.now ++ others.now) col }
{
    own_is_free(places, of_leaf, col) && other_is_free(others, col)
}

/// Whether none of a leaf is.
fn own_is_free(places: Places, of_leaf: &[Cond], col: usize) -> bool
    ensures { result ≡ is_free (put_on places of_leaf.now) col }
{
    for cond in of_leaf {
        if stands_at(places, cond.col, col) {
            return false;
        }
    }
    true
}

/// Whether none of the others is.
fn other_is_free(others: &[Cond], col: usize) -> bool
    ensures { result ≡ is_free others.now col }
{
    others.iter().all(|cond| cond.col != col)
}

/// Whether the constants of a leaf's conditions on a column, or what follows them, meet the conditions on it.
fn own_constant_meets(
    alloc: Global,
    places: Places,
    of_leaf: &[Cond],
    others: &[Cond],
    col: usize,
) -> Result<bool, Memory>
    ensures { IfOk result (λ met. met ≡ list_any (column_holds (put_on places of_leaf.now ++ others.now) col) (flat_map with_after (constants (put_on places of_leaf.now) col))) }
{
    for cond in of_leaf {
        if stands_at(places, cond.col, col)
            && constant_meets(alloc, places, of_leaf, others, col, &cond.value)?
        {
            return Ok(true);
        }
    }
    Ok(false)
}

/// So those of the others.
fn other_constant_meets(
    alloc: Global,
    places: Places,
    of_leaf: &[Cond],
    others: &[Cond],
    col: usize,
) -> Result<bool, Memory>
    ensures { IfOk result (λ met. met ≡ list_any (column_holds (put_on places of_leaf.now ++ others.now) col) (flat_map with_after (constants others.now col))) }
{
    for cond in others {
        if cond.col == col && constant_meets(alloc, places, of_leaf, others, col, &cond.value)? {
            return Ok(true);
        }
    }
    Ok(false)
}

/// Whether a constant, or what follows it, meets the conditions on a column.
fn constant_meets(
    alloc: Global,
    places: Places,
    of_leaf: &[Cond],
    others: &[Cond],
    col: usize,
    constant: &Value,
) -> Result<bool, Memory>
    ensures { IfOk result (λ met. met ≡ list_any (column_holds (put_on places of_leaf.now ++ others.now) col) (with_after constant.now)) }
{
    if holds(places, of_leaf, others, col, constant) {
        return Ok(true);
    }
    match after(alloc, constant)? {
        Some(next) => Ok(holds(places, of_leaf, others, col, &next)),
        None => Ok(false),
    }
}

/// Whether a value meets all conditions on a column.
#[inline(always)]
fn holds(places: Places, of_leaf: &[Cond], others: &[Cond], col: usize, value: &Value) -> bool
    ensures { result ≡ column_holds (put_on places of_leaf.now ++ others.now) col value.now }
{
    own_holds(places, of_leaf, col, value) && column_holds(others, col, value)
}

/// Whether a value meets those of a leaf.
#[inline(always)]
fn own_holds(places: Places, of_leaf: &[Cond], col: usize, value: &Value) -> bool
    ensures { result ≡ column_holds (put_on places of_leaf.now) col value.now }
{
    for cond in of_leaf {
        if stands_at(places, cond.col, col) && !cond.cmp.compares(value, &cond.value) {
            return false;
        }
    }
    true
}

/// Whether a column of a leaf stands at this one of the rows that are tried.
#[inline(always)]
fn stands_at(places: Places, own: usize, col: usize) -> bool
    ensures { result ≡ (place_of places own == col) }
{
    if own == 0 {
        return places.key == col;
    }
    col >= places.past && col - places.past == own
}
