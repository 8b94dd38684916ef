//! Rows in the order of their numbers.

ghost use Rattle.std.specs.Prelude.{◌≡◌, ◌<◌, false, length, MatchOption};
ghost use Rattle.std.specs.Bool.{Decides};
ghost use Rattle.sqlite.specs.Order.{column};
ghost use Rattle.sqlite.specs.Tree.{rowid};
ghost use Rattle.sqlite.specs.Value.{owned};
ghost use Rattle.sqlite.specs.View.{is_int};
ghost use Rattle.sqlite.specs.declared.types.Value.TheVariants.{Int};
ghost use Rattle.sqlstore.specs.Numbered.{is_real, IsPlainRow, Follows, IsNumberedAt, AreNumbered};

use sqlite::Row;
use sqlite::types::ValueRef;

/// Whether two values are the same, and no real numbers.
fn same_value(one: ValueRef<'_>, other: ValueRef<'_>) -> bool
    ensures { Decides result ((owned one.entry ≡ owned other.entry) × (is_real (owned one.entry) ≡ false)) }
{
    match (one, other) {
        (ValueRef::Null, ValueRef::Null) => true,
        (ValueRef::Int(m), ValueRef::Int(n)) => m == n,
        (ValueRef::Text(s), ValueRef::Text(t)) => s == t,
        (ValueRef::Blob(s), ValueRef::Blob(t)) => s == t,
        _ => false,
    }
}

/// Whether two rows are the same, and have no real numbers.
fn same_row(one: &Row, other: &Row) -> bool
    ensures { Decides result ((one.now ≡ other.now) × IsPlainRow one.now) }
{
    let count = one.column_count();
    if count != other.column_count() {
        return false;
    }
    for at in 0..count {
        if !same_at(one, other, at) {
            return false;
        }
    }
    true
}

fn same_at(one: &Row, other: &Row, at: usize) -> bool
    requires one_has { at < length one.now }
    requires other_has { at < length other.now }
    ensures { Decides result ((column one.now at ≡ column other.now at) × (is_real (column one.now at) ≡ false)) }
{
    match (one.get_ref(at), other.get_ref(at)) {
        (Ok(value), Ok(beside)) => same_value(value, beside),
        _ => false,
    }
}

/// A row's number.
pub fn number(row: &Row) -> Option<i64>
    ensures { MatchOption result (is_int (rowid row.now) ≡ false) (λ number. rowid row.now ≡ Int number) }
{
    match row.get_ref(0) {
        Ok(ValueRef::Int(number)) => Some(number),
        _ => None,
    }
}

/// Whether two rows have numbers, and the second a greater one, or are the same.
pub fn follows(before: &Row, row: &Row) -> bool
    ensures { Decides result (Follows before.now row.now) }
{
    match (number(before), number(row)) {
        (Some(low), Some(high)) => low < high || same_row(before, row),
        _ => false,
    }
}

/// Whether the row at a place has a number, and follows the row before it.
fn is_numbered_at(rows: &[Row], at: usize) -> bool
    requires { at < length rows.now }
    ensures { Decides result (IsNumberedAt rows.now at) }
{
    if at == 0 {
        number(&rows[at]).is_some()
    } else {
        follows(&rows[at - 1], &rows[at])
    }
}

/// Whether each row has a number, and follows the row before it.
pub fn are_numbered(rows: &[Row]) -> bool
    ensures { Decides result (AreNumbered rows.now) }
{
    for at in 0..rows.len() {
        if !is_numbered_at(rows, at) {
            return false;
        }
    }
    true
}
