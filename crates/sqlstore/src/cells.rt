//! Cells of rows, read as what their columns hold.

ghost use Rattle.std.specs.Prelude.{◌≡◌, ◌≤ℤ◌, pos, true, MatchOption};
ghost use Rattle.sqlstore.specs.Cells.{text_at, int_at};
ghost use Rattle.sqlstore.specs.Content.{is_of};

use sqlite::Row;
use sqlite::types::ValueRef;
use store::name::Ticket;

/// The bytes of a text or a blob; nothing where the cell is another.
pub fn text_in(row: &Row, at: usize) -> &[u8]
    ensures { result.now ≡ text_at row.now at }
{
    match row.get_ref(at) {
        Ok(ValueRef::Text(bytes) | ValueRef::Blob(bytes)) => bytes,
        _ => &[],
    }
}

/// An integer; 0 where the cell is another.
pub fn int_in(row: &Row, at: usize) -> i64
    ensures { result ≡ int_at row.now at }
{
    match row.get_ref(at) {
        Ok(ValueRef::Int(number)) => number,
        _ => 0,
    }
}

/// An integer that isn't below zero.
pub fn natural_in(row: &Row, at: usize) -> Option<u64>
    ensures { MatchOption result (¬ (pos 0 ≤ℤ int_at row.now at)) (λ number. int_at row.now at ≡ pos number) }
{
    let number = int_in(row, at);
    if number >= 0 {
        Some(number as u64)
    } else {
        None
    }
}

/// A row's ticket, if its numbers aren't below zero.
pub fn ticket_in(row: &Row) -> Option<Ticket>
    ensures { MatchOption result (¬ ((pos 0 ≤ℤ int_at row.now 1) × (pos 0 ≤ℤ int_at row.now 2))) (λ ticket. is_of ticket row.now ≡ true) }
{
    Some(Ticket {
        life: natural_in(row, 1)?,
        visit: natural_in(row, 2)?,
    })
}
