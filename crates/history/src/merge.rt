//! Rows of items that have numbers, put together by these.

ghost use Rattle.std.specs.Prelude.{◌≡◌, ℕ, Some, None, Err, drop, IfOk};
ghost use Rattle.std.specs.Option.{option_map};
ghost use Rattle.history.specs.Merge.{Breaks, IsMerged};
ghost use Rattle.history.specs.Picks.{IsLeastOf, act_of, acts_of, lower_of, rows_of};

use crate::entry::Entry;
use crate::told::Told;
use std::alloc::{AllocError, AllocFailed, Global};

/// An item that has a number.
pub trait Numbered {
    ghost number: { Self → ℕ };

    /// The item's number.
    fn number(&self) -> u64
        ensures { result ≡ number self.now };
}

impl Numbered for Entry {
    ghost number = { λ entry. entry.number };

    fn number(&self) -> u64 {
        self.number
    }
}

impl Numbered for Told {
    ghost number = { λ told. told.number };

    fn number(&self) -> u64 {
        self.number
    }
}

/// An item, and the place of the row from which it was taken.
pub struct Pick<'a, T> {
    pub cell: usize,
    pub item: &'a T,
}

impl<T> Clone for Pick<'_, T> {
    fn clone(&self) -> Result<Self, AllocError> {
        Ok(*self)
    }
}

impl<T> Copy for Pick<'_, T> {}

/// Why rows were not put together.
#[derive(Clone, Copy, Debug, PartialEq, Eq)]
pub enum Unmerged {
    /// Memory ran out.
    Memory,
    /// This number stands in a row after one that isn't below it, or in two rows.
    OutOfOrder(u64),
}

impl From<AllocError> for Unmerged {
    ghost use Rattle.std.specs.Prelude.{◌≡◌};
    ghost use Rattle.history.specs.declared.merge.Unmerged.TheVariants as why;

    ghost from_gives = { λ _ told. told ≡ why.Memory };

    fn from(_error: AllocError) -> Unmerged {
        Unmerged::Memory
    }
}

impl<T: Drop> From<AllocFailed<T>> for Unmerged {
    ghost use Rattle.std.specs.Prelude.{◌≡◌};
    ghost use Rattle.history.specs.declared.merge.Unmerged.TheVariants as why;

    ghost from_gives = { λ _ told. told ≡ why.Memory };

    fn from(_error: AllocFailed<T>) -> Unmerged {
        Unmerged::Memory
    }
}

/// The items of all rows, in the order of their numbers.
pub fn merge<'a, T: Numbered>(alloc: Global, rows: &[&'a [T]]) -> Result<Vec<Pick<'a, T>>, Unmerged>
    ensures ok { IfOk result (λ picks. IsMerged T.number (rows_of rows.now) (acts_of picks.items)) }
    ensures why { (k : ℕ) → result ≡ Err (Unmerged.OutOfOrder k) → Breaks T.number (rows_of rows.now) k }
{
    let mut rest = Vec::from_slice(alloc, rows)?;
    let mut picks = Vec::new(alloc);
    // One above the last number.
    let mut low: u128 = 0;
    while let Some(pick) = least(rest.as_slice()) {
        let number = pick.item.number();
        if u128::from(number) < low {
            return Err(Unmerged::OutOfOrder(number));
        }
        picks.push(pick)?;
        low = u128::from(number) + 1;
        let items = rest[pick.cell];
        rest[pick.cell] = behind_first(items);
    }
    Ok(picks)
}

/// The first item of a row that has the lowest number of all these; of equal ones that of the foremost row.
fn least<'a, T: Numbered>(rows: &[&'a [T]]) -> Option<Pick<'a, T>>
    ensures { IsLeastOf T.number (rows_of rows.now) (option_map act_of result) }
{
    let mut found = None;
    for (cell, items) in rows.iter().enumerate() {
        if let Some(item) = items.first() {
            found = Some(lower(found, Pick { cell, item }));
        }
    }
    found
}

/// The one of the lower number, or else the first.
fn lower<'a, T: Numbered>(found: Option<Pick<'a, T>>, other: Pick<'a, T>) -> Pick<'a, T>
    ensures { act_of result ≡ lower_of T.number (option_map act_of found.entry) (act_of other.entry) }
{
    match found {
        Some(one) => {
            if one.item.number() <= other.item.number() {
                one
            } else {
                other
            }
        }
        None => other,
    }
}

/// The items behind the first.
fn behind_first<T>(items: &[T]) -> &[T]
    ensures { result.now ≡ drop 1 items.now }
{
    match items.split_first() {
        Some((_, rest)) => rest,
        None => items,
    }
}
