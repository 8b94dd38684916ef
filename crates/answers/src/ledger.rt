//! The steps that it takes to put tables together, counted one by one.

ghost use Rattle.std.specs.Prelude.{◌≡◌, ℤ, if◌then◌else◌, OnOk, Some};
ghost use Rattle.std.specs.BTreeMap.{get};
ghost use Rattle.std.specs.Ordering.{int_cmp, int_eq};
ghost use Rattle.terms.specs.Row.{key_of};
ghost use Rattle.answers.specs.Laid.{row_of};
ghost use Rattle.answers.specs.Ledger.{one_more};

use crate::joined::{Column, Joined, key_in};
use std::cmp::Ordering;
use std::collections::BTreeMap;
use terms::memory::Memory;

/// The number of steps taken: comparisons of two keys, and insertions into and look-ups in a map of keys to
/// places. Each is made by a call of its own, which adds one; a number that is full stays full.
#[derive(Debug, Drop)]
pub(crate) struct Ledger {
    pub(crate) steps: u64,
}

impl Ledger {
    /// No step was taken yet.
    pub(crate) fn new() -> Ledger
        ensures { result.steps ≡ 0 }
    {
        Ledger { steps: 0 }
    }

    /// How the keys of two rows compare, each over its columns.
    #[inline(always)]
    pub(crate) fn compared(
        &mut self,
        columns: &[Column],
        row: &Joined,
        others_columns: &[Column],
        other: &Joined,
    ) -> Ordering
        ensures order { result ≡ int_cmp (key_of (row_of columns.now row.now)) (key_of (row_of others_columns.now other.now)) }
        ensures step { self.new.steps ≡ one_more self.old.steps }
    {
        self.step();
        key_in(columns, row).cmp(&key_in(others_columns, other))
    }

    /// The key of a row over columns goes into a map, with the row's place.
    pub(crate) fn inserted(
        &mut self,
        places: &mut BTreeMap<i64, usize>,
        columns: &[Column],
        row: &Joined,
        place: usize,
    ) -> Result<(), Memory>
        ensures places { OnOk result ((key : ℤ) → get int_cmp places.new key ≡ (if int_eq (key_of (row_of columns.now row.now)) key then Some place else get int_cmp places.old key)) }
        ensures step { self.new.steps ≡ one_more self.old.steps }
    {
        self.step();
        places.insert(key_in(columns, row), place)?;
        Ok(())
    }

    /// The place of a key in a map.
    pub(crate) fn looked_up(&mut self, places: &BTreeMap<i64, usize>, key: &i64) -> Option<usize>
        ensures place { result ≡ get int_cmp places.now key.now }
        ensures step { self.new.steps ≡ one_more self.old.steps }
    {
        self.step();
        places.get(key).copied()
    }

    fn step(&mut self)
        ensures { self.new.steps ≡ one_more self.old.steps }
    {
        self.steps = self.steps.saturating_add(1);
    }
}
