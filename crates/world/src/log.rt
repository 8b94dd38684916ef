//! What has happened, entry by entry, and the way to each letter by its number.

ghost use Rattle.std.specs.Prelude.{◌≡◌, ◌≢◌, ◌++◌, ◌∷◌, [], ◌+◌, ◌-◌, ◌≤◌, ◌<◌, ◌^◌, true, List, OnOk, slice_get};
ghost use Rattle.std.specs.Option.{option_copied};
ghost use Rattle.world.specs.declared.event.Entry.{Entry as EntryNow};
ghost use Rattle.world.specs.Posted.{end_of, ends_from, letters_in};

use crate::event::Entry;
use std::alloc::Global;
use std::marker::Model;
use store::letter::Letter;
use terms::memory::Memory;

/// Entries, oldest first. Contracts see them, and whether there is room for one more.
#[derive(Debug, Drop)]
pub(crate) struct Log {
    entries: Vec<Entry>,
    /// How many letters were sent up to the end of each entry.
    ends: Vec<u128>,
}

impl Model for Log {
    ghost use Rattle.std.specs.Prelude.{◌≡◌, ◌&&◌, nat_lt};
    ghost use Rattle.std.specs.Vec.{vec_capacity, vec_len};
    ghost use Rattle.world.specs.Posted.{Logged, ends_from};

    ghost Value = { Logged };

    ghost view = { λ l. record { items = l.entries.items; has_room = nat_lt (vec_len l.entries) (vec_capacity l.entries) && nat_lt (vec_len l.ends) (vec_capacity l.ends) } };

    ghost invariant = { λ l. l.ends.items ≡ ends_from 0 l.entries.items };
}

/// The letter of this number among those of one entry.
fn letter_in<'a>(letters: &'a [Letter], number: u128) -> Option<&'a Letter>
    requires { number < 2 ^ 64 }
    ensures { option_copied result ≡ slice_get letters.now number }
{
    letters.get(number as usize)
}

/// The letter of this number among those of these entries. `before` letters were sent before them.
fn letter_among<'a>(
    entries: &'a [Entry],
    ends: &[u128],
    before: u128,
    number: u128,
) -> Option<&'a Letter>
    requires ends { ends.now ≡ ends_from before entries.now }
    requires after { before ≤ number }
    requires low { number < 2 ^ 64 }
    ensures { option_copied result ≡ slice_get (letters_in entries.now) (number - before) }
{
    let half = entries.len() / 2;
    if half == 0 {
        let entry = entries.first()?;
        return letter_in(entry.out.letters.as_slice(), number - before);
    }
    let (left, right) = entries.split_at(half);
    let (ends_left, ends_right) = ends.split_at(half);
    let end = last_of(ends_left, before);
    if number < end {
        letter_among(left, ends_left, before, number)
    } else {
        letter_among(right, ends_right, end, number)
    }
}

/// The last end, or else how many letters were sent before.
fn last_of(ends: &[u128], before: u128) -> u128
    ensures { (entries : List EntryNow) → ends.now ≡ ends_from before entries → result ≡ end_of before entries }
{
    match ends.last() {
        Some(end) => *end,
        None => before,
    }
}

impl Log {
    /// No entry.
    pub(crate) fn new(alloc: Global) -> Log
        ensures { result.items ≡ [] }
    {
        Log {
            entries: Vec::new(alloc),
            ends: Vec::new(alloc),
        }
    }

    /// Room for one more entry. The entries stay.
    pub(crate) fn make_room(&mut self) -> Result<(), Memory>
        ensures items { self.new.items ≡ self.old.items }
        ensures ok { OnOk result (self.new.has_room ≡ true) }
    {
        self.entries.try_reserve(1)?;
        self.ends.try_reserve(1)?;
        Ok(())
    }

    /// One more entry, for which there is room.
    pub(crate) fn push(&mut self, entry: Entry)
        requires { self.old.has_room ≡ true }
        ensures { self.new.items ≡ self.old.items ++ entry ∷ [] }
    {
        let sent = last_of(self.ends.as_slice(), 0);
        let end = sent.saturating_add(entry.out.letters.as_slice().len() as u128);
        self.entries.push_reserved(entry);
        self.ends.push_reserved(end);
    }

    /// The entries, oldest first.
    pub(crate) fn entries(&self) -> &[Entry]
        ensures { result.now ≡ self.now.items }
    {
        self.entries.as_slice()
    }

    /// The newest entry; there has to be one.
    pub(crate) fn newest(&self) -> &Entry
        requires { self.now.items ≢ [] }
        ensures { (past : List EntryNow) (entry : EntryNow) → self.now.items ≡ past ++ entry ∷ [] → result.now ≡ entry }
    {
        &self.entries[self.entries.len() - 1]
    }

    /// The letter of this number, counted from 0, if so many were sent.
    pub(crate) fn letter(&self, number: usize) -> Option<&Letter>
        ensures { option_copied result ≡ slice_get (letters_in self.now.items) number }
    {
        letter_among(
            self.entries.as_slice(),
            self.ends.as_slice(),
            0,
            number as u128,
        )
    }
}
