//! Letters of a schedule are delivered.

ghost use Rattle.std.specs.Prelude.{◌≡◌, ◌<◌, ◌+◌, ◌^◌, ◌==◌, true, slice_set, drop, length, IfOk, IfSome, OnOk, string_bytes};
ghost use Rattle.std.specs.List.{list_any};
ghost use Rattle.std.specs.Option.{option_copied};
ghost use Rattle.databases.specs.Delivering.{Delivers, DeliversAll, DeliversAt, first_due_from};
ghost use Rattle.databases.specs.Schedule.{IsCounted, LeavesWorld, of_letter, refusal_text, stage_of, world_over};

use crate::schedule::{Schedule, refusal};
use lines::cast::Cast;
use std::alloc::Global;
use store::desk_store::DeskStore;
use store::letter::Letter;
use store::site_store::SiteStore;
use terms::memory::Memory;
use world::event::Event;
use world::fault::Fault;

/// How many letters are delivered at most by one line.
const MOST: usize = 1_000_000;

/// Whether a number is among these.
fn is_among(number: usize, numbers: &[usize]) -> bool
    ensures { result ≡ list_any (λ other. other == number) numbers.now }
{
    numbers.iter().any(|other| *other == number)
}

/// The place of the first letter from this one on that never came and is not among these numbers.
fn next_due(came: &[bool], from: usize, but: &[usize]) -> Option<usize>
    ensures due { result ≡ first_due_from from but.now (drop from came.now) }
    ensures within { IfSome result (λ place. place < length came.now) }
{
    for place in from..came.len() {
        if !came[place] && !is_among(place + 1, but) {
            return Some(place);
        }
    }
    None
}

/// The letter at this place has come, if there is one.
fn mark(came: &mut [bool], place: usize)
    ensures { came.new ≡ slice_set came.old place true }
{
    if place < came.len() {
        came[place] = true;
    }
}

/// What is told of a refused letter, by its number.
fn letter_refusal(
    alloc: Global,
    cast: &Cast,
    number: usize,
    letter: Option<&Letter>,
    fault: Fault,
) -> Result<String, Memory>
    ensures { IfOk result (λ text. string_bytes text ≡ refusal_text (of_letter cast.now number (option_copied letter.entry)) fault) }
{
    let missing = format!(in alloc; "no letter {number}")?;
    match letter {
        Some(letter) => {
            let client = cast.name(letter.txn);
            refusal(alloc, client, letter.site.as_str(), missing.as_str(), fault)
        }
        None => refusal(alloc, "", "", missing.as_str(), fault),
    }
}

impl<D: DeskStore, S: SiteStore> Schedule<D, S> {
    /// The letter of this number, counted from 1, is delivered.
    pub fn deliver(&mut self, alloc: Global, number: usize, kept: bool) -> Result<String, Memory>
        requires { IsCounted (stage_of self.old) }
        ensures delivers { IfOk result (λ text. Delivers number kept (stage_of self.old) (stage_of self.new) (string_bytes text)) }
        ensures leaves { LeavesWorld (world_over D.is_clean S.is_clean D.is_sound S.is_sound D.kept S.kept D.refused S.refused) self.old.world self.new.world }
    {
        if number == 0 {
            return Ok(String::from_str(alloc, "no letter 0\n")?);
        }
        self.deliver_at(alloc, number - 1, kept)
    }

    /// The letter at this place is delivered.
    fn deliver_at(&mut self, alloc: Global, place: usize, kept: bool) -> Result<String, Memory>
        requires counted { IsCounted (stage_of self.old) }
        requires within { place + 1 < 2 ^ 64 }
        ensures delivers { IfOk result (λ text. DeliversAt place kept (stage_of self.old) (stage_of self.new) (string_bytes text)) }
        ensures leaves { LeavesWorld (world_over D.is_clean S.is_clean D.is_sound S.is_sound D.kept S.kept D.refused S.refused) self.old.world self.new.world }
    {
        mark(self.came.as_mut_slice(), place);
        match self.step(Event::Deliver(place, kept)) {
            Ok(None) => self.told(alloc),
            Ok(Some(fault)) => {
                let letter = self.world.letter(place);
                letter_refusal(alloc, &self.cast, place + 1, letter, fault)
            }
            Err(error) => Err(error),
        }
    }

    /// Each letter that never came is delivered, but for these: the least number first, new ones too, until none
    /// is left or a million went.
    pub fn deliver_all(&mut self, alloc: Global, but: &[usize]) -> Result<String, Memory>
        requires { IsCounted (stage_of self.old) }
        ensures delivers { IfOk result (λ text. DeliversAll but.now (stage_of self.old) (stage_of self.new) (string_bytes text)) }
        ensures leaves { LeavesWorld (world_over D.is_clean S.is_clean D.is_sound S.is_sound D.kept S.kept D.refused S.refused) self.old.world self.new.world }
    {
        let mut text = String::new(alloc);
        let mut from = 0;
        for _ in 0..MOST {
            let Some(place) = next_due(self.came.as_slice(), from, but) else {
                return Ok(text);
            };
            let told = self.deliver_at(alloc, place, true)?;
            text.push_str(told.as_str())?;
            from = place + 1;
        }
        Ok(text)
    }
}
