//! What clients were told, and whether it stands in the coordinator's history.

ghost use Rattle.std.specs.Prelude.{◌≡◌, ◌<◌, ℕ, Err, IfOk, OnOk};
ghost use Rattle.std.specs.List.{AllPairs};
ghost use Rattle.std.specs.Bool.{Decides};
ghost use Rattle.history.specs.Picks.{acts_of, rows_of};
ghost use Rattle.history.specs.Standing.{AreUnder, IsAmong, IsFoundIn, IsHeardIn, known_call, told_under};
ghost use Rattle.history.specs.Told.{AllStand, IsNotTold};

use crate::asked::is_asked_for;
use crate::entry::Entry;
use crate::last_calls::note;
use crate::merge::{Pick, Unmerged, merge};
use desk::reply::{Notice, Reply};
use meaning::schema::Schema;
use std::alloc::Global;
use std::collections::BTreeMap;
use store::name::Txn;
use terms::memory::Memory;
use terms::same::Same;
use terms::text::Text;
use world::event::Call;

/// A reply that a client was given, with the text that asked for it.
#[derive(Debug, Drop)]
pub struct Told {
    /// The number of the coordinator's entry that put the reply out.
    pub number: u64,
    pub text: Text,
    pub reply: Reply,
}

/// Why what clients were told is not found in the coordinator's history.
#[derive(Clone, Copy, Debug, PartialEq, Eq)]
pub enum NotStanding {
    /// Memory ran out.
    Memory,
    /// What was told under this number doesn't stand there, or the number is out of order.
    NotTold(u64),
}

impl From<Unmerged> for NotStanding {
    ghost use Rattle.std.specs.Prelude.{◌≡◌};
    ghost use Rattle.history.specs.Standing.{untold};

    ghost from_gives = { λ why told. told ≡ untold why };

    fn from(why: Unmerged) -> NotStanding {
        match why {
            Unmerged::Memory => NotStanding::Memory,
            Unmerged::OutOfOrder(number) => NotStanding::NotTold(number),
        }
    }
}

impl From<Memory> for NotStanding {
    ghost use Rattle.std.specs.Prelude.{◌≡◌};
    ghost use Rattle.history.specs.declared.told.NotStanding.TheVariants as why;

    ghost from_gives = { λ _ told. told ≡ why.Memory };

    fn from(_error: Memory) -> NotStanding {
        NotStanding::Memory
    }
}

/// Checks that what clients were told stands in the coordinator's history, list by list.
pub fn stand(
    alloc: Global,
    schema: &Schema,
    entries: &[Entry],
    lists: &[&[Told]],
) -> Result<(), NotStanding>
    ensures ok { OnOk result (AllStand schema.now.relations entries.now (rows_of lists.now)) }
    ensures why { (k : ℕ) → result ≡ Err (NotStanding.NotTold k) → IsNotTold schema.now.relations entries.now (rows_of lists.now) k }
{
    let picks = merge(alloc, lists)?;
    let mut waiting = by_number(alloc, picks.as_slice())?;
    let mut last = BTreeMap::new(alloc);
    for entry in entries {
        note(&mut last, entry)?;
        if stands_in(alloc, schema, &last, &waiting, entry)? {
            waiting.remove(&entry.number);
        }
    }
    match waiting.first_key_value() {
        Some((number, _)) => Err(NotStanding::NotTold(*number)),
        None => Ok(()),
    }
}

/// What was told, by its numbers.
fn by_number<'a>(alloc: Global, picks: &[Pick<'a, Told>]) -> Result<BTreeMap<u64, &'a Told>, Memory>
    requires { AllPairs (λ one other. one.entry.number < other.entry.number) (acts_of picks.now) }
    ensures { IfOk result (λ waiting. AreUnder (told_under waiting) (acts_of picks.now)) }
{
    let mut waiting = BTreeMap::new(alloc);
    for pick in picks {
        waiting.insert(pick.item.number, pick.item)?;
    }
    Ok(waiting)
}

/// Whether what was told under an entry's number stands in this entry, after these last calls.
fn stands_in(
    alloc: Global,
    schema: &Schema,
    last: &BTreeMap<Txn, &Call>,
    waiting: &BTreeMap<u64, &Told>,
    entry: &Entry,
) -> Result<bool, Memory>
    ensures { IfOk result (λ stands. Decides stands (IsFoundIn schema.now.relations (known_call last.now) (told_under waiting.now) entry.now)) }
{
    match waiting.get(&entry.number) {
        Some(told) => is_among(alloc, schema, last, told, entry.replies.as_slice()),
        None => Ok(false),
    }
}

/// Whether what was told is one of these replies, to a call that its text asks for.
fn is_among(
    alloc: Global,
    schema: &Schema,
    last: &BTreeMap<Txn, &Call>,
    told: &Told,
    notices: &[Notice],
) -> Result<bool, Memory>
    ensures { IfOk result (λ among. Decides among (IsAmong schema.now.relations (known_call last.now) told.now notices.now)) }
{
    for notice in notices {
        if is_heard_in(alloc, schema, last, told, notice)? {
            return Ok(true);
        }
    }
    Ok(false)
}

/// Whether what was told is this reply, to a call that its text asks for.
fn is_heard_in(
    alloc: Global,
    schema: &Schema,
    last: &BTreeMap<Txn, &Call>,
    told: &Told,
    notice: &Notice,
) -> Result<bool, Memory>
    ensures { IfOk result (λ heard. Decides heard (IsHeardIn schema.now.relations (known_call last.now) told.now notice.now)) }
{
    if !notice.reply.same(&told.reply) {
        return Ok(false);
    }
    match last.get(&notice.txn) {
        Some(call) => is_asked_for(alloc, schema, &told.text, call),
        None => Ok(false),
    }
}
