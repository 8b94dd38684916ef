//! What happened to a world in acts that were put together, each letter found among those put out before.

ghost use Rattle.std.specs.Prelude.{◌≡◌, ◌++◌, ℕ, [], Some, Err, IfOk, MatchOption, OnOk, slice_get};
ghost use Rattle.std.specs.Bool.{Decides};
ghost use Rattle.world.specs.Machines.{is_order};
ghost use Rattle.history.specs.Brought.{HaveHappened, IsBroughtAt, IsFor, IsNotBrought, desk_event, event_of, happened_by, out_of, site_event};
ghost use Rattle.history.specs.Picks.{acts_of};

use crate::entry::{Entry, Input};
use crate::merge::Pick;
use crate::sent::Sent;
use desk::reply::Out;
use std::alloc::Global;
use store::letter::{Body, Letter};
use terms::copy::TryCopy;
use terms::memory::Memory;
use terms::same::Same;
use terms::text::Text;
use world::event::{self, Event};

/// Why acts are not what happened to a world.
#[derive(Clone, Copy, Debug, PartialEq, Eq)]
pub enum Unbrought {
    /// Memory ran out.
    Memory,
    /// The act of this number took a letter that no act before it had put out, or that is for another machine.
    NotBrought(u64),
}

impl From<Memory> for Unbrought {
    ghost use Rattle.std.specs.Prelude.{◌≡◌};
    ghost use Rattle.history.specs.declared.brought.Unbrought.TheVariants as why;

    ghost from_gives = { λ _ told. told ≡ why.Memory };

    fn from(_error: Memory) -> Unbrought {
        Unbrought::Memory
    }
}

/// What happened to a world in these acts, over the machines of a coordinator and of these sites.
pub fn happened(
    alloc: Global,
    sites: &[Text],
    acts: &[Pick<'_, Entry>],
) -> Result<Vec<event::Entry>, Unbrought>
    ensures ok { IfOk result (λ happened. HaveHappened sites.now [] (acts_of acts.now) happened.items) }
    ensures why { (k : ℕ) → result ≡ Err (Unbrought.NotBrought k) → IsNotBrought sites.now [] (acts_of acts.now) k }
{
    let mut happened = Vec::new(alloc);
    let mut sent = Sent::new(alloc);
    for act in acts {
        let entry = act.item;
        let Some(place) = place_for(sites, &sent, act.cell, &entry.input) else {
            return Err(Unbrought::NotBrought(entry.number));
        };
        add(&mut happened, sites, place, act.cell, entry)?;
        sent = sent.with_all(entry.letters.as_slice())?;
    }
    Ok(happened)
}

/// The number of the letter that a cell took, among those that were sent; another input needs none.
fn place_for(sites: &[Text], sent: &Sent<'_>, cell: usize, input: &Input) -> Option<usize>
    ensures { MatchOption result ((n : ℕ) → IsBroughtAt sites.now sent.now n cell input.now → ⊥) (λ n. IsBroughtAt sites.now sent.now n cell input.now) }
{
    match input {
        Input::Take(letter) if is_for(sites, cell, letter) => sent.find(letter),
        Input::Take(_) => None,
        _ => Some(0),
    }
}

/// Whether a letter is for a cell.
fn is_for(sites: &[Text], cell: usize, letter: &Letter) -> bool
    ensures { Decides result (IsFor sites.now cell letter.now) }
{
    match cell.checked_sub(1) {
        None => !is_order(&letter.body) && sites.contains(&letter.site),
        Some(place) => is_order(&letter.body) && is_at(sites, place, &letter.site),
    }
}

/// Whether a letter's body is an order, which is for a site.
fn is_order(body: &Body) -> bool
    ensures { result ≡ is_order body.now }
{
    matches!(body, Body::Order(_))
}

/// Whether the site at a place has this name.
fn is_at(sites: &[Text], place: usize, name: &Text) -> bool
    ensures { Decides result (slice_get sites.now place ≡ Some name.now) }
{
    match sites.get(place) {
        Some(site) => site.same(name),
        None => false,
    }
}

/// Adds what happened to the world by an entry, if something did.
fn add(
    happened: &mut Vec<event::Entry>,
    sites: &[Text],
    place: usize,
    cell: usize,
    entry: &Entry,
) -> Result<(), Memory>
    ensures { OnOk result (happened.new.items ≡ happened.old.items ++ happened_by entry.now.fault sites.now place cell entry.now) }
{
    if entry.fault.is_some() {
        return Ok(());
    }
    if let Some(event) = event_of(sites, place, cell, &entry.input, entry.kept)? {
        let out = out_of(entry)?;
        happened.push(event::Entry { event, out })?;
    }
    Ok(())
}

/// What happens to the world where the machine of a cell is called for this.
fn event_of(
    sites: &[Text],
    place: usize,
    cell: usize,
    input: &Input,
    kept: bool,
) -> Result<Option<Event>, Memory>
    ensures { IfOk result (λ event. event ≡ event_of sites.now place cell input.now kept) }
{
    match cell.checked_sub(1) {
        None => desk_event(place, input, kept),
        Some(at) => match sites.get(at) {
            Some(name) => site_event(name, place, input, kept),
            None => Ok(None),
        },
    }
}

/// What happens to the world where the coordinator is called for this.
fn desk_event(place: usize, input: &Input, kept: bool) -> Result<Option<Event>, Memory>
    ensures { IfOk result (λ event. event ≡ desk_event place input.now kept) }
{
    match input {
        Input::Call(call) => Ok(Some(Event::Call(call.copy()?))),
        Input::Take(_) => Ok(Some(Event::Deliver(place, kept))),
        Input::GiveUp(_) | Input::Inquire => Ok(None),
        Input::Restart => Ok(Some(Event::DeskRestarts(true))),
    }
}

/// What happens to the world where the site of this name is called for this.
fn site_event(name: &Text, place: usize, input: &Input, kept: bool) -> Result<Option<Event>, Memory>
    ensures { IfOk result (λ event. event ≡ site_event name.now place input.now kept) }
{
    match input {
        Input::Call(_) => Ok(None),
        Input::Take(_) => Ok(Some(Event::Deliver(place, kept))),
        Input::GiveUp(ticket) => Ok(Some(Event::SiteGivesUp(name.copy()?, *ticket))),
        Input::Inquire => Ok(Some(Event::SiteInquires(name.copy()?))),
        Input::Restart => Ok(Some(Event::SiteRestarts(name.copy()?, true))),
    }
}

/// What an entry put out.
fn out_of(entry: &Entry) -> Result<Out, Memory>
    ensures { IfOk result (λ out. out ≡ out_of entry.now) }
{
    Ok(Out {
        letters: entry.letters.copy()?,
        replies: entry.replies.copy()?,
        kept: entry.kept,
    })
}
