//! Scripts over a store that refuses one call after another.

use crate::desks::played as played_by_desk;
use crate::refusing::{Refuser, Refusing};
use crate::refusing_desk::RefusingDesk;
use crate::sites::{opening, played as played_by_site};
use crate::told::{Again, joined};
use std::alloc::Global;
use std::fmt::Write;
use store::desk_store::DeskStore;
use store::plain_desk::PlainDesk;
use store::site_store::SiteStore;
use terms::memory::Memory;

/// How many calls of a store are tried at most.
const CALLS_MOST: u64 = 100;

/// The machine that plays a script.
pub(crate) enum Machine {
    /// A site that has these parts.
    Site(&'static [&'static str]),
    /// A coordinator that keeps nothing yet.
    Desk,
}

/// A script, and what it comes to where a call of the store is refused.
pub(crate) struct Case {
    pub(crate) name: &'static str,
    pub(crate) machine: Machine,
    pub(crate) pieces: &'static [&'static str],
    /// The calls of the store in turn, each before the line that makes it.
    pub(crate) calls: &'static str,
    /// What is told where a prepared row or a commit row is not kept, from the line on that was to keep it.
    pub(crate) unkept: &'static [&'static str],
}

/// What a script came to.
#[derive(Drop)]
struct Outcome {
    told: String,
    refusals: u64,
    /// The call that was refused, or `none`.
    met: &'static str,
}

/// What a script comes to where the store refuses its call of this number; with 0, none. A refused call is made once
/// more where that is asked for.
fn play(
    alloc: Global,
    machine: &Machine,
    script: &str,
    number: u64,
    is_again: bool,
) -> Result<Outcome, Memory> {
    let refuser = Refuser::new(number);
    let again = Again {
        memory: false,
        store: is_again,
    };
    match machine {
        Machine::Site(parts) => {
            let store = opening(alloc, parts)?;
            let store = Refusing { store, refuser };
            let (told, store) = played_by_site(alloc, store, script, again)?;
            Ok(Outcome {
                told,
                refusals: store.refusals(),
                met: store.refuser.met(),
            })
        }
        Machine::Desk => {
            let store = PlainDesk::new(alloc);
            let store = RefusingDesk { store, refuser };
            let (told, store) = played_by_desk(alloc, store, script, again)?;
            Ok(Outcome {
                told,
                refusals: store.refusals(),
                met: store.refuser.met(),
            })
        }
    }
}

/// How a machine tells that a call was refused after which it is as it was.
fn refusal_of(machine: &Machine, call: &str) -> &'static str {
    match machine {
        Machine::Site(_) => "2 Store\n",
        Machine::Desk if call == "drop_commit" => "not kept\n",
        Machine::Desk => "refused 8 Store\n",
    }
}

/// How many lines two texts have alike before the first that differs.
fn alike(one: &str, other: &str) -> usize {
    let mut place = 0usize;
    let mut others = other.lines();
    for line in one.lines() {
        if others.next() != Some(line) {
            return place;
        }
        place = place.saturating_add(1);
    }
    place
}

/// So many lines of a text, and what stands behind them.
fn parted(text: &str, place: usize) -> (&str, &str) {
    let mut length = 0usize;
    for line in text.lines().take(place) {
        length = length.saturating_add(line.len()).saturating_add(1);
    }
    text.split_at_checked(length).unwrap_or((text, ""))
}

/// Whether a text is these three, one after another.
fn is_made_of(text: &str, head: &str, middle: &str, tail: &str) -> bool {
    match text.strip_prefix(head) {
        Some(rest) => rest
            .strip_prefix(middle)
            .is_some_and(|behind| behind == tail),
        None => false,
    }
}

/// Whether a script, whose store refuses its call of this number in the line before this place, comes to what it does
/// without that line, where the line isn't given once more.
fn is_as_without(
    alloc: Global,
    machine: &Machine,
    script: &str,
    number: u64,
    place: usize,
) -> Result<bool, Memory> {
    let (head, tail) = parted(script, place);
    let (before, _line) = parted(script, place.saturating_sub(1));
    let without = joined(alloc, &[before, tail])?;
    let other = play(alloc, machine, without.as_str(), 0, false)?;
    let (same, rest) = parted(other.told.as_str(), place.saturating_sub(1));
    let left = play(alloc, machine, script, number, false)?;
    let refusal = refusal_of(machine, left.met);
    Ok(same == before && is_made_of(left.told.as_str(), head, refusal, rest))
}

/// Whether a script, whose store refused its call of this number in the line before this place, came to what is to come
/// of it. A row that isn't kept leads elsewhere. After any other refusal all is as it was: the line does what it does
/// without the refusal where it is given once more, and nothing where it isn't. A machine that doesn't start does
/// nothing, so its first line is given once more in any case.
fn is_right(
    alloc: Global,
    case: &Case,
    script: &str,
    number: u64,
    place: usize,
    outcome: &Outcome,
) -> Result<bool, Memory> {
    let told = outcome.told.as_str();
    if outcome.met == "keep_prepared" || outcome.met == "keep_commit" {
        let (before, _line) = parted(script, place.saturating_sub(1));
        return Ok(
            case.unkept
                .iter()
                .any(|unkept| is_made_of(told, before, "", unkept)),
        );
    }
    let (head, tail) = parted(script, place);
    let refusal = refusal_of(&case.machine, outcome.met);
    Ok(
        is_made_of(told, head, refusal, tail)
            && (place < 2 || is_as_without(alloc, &case.machine, script, number, place)?),
    )
}

/// The calls of the store by a script, as far as the refusal of each comes to what it is to come to and is counted
/// once, each before the line that makes it. The last line is `none` where the script is then played without one.
fn refused_in_turn(alloc: Global, case: &Case) -> Result<String, Memory> {
    let text = joined(alloc, case.pieces)?;
    let script = text.as_str();
    let mut calls = String::new(alloc);
    for number in 1..CALLS_MOST {
        let outcome = play(alloc, &case.machine, script, number, true)?;
        if outcome.refusals == 0 && outcome.told.as_str() == script {
            calls.push_str("none\n")?;
            return Ok(calls);
        }
        let place = alike(script, outcome.told.as_str());
        if outcome.refusals != 1 || !is_right(alloc, case, script, number, place, &outcome)? {
            return Ok(calls);
        }
        let line = script.lines().nth(place.saturating_sub(1)).unwrap_or("");
        writeln!(calls, "{}: {line}", outcome.met)?;
    }
    Ok(calls)
}

/// Whether the calls of the store by a script are those of its table, and each refusal comes to what it is to come to.
pub(crate) fn holds(alloc: Global, case: &Case) -> bool {
    let calls = refused_in_turn(alloc, case).or_else(|_| refused_in_turn(alloc, case));
    calls.is_ok_and(|calls| calls.as_str() == case.calls)
}
