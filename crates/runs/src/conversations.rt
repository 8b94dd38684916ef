//! Sessions at once, each in a thread of its own.

ghost use Rattle.std.specs.Prelude.{◌≡◌, [], true, IfOk, Ok, map};
ghost use Rattle.runs.specs.Conversation.{FailsByEnd, is_end};
ghost use Rattle.runs.specs.Conversations.{AreHeld, AreOfParts, IsHeld};
ghost use Rattle.lines.specs.RunScript.{part_of};

use crate::conversation::{Conversation, Manner, converse, is_end as ends};
use crate::progress::Watches;
use lines::run_script::Part;
use std::alloc::{AllocError, Global};
use std::sync::Wait;
use std::thread;
use std::thread::Threads;
use std::time::Clock;
use store::desk_store::DeskStore;
use store::site_store::SiteStore;
use terms::memory::Memory;
use wire::database::Database;
use wire::fault::CallFault;
use wire::gate::Gate;
use wire::session::Session;

/// A session that has said nothing, and its part of the script.
#[derive(Drop)]
struct Seat<'s, 'p, 't, D: DeskStore, G> {
    session: Session<'s, D, G>,
    part: &'p Part<'t>,
    ghost silent: { session.told ≡ [] },
}

/// The conversations of all sessions, in the order of the parts, which were held at the same time.
pub fn converse_at_once<R, S, D, G, P>(
    rt: &R,
    alloc: Global,
    manner: &Manner<'_, P>,
    database: &Database<S, D, G>,
    parts: &[Part<'_>],
) -> Result<Vec<Conversation>, CallFault>
where
    R: Threads + Wait + Clock + Sync,
    S: SiteStore + Send + Drop + 'static,
    D: DeskStore + Send + Drop + 'static,
    G: Gate + Send + Sync + Drop + 'static,
    P: Watches + Sync,
    ensures ok { IfOk result (λ held. AreOfParts (map part_of parts.now) held.items) }
    ensures end { FailsByEnd result }
{
    let seats = seats(rt, alloc, database, parts)?;
    let held = take_seats(rt, alloc, manner, seats)?;
    all_of(alloc, held)
}

/// The conversations that are held at these seats at the same time.
fn take_seats<'s, 'p, 't, R, D, G, P>(
    rt: &R,
    alloc: Global,
    manner: &Manner<'_, P>,
    seats: Vec<Seat<'s, 'p, 't, D, G>>,
) -> Result<Vec<Result<Conversation, CallFault>>, AllocError>
where
    R: Threads + Wait + Clock + Sync,
    D: DeskStore + Send + Drop + 'static,
    G: Gate + Send + Sync + Drop + 'static,
    P: Watches + Sync,
    ensures { IfOk result (λ held. AreHeld (map (λ seat. part_of seat.part.now) seats.entry.items) held.items) }
{
    let hold = |seat: Seat<'_, '_, '_, D, G>| -> Result<Conversation, CallFault>
        ensures { IsHeld (part_of seat.entry.part.now) result }
    { take_seat(rt, alloc, manner, seat) };
    thread::map_vec(rt, seats, &hold)
}

/// A seat for each part.
fn seats<'s, 'p, 't, R, S, D, G>(
    rt: &R,
    alloc: Global,
    database: &'s Database<S, D, G>,
    parts: &'p [Part<'t>],
) -> Result<Vec<Seat<'s, 'p, 't, D, G>>, Memory>
where
    R: Threads + Wait,
    S: SiteStore + Send + Drop + 'static,
    D: DeskStore + Send + Drop + 'static,
    G: Gate + Send + Sync + Drop + 'static,
    ensures { IfOk result (λ seats. map (λ seat. part_of seat.part.now) seats.items ≡ map part_of parts.entry.now) }
{
    let mut seats = Vec::new(alloc);
    for part in parts {
        let session = database.session(rt)?;
        seats.push(Seat { session, part })?;
    }
    Ok(seats)
}

/// The conversation that is held at a seat.
fn take_seat<R: Wait + Clock, D: DeskStore, G, P: Watches>(
    rt: &R,
    alloc: Global,
    manner: &Manner<'_, P>,
    seat: Seat<'_, '_, '_, D, G>,
) -> Result<Conversation, CallFault>
    ensures { IsHeld (part_of seat.entry.part.now) result }
{
    let Seat { session, part } = seat;
    converse(rt, alloc, manner, session, part)
}

/// All conversations, unless one was ended by a fault: then the first such fault.
fn all_of(
    alloc: Global,
    held: Vec<Result<Conversation, CallFault>>,
) -> Result<Vec<Conversation>, CallFault>
    ensures ok { IfOk result (λ all. held.items ≡ map Ok all.items) }
    ensures end { FailsByEnd result }
{
    let mut all = Vec::new(alloc);
    for one in held {
        match one {
            Ok(conversation) => all.push(conversation)?,
            Err(fault) => return Err(ended_by(fault)),
        }
    }
    Ok(all)
}

/// The fault that ended a conversation. Any other, which none has, is told as a machine's that can't be had any more.
fn ended_by(fault: CallFault) -> CallFault
    ensures end { is_end result ≡ true }
    ensures same { is_end fault ≡ true → result ≡ fault }
{
    if ends(&fault) {
        fault
    } else {
        CallFault::Closed
    }
}
