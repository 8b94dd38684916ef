//! What becomes of an operation of a visit, and of a Prepare.

ghost use Rattle.store.specs.declared.fault.StoreFault.{StoreFault as StoreFaultName};
ghost use Rattle.std.specs.Prelude.{◌≡◌, ◌≢◌, ◌<◌, ◌==◌, ◌↔◌, suc, Some, None, Err, IfOk, IsTrue, length};
ghost use Rattle.site.specs.declared.fault.SiteFault.TheVariants as faults;
ghost use Rattle.site.specs.Locks.{place_in};
ghost use Rattle.site.specs.Refusals.{IsElsewhere};
ghost use Rattle.site.specs.State.{volatile_of};
ghost use Rattle.std.specs.Option.{option_copied};
ghost use Rattle.store.specs.Slot.{slot_of};
ghost use Rattle.protocol.specs.Letters.{leaf_of, at_key};
ghost use Rattle.protocol.specs.Local.{is_full};
ghost use Rattle.site.specs.Verdict.{ballot, read_verdict, write_verdict};

use crate::fault::SiteFault;
use crate::lock_table::LockTable;
use crate::locks::Locks;
use crate::tickets::{TicketState, Visit};
use crate::volatile::Volatile;
use store::changes::Changes;
use store::name::Ticket;
use store::order::Order;
use store::reply::{Reason, Vote};
use store::slot::Slot;
use terms::copy::TryCopy;
use terms::leaf::Leaf;
use terms::memory::Memory;
use terms::write::Write;

/// What becomes of an operation.
#[derive(Clone, Copy)]
pub(crate) enum Verdict {
    /// Nothing: its turn hasn't come, or has gone.
    Pass,
    /// There is no such visit.
    Gone,
    /// It is refused.
    Refuse(Reason),
    /// It is done.
    Go,
}

/// What becomes of an operation that reads the leaf of these locks.
fn read_verdict(ticket: &Ticket, op: u64, locks: &Locks, standing: Option<&TicketState>) -> Verdict
    ensures { result ≡ read_verdict ticket.now op locks.now (option_copied standing.entry) }
{
    let Some(standing) = standing else {
        return Verdict::Gone;
    };
    match standing {
        TicketState::Prepared(_) => Verdict::Pass,
        TicketState::Active(visit) => {
            if !is_next(visit, op) {
                Verdict::Pass
            } else if locks.others_write(ticket) {
                Verdict::Refuse(Reason::Lock)
            } else {
                Verdict::Go
            }
        }
    }
}

/// What becomes of an operation that writes the leaf of these locks.
fn write_verdict(
    ticket: &Ticket,
    op: u64,
    write: &Write,
    locks: &Locks,
    standing: Option<&TicketState>,
) -> Result<Verdict, Memory>
    ensures { IfOk result (λ turn. turn ≡ write_verdict ticket.now op (leaf_of write.now) (at_key write.now) locks.now (option_copied standing.entry)) }
{
    let Some(standing) = standing else {
        return Ok(Verdict::Pass);
    };
    match standing {
        TicketState::Prepared(_) => Ok(Verdict::Pass),
        TicketState::Active(visit) => {
            if !is_next(visit, op) {
                return Ok(Verdict::Pass);
            }
            if locks.is_foreign(ticket) {
                return Ok(Verdict::Refuse(Reason::Lock));
            }
            if is_full(&visit.changes, write)? {
                return Ok(Verdict::Refuse(Reason::Full));
            }
            Ok(Verdict::Go)
        }
    }
}

/// Whether this is the visit's next operation.
fn is_next(visit: &Visit, op: u64) -> bool
    ensures { result ≡ (op == suc visit.now.done) }
{
    op > 0 && op - 1 == visit.done
}

/// How many intentions a visit may have.
const INTENTIONS: usize = 65_536;

/// Whether the write would be one intention too many.
fn is_full(changes: &Changes, write: &Write) -> Result<bool, Memory>
    ensures { IfOk result (λ full. full ≡ is_full (leaf_of write.now) (at_key write.now) changes.now) }
{
    if changes.len() < INTENTIONS {
        return Ok(false);
    }
    let slot = slot_of(write)?;
    Ok(changes.get(&slot).is_none())
}

/// The slot of a write.
fn slot_of(write: &Write) -> Result<Slot, Memory>
    ensures { IfOk result (λ slot. slot ≡ slot_of (leaf_of write.now) (at_key write.now).0) }
{
    match write {
        Write::Put(leaf, part) => Ok(Slot {
            leaf: leaf.copy()?,
            key: part.key(),
        }),
        Write::Del(leaf, key) => Ok(Slot {
            leaf: leaf.copy()?,
            key: *key,
        }),
    }
}

/// The leaf of a write.
fn leaf_of(write: &Write) -> &Leaf
    ensures { result.now ≡ leaf_of write.now }
{
    match write {
        Write::Put(leaf, _) => leaf,
        Write::Del(leaf, _) => leaf,
    }
}

/// Whether an order is about a leaf that isn't one of these.
pub(crate) fn is_elsewhere(locks: &LockTable, order: &Order) -> bool
    ensures { IsTrue result ↔ IsElsewhere locks.now.items order.now }
{
    match order {
        Order::Fetch(fetch) => locks.place(&fetch.leaf).is_none(),
        Order::Intend(intention) => locks.place(leaf_of(&intention.write)).is_none(),
        _ => false,
    }
}

/// The place of the leaf that an operation reads, and what becomes of the operation.
pub(crate) fn verdict_to_read(
    volatile: &Volatile,
    ticket: &Ticket,
    op: u64,
    leaf: &Leaf,
) -> Result<(usize, Verdict), SiteFault>
    ensures within { result ≢ Err faults.Full }
    ensures place { IfOk result (λ found. place_in leaf.now volatile.now.locks.items ≡ Some found.0) }
    ensures below { IfOk result (λ found. found.0 < length volatile.now.locks.items) }
    ensures turn { IfOk result (λ found. found.1 ≡ read_verdict ticket.now op ((volatile_of volatile.now).locks leaf.now) ((volatile_of volatile.now).standing ticket.now)) }
    ensures stranger { place_in leaf.now volatile.now.locks.items ≡ None → result ≡ Err faults.Stranger }
    ensures own { result ≡ Err faults.Stranger → place_in leaf.now volatile.now.locks.items ≡ None }
    ensures store { (fault : StoreFaultName) → result ≢ Err (faults.Store fault) }
{
    let Some(place) = volatile.locks.place(leaf) else {
        return Err(SiteFault::Stranger);
    };
    let turn = read_verdict(
        ticket,
        op,
        volatile.locks.at(place),
        volatile.standing(ticket),
    );
    Ok((place, turn))
}

/// The place of the leaf that an operation writes, and what becomes of the operation.
pub(crate) fn verdict_to_write(
    volatile: &Volatile,
    ticket: &Ticket,
    op: u64,
    write: &Write,
) -> Result<(usize, Verdict), SiteFault>
    ensures within { result ≢ Err faults.Full }
    ensures place { IfOk result (λ found. place_in (leaf_of write.now) volatile.now.locks.items ≡ Some found.0) }
    ensures below { IfOk result (λ found. found.0 < length volatile.now.locks.items) }
    ensures turn { IfOk result (λ found. found.1 ≡ write_verdict ticket.now op (leaf_of write.now) (at_key write.now) ((volatile_of volatile.now).locks (leaf_of write.now)) ((volatile_of volatile.now).standing ticket.now)) }
    ensures stranger { place_in (leaf_of write.now) volatile.now.locks.items ≡ None → result ≡ Err faults.Stranger }
    ensures own { result ≡ Err faults.Stranger → place_in (leaf_of write.now) volatile.now.locks.items ≡ None }
    ensures store { (fault : StoreFaultName) → result ≢ Err (faults.Store fault) }
{
    let Some(place) = volatile.locks.place(leaf_of(write)) else {
        return Err(SiteFault::Stranger);
    };
    let turn = write_verdict(
        ticket,
        op,
        write,
        volatile.locks.at(place),
        volatile.standing(ticket),
    )?;
    Ok((place, turn))
}

/// What becomes of a prepare.
#[derive(Clone, Copy)]
pub(crate) enum Ballot {
    /// The vote, and nothing else.
    Stands(Vote),
    /// The vote, and the visit ends.
    Ends(Vote),
    /// The store is to keep what the visit intends.
    Keeps,
}

/// What becomes of a prepare that counts so many operations.
pub(crate) fn ballot_at(volatile: &Volatile, ticket: &Ticket, count: u64) -> Ballot
    ensures { result ≡ ballot count ((volatile_of volatile.now).standing ticket.now) }
{
    match volatile.standing(ticket) {
        Some(standing) => ballot_of(standing, count),
        None => Ballot::Stands(Vote::No),
    }
}

fn ballot_of(standing: &TicketState, count: u64) -> Ballot
    ensures { result ≡ ballot count (Some standing.now) }
{
    match standing {
        TicketState::Prepared(_) => Ballot::Stands(Vote::Yes),
        TicketState::Active(visit) => {
            if visit.done != count {
                Ballot::Ends(Vote::No)
            } else if visit.changes.is_empty() {
                Ballot::Ends(Vote::Read)
            } else {
                Ballot::Keeps
            }
        }
    }
}
