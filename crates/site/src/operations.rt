//! Visits begin, read, and intend writes.

ghost use Rattle.store.specs.declared.fault.StoreFault.{StoreFault as StoreFaultName};
ghost use Rattle.std.specs.Prelude.{◌≡◌, ◌≢◌, Err, None, Some, IfOk, ◌↔◌, ◌≤◌, ◌^◌, ◌⊎◌, ◌+◌, true};
ghost use Rattle.store.specs.SiteContent.{SiteContent, IsUnchanged};
ghost use Rattle.store.specs.declared.reply.Reply.TheVariants as replies;
ghost use Rattle.protocol.specs.Site.{Opens, on_write, on_fetch};
ghost use Rattle.site.specs.declared.fault.SiteFault.TheVariants as faults;
ghost use Rattle.protocol.specs.Letters.{name_of, leaf_of, at_key};
ghost use Rattle.site.specs.Locks.{place_in};
ghost use Rattle.site.specs.Refusals.{IsBeyond, CallsStore};
ghost use Rattle.store.specs.declared.order.Order.TheVariants as orders;
ghost use Rattle.site.specs.Frame.{ChangesVolatile, ChangesOrFails, StepsBy};
ghost use Rattle.site.specs.State.{Fits, Steps, state_of, volatile_of};
ghost use Rattle.site.specs.Verdict.{write_verdict, read_verdict};
ghost use Rattle.site.specs.declared.verdict.Verdict.TheVariants.{Go};

use crate::fault::SiteFault;
use crate::read_leaf::rows;
use crate::verdict::{Verdict, verdict_to_read, verdict_to_write};
use crate::volatile::{LAST, Volatile};
use store::fault::StoreFault;
use store::name::Ticket;
use store::order::{Fetch, Intention};
use store::reply::{Reason, Refusal, Reply, Rows};
use store::site_store::SiteStore;
use terms::seq::Seq;

/// Begins a visit.
pub(crate) fn open(volatile: &mut Volatile) -> Result<Option<Reply>, SiteFault>
    ensures own { result ≢ Err faults.Stranger }
    ensures beyond { (1024 ≤ volatile.old.active) ⊎ (2 ^ 63 ≤ volatile.old.number + 1) → result ≡ Err faults.Full }
    ensures full { result ≡ Err faults.Full → (1024 ≤ volatile.old.active) ⊎ (2 ^ 63 ≤ volatile.old.number + 1) }
    ensures ok { (kept : SiteContent) → Fits kept (volatile_of volatile.old) → IfOk result (λ reply. Steps kept (volatile_of volatile.old) kept (volatile_of volatile.new) Opens reply) }
    ensures memory { ChangesVolatile volatile.old volatile.new result }
    ensures store { (fault : StoreFaultName) → result ≢ Err (faults.Store fault) }
{
    let ticket = volatile.open()?;
    Ok(Some(Reply::Ticket(ticket)))
}

/// An operation of a visit is refused.
pub(crate) fn refused(ticket: &Ticket, reason: Reason) -> Option<Reply>
    ensures { result ≡ Some (replies.Refused (record { ticket = ticket.now; reason = reason })) }
{
    Some(Reply::Refused(Refusal {
        ticket: *ticket,
        reason,
    }))
}

/// A visit intends a write.
pub(crate) fn intend(
    volatile: &mut Volatile,
    intention: Intention,
) -> Result<Option<Reply>, SiteFault>
    ensures elsewhere { place_in (leaf_of intention.write) volatile.old.locks.items ≡ None → result ≡ Err faults.Stranger }
    ensures stranger { result ≡ Err faults.Stranger → place_in (leaf_of intention.write) volatile.old.locks.items ≡ None }
    ensures full { result ≡ Err faults.Full → IsBeyond (volatile_of volatile.old) (orders.Intend intention) }
    ensures beyond { write_verdict intention.ticket intention.op (leaf_of intention.write) (at_key intention.write) ((volatile_of volatile.old).locks (leaf_of intention.write)) ((volatile_of volatile.old).standing intention.ticket) ≡ Go → 2 ^ 63 ≤ intention.op
        → (result ≡ Err faults.Full) ⊎ ((result ≡ Err faults.Memory) ⊎ (result ≡ Err faults.Stranger)) }
    ensures ok { (kept : SiteContent) → Fits kept (volatile_of volatile.old) → IfOk result (λ reply. Steps kept (volatile_of volatile.old) kept (volatile_of volatile.new)
        (on_write (name_of intention.ticket) intention.op (leaf_of intention.write) (at_key intention.write) ((state_of kept (volatile_of volatile.old)).status (name_of intention.ticket))) reply) }
    ensures memory { ChangesVolatile volatile.old volatile.new result }
    ensures store { (fault : StoreFaultName) → result ≢ Err (faults.Store fault) }
{
    let Intention { ticket, op, write } = intention;
    let (place, turn) = verdict_to_write(volatile, &ticket, op, &write)?;
    match turn {
        Verdict::Pass | Verdict::Gone => Ok(None),
        Verdict::Refuse(reason) => {
            volatile.end(&ticket);
            Ok(refused(&ticket, reason))
        }
        Verdict::Go => {
            if op > LAST {
                return Err(SiteFault::Full);
            }
            volatile.write(&ticket, op, place, write)?;
            Ok(None)
        }
    }
}

/// A visit reads the parts of a leaf that meet conditions.
pub(crate) fn fetch<S: SiteStore>(
    store: &mut S,
    volatile: &mut Volatile,
    fetch: Fetch,
    kept: bool,
) -> Result<Option<Reply>, SiteFault>
    ensures elsewhere { place_in fetch.leaf volatile.old.locks.items ≡ None → result ≡ Err faults.Stranger }
    ensures stranger { result ≡ Err faults.Stranger → place_in fetch.leaf volatile.old.locks.items ≡ None }
    ensures full { result ≡ Err faults.Full → IsBeyond (volatile_of volatile.old) (orders.Fetch fetch) }
    ensures calls { (fault : StoreFaultName) → result ≡ Err (faults.Store fault) → CallsStore (volatile_of volatile.old) (orders.Fetch fetch) }
    ensures beyond { read_verdict fetch.ticket fetch.op ((volatile_of volatile.old).locks fetch.leaf) ((volatile_of volatile.old).standing fetch.ticket) ≡ Go → 2 ^ 63 ≤ fetch.op
        → (result ≡ Err faults.Full) ⊎ ((result ≡ Err faults.Memory) ⊎ (result ≡ Err faults.Stranger)) }
    ensures ok { StepsBy S.is_clean S.is_sound S.kept store.old store.new volatile.old volatile.new result (λ reply. on_fetch (state_of (S.kept store.old) (volatile_of volatile.old)) true (name_of fetch.ticket) fetch.op fetch.leaf fetch.conds ((state_of (S.kept store.old) (volatile_of volatile.old)).status (name_of fetch.ticket))) }
    ensures same { S.is_clean store.new → S.is_sound store.old → IsUnchanged (S.kept store.old) (S.kept store.new) }
    ensures fails { ChangesOrFails S.is_clean S.is_sound S.kept S.refused kept store.old store.new volatile.old volatile.new result }
{
    let Fetch {
        ticket,
        op,
        leaf,
        conds,
    } = fetch;
    let (place, turn) = verdict_to_read(volatile, &ticket, op, &leaf)?;
    match turn {
        Verdict::Pass => Ok(None),
        Verdict::Gone => Ok(refused(&ticket, Reason::Gone)),
        Verdict::Refuse(reason) => {
            volatile.end(&ticket);
            Ok(refused(&ticket, reason))
        }
        Verdict::Go => {
            if LAST < op {
                return Err(SiteFault::Full);
            }
            if !kept {
                return Err(SiteFault::Store(StoreFault::Refused));
            }
            let parts = rows(store, volatile, &ticket, &leaf, &conds)?;
            volatile.read(&ticket, op, place)?;
            Ok(Some(Reply::Rows(Rows {
                ticket,
                op,
                parts: Seq::new(parts),
            })))
        }
    }
}
