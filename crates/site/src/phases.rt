//! Visits are prepared, and end.

ghost use Rattle.std.specs.Prelude.{◌≡◌, ◌≢◌, true, [], ◌∷◌, Some, None, Err, IfOk, IfErr, if◌then◌else◌, ◌⊎◌, false};
ghost use Rattle.std.specs.FinMap as fin;
ghost use Rattle.store.specs.Fault.{HasRefused};
ghost use Rattle.store.specs.declared.fault.StoreFault.{StoreFault as StoreFaultName};
ghost use Rattle.store.specs.declared.reply.Reply.TheVariants as replies;
ghost use Rattle.store.specs.SiteContent.{SiteContent};
ghost use Rattle.protocol.specs.Letter as protocol;
ghost use Rattle.protocol.specs.Site.{Prepares, Ends, on_prepare, on_commit, on_abort, on_give_up};
ghost use Rattle.site.specs.declared.fault.SiteFault.TheVariants as faults;
ghost use Rattle.site.specs.declared.tickets.TicketState.TheVariants as standing;
ghost use Rattle.site.specs.declared.tickets.Visit.{Visit as Visited};
ghost use Rattle.protocol.specs.Letters.{name_of, txn_name, kept_by};
ghost use Rattle.site.specs.Frame.{LeavesVolatile, EndsOrFails, StepsBy};
ghost use Rattle.site.specs.State.{Fits, Steps, is_row, state_of, volatile_of};
ghost use Rattle.site.specs.Verdict.{ballot};
ghost use Rattle.site.specs.declared.verdict.Ballot.TheVariants.{Keeps};

use crate::fault::{SiteFault, site_fault};
use crate::verdict::{Ballot, ballot_at};
use crate::volatile::Volatile;
use store::changes::Changes;
use store::fault::StoreFault;
use store::name::{Ticket, Txn};
use store::order::Prepare;
use store::reply::{Reply, Vote, Voted};
use store::site_store::SiteStore;

/// The site's vote.
fn voted(ticket: Ticket, vote: Vote) -> Option<Reply>
    ensures { result ≡ Some (replies.Voted (record { ticket = ticket; vote = vote })) }
{
    Some(Reply::Voted(Voted { ticket, vote }))
}

/// Prepares a visit, if it has done as many operations as were sent. Without the store's call it votes NO.
pub(crate) fn prepare<S: SiteStore>(
    store: &mut S,
    volatile: &mut Volatile,
    txn: Txn,
    prepare: Prepare,
    kept: bool,
) -> Result<Option<Reply>, SiteFault>
    ensures ok { StepsBy S.is_clean S.is_sound S.kept store.old store.new volatile.old volatile.new result (λ reply. on_prepare (kept_by reply) (txn_name txn) (name_of prepare.ticket) prepare.count ((state_of (S.kept store.old) (volatile_of volatile.old)).status (name_of prepare.ticket))) }
    ensures ends { EndsOrFails S.is_clean S.is_sound S.kept S.refused kept store.old store.new volatile.old volatile.new result }
    ensures memory { IfErr result (λ fault. fault ≡ faults.Memory) }
    ensures vote { ballot prepare.count ((volatile_of volatile.old).standing prepare.ticket) ≡ Keeps → IfOk result (λ reply. kept_by reply ≡ false → (kept ≡ false) ⊎ HasRefused (S.refused store.old) (S.refused store.new)) }
{
    let Prepare { ticket, count } = prepare;
    match ballot_at(volatile, &ticket, count) {
        Ballot::Stands(vote) => Ok(voted(ticket, vote)),
        Ballot::Ends(vote) => {
            volatile.end(&ticket);
            Ok(voted(ticket, vote))
        }
        Ballot::Keeps => keep(store, volatile, txn, ticket, kept),
    }
}

/// Keeps what a visit intends, and votes YES; where the store refuses, the visit ends, and the vote is NO.
fn keep<S: SiteStore>(
    store: &mut S,
    volatile: &mut Volatile,
    txn: Txn,
    ticket: Ticket,
    kept: bool,
) -> Result<Option<Reply>, SiteFault>
    requires { (visit : Visited) × ((volatile_of volatile.old).standing ticket ≡ Some (standing.Active visit)) × (visit.changes ≢ fin.empty) }

    ensures ok { S.is_clean store.new → S.is_sound store.old → Fits (S.kept store.old) (volatile_of volatile.old) → (visit : Visited) → (volatile_of volatile.old).standing ticket ≡ Some (standing.Active visit)
        → IfOk result (λ reply. Steps (S.kept store.old) (volatile_of volatile.old) (S.kept store.new) (volatile_of volatile.new)
        (if kept_by reply then Prepares (name_of ticket) (txn_name txn) visit.changes else Ends (name_of ticket) (protocol.Voted (name_of ticket) protocol.No ∷ [])) reply) }
    ensures ends { EndsOrFails S.is_clean S.is_sound S.kept S.refused kept store.old store.new volatile.old volatile.new result }
    ensures memory { IfErr result (λ fault. fault ≡ faults.Memory) }
    ensures vote { IfOk result (λ reply. kept_by reply ≡ false → (kept ≡ false) ⊎ HasRefused (S.refused store.old) (S.refused store.new)) }
{
    if !kept {
        volatile.end(&ticket);
        return Ok(voted(ticket, Vote::No));
    }
    let none = Changes::new(volatile.alloc);
    let changes = volatile.standings.swap_changes(&ticket, none);
    match store.keep_prepared(txn, ticket, changes) {
        Ok(()) => {
            volatile.prepare(&ticket, txn);
            Ok(voted(ticket, Vote::Yes))
        }
        Err(unkept) => {
            if unkept.fault == StoreFault::Memory {
                let _none = volatile.standings.swap_changes(&ticket, unkept.changes);
                return Err(SiteFault::Memory);
            }
            volatile.end(&ticket);
            Ok(voted(ticket, Vote::No))
        }
    }
}

/// Makes the changes of a prepared ticket.
pub(crate) fn commit<S: SiteStore>(
    store: &mut S,
    volatile: &mut Volatile,
    ticket: Ticket,
    kept: bool,
) -> Result<Option<Reply>, SiteFault>
    ensures ok { StepsBy S.is_clean S.is_sound S.kept store.old store.new volatile.old volatile.new result (λ reply. on_commit true (name_of ticket) ((state_of (S.kept store.old) (volatile_of volatile.old)).status (name_of ticket))) }
    ensures ends { EndsOrFails S.is_clean S.is_sound S.kept S.refused kept store.old store.new volatile.old volatile.new result }
    ensures calls { (fault : StoreFaultName) → result ≡ Err (faults.Store fault) → is_row ((volatile_of volatile.old).standing ticket) ≡ true }
{
    if !volatile.is_prepared(&ticket) {
        return Ok(Some(Reply::Ack(ticket)));
    }
    if !kept {
        return Err(SiteFault::Store(StoreFault::Refused));
    }
    match store.apply(ticket) {
        Ok(()) => {
            volatile.forget(&ticket);
            Ok(Some(Reply::Ack(ticket)))
        }
        Err(fault) => Err(site_fault(fault)),
    }
}

/// Ends a visit, or drops a prepared row.
pub(crate) fn abort<S: SiteStore>(
    store: &mut S,
    volatile: &mut Volatile,
    ticket: Ticket,
    kept: bool,
) -> Result<Option<Reply>, SiteFault>
    ensures ok { StepsBy S.is_clean S.is_sound S.kept store.old store.new volatile.old volatile.new result (λ reply. on_abort true (name_of ticket) ((state_of (S.kept store.old) (volatile_of volatile.old)).status (name_of ticket))) }
    ensures ends { EndsOrFails S.is_clean S.is_sound S.kept S.refused kept store.old store.new volatile.old volatile.new result }
    ensures calls { (fault : StoreFaultName) → result ≡ Err (faults.Store fault) → is_row ((volatile_of volatile.old).standing ticket) ≡ true }
{
    if !volatile.is_prepared(&ticket) {
        give_up(volatile, &ticket);
        return Ok(None);
    }
    if !kept {
        return Err(SiteFault::Store(StoreFault::Refused));
    }
    match store.discard(ticket) {
        Ok(()) => {
            volatile.forget(&ticket);
            Ok(None)
        }
        Err(fault) => Err(site_fault(fault)),
    }
}

/// Ends a visit that isn't prepared.
pub(crate) fn give_up(volatile: &mut Volatile, ticket: &Ticket)
    ensures volatile { LeavesVolatile volatile.old volatile.new }
    ensures gone { (kept : SiteContent) → Fits kept (volatile_of volatile.old) → Steps kept (volatile_of volatile.old) kept (volatile_of volatile.new)
        (on_give_up (name_of ticket.now) ((state_of kept (volatile_of volatile.old)).status (name_of ticket.now))) None }
{
    if volatile.is_visit(ticket) {
        volatile.end(ticket);
    }
}
