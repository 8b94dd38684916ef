//! What a site has in memory, and a restart loses.

ghost use Rattle.std.specs.Prelude.{◌≡◌, ◌+◌, ◌-◌, ◌^◌, ◌<◌, ◌≤◌, ◌⊎◌, Some, Err, IfOk, IfErr, OnOk, length, map, slice_get, slice_set, unwrap_or};
ghost use Rattle.std.specs.BTreeMap.{insert_entry, is_at};
ghost use Rattle.std.specs.FinMap as fin;
ghost use Rattle.std.specs.List.Sorted.{IsStrictlySortedBy};
ghost use Rattle.std.specs.Map.{keys_of, set_value, remove_entry};
ghost use Rattle.std.specs.Option.{option_copied};
ghost use Rattle.store.specs.Name.{ticket_cmp};
ghost use Rattle.site.specs.declared.fault.SiteFault.TheVariants as faults;
ghost use Rattle.site.specs.declared.locks.Locks.{Locks as LocksNow};
ghost use Rattle.site.specs.declared.tickets.TicketState.TheVariants as standing;
ghost use Rattle.site.specs.declared.tickets.TicketState.{TicketState as TicketStateNow};
ghost use Rattle.site.specs.Locks.{with_reader, with_writer, stops, stops_reading};
ghost use Rattle.site.specs.Tickets.{with_done, intends};
ghost use Rattle.site.specs.Frame.{LeavesVolatile, ChangesVolatile};
ghost use Rattle.site.specs.State.{volatile_of, volatile_from, is_visit, is_row, changes_at};
ghost use Rattle.site.specs.Moves.{next_of};

use crate::fault::SiteFault;
use crate::lock_table::LockTable;
use crate::recovery::Beginning;
use crate::tickets::{TicketState, Tickets, Visit};
use std::alloc::Global;
use store::changes::Changes;
use store::name::{Ticket, Txn};
use terms::memory::Memory;
use terms::text::Text;
use terms::write::Write;

/// How many visits there may be.
const VISITS: u64 = 1024;

/// The greatest number of a ticket, or of a visit's operation.
pub(crate) const LAST: u64 = 0x7fff_ffff_ffff_ffff;

/// What a site has in memory.
#[derive(Drop)]
pub(crate) struct Volatile {
    pub(crate) alloc: Global,
    /// The site's own name.
    pub(crate) name: Text,
    /// The locks on each of its leaves.
    pub(crate) locks: LockTable,
    pub(crate) standings: Tickets,
    /// How many visits there are.
    pub(crate) active: u64,
    pub(crate) life: u64,
    /// The number of the last ticket drawn in this life.
    pub(crate) number: u64,
}

impl Volatile {
    /// What stands behind a ticket.
    pub(crate) fn standing(&self, ticket: &Ticket) -> Option<&TicketState>
        ensures { option_copied result ≡ (volatile_of self.now).standing ticket.now }
    {
        self.standings.get(ticket)
    }

    /// Whether a visit stands behind a ticket.
    pub(crate) fn is_visit(&self, ticket: &Ticket) -> bool
        ensures { result ≡ is_visit ((volatile_of self.now).standing ticket.now) }
    {
        match self.standing(ticket) {
            Some(standing) => standing.is_visit(),
            None => false,
        }
    }

    /// Whether a prepared row does.
    pub(crate) fn is_prepared(&self, ticket: &Ticket) -> bool
        ensures { result ≡ is_row ((volatile_of self.now).standing ticket.now) }
    {
        match self.standing(ticket) {
            Some(standing) => !standing.is_visit(),
            None => false,
        }
    }

    /// What a visit intends.
    pub(crate) fn changes(&self, ticket: &Ticket) -> Option<&Changes>
        ensures { unwrap_or (option_copied result) fin.empty ≡ changes_at (volatile_of self.now) ticket.now }
    {
        match self.standing(ticket) {
            Some(standing) => standing.changes(),
            None => None,
        }
    }

    /// Begins a visit, and draws its ticket.
    pub(crate) fn open(&mut self) -> Result<Ticket, SiteFault>
        ensures ticket { IfOk result (λ ticket. ticket ≡ next_of (volatile_of self.old)) }
        ensures ok { OnOk result (volatile_of self.new ≡ volatile_from (insert_entry ticket_cmp self.old.standings (next_of (volatile_of self.old)) (standing.Active (record { done = 0; changes = fin.empty })))
            self.old.locks.items (self.old.active + 1) self.old.life (self.old.number + 1)) }
        ensures memory { ChangesVolatile self.old self.new result }
        ensures room { OnOk result (self.old.active + 1 ≤ 1024) }
        ensures last { OnOk result (self.old.number + 2 ≤ 2 ^ 63) }
        ensures beyond { (1024 ≤ self.old.active) ⊎ (2 ^ 63 ≤ self.old.number + 1) → result ≡ Err faults.Full }
        ensures ordered { IsStrictlySortedBy ticket_cmp (keys_of self.old.standings) }
        ensures fault { IfErr result (λ fault. (fault ≡ faults.Memory) ⊎ ((fault ≡ faults.Full) × ((1024 ≤ self.old.active) ⊎ (2 ^ 63 ≤ self.old.number + 1)))) }
    {
        let _count = self.standings.len();
        if self.active >= VISITS || self.number >= LAST {
            return Err(SiteFault::Full);
        }
        let ticket = Ticket {
            life: self.life,
            visit: self.number + 1,
        };
        let visit = Visit {
            done: 0,
            changes: Changes::new(self.alloc),
        };
        self.standings.insert(ticket, TicketState::Active(visit))?;
        self.active += 1;
        self.number += 1;
        Ok(ticket)
    }

    /// A visit has done an operation that reads the leaf at this place.
    pub(crate) fn read(&mut self, ticket: &Ticket, op: u64, place: usize) -> Result<(), Memory>
        requires { place < length self.old.locks.items }
        ensures ok { (now : TicketStateNow) (at : LocksNow) → (volatile_of self.old).standing ticket.now ≡ Some now → slice_get self.old.locks.items place ≡ Some at
            → OnOk result (volatile_of self.new ≡ volatile_from (set_value (is_at (ticket_cmp ticket.now)) self.old.standings (with_done op now))
            (slice_set self.old.locks.items place (with_reader ticket.now at)) self.old.active self.old.life self.old.number) }
        ensures memory { ChangesVolatile self.old self.new result }
    {
        self.locks.hold(*ticket, place)?;
        self.locks.lock_shared(place, *ticket)?;
        self.standings.set_done(ticket, op);
        Ok(())
    }

    /// A visit has done an operation that writes the leaf at this place.
    pub(crate) fn write(
        &mut self,
        ticket: &Ticket,
        op: u64,
        place: usize,
        write: Write,
    ) -> Result<(), Memory>
        requires { place < length self.old.locks.items }
        ensures ok { (now : TicketStateNow) (at : LocksNow) → (volatile_of self.old).standing ticket.now ≡ Some now → slice_get self.old.locks.items place ≡ Some at
            → OnOk result (volatile_of self.new ≡ volatile_from (set_value (is_at (ticket_cmp ticket.now)) self.old.standings (with_done op (intends write now)))
            (slice_set self.old.locks.items place (with_writer ticket.now at)) self.old.active self.old.life self.old.number) }
        ensures memory { ChangesVolatile self.old self.new result }
    {
        self.locks.hold(*ticket, place)?;
        self.standings.set_change(ticket, op, write)?;
        self.locks.lock_exclusive(place, *ticket);
        Ok(())
    }

    /// A visit is prepared: its shared locks go.
    pub(crate) fn prepare(&mut self, ticket: &Ticket, txn: Txn)
        ensures volatile { LeavesVolatile self.old self.new }
        ensures prepared { (now : TicketStateNow) → (volatile_of self.old).standing ticket.now ≡ Some now
            → volatile_of self.new ≡ volatile_from (set_value (is_at (ticket_cmp ticket.now)) self.old.standings (standing.Prepared txn))
            (map (stops_reading ticket.now self.old.number) self.old.locks.items) (self.old.active - 1) self.old.life self.old.number }
    {
        self.standings.set_prepared(ticket, txn);
        self.locks.release_shared(ticket, self.number);
        self.active = self.active.saturating_sub(1);
    }

    /// A visit ends: its locks go.
    pub(crate) fn end(&mut self, ticket: &Ticket)
        ensures volatile { LeavesVolatile self.old self.new }
        ensures ended { volatile_of self.new ≡ volatile_from (remove_entry (is_at (ticket_cmp ticket.now)) self.old.standings)
            (map (stops ticket.now self.old.number) self.old.locks.items) (self.old.active - 1) self.old.life self.old.number }
        ensures ordered { IsStrictlySortedBy ticket_cmp (keys_of self.old.standings) }
    {
        self.forget(ticket);
        self.active = self.active.saturating_sub(1);
    }

    /// Nothing stands behind a ticket any more: its locks go.
    pub(crate) fn forget(&mut self, ticket: &Ticket)
        ensures volatile { LeavesVolatile self.old self.new }
        ensures gone { volatile_of self.new ≡ volatile_from (remove_entry (is_at (ticket_cmp ticket.now)) self.old.standings)
            (map (stops ticket.now self.old.number) self.old.locks.items) self.old.active self.old.life self.old.number }
        ensures active { self.new.active ≡ self.old.active }
        ensures ordered { IsStrictlySortedBy ticket_cmp (keys_of self.old.standings) }
    {
        let _count = self.standings.len();
        self.standings.remove(ticket);
        self.locks.release(ticket, self.number);
    }

    /// What was in memory is lost, and another life has begun.
    pub(crate) fn restart(&mut self, begun: Beginning)
        ensures begun { volatile_of self.new ≡ volatile_from begun.resting.standings begun.resting.locks.items 0 begun.life 0 }
        ensures name { self.new.name ≡ self.old.name }
        ensures locks { self.new.locks.items ≡ begun.resting.locks.items }
        ensures ordered { IsStrictlySortedBy ticket_cmp (keys_of self.old.standings) }
    {
        let _count = self.standings.len();
        self.standings = begun.resting.standings;
        self.locks = begun.resting.locks;
        self.active = 0;
        self.life = begun.life;
        self.number = 0;
    }
}
