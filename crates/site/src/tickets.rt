//! What stands behind each ticket.

ghost use Rattle.std.specs.Prelude.{◌≡◌, Some, OnOk, OnErr, unwrap_or, [], IfOk};
ghost use Rattle.std.specs.FinMap as map;
ghost use Rattle.std.specs.Option.{option_copied};
ghost use Rattle.site.specs.State.{is_visit, changes_of};
ghost use Rattle.site.specs.Tickets.{with_change, with_done, intends, with_changes, changes_in};
ghost use Rattle.std.specs.BTreeMap.{insert_entry, is_at};
ghost use Rattle.std.specs.List.Sorted.{IsStrictlySortedBy};
ghost use Rattle.std.specs.Map.{keys_of, lookup, remove_entry, set_value};
ghost use Rattle.std.specs.Ordering.{is_eq};
ghost use Rattle.store.specs.Name.{ticket_cmp};
ghost use Rattle.site.specs.declared.tickets.TicketState.TheVariants as standing;
ghost use Rattle.site.specs.declared.tickets.TicketState.{TicketState as TicketStateNow};
ghost use Rattle.site.specs.Inquiries.{inquiries_of};

use crate::recovery::inquire_all;
use std::alloc::Global;
use std::cmp::Reverse;
use std::collections::BTreeMap;
use std::marker::Model;
use std::mem;
use store::changes::Changes;
use store::letter::Letter;
use store::name::{Ticket, Txn};
use store::slot::Slot;
use terms::memory::Memory;
use terms::text::Text;
use terms::write::Write;

/// A visit that isn't prepared: how many operations it has done, and what it intends.
#[derive(Drop)]
pub(crate) struct Visit {
    pub(crate) done: u64,
    pub(crate) changes: Changes,
}

/// What stands behind a ticket.
#[derive(Drop)]
pub(crate) enum TicketState {
    /// A visit.
    Active(Visit),
    /// A prepared row of the store.
    Prepared(Txn),
}

impl TicketState {
    /// Whether this is a visit.
    pub(crate) fn is_visit(&self) -> bool
        ensures { result ≡ is_visit (Some self.now) }
    {
        match self {
            TicketState::Active(_) => true,
            TicketState::Prepared(_) => false,
        }
    }

    /// What a visit intends.
    pub(crate) fn changes(&self) -> Option<&Changes>
        ensures { unwrap_or (option_copied result) map.empty ≡ changes_of (Some self.now) }
    {
        match self {
            TicketState::Active(visit) => Some(&visit.changes),
            TicketState::Prepared(_) => None,
        }
    }

    /// A visit has done this operation.
    pub(crate) fn set_done(&mut self, op: u64)
        ensures { self.new ≡ with_done op self.old }
    {
        match self {
            TicketState::Active(visit) => visit.done = op,
            TicketState::Prepared(_) => {}
        }
    }

    /// A visit has done this operation, by which it intends a write too.
    pub(crate) fn intend(&mut self, op: u64, write: Write) -> Result<(), Memory>
        ensures ok { OnOk result (self.new ≡ with_done op (intends write self.old)) }
        ensures err { OnErr result (self.new ≡ self.old) }
    {
        match self {
            TicketState::Active(visit) => {
                intend(&mut visit.changes, write)?;
                visit.done = op;
                Ok(())
            }
            TicketState::Prepared(_) => Ok(()),
        }
    }

    /// Other intentions; those that were come back.
    pub(crate) fn swap_changes(&mut self, changes: Changes) -> Changes
        ensures swapped { self.new ≡ with_changes changes self.old }
        ensures old { result ≡ changes_in changes self.old }
    {
        match self {
            TicketState::Active(visit) => mem::replace(&mut visit.changes, changes),
            TicketState::Prepared(_) => changes,
        }
    }
}

/// One more intention.
fn intend(changes: &mut Changes, write: Write) -> Result<(), Memory>
    ensures ok { OnOk result (changes.new ≡ with_change write changes.old) }
    ensures err { OnErr result (changes.new ≡ changes.old) }
{
    match write {
        Write::Put(leaf, part) => changes.put(leaf, part),
        Write::Del(leaf, key) => changes.del(Slot { leaf, key }),
    }
}

/// The map has the youngest ticket first: most letters are about young visits, and those are found at the
/// first key of each node on the way, however many visits there are.
pub(crate) type YoungestFirst = BTreeMap<Reverse<Ticket>, TicketState>;

/// What stands behind each ticket. Contracts see a list from the oldest ticket to the youngest.
#[derive(Drop)]
pub(crate) struct Tickets {
    map: YoungestFirst,
}

impl Model for Tickets {
    ghost use Rattle.std.specs.Prelude.{List};
    ghost use Rattle.store.specs.declared.name.Ticket.{Ticket as TicketNow};
    ghost use Rattle.site.specs.declared.tickets.TicketState.{TicketState as TicketStateNow};
    ghost use Rattle.site.specs.contracts.tickets.TicketState as standing_row;
    ghost use Rattle.site.specs.Youngest.{from_oldest};
    ghost use Rattle.std.specs.Coded.{codes};

    ghost Value = { List (TicketNow × TicketStateNow) };

    ghost coded = { Prim.hlevel (codes, standing_row.the_row.coded) };

    ghost view = { λ s. from_oldest s.map.entries };
}

impl Tickets {
    /// Nothing stands behind any ticket.
    pub(crate) fn new(alloc: Global) -> Tickets
        ensures { result ≡ [] }
    {
        Tickets {
            map: BTreeMap::new(alloc),
        }
    }

    /// How many tickets there are.
    pub(crate) fn len(&self) -> usize
        ensures ordered { IsStrictlySortedBy ticket_cmp (keys_of self.now) }
    {
        self.map.len()
    }

    /// What stands behind a ticket.
    pub(crate) fn get(&self, ticket: &Ticket) -> Option<&TicketState>
        ensures { option_copied result ≡ lookup (is_at (ticket_cmp ticket.now)) self.now }
    {
        let _count = self.map.len();
        self.map.get(&Reverse(*ticket))
    }

    /// Something stands behind a ticket.
    pub(crate) fn insert(&mut self, ticket: Ticket, standing: TicketState) -> Result<(), Memory>
        ensures ok { OnOk result (self.new ≡ insert_entry ticket_cmp self.old ticket standing) }
        ensures err { OnErr result (self.new ≡ self.old) }
        ensures ordered { IsStrictlySortedBy ticket_cmp (keys_of self.new) }
    {
        let _count = self.map.len();
        let _old = self.map.insert(Reverse(ticket), standing)?;
        Ok(())
    }

    /// Nothing stands behind a ticket any more.
    pub(crate) fn remove(&mut self, ticket: &Ticket)
        ensures gone { self.new ≡ remove_entry (is_at (ticket_cmp ticket.now)) self.old }
        ensures ordered { IsStrictlySortedBy ticket_cmp (keys_of self.old) }
    {
        let _count = self.map.len();
        let _gone = self.map.remove(&Reverse(*ticket));
    }

    /// A visit has done this operation.
    pub(crate) fn set_done(&mut self, ticket: &Ticket, op: u64)
        ensures { (now : TicketStateNow) → lookup (is_at (ticket_cmp ticket.now)) self.old ≡ Some now
            → self.new ≡ set_value (is_at (ticket_cmp ticket.now)) self.old (with_done op now) }
    {
        let _count = self.map.len();
        set_done(&mut self.map, ticket, op);
    }

    /// A visit has done this operation, by which it intends a write too.
    pub(crate) fn set_change(
        &mut self,
        ticket: &Ticket,
        op: u64,
        write: Write,
    ) -> Result<(), Memory>
        ensures ok { (now : TicketStateNow) → lookup (is_at (ticket_cmp ticket.now)) self.old ≡ Some now
            → OnOk result (self.new ≡ set_value (is_at (ticket_cmp ticket.now)) self.old (with_done op (intends write now))) }
        ensures err { OnErr result (self.new ≡ self.old) }
    {
        let _count = self.map.len();
        set_change(&mut self.map, ticket, op, write)
    }

    /// A visit intends something else; what it intended comes back.
    pub(crate) fn swap_changes(&mut self, ticket: &Ticket, changes: Changes) -> Changes
        ensures old { (now : TicketStateNow) → lookup (is_at (ticket_cmp ticket.now)) self.old ≡ Some now → result ≡ changes_in changes now }
        ensures swapped { (now : TicketStateNow) → lookup (is_at (ticket_cmp ticket.now)) self.old ≡ Some now
            → self.new ≡ set_value (is_at (ticket_cmp ticket.now)) self.old (with_changes changes now) }
    {
        let _count = self.map.len();
        swap_changes(&mut self.map, ticket, changes)
    }

    /// A ticket is prepared.
    pub(crate) fn set_prepared(&mut self, ticket: &Ticket, txn: Txn)
        ensures { (now : TicketStateNow) → lookup (is_at (ticket_cmp ticket.now)) self.old ≡ Some now
            → self.new ≡ set_value (is_at (ticket_cmp ticket.now)) self.old (standing.Prepared txn) }
    {
        let _count = self.map.len();
        set_prepared(&mut self.map, ticket, txn);
    }

    /// A site's inquiry about each prepared row, by ticket.
    pub(crate) fn inquire(&self, alloc: Global, site: &Text) -> Result<Vec<Letter>, Memory>
        ensures letters { IfOk result (λ letters. letters.items ≡ inquiries_of site.now self.now) }
        ensures ordered { IsStrictlySortedBy ticket_cmp (keys_of self.now) }
    {
        let _count = self.map.len();
        inquire_all(alloc, site, &self.map)
    }
}

fn set_done(map: &mut YoungestFirst, ticket: &Ticket, op: u64)
    ensures { (now : TicketStateNow) → lookup (λ key. is_eq (ticket_cmp key.0 ticket.now)) map.old.entries ≡ Some now
        → map.new.entries ≡ set_value (λ key. is_eq (ticket_cmp key.0 ticket.now)) map.old.entries (with_done op now) }
{
    if let Some(standing) = map.get_mut(&Reverse(*ticket)) {
        standing.set_done(op);
    }
}

fn set_change(map: &mut YoungestFirst, ticket: &Ticket, op: u64, write: Write) -> Result<(), Memory>
    ensures ok { (now : TicketStateNow) → lookup (λ key. is_eq (ticket_cmp key.0 ticket.now)) map.old.entries ≡ Some now
        → OnOk result (map.new.entries ≡ set_value (λ key. is_eq (ticket_cmp key.0 ticket.now)) map.old.entries (with_done op (intends write now))) }
    ensures err { OnErr result (map.new.entries ≡ map.old.entries) }
{
    match map.get_mut(&Reverse(*ticket)) {
        Some(standing) => standing.intend(op, write),
        None => Ok(()),
    }
}

fn swap_changes(map: &mut YoungestFirst, ticket: &Ticket, changes: Changes) -> Changes
    ensures old { (now : TicketStateNow) → lookup (λ key. is_eq (ticket_cmp key.0 ticket.now)) map.old.entries ≡ Some now → result ≡ changes_in changes now }
    ensures swapped { (now : TicketStateNow) → lookup (λ key. is_eq (ticket_cmp key.0 ticket.now)) map.old.entries ≡ Some now
        → map.new.entries ≡ set_value (λ key. is_eq (ticket_cmp key.0 ticket.now)) map.old.entries (with_changes changes now) }
{
    match map.get_mut(&Reverse(*ticket)) {
        Some(standing) => standing.swap_changes(changes),
        None => changes,
    }
}

fn set_prepared(map: &mut YoungestFirst, ticket: &Ticket, txn: Txn)
    ensures { (now : TicketStateNow) → lookup (λ key. is_eq (ticket_cmp key.0 ticket.now)) map.old.entries ≡ Some now
        → map.new.entries ≡ set_value (λ key. is_eq (ticket_cmp key.0 ticket.now)) map.old.entries (standing.Prepared txn) }
{
    if let Some(standing) = map.get_mut(&Reverse(*ticket)) {
        *standing = TicketState::Prepared(txn);
    }
}
