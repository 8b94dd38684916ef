//! The locks on all leaves of a site.

ghost use Rattle.std.specs.Prelude.{◌≡◌, ◌<◌, false, ◌++◌, ◌∷◌, [], ℕ, Some, IfOk, OnOk, OnErr, length, map, slice_get, slice_set};
ghost use Rattle.std.specs.BTreeMap.{is_at};
ghost use Rattle.std.specs.List.{list_all};
ghost use Rattle.std.specs.Map.{lookup};
ghost use Rattle.std.specs.Ordering.{is_eq};
ghost use Rattle.terms.specs.declared.leaf.Leaf.{Leaf as LeafNow};
ghost use Rattle.terms.specs.Leaf.{leaf_cmp};
ghost use Rattle.store.specs.SiteContent.{is_ticket};
ghost use Rattle.store.specs.declared.name.Ticket.{Ticket as TicketNow};
ghost use Rattle.protocol.specs.Parts.{In};
ghost use Rattle.site.specs.Locks.{free, with_reader, with_writer, stops, stops_reading, place_in, leaves_in};
ghost use Rattle.site.specs.LockTable.{IsIndexed, KeepsPlaces, change_at, change_each, or_place, places_of};
ghost use Rattle.site.specs.Recovery.{grants, is_open};
ghost use Rattle.site.specs.declared.locks.Locks.{Locks as LocksNow};

use crate::locks::Locks;
use std::alloc::Global;
use std::collections::BTreeMap;
use std::marker::Model;
use store::changes::Changes;
use store::name::Ticket;
use terms::copy::TryCopy;
use terms::leaf::Leaf;
use terms::memory::Memory;

/// The places of each ticket.
type Held = BTreeMap<Ticket, Vec<usize>>;

/// The locks on each leaf of a site, which contracts see as their list. Those of a leaf are found by the leaf, and
/// those of a ticket by the ticket, so that leaves which nobody uses cost a visit nothing.
#[derive(Drop)]
pub(crate) struct LockTable {
    locks: Vec<Locks>,
    /// The place of each leaf's locks.
    places: BTreeMap<Leaf, usize>,
    /// The places where a ticket has locks, or had some.
    held: Held,
}

impl Model for LockTable {
    ghost use Rattle.site.specs.LockTable.{AllLocks, IsIndexed, IsHeld};

    ghost Value = { AllLocks };

    ghost view = { λ t. record { items = t.locks.items; held = t.held.entries } };

    ghost invariant = { λ t. IsIndexed t.places.entries t.locks.items × IsHeld t.held.entries t.locks.items };
}

impl LockTable {
    /// Locks on these leaves, of which nobody has one.
    pub(crate) fn new(alloc: Global, leaves: &[Leaf]) -> Result<LockTable, Memory>
        ensures { IfOk result (λ table. table.items ≡ map free leaves.now) }
    {
        let mut locks = Vec::new(alloc);
        let mut places = BTreeMap::new(alloc);
        for leaf in leaves {
            add_leaf(&mut locks, &mut places, leaf)?;
        }
        Ok(LockTable {
            locks,
            places,
            held: BTreeMap::new(alloc),
        })
    }

    /// The locks, in the order of the leaves.
    pub(crate) fn as_slice(&self) -> &[Locks]
        ensures { result.now ≡ self.now.items }
    {
        self.locks.as_slice()
    }

    /// The place of a leaf's locks, if the leaf is the site's.
    pub(crate) fn place(&self, leaf: &Leaf) -> Option<usize>
        ensures { result ≡ place_in leaf.now self.now.items }
    {
        self.places.get(leaf).copied()
    }

    /// The locks at a place.
    pub(crate) fn at(&self, place: usize) -> &Locks
        requires { place < length self.now.items }
        ensures { slice_get self.now.items place ≡ Some result.now }
    {
        &self.locks[place]
    }

    /// A ticket is to have locks at a place: nothing is locked yet.
    pub(crate) fn hold(&mut self, ticket: Ticket, place: usize) -> Result<(), Memory>
        requires { place < length self.old.items }

        ensures items { self.new.items ≡ self.old.items }
        ensures ok { OnOk result (In place (places_of ticket self.new.held)) }
    {
        if self.locks[place].has(&ticket) {
            return Ok(());
        }
        let alloc = *self.locks.allocator();
        hold_place(&mut self.held, alloc, ticket, place)
    }

    /// A ticket gets the shared lock on the leaf at a place of its own.
    pub(crate) fn lock_shared(&mut self, place: usize, ticket: Ticket) -> Result<(), Memory>
        requires below { place < length self.old.items }
        requires own { In place (places_of ticket self.old.held) }

        ensures ok { (at : LocksNow) → slice_get self.old.items place ≡ Some at → OnOk result (self.new.items ≡ slice_set self.old.items place (with_reader ticket at)) }
        ensures err { OnErr result (self.new.items ≡ self.old.items) }
        ensures leaves { leaves_in self.new.items ≡ leaves_in self.old.items }
    {
        self.locks[place].lock_shared(ticket)
    }

    /// A ticket gets the exclusive lock on the leaf at a place of its own.
    pub(crate) fn lock_exclusive(&mut self, place: usize, ticket: Ticket)
        requires below { place < length self.old.items }
        requires own { In place (places_of ticket self.old.held) }

        ensures granted { (at : LocksNow) → slice_get self.old.items place ≡ Some at → self.new.items ≡ slice_set self.old.items place (with_writer ticket at) }
        ensures leaves { leaves_in self.new.items ≡ leaves_in self.old.items }
    {
        self.locks[place].lock_exclusive(ticket);
    }

    /// A ticket gets the exclusive lock on the leaf at a place, if changes touch it.
    fn lock_if_touched(
        &mut self,
        place: usize,
        ticket: Ticket,
        changes: &Changes,
    ) -> Result<(), Memory>
        requires { place < length self.old.items }

        ensures ok { (at : LocksNow) → slice_get self.old.items place ≡ Some at → OnOk result (self.new.items ≡ slice_set self.old.items place (grants ticket changes.now at)) }
        ensures leaves { leaves_in self.new.items ≡ leaves_in self.old.items }
    {
        if changes.touches(&self.at(place).leaf) {
            self.hold(ticket, place)?;
            self.lock_exclusive(place, ticket);
        }
        Ok(())
    }

    /// A ticket gets the exclusive lock on each leaf that changes touch.
    pub(crate) fn lock_touched(&mut self, ticket: Ticket, changes: &Changes) -> Result<(), Memory>
        ensures { OnOk result (self.new.items ≡ map (grants ticket changes.now) self.old.items) }
    {
        for place in 0..self.as_slice().len() {
            self.lock_if_touched(place, ticket, changes)?;
        }
        Ok(())
    }

    /// A ticket lets go of its shared locks, after so many tickets were drawn.
    pub(crate) fn release_shared(&mut self, ticket: &Ticket, drawn: u64)
        ensures { self.new.items ≡ map (stops_reading ticket.now drawn) self.old.items }
    {
        let places = places_of(&self.held, ticket);
        release_shared_at(&mut self.locks, places, ticket, drawn);
    }

    /// A ticket lets go of all its locks, after so many tickets were drawn.
    pub(crate) fn release(&mut self, ticket: &Ticket, drawn: u64)
        ensures { self.new.items ≡ map (stops ticket.now drawn) self.old.items }
    {
        let alloc = *self.locks.allocator();
        let places = take_places(&mut self.held, alloc, ticket);
        release_at(&mut self.locks, places.as_slice(), ticket, drawn);
    }
}

/// Whether changes touch no leaf that another writes.
pub(crate) fn is_open(locks: &[Locks], changes: &Changes) -> bool
    ensures { result ≡ list_all (is_open changes.now) locks.now }
{
    locks.iter().all(|locks| locks.is_open(changes))
}

/// One leaf more, on which nobody has a lock.
fn add_leaf(
    locks: &mut Vec<Locks>,
    places: &mut BTreeMap<Leaf, usize>,
    leaf: &Leaf,
) -> Result<(), Memory>
    ensures locks { OnOk result (locks.new.items ≡ locks.old.items ++ free leaf.now ∷ []) }
    ensures indexed { IsIndexed places.old.entries locks.old.items → OnOk result (IsIndexed places.new.entries locks.new.items) }
{
    index_leaf(places, leaf, locks.len())?;
    locks.push(Locks::new(*locks.allocator(), leaf.copy()?))?;
    Ok(())
}

/// A leaf is found at a place, if it isn't at an earlier one.
fn index_leaf(places: &mut BTreeMap<Leaf, usize>, leaf: &Leaf, place: usize) -> Result<(), Memory>
    ensures { OnOk result ((other : LeafNow) → lookup (is_at (leaf_cmp other)) places.new.entries ≡ or_place (lookup (is_at (leaf_cmp other)) places.old.entries) (is_eq (leaf_cmp leaf.now other)) place) }
{
    if places.contains_key(leaf) {
        return Ok(());
    }
    let _none = places.insert(leaf.copy()?, place)?;
    Ok(())
}

/// One place more of a ticket.
fn hold_place(held: &mut Held, alloc: Global, ticket: Ticket, place: usize) -> Result<(), Memory>
    ensures kept { KeepsPlaces held.old.entries held.new.entries }
    ensures ok { OnOk result (In place (places_of ticket held.new.entries)) }
{
    match held.get_mut(&ticket) {
        Some(places) => {
            places.push(place)?;
            Ok(())
        }
        None => {
            let mut places = Vec::new(alloc);
            places.push(place)?;
            let _none = held.insert(ticket, places)?;
            Ok(())
        }
    }
}

/// The places of a ticket.
fn places_of<'a>(held: &'a Held, ticket: &Ticket) -> &'a [usize]
    ensures { result.now ≡ places_of ticket.now held.now.entries }
{
    match held.get(ticket) {
        Some(places) => places.as_slice(),
        None => &[],
    }
}

/// The places of a ticket, which has none from now on.
fn take_places(held: &mut Held, alloc: Global, ticket: &Ticket) -> Vec<usize>
    ensures places { result.items ≡ places_of ticket.now held.old.entries }
    ensures others { (other : TicketNow) → is_ticket ticket.now other ≡ false → places_of other held.new.entries ≡ places_of other held.old.entries }
{
    match held.remove(ticket) {
        Some(places) => places,
        None => Vec::new(alloc),
    }
}

/// A ticket lets go of its shared locks at these places, after so many tickets were drawn.
fn release_shared_at(locks: &mut Vec<Locks>, places: &[usize], ticket: &Ticket, drawn: u64)
    ensures { locks.new.items ≡ change_each (stops_reading ticket.now drawn) places.now locks.old.items }
{
    for place in places {
        release_shared_one(locks, *place, ticket, drawn);
    }
}

/// So at one place, if there is one.
fn release_shared_one(locks: &mut Vec<Locks>, place: usize, ticket: &Ticket, drawn: u64)
    ensures { locks.new.items ≡ change_at (stops_reading ticket.now drawn) place locks.old.items }
{
    if place < locks.len() {
        locks[place].release_shared(ticket, drawn);
    }
}

/// A ticket lets go of all its locks at these places, after so many tickets were drawn.
fn release_at(locks: &mut Vec<Locks>, places: &[usize], ticket: &Ticket, drawn: u64)
    ensures { locks.new.items ≡ change_each (stops ticket.now drawn) places.now locks.old.items }
{
    for place in places {
        release_one(locks, *place, ticket, drawn);
    }
}

/// So at one place, if there is one.
fn release_one(locks: &mut Vec<Locks>, place: usize, ticket: &Ticket, drawn: u64)
    ensures { locks.new.items ≡ change_at (stops ticket.now drawn) place locks.old.items }
{
    if place < locks.len() {
        locks[place].release(ticket, drawn);
    }
}
