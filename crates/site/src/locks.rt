//! The locks on one leaf.

ghost use Rattle.std.specs.Prelude.{◌≡◌, ◌||◌, OnOk, OnErr, not};
ghost use Rattle.std.specs.List.{list_any};
ghost use Rattle.store.specs.SiteContent.{is_ticket};
ghost use Rattle.site.specs.Locks.{free, others_write, is_foreign, with_reader, with_writer, stops, stops_reading, stops_writing};
ghost use Rattle.site.specs.LockTable.{has_lock};
ghost use Rattle.site.specs.Recovery.{is_open};

use std::alloc::Global;
use std::collections::BTreeSet;
use store::changes::Changes;
use store::name::Ticket;
use terms::leaf::Leaf;
use terms::memory::Memory;

/// The locks on one leaf.
#[derive(Drop)]
pub(crate) struct Locks {
    pub(crate) leaf: Leaf,
    /// The tickets that have the shared lock.
    readers: BTreeSet<Ticket>,
    /// The ticket that has the exclusive lock.
    writer: Option<Ticket>,
    /// The number of the last ticket drawn when a lock was last let go.
    released: u64,
}

impl Locks {
    pub(crate) fn new(alloc: Global, leaf: Leaf) -> Locks
        ensures { result ≡ free leaf }
    {
        Locks {
            leaf,
            readers: BTreeSet::new(alloc),
            writer: None,
            released: 0,
        }
    }

    /// Whether a ticket but this one has the exclusive lock.
    pub(crate) fn others_write(&self, ticket: &Ticket) -> bool
        ensures { result ≡ others_write ticket.now self.now }
    {
        match self.writer {
            Some(writer) => ticket.cmp(&writer).is_ne(),
            None => false,
        }
    }

    /// Whether another has a lock, or had one since this ticket was drawn.
    pub(crate) fn is_foreign(&self, ticket: &Ticket) -> bool
        ensures { result ≡ is_foreign ticket.now self.now }
    {
        ticket.visit <= self.released || self.others_write(ticket) || self.others_read(ticket)
    }

    /// Whether a ticket but this one has the shared lock: of two readers one is another.
    fn others_read(&self, ticket: &Ticket) -> bool
        ensures { result ≡ list_any (λ reader. not (is_ticket ticket.now reader)) self.now.readers.keys }
    {
        self.readers.iter().any(|reader| ticket.cmp(reader).is_ne())
    }

    /// Whether a ticket has a lock of either kind.
    pub(crate) fn has(&self, ticket: &Ticket) -> bool
        ensures { result ≡ has_lock ticket.now self.now }
    {
        let writes = match self.writer {
            Some(writer) => ticket.cmp(&writer).is_eq(),
            None => false,
        };
        self.readers.contains(ticket) || writes
    }

    /// Grants the shared lock.
    pub(crate) fn lock_shared(&mut self, ticket: Ticket) -> Result<(), Memory>
        ensures ok { OnOk result (self.new ≡ with_reader ticket self.old) }
        ensures err { OnErr result (self.new ≡ self.old) }
        ensures leaf { self.new.leaf ≡ self.old.leaf }
    {
        let _new = self.readers.insert(ticket)?;
        Ok(())
    }

    /// Grants the exclusive lock.
    pub(crate) fn lock_exclusive(&mut self, ticket: Ticket)
        ensures { self.new ≡ with_writer ticket self.old }
    {
        self.writer = Some(ticket);
    }

    /// Whether changes touch nothing here that another writes.
    pub(crate) fn is_open(&self, changes: &Changes) -> bool
        ensures { result ≡ is_open changes.now self.now }
    {
        self.writer.is_none() || !changes.touches(&self.leaf)
    }

    /// Lets a shared lock go, after so many tickets were drawn.
    pub(crate) fn release_shared(&mut self, ticket: &Ticket, drawn: u64)
        ensures { self.new ≡ stops_reading ticket.now drawn self.old }
    {
        let _count = self.readers.len();
        if self.readers.remove(ticket) {
            self.released = drawn;
        }
    }

    /// Lets an exclusive lock go, after so many tickets were drawn.
    fn release_exclusive(&mut self, ticket: &Ticket, drawn: u64)
        ensures { self.new ≡ stops_writing ticket.now drawn self.old }
    {
        if let Some(writer) = self.writer
            && ticket.cmp(&writer).is_eq()
        {
            self.writer = None;
            self.released = drawn;
        }
    }

    /// Lets both go, after so many tickets were drawn.
    pub(crate) fn release(&mut self, ticket: &Ticket, drawn: u64)
        ensures { self.new ≡ stops ticket.now drawn self.old }
    {
        self.release_shared(ticket, drawn);
        self.release_exclusive(ticket, drawn);
    }
}
