//! What the coordinator's letters say.

use crate::name::Ticket;
use terms::cond::Conds;
use terms::copy::TryCopy;
use terms::leaf::Leaf;
use terms::memory::Memory;
use terms::same::Same;
use terms::write::Write;

/// An order to a site. All but `Open` name a visit by its ticket.
#[derive(Debug, Drop)]
pub enum Order {
    /// Begin a visit.
    Open,
    /// Answer the parts of a leaf that meet conditions.
    Fetch(Fetch),
    /// Intend a write.
    Intend(Intention),
    /// Vote, if this many operations were done.
    Prepare(Prepare),
    /// Make the visit's writes.
    Commit(Ticket),
    /// Drop them.
    Abort(Ticket),
}

/// An operation that reads. Its conditions are on places of the leaf's part, the key at 0.
#[derive(Debug, Drop)]
pub struct Fetch {
    pub ticket: Ticket,
    /// The operation's number in its visit, from 1.
    pub op: u64,
    pub leaf: Leaf,
    pub conds: Conds,
}

/// An operation that writes.
#[derive(Debug, Drop)]
pub struct Intention {
    pub ticket: Ticket,
    /// The operation's number in its visit, from 1.
    pub op: u64,
    pub write: Write,
}

/// A visit, and how many operations were sent to it.
#[derive(Clone, Copy, Debug)]
pub struct Prepare {
    pub ticket: Ticket,
    pub count: u64,
}

impl TryCopy for Order {
    fn copy(&self) -> Result<Order, Memory> {
        match self {
            Order::Open => Ok(Order::Open),
            Order::Fetch(fetch) => Ok(Order::Fetch(fetch.copy()?)),
            Order::Intend(intention) => Ok(Order::Intend(intention.copy()?)),
            Order::Prepare(prepare) => Ok(Order::Prepare(*prepare)),
            Order::Commit(ticket) => Ok(Order::Commit(*ticket)),
            Order::Abort(ticket) => Ok(Order::Abort(*ticket)),
        }
    }
}

impl Same for Order {
    fn same(&self, other: &Order) -> bool {
        match self {
            Order::Open => matches!(other, Order::Open),
            Order::Fetch(fetch) => match other {
                Order::Fetch(other) => fetch.same(other),
                _ => false,
            },
            Order::Intend(intention) => match other {
                Order::Intend(other) => intention.same(other),
                _ => false,
            },
            Order::Prepare(prepare) => match other {
                Order::Prepare(other) => prepare.same(other),
                _ => false,
            },
            Order::Commit(ticket) => match other {
                Order::Commit(other) => ticket.same(other),
                _ => false,
            },
            Order::Abort(ticket) => match other {
                Order::Abort(other) => ticket.same(other),
                _ => false,
            },
        }
    }
}

impl TryCopy for Fetch {
    fn copy(&self) -> Result<Fetch, Memory> {
        Ok(Fetch {
            ticket: self.ticket,
            op: self.op,
            leaf: self.leaf.copy()?,
            conds: self.conds.copy()?,
        })
    }
}

impl Same for Fetch {
    fn same(&self, other: &Fetch) -> bool {
        self.ticket.same(&other.ticket)
            && self.op.same(&other.op)
            && self.leaf.same(&other.leaf)
            && self.conds.same(&other.conds)
    }
}

impl TryCopy for Intention {
    fn copy(&self) -> Result<Intention, Memory> {
        Ok(Intention {
            ticket: self.ticket,
            op: self.op,
            write: self.write.copy()?,
        })
    }
}

impl Same for Intention {
    fn same(&self, other: &Intention) -> bool {
        self.ticket.same(&other.ticket) && self.op.same(&other.op) && self.write.same(&other.write)
    }
}

impl Same for Prepare {
    fn same(&self, other: &Prepare) -> bool {
        self.ticket.same(&other.ticket) && self.count.same(&other.count)
    }
}
