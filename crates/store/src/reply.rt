//! What the sites' letters say.

ghost use Rattle.std.specs.Prelude.{◌≡◌};
ghost use Rattle.store.specs.Reply.{reason_name, vote_name};

use crate::name::Ticket;
use terms::copy::TryCopy;
use terms::memory::Memory;
use terms::part::Part;
use terms::same::Same;
use terms::seq::Seq;

/// A site's reply, or its inquiry. Each names a visit by its ticket.
#[derive(Debug, Drop)]
pub enum Reply {
    /// The visit has begun.
    Ticket(Ticket),
    /// The parts that a fetch asked for.
    Rows(Rows),
    /// An operation was refused.
    Refused(Refusal),
    /// The site's vote.
    Voted(Voted),
    /// What was decided is done.
    Ack(Ticket),
    /// What was decided?
    Inquire(Ticket),
}

/// The parts that a fetch asked for, in the order of their keys.
#[derive(Debug, Drop)]
pub struct Rows {
    pub ticket: Ticket,
    /// The fetch's number in its visit.
    pub op: u64,
    pub parts: Seq<Part>,
}

/// Why a site refuses an operation.
#[derive(Clone, Copy, Debug, PartialEq, Eq)]
pub enum Reason {
    /// Another visit has a lock.
    Lock,
    /// The visit has too many intentions.
    Full,
    /// There is no such visit.
    Gone,
}

/// A visit whose operation was refused.
#[derive(Clone, Copy, Debug)]
pub struct Refusal {
    pub ticket: Ticket,
    pub reason: Reason,
}

/// What a site says to a prepare.
#[derive(Clone, Copy, Debug, PartialEq, Eq)]
pub enum Vote {
    /// The visit's writes are kept.
    Yes,
    /// They can't be made.
    No,
    /// There are none.
    Read,
}

/// A visit, and the site's vote.
#[derive(Clone, Copy, Debug)]
pub struct Voted {
    pub ticket: Ticket,
    pub vote: Vote,
}

impl Reason {
    /// The reason's name in letters.
    pub fn name(self) -> &'static str
        ensures { result.now ≡ reason_name self }
    {
        match self {
            Reason::Lock => "Lock",
            Reason::Full => "Full",
            Reason::Gone => "Gone",
        }
    }
}

impl Vote {
    /// The vote's name in letters.
    pub fn name(self) -> &'static str
        ensures { result.now ≡ vote_name self }
    {
        match self {
            Vote::Yes => "YES",
            Vote::No => "NO",
            Vote::Read => "READ",
        }
    }
}

impl TryCopy for Reply {
    fn copy(&self) -> Result<Reply, Memory> {
        match self {
            Reply::Ticket(ticket) => Ok(Reply::Ticket(*ticket)),
            Reply::Rows(rows) => Ok(Reply::Rows(rows.copy()?)),
            Reply::Refused(refusal) => Ok(Reply::Refused(*refusal)),
            Reply::Voted(voted) => Ok(Reply::Voted(*voted)),
            Reply::Ack(ticket) => Ok(Reply::Ack(*ticket)),
            Reply::Inquire(ticket) => Ok(Reply::Inquire(*ticket)),
        }
    }
}

impl Same for Reply {
    fn same(&self, other: &Reply) -> bool {
        match self {
            Reply::Ticket(ticket) => match other {
                Reply::Ticket(other) => ticket.same(other),
                _ => false,
            },
            Reply::Rows(rows) => match other {
                Reply::Rows(other) => rows.same(other),
                _ => false,
            },
            Reply::Refused(refusal) => match other {
                Reply::Refused(other) => refusal.same(other),
                _ => false,
            },
            Reply::Voted(voted) => match other {
                Reply::Voted(other) => voted.same(other),
                _ => false,
            },
            Reply::Ack(ticket) => match other {
                Reply::Ack(other) => ticket.same(other),
                _ => false,
            },
            Reply::Inquire(ticket) => match other {
                Reply::Inquire(other) => ticket.same(other),
                _ => false,
            },
        }
    }
}

impl TryCopy for Rows {
    fn copy(&self) -> Result<Rows, Memory> {
        Ok(Rows {
            ticket: self.ticket,
            op: self.op,
            parts: self.parts.copy()?,
        })
    }
}

impl Same for Rows {
    fn same(&self, other: &Rows) -> bool {
        self.ticket.same(&other.ticket) && self.op.same(&other.op) && self.parts.same(&other.parts)
    }
}

impl Same for Reason {
    fn same(&self, other: &Reason) -> bool {
        *self == *other
    }
}

impl Same for Refusal {
    fn same(&self, other: &Refusal) -> bool {
        self.ticket.same(&other.ticket) && self.reason.same(&other.reason)
    }
}

impl Same for Vote {
    fn same(&self, other: &Vote) -> bool {
        *self == *other
    }
}

impl Same for Voted {
    fn same(&self, other: &Voted) -> bool {
        self.ticket.same(&other.ticket) && self.vote.same(&other.vote)
    }
}
