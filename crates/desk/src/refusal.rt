//! Why a call of the coordinator was refused.

ghost use Rattle.std.specs.Prelude.{◌≡◌, Some};
ghost use Rattle.desk.specs.Refusal.{refusal_name, refusal_number, refusal_of};

use crate::reply::Why;
use reader::fault::ReadFault;
use std::alloc::AllocFailed;
use std::fmt;
use store::fault::StoreFault;
use terms::memory::Memory;

/// Why a call of the coordinator was refused. After any of these the coordinator is as it was.
#[derive(Clone, Copy, Debug, PartialEq, Eq)]
pub enum Refusal {
    /// The transaction isn't undecided.
    NoTransaction,
    /// A statement of the transaction is open.
    Busy,
    /// The transaction's first phase has begun.
    Ended,
    /// A limit is reached.
    Full,
    /// The text is no statement.
    Read(ReadFault),
    /// The transaction aborted. The coordinator tells this by a reply, and by no refusal of its own.
    Aborted(Why),
    /// Memory ran out.
    Memory,
    /// The store failed, for another reason than memory.
    Store(StoreFault),
    /// A transaction that gives a relation another split is undecided, or it would not be alone.
    NotAlone,
    /// No catalogue comes after the one in force, or it splits another relation otherwise.
    NoNext,
    /// The store's version is that of no catalogue in the list.
    Chain,
}

impl Refusal {
    /// The refusal's number in messages.
    pub fn number(self) -> u8
        ensures { result ≡ refusal_number self }
    {
        match self {
            Refusal::NoTransaction => 1,
            Refusal::Busy => 2,
            Refusal::Ended => 3,
            Refusal::Full => 4,
            Refusal::Read(_) => 5,
            Refusal::Aborted(_) => 6,
            Refusal::Memory => 7,
            Refusal::Store(_) => 8,
            Refusal::NotAlone => 9,
            Refusal::NoNext => 10,
            Refusal::Chain => 11,
        }
    }

    /// The refusal's name.
    fn name(self) -> &'static str
        ensures { result.now ≡ refusal_name self }
    {
        match self {
            Refusal::NoTransaction => "NoTransaction",
            Refusal::Busy => "Busy",
            Refusal::Ended => "Ended",
            Refusal::Full => "Full",
            Refusal::Read(_) => "Read",
            Refusal::Aborted(_) => "Aborted",
            Refusal::Memory => "Memory",
            Refusal::Store(_) => "Store",
            Refusal::NotAlone => "NotAlone",
            Refusal::NoNext => "NoNext",
            Refusal::Chain => "Chain",
        }
    }
}

impl fmt::Display for Refusal {
    ghost output = { λ refusal. Some (refusal_name refusal) };

    fn fmt<W: fmt::Write>(&self, f: &mut fmt::Formatter<W>) -> fmt::Result {
        f.write_str(self.name())
    }
}

impl std::error::Error for Refusal {}

impl From<Memory> for Refusal {
    ghost use Rattle.std.specs.Prelude.{◌≡◌};
    ghost use Rattle.desk.specs.declared.refusal.Refusal.TheVariants as refusals;

    ghost from_gives = { λ _ refusal. refusal ≡ refusals.Memory };

    fn from(_error: Memory) -> Refusal {
        Refusal::Memory
    }
}

impl<T: Drop> From<AllocFailed<T>> for Refusal {
    ghost use Rattle.std.specs.Prelude.{◌≡◌};
    ghost use Rattle.desk.specs.declared.refusal.Refusal.TheVariants as refusals;

    ghost from_gives = { λ _ refusal. refusal ≡ refusals.Memory };

    fn from(_error: AllocFailed<T>) -> Refusal {
        Refusal::Memory
    }
}

/// A store's fault as the coordinator's.
pub(crate) fn store_refusal(fault: StoreFault) -> Refusal
    ensures { result ≡ refusal_of fault }
{
    match fault {
        StoreFault::Memory => Refusal::Memory,
        _ => Refusal::Store(fault),
    }
}
