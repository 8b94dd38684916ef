//! Why a session's call was refused.

ghost use Rattle.std.specs.Prelude.{◌≡◌, Some};
ghost use Rattle.wire.specs.Fault.{call_number, call_name, refused_call, told_call};

use desk::refusal::Refusal;
use desk::reply::Why;
use reader::fault::{ReadFault, Rule};
use std::alloc::{AllocError, AllocFailed};
use std::fmt;
use store::fault::StoreFault;
use terms::memory::Memory;
use world::fault::Fault;

/// Why a session's call was refused. After `Aborted` its transaction has ended; after any other of these a transaction
/// that was begun by BEGIN is still open.
#[derive(Clone, Copy, Debug, PartialEq, Eq)]
pub enum CallFault {
    /// No transaction is open.
    NoTransaction,
    /// A transaction is open, or a statement of it.
    Busy,
    /// The transaction's first phase has begun.
    Ended,
    /// A limit is reached.
    Full,
    /// The text is no command.
    Read(ReadFault),
    /// The transaction aborted.
    Aborted(Why),
    /// Memory ran out.
    Memory,
    /// A store failed, for another reason than memory.
    Store(StoreFault),
    /// A machine can't be had any more, or what it answers doesn't follow what was told.
    Closed,
    /// A transaction that gives a relation another split is undecided, or it would not be alone.
    NotAlone,
    /// No catalogue comes after the one in force, or it splits another relation otherwise.
    NoNext,
    /// The coordinator's store has the version of no catalogue in the list.
    Chain,
}

impl CallFault {
    /// The fault's number in messages.
    pub fn number(self) -> u8
        ensures { result ≡ call_number self }
    {
        match self {
            CallFault::NoTransaction => 1,
            CallFault::Busy => 2,
            CallFault::Ended => 3,
            CallFault::Full => 4,
            CallFault::Read(_) => 5,
            CallFault::Aborted(_) => 6,
            CallFault::Memory => 7,
            CallFault::Store(_) => 8,
            CallFault::Closed => 9,
            CallFault::NotAlone => 10,
            CallFault::NoNext => 11,
            CallFault::Chain => 12,
        }
    }
}

impl fmt::Display for CallFault {
    ghost output = { λ fault. Some (call_name fault) };

    fn fmt<W: fmt::Write>(&self, f: &mut fmt::Formatter<W>) -> fmt::Result {
        match self {
            CallFault::NoTransaction => f.write_str("NoTransaction"),
            CallFault::Busy => f.write_str("Busy"),
            CallFault::Ended => f.write_str("Ended"),
            CallFault::Full => f.write_str("Full"),
            CallFault::Read(_) => f.write_str("Read"),
            CallFault::Aborted(_) => f.write_str("Aborted"),
            CallFault::Memory => f.write_str("Memory"),
            CallFault::Store(_) => f.write_str("Store"),
            CallFault::Closed => f.write_str("Closed"),
            CallFault::NotAlone => f.write_str("NotAlone"),
            CallFault::NoNext => f.write_str("NoNext"),
            CallFault::Chain => f.write_str("Chain"),
        }
    }
}

impl std::error::Error for CallFault {}

impl From<Refusal> for CallFault {
    ghost use Rattle.std.specs.Prelude.{◌≡◌};
    ghost use Rattle.wire.specs.Fault.{refused_call};

    ghost from_gives = { λ refusal fault. fault ≡ refused_call refusal };

    fn from(refusal: Refusal) -> CallFault {
        match refusal {
            Refusal::NoTransaction => CallFault::NoTransaction,
            Refusal::Busy => CallFault::Busy,
            Refusal::Ended => CallFault::Ended,
            Refusal::Full => CallFault::Full,
            Refusal::Read(fault) => CallFault::Read(fault),
            Refusal::Aborted(why) => CallFault::Aborted(why),
            Refusal::Memory => CallFault::Memory,
            Refusal::Store(fault) => CallFault::Store(fault),
            Refusal::NotAlone => CallFault::NotAlone,
            Refusal::NoNext => CallFault::NoNext,
            Refusal::Chain => CallFault::Chain,
        }
    }
}

impl From<Fault> for CallFault {
    ghost use Rattle.std.specs.Prelude.{◌≡◌};
    ghost use Rattle.wire.specs.Fault.{told_call};

    ghost from_gives = { λ told fault. fault ≡ told_call told };

    fn from(told: Fault) -> CallFault {
        match told {
            Fault::Desk(refusal) => CallFault::from(refusal),
            Fault::Site(_) | Fault::Unsent => CallFault::Closed,
        }
    }
}

impl From<ReadFault> for CallFault {
    ghost use Rattle.wire.specs.Fault.{ReadsAs};

    ghost from_gives = { λ fault told. ReadsAs fault told };

    fn from(fault: ReadFault) -> CallFault {
        if fault.rule() == Rule::Memory {
            CallFault::Memory
        } else {
            CallFault::Read(fault)
        }
    }
}

impl From<Memory> for CallFault {
    ghost use Rattle.std.specs.Prelude.{◌≡◌};
    ghost use Rattle.wire.specs.declared.fault.CallFault.TheVariants as faults;

    ghost from_gives = { λ _ fault. fault ≡ faults.Memory };

    fn from(_error: Memory) -> CallFault {
        CallFault::Memory
    }
}

impl From<AllocError> for CallFault {
    ghost use Rattle.std.specs.Prelude.{◌≡◌};
    ghost use Rattle.wire.specs.declared.fault.CallFault.TheVariants as faults;

    ghost from_gives = { λ _ fault. fault ≡ faults.Memory };

    fn from(_error: AllocError) -> CallFault {
        CallFault::Memory
    }
}

impl<T: Drop> From<AllocFailed<T>> for CallFault {
    ghost use Rattle.std.specs.Prelude.{◌≡◌};
    ghost use Rattle.wire.specs.declared.fault.CallFault.TheVariants as faults;

    ghost from_gives = { λ _ fault. fault ≡ faults.Memory };

    fn from(_error: AllocFailed<T>) -> CallFault {
        CallFault::Memory
    }
}
