//! Why bytes are no part.

ghost use Rattle.std.specs.Prelude.{◌≡◌, Some};
ghost use Rattle.terms.specs.PartFault.{part_fault_name, part_fault_number};

use crate::memory::Memory as OutOfMemory;
use std::alloc::{AllocError, AllocFailed};
use std::fmt;

/// Why bytes are no part: the first fault from the left.
#[derive(Clone, Copy, Debug, PartialEq, Eq)]
pub enum PartFault {
    /// A byte is missing.
    Truncated,
    /// There is no such number of values, no such type of a value, or the first value is a text.
    BadTag,
    /// A text is too long, or is none that a database holds.
    BadText,
    /// Bytes stand after the last value.
    Trailing,
    /// Memory ran out.
    Memory,
}

impl PartFault {
    /// The fault's number in messages.
    pub fn number(self) -> u8
        ensures { result ≡ part_fault_number self }
    {
        match self {
            PartFault::Truncated => 1,
            PartFault::BadTag => 2,
            PartFault::BadText => 3,
            PartFault::Trailing => 4,
            PartFault::Memory => 5,
        }
    }
}

impl fmt::Display for PartFault {
    ghost output = { λ fault. Some (part_fault_name fault) };

    fn fmt<W: fmt::Write>(&self, f: &mut fmt::Formatter<W>) -> fmt::Result {
        match self {
            PartFault::Truncated => f.write_str("Truncated"),
            PartFault::BadTag => f.write_str("BadTag"),
            PartFault::BadText => f.write_str("BadText"),
            PartFault::Trailing => f.write_str("Trailing"),
            PartFault::Memory => f.write_str("Memory"),
        }
    }
}

impl std::error::Error for PartFault {}

impl From<OutOfMemory> for PartFault {
    ghost use Rattle.std.specs.Prelude.{◌≡◌};
    ghost use Rattle.terms.specs.declared.part_fault.PartFault.TheVariants as faults;

    ghost from_gives = { λ _ fault. fault ≡ faults.Memory };

    fn from(_error: OutOfMemory) -> PartFault {
        PartFault::Memory
    }
}

impl From<AllocError> for PartFault {
    ghost use Rattle.std.specs.Prelude.{◌≡◌};
    ghost use Rattle.terms.specs.declared.part_fault.PartFault.TheVariants as faults;

    ghost from_gives = { λ _ fault. fault ≡ faults.Memory };

    fn from(_error: AllocError) -> PartFault {
        PartFault::Memory
    }
}

impl<T: Drop> From<AllocFailed<T>> for PartFault {
    ghost use Rattle.std.specs.Prelude.{◌≡◌};
    ghost use Rattle.terms.specs.declared.part_fault.PartFault.TheVariants as faults;

    ghost from_gives = { λ _ fault. fault ≡ faults.Memory };

    fn from(_error: AllocFailed<T>) -> PartFault {
        PartFault::Memory
    }
}
