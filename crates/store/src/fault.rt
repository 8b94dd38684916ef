//! Why a store's call failed.

ghost use Rattle.std.specs.Prelude.{◌≡◌, Some};
ghost use Rattle.store.specs.Fault.{fault_name, fault_number};

use std::fmt;
use terms::memory::Memory;

/// Why a store's call failed. After any of these the content is as it was.
#[derive(Clone, Copy, Debug, PartialEq, Eq)]
pub enum StoreFault {
    /// Memory ran out.
    Memory,
    /// The medium refused.
    Refused,
    /// The medium holds what no store of this kind has written.
    Damaged,
}

impl StoreFault {
    /// The fault's number in messages.
    pub fn number(self) -> u8
        ensures { result ≡ fault_number self }
    {
        match self {
            StoreFault::Memory => 1,
            StoreFault::Refused => 2,
            StoreFault::Damaged => 3,
        }
    }
}

impl fmt::Display for StoreFault {
    ghost output = { λ fault. Some (fault_name fault) };

    fn fmt<W: fmt::Write>(&self, f: &mut fmt::Formatter<W>) -> fmt::Result {
        match self {
            StoreFault::Memory => f.write_str("Memory"),
            StoreFault::Refused => f.write_str("Refused"),
            StoreFault::Damaged => f.write_str("Damaged"),
        }
    }
}

impl std::error::Error for StoreFault {}

impl From<Memory> for StoreFault {
    ghost use Rattle.std.specs.Prelude.{◌≡◌};
    ghost use Rattle.store.specs.declared.fault.StoreFault.TheVariants as faults;

    ghost from_gives = { λ _ fault. fault ≡ faults.Memory };

    fn from(_error: Memory) -> StoreFault {
        StoreFault::Memory
    }
}
