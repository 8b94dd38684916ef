//! Why a site's call was refused.

ghost use Rattle.std.specs.Prelude.{◌≡◌, Some};
ghost use Rattle.site.specs.Fault.{fault_name, fault_number, fault_of};

use std::alloc::AllocFailed;
use std::fmt;
use store::fault::StoreFault;
use terms::memory::Memory;

/// Why a site's call was refused. After any of these the site is as it was.
#[derive(Clone, Copy, Debug, PartialEq, Eq)]
pub enum SiteFault {
    /// Memory ran out.
    Memory,
    /// The store failed, for another reason than memory.
    Store(StoreFault),
    /// A limit is reached.
    Full,
    /// A letter for another site, or an operation on a leaf of another site.
    Stranger,
}

impl SiteFault {
    /// The fault's number in messages.
    pub fn number(self) -> u8
        ensures { result ≡ fault_number self }
    {
        match self {
            SiteFault::Memory => 1,
            SiteFault::Store(_) => 2,
            SiteFault::Full => 3,
            SiteFault::Stranger => 4,
        }
    }
}

impl fmt::Display for SiteFault {
    ghost output = { λ fault. Some (fault_name fault) };

    fn fmt<W: fmt::Write>(&self, f: &mut fmt::Formatter<W>) -> fmt::Result {
        match self {
            SiteFault::Memory => f.write_str("Memory"),
            SiteFault::Store(_) => f.write_str("Store"),
            SiteFault::Full => f.write_str("Full"),
            SiteFault::Stranger => f.write_str("Stranger"),
        }
    }
}

impl std::error::Error for SiteFault {}

impl From<Memory> for SiteFault {
    ghost use Rattle.std.specs.Prelude.{◌≡◌};
    ghost use Rattle.site.specs.declared.fault.SiteFault.TheVariants as faults;

    ghost from_gives = { λ _ fault. fault ≡ faults.Memory };

    fn from(_error: Memory) -> SiteFault {
        SiteFault::Memory
    }
}

impl<T: Drop> From<AllocFailed<T>> for SiteFault {
    ghost use Rattle.std.specs.Prelude.{◌≡◌};
    ghost use Rattle.site.specs.declared.fault.SiteFault.TheVariants as faults;

    ghost from_gives = { λ _ fault. fault ≡ faults.Memory };

    fn from(_error: AllocFailed<T>) -> SiteFault {
        SiteFault::Memory
    }
}

/// A store's fault as the site's.
pub(crate) fn site_fault(fault: StoreFault) -> SiteFault
    ensures { result ≡ fault_of fault }
{
    match fault {
        StoreFault::Memory => SiteFault::Memory,
        _ => SiteFault::Store(fault),
    }
}
