//! Why nothing has happened.

ghost use Rattle.std.specs.Prelude.{◌≡◌};
ghost use Rattle.world.specs.Fault.{is_memory};

use desk::refusal::Refusal;
use site::fault::SiteFault;
use std::alloc::AllocFailed;
use terms::memory::Memory;

/// Why nothing has happened. All machines are as they were.
#[derive(Clone, Copy, Debug, PartialEq, Eq)]
pub enum Fault {
    /// The coordinator refused.
    Desk(Refusal),
    /// A site refused.
    Site(SiteFault),
    /// No letter has the number, or no site the name.
    Unsent,
}

impl Fault {
    /// Whether there was no memory.
    pub(crate) fn is_memory(self) -> bool
        ensures { result ≡ is_memory self }
    {
        matches!(
            self,
            Fault::Desk(Refusal::Memory) | Fault::Site(SiteFault::Memory)
        )
    }
}

impl From<Refusal> for Fault {
    ghost use Rattle.std.specs.Prelude.{◌≡◌};
    ghost use Rattle.world.specs.declared.fault.Fault.TheVariants as faults;

    ghost from_gives = { λ refusal fault. fault ≡ faults.Desk refusal };

    fn from(refusal: Refusal) -> Fault {
        Fault::Desk(refusal)
    }
}

impl From<SiteFault> for Fault {
    ghost use Rattle.std.specs.Prelude.{◌≡◌};
    ghost use Rattle.world.specs.declared.fault.Fault.TheVariants as faults;

    ghost from_gives = { λ of_site fault. fault ≡ faults.Site of_site };

    fn from(fault: SiteFault) -> Fault {
        Fault::Site(fault)
    }
}

impl From<Memory> for Fault {
    ghost use Rattle.std.specs.Prelude.{◌≡◌};
    ghost use Rattle.desk.specs.declared.refusal.Refusal.TheVariants as refusals;
    ghost use Rattle.world.specs.declared.fault.Fault.TheVariants as faults;

    ghost from_gives = { λ _ fault. fault ≡ faults.Desk refusals.Memory };

    fn from(_error: Memory) -> Fault {
        Fault::Desk(Refusal::Memory)
    }
}

impl<T: Drop> From<AllocFailed<T>> for Fault {
    ghost use Rattle.std.specs.Prelude.{◌≡◌};
    ghost use Rattle.desk.specs.declared.refusal.Refusal.TheVariants as refusals;
    ghost use Rattle.world.specs.declared.fault.Fault.TheVariants as faults;

    ghost from_gives = { λ _ fault. fault ≡ faults.Desk refusals.Memory };

    fn from(_error: AllocFailed<T>) -> Fault {
        Fault::Desk(Refusal::Memory)
    }
}
