use out_of_memory::OutOfMemory;
use std::alloc::AllocFailed;

/// Why a search couldn't go on, but for its budget.
#[derive(Clone, Copy, Debug, PartialEq, Eq)]
pub enum StoreFault {
    /// There was no memory for it.
    OutOfMemory(OutOfMemory),
    /// It has no room at this width.
    TooWide,
}

/// Why a search didn't find all.
#[derive(Clone, Copy, Debug, PartialEq, Eq)]
pub enum SweepFault {
    /// There was no memory for more.
    OutOfMemory(OutOfMemory),
    /// More is relevant than the budget allows.
    Budget,
    /// A cost has no room at this width.
    TooWide,
}

impl From<OutOfMemory> for StoreFault {
    ghost use Rattle.std.specs.Prelude.{◌≡◌};
    ghost use Rattle.sweep_core.specs.declared.fault.StoreFault.TheVariants as fault;

    ghost from_gives = { λ want e. e ≡ fault.OutOfMemory want };

    fn from(want: OutOfMemory) -> StoreFault {
        StoreFault::OutOfMemory(want)
    }
}

impl<T: Drop> From<AllocFailed<T>> for StoreFault {
    ghost use Rattle.std.specs.Prelude.{◌≢◌};
    ghost use Rattle.sweep_core.specs.declared.fault.StoreFault.TheVariants as fault;

    ghost from_gives = { λ _ e. e ≢ fault.TooWide };

    fn from(want: AllocFailed<T>) -> StoreFault {
        StoreFault::OutOfMemory(want.into())
    }
}

impl From<OutOfMemory> for SweepFault {
    ghost use Rattle.std.specs.Prelude.{◌≡◌};
    ghost use Rattle.sweep_core.specs.declared.fault.SweepFault.TheVariants as fault;

    ghost from_gives = { λ want e. e ≡ fault.OutOfMemory want };

    fn from(want: OutOfMemory) -> SweepFault {
        SweepFault::OutOfMemory(want)
    }
}

impl From<StoreFault> for SweepFault {
    ghost use Rattle.std.specs.Prelude.{◌≡◌};
    ghost use Rattle.sweep_core.specs.Faults.{fault_of};

    ghost from_gives = { λ f e. e ≡ fault_of f };

    fn from(fault: StoreFault) -> SweepFault {
        match fault {
            StoreFault::OutOfMemory(want) => SweepFault::OutOfMemory(want),
            StoreFault::TooWide => SweepFault::TooWide,
        }
    }
}
