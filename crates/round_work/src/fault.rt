use out_of_memory::OutOfMemory;
use std::alloc::{AllocError, AllocFailed};

/// Why there are no candidates.
#[derive(Clone, Copy, Debug, PartialEq, Eq)]
pub enum RelaxFault {
    /// Memory ran out.
    OutOfMemory(OutOfMemory),
    /// A candidate's cost has no room at the width of the taken costs.
    TooWide,
}

impl From<OutOfMemory> for RelaxFault {
    ghost use Rattle.std.specs.Prelude.{◌≡◌};
    ghost use Rattle.round_work.specs.declared.fault.RelaxFault.TheVariants as fault;

    ghost from_gives = { λ want e. e ≡ fault.OutOfMemory want };

    fn from(want: OutOfMemory) -> RelaxFault {
        RelaxFault::OutOfMemory(want)
    }
}

impl From<AllocError> for RelaxFault {
    ghost use Rattle.std.specs.Prelude.{◌≢◌};
    ghost use Rattle.round_work.specs.declared.fault.RelaxFault.TheVariants as fault;

    ghost from_gives = { λ _ e. e ≢ fault.TooWide };

    fn from(want: AllocError) -> RelaxFault {
        RelaxFault::OutOfMemory(want.into())
    }
}

impl<T: Drop> From<AllocFailed<T>> for RelaxFault {
    ghost use Rattle.std.specs.Prelude.{◌≢◌};
    ghost use Rattle.round_work.specs.declared.fault.RelaxFault.TheVariants as fault;

    ghost from_gives = { λ _ e. e ≢ fault.TooWide };

    fn from(want: AllocFailed<T>) -> RelaxFault {
        RelaxFault::OutOfMemory(want.into())
    }
}
