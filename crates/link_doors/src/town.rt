ghost use Rattle.std.specs.Prelude.{◌≡◌, ℕ, List, map, length, false};
ghost use Rattle.link_doors.specs.Towns.{AreNumbered, Listens, TakesBack, TownState, doors_shown};

use crate::Door;
use out_of_memory::OutOfMemory;
use std::alloc::AllocError;
use thiserror::Error;

/// Why a town doesn't listen.
#[derive(Clone, Copy, Debug, PartialEq, Eq, Error)]
pub enum TownFault {
    #[error("the town failed")]
    Failed,
    #[error("the town is out of memory")]
    OutOfMemory(OutOfMemory),
}

impl From<AllocError> for TownFault {
    ghost use Rattle.std.specs.Prelude.{◌≢◌};
    ghost use Rattle.link_doors.specs.declared.town.TownFault.TheVariants as town;

    ghost from_gives = { λ _ fault. fault ≢ town.Failed };

    fn from(want: AllocError) -> TownFault {
        TownFault::OutOfMemory(want.into())
    }
}

/// What listens at two addresses, one for sessions and one for their operator.
pub trait Town {
    type Door: Door + Send;

    /// How often the town has failed, whether it was asked, and its doors.
    ghost state: { Self → TownState };

    /// Which addresses and counts of lanes and links it may be asked for: a fixed test of the type.
    ghost admits: { List ℕ → List ℕ → ℕ → ℕ → Type 0 };

    /// Listens, and hands out a door for the operator, which stands first, and one for each lane of sessions. Each gives at
    /// most so many links.
    fn listen(
        &mut self,
        sessions: &str,
        operator: &str,
        lanes: u32,
        links: u32,
    ) -> Result<Vec<Self::Door>, TownFault>
        requires admitted { admits sessions.now operator.now lanes links }
        requires unasked { (state self.old).asked ≡ false }
        ensures { Listens (state self.old) (state self.new) lanes links
            (doors_shown Self.Door.state result) };

    /// Takes the doors back that it handed out.
    fn take_back(&mut self, doors: Vec<Self::Door>)
        requires all { length doors.items ≡ (state self.old).lent }
        requires places { AreNumbered (map Self.Door.state doors.items) }
        ensures { TakesBack (state self.old) (state self.new)
            (map Self.Door.state doors.items) };
}
