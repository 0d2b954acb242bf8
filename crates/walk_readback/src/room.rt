ghost use Rattle.std.specs.Prelude.{◌≡◌, ◌≤◌, ◌<◌, ◌++◌, ◌∷◌, [], length, max, reverse, IfOk, OnOk};

use cost_vector::ArcNo;
use out_of_memory::OutOfMemory;
use std::alloc::Global;
use std::marker::Model;

/// Room for the arcs of one walk, to be used again for the next.
#[derive(Debug, Drop)]
pub struct Room {
    arcs: Vec<ArcNo>,
}

impl Model for Room {
    ghost use Rattle.std.specs.Prelude.{vec_capacity};
    ghost use Rattle.walk_readback.specs.Room.{Room};

    ghost Value = { Room };

    ghost view = { λ r. record { arcs = r.arcs.items; holds = vec_capacity r.arcs } };
}

impl Room {
    /// Room for walks of at most so many arcs.
    pub fn with(alloc: Global, longest: u32) -> Result<Room, OutOfMemory>
        ensures none { IfOk result (λ room. room.arcs ≡ []) }
        ensures room { IfOk result (λ room. longest ≤ room.holds) }
    {
        let arcs = Vec::with_capacity(alloc, longest as usize)?;
        Ok(Room { arcs })
    }

    /// Makes room for walks of at most so many arcs, and no more than that where it has to grow. The walk that was there is gone.
    pub fn make_room(&mut self, longest: u32) -> Result<(), OutOfMemory>
        ensures room { OnOk result (longest ≤ self.new.holds) }
        ensures no_more { self.new.holds ≤ max self.old.holds longest }
    {
        self.arcs.clear();
        self.arcs.reserve_exact(longest as usize)?;
        Ok(())
    }

    /// The arcs of the walk that was read back last, from its first on.
    pub fn arcs(&self) -> &[ArcNo]
        ensures { result.now ≡ self.now.arcs }
    {
        &self.arcs
    }

    /// Takes out all arcs.
    pub(crate) fn clear(&mut self)
        ensures none { self.new.arcs ≡ [] }
        ensures room { self.new.holds ≡ self.old.holds }
    {
        self.arcs.clear();
    }

    /// Puts an arc behind the others.
    pub(crate) fn push(&mut self, arc: ArcNo)
        requires { length self.old.arcs < self.old.holds }
        ensures arcs { self.new.arcs ≡ self.old.arcs ++ arc ∷ [] }
        ensures room { self.old.holds ≤ self.new.holds }
    {
        self.arcs.push_reserved(arc);
    }

    /// Turns the list of arcs round.
    pub(crate) fn reverse(&mut self)
        ensures arcs { self.new.arcs ≡ reverse self.old.arcs }
        ensures room { self.new.holds ≡ self.old.holds }
    {
        self.arcs.reverse();
    }
}
