ghost use Rattle.std.specs.Prelude.{◌≡◌, ℕ, ◌-◌, ◌<◌, ◌↔◌, List, [], replicate, slice_index_or, slice_set, IsTrue};
ghost use Rattle.settled_front.specs.Blocks.{AreAtMost, block_size};
ghost use Rattle.settled_front.specs.Fronts.{IsCovered};

use crate::lanes::Lanes;
use stored_cost::StoredCost;

/// How many costs a block has.
pub(crate) const BLOCK: usize = 16;

/// Sixteen costs, each in a lane, which are compared with one.
pub trait CostBlock<const D: usize>: Drop {
    /// How a cost is stored.
    type Cost: StoredCost<D>;

    /// Its costs.
    ghost costs: { Self → List (List ℕ) };

    /// A block that holds the greatest cost of its width sixteen times.
    fn blank() -> Self
        ensures { costs result ≡ replicate block_size (replicate D (Self.Cost.Part.bound - 1)) };

    /// Writes the cost in a lane. The others stay.
    fn set(&mut self, lane: usize, cost: &Self::Cost)
        requires { lane < block_size }
        ensures { costs self.new ≡ slice_set (costs self.old) lane (Self.Cost.components cost.now) };

    /// Whether some cost of the block is at most this one.
    fn covers(&self, cost: &Self::Cost) -> bool
        ensures { IsTrue result ↔ IsCovered (costs self.now) (Self.Cost.components cost.now) };

    /// The lanes whose cost is at most this one.
    fn lanes_at_most(&self, cost: &Self::Cost) -> Lanes
        ensures { AreAtMost (costs self.now) (Self.Cost.components cost.now) result };

    /// The cost in a lane.
    fn cost(&self, lane: usize) -> Self::Cost
        requires { lane < block_size }
        ensures { Self.Cost.components result ≡ slice_index_or (costs self.now) lane [] };
}
