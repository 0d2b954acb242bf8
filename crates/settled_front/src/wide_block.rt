ghost use Rattle.std.specs.Prelude.{◌≡◌, length};
ghost use Rattle.settled_front.specs.Blocks.{AreAtMost, block_size};

use crate::block::{BLOCK, CostBlock};
use crate::lanes::Lanes;
use std::marker::Model;
use stored_cost::{StoredCost, WideCost};

/// Sixteen costs in 64 bits a component. They are rare, as they come only where a cost passes 2^31, so that they are compared one
/// after another.
#[derive(Drop)]
pub struct WideBlock<const D: usize> {
    costs: [WideCost<D>; BLOCK],
}

impl<const D: usize> Model for WideBlock<D> {
    ghost use Rattle.std.specs.Prelude.{◌≡◌, ℕ, List, length};
    ghost use Rattle.settled_front.specs.Blocks.{block_size};

    ghost Value = { List (List ℕ) };

    ghost view = { λ b. b.costs };

    ghost invariant = { λ b. length b.costs ≡ block_size };
}

impl<const D: usize> CostBlock<D> for WideBlock<D> {
    type Cost = WideCost<D>;

    ghost costs = { λ b. b };

    fn blank() -> WideBlock<D> {
        WideBlock {
            costs: [WideCost::of(&[(1 << 63) - 1; D]); BLOCK],
        }
    }

    fn set(&mut self, lane: usize, cost: &WideCost<D>) {
        self.costs[lane] = *cost;
    }

    #[tactic(auto, using(crate::proofs::BlockLanes::covered_by_lane))]
    fn covers(&self, cost: &WideCost<D>) -> bool {
        self.lanes(cost).has_one_before(BLOCK)
    }

    fn lanes_at_most(&self, cost: &WideCost<D>) -> Lanes {
        self.lanes(cost)
    }

    fn cost(&self, lane: usize) -> WideCost<D> {
        self.costs[lane]
    }
}

impl<const D: usize> WideBlock<D> {
    /// The lanes whose cost is at most this one.
    fn lanes(&self, cost: &WideCost<D>) -> Lanes
        ensures at_most { AreAtMost self.now cost.now result }
        ensures full { length self.now ≡ block_size }
    {
        let mut lanes = Lanes::of(0);
        for (lane, own) in self.costs.iter().enumerate() {
            if own.at_most(cost) {
                lanes.add(lane);
            }
        }
        lanes
    }
}
