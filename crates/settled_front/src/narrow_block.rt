ghost use Rattle.std.specs.Prelude.{◌≡◌, ◌^◌, ◌<◌, length, All};
ghost use Rattle.settled_front.specs.Blocks.{AreAtMost, AreUnmarked, MarksRow, block_size};

use crate::block::{BLOCK, CostBlock};
use crate::lanes::Lanes;
use std::marker::Model;
use std::simd::prelude::*;
use stored_cost::{NarrowCost, Part, StoredCost};

/// Sixteen costs in 32 bits a component, laid out in one row for each component.
#[derive(Drop)]
pub struct NarrowBlock<const D: usize> {
    rows: [[u32; BLOCK]; D],
}

impl<const D: usize> Model for NarrowBlock<D> {
    ghost use Rattle.std.specs.Prelude.{ℕ, ◌^◌, List};
    ghost use Rattle.settled_front.specs.Blocks.{IsBlock, lane_costs};

    ghost Value = { List (List ℕ) };

    ghost view = { λ b. lane_costs D b.rows };

    ghost invariant = { λ b. IsBlock D (2 ^ 31) b.rows };
}

impl<const D: usize> CostBlock<D> for NarrowBlock<D> {
    type Cost = NarrowCost<D>;

    ghost costs = { λ b. b };

    #[tactic(auto, using(crate::proofs::BlockLanes::same_lanes))]
    fn blank() -> NarrowBlock<D> {
        NarrowBlock {
            rows: [[(1 << 31) - 1; BLOCK]; D],
        }
    }

    fn set(&mut self, lane: usize, cost: &NarrowCost<D>) {
        // Whoever reads the components knows how many they are.
        let _ = cost.to_compact();
        for k in 0..D {
            self.rows[k][lane] = cost.part(k);
        }
    }

    #[tactic(auto, using(crate::proofs::BlockLanes::covered_by_lane))]
    fn covers(&self, cost: &NarrowCost<D>) -> bool {
        self.lanes(cost).has_one_before(BLOCK)
    }

    #[inline(always)]
    fn lanes_at_most(&self, cost: &NarrowCost<D>) -> Lanes {
        self.lanes(cost)
    }

    fn cost(&self, lane: usize) -> NarrowCost<D> {
        let mut numbers = [0; D];
        for (k, number) in numbers.iter_mut().enumerate() {
            *number = self.rows[k][lane].to_number();
        }
        NarrowCost::of(&numbers)
    }
}

impl<const D: usize> NarrowBlock<D> {
    /// The lanes whose cost is at most this one.
    #[tactic(auto, using(crate::proofs::BlockLanes::length_lanes))]
    #[inline(always)]
    fn lanes(&self, cost: &NarrowCost<D>) -> Lanes
        ensures at_most { AreAtMost self.now cost.now result }
        ensures full { length self.now ≡ block_size }
    {
        // Whoever reads the components knows how many they are.
        let _ = cost.to_compact();
        let mut over = [0; BLOCK];
        for (k, row) in self.rows.iter().enumerate() {
            mark_row(&mut over, cost.part(k), row);
        }
        unmarked_lanes(&over)
    }
}

/// Marks also where the component is less than that of the row.
fn mark_row(over: &mut [u32; BLOCK], component: u32, row: &[u32; BLOCK])
    requires component_fits { component < 2 ^ 31 }
    requires row_fits { All (λ x. x < 2 ^ 31) row.now }
    ensures { MarksRow over.old component row.now over.new }
{
    for lane in 0..BLOCK {
        over[lane] = over[lane].mark_less(component, row[lane]);
    }
}

/// The lanes that bear no mark.
#[tactic(auto, using(crate::proofs::LaneBits::mask_unmarked))]
fn unmarked_lanes(marks: &[u32; BLOCK]) -> Lanes
    ensures { AreUnmarked marks.now result }
{
    let unmarked = u32x16::from_array(*marks).simd_lt(u32x16::splat(1 << 31));
    Lanes::of(unmarked.to_bitmask() as u16)
}
