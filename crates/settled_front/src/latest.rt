ghost use Rattle.std.specs.Prelude.{◌≡◌, ◌<◌, ◌↔◌, ◌++◌, ◌∷◌, [], length, map, take, IfOk, IsTrue};
ghost use Rattle.settled_front.specs.Blocks.{AreFirst, block_size};
ghost use Rattle.settled_front.specs.Fronts.{IsCovered};

use crate::block::CostBlock;
use crate::narrow_block::NarrowBlock;
use crate::wide_block::WideBlock;
use cost_vector::CompactCost;
use out_of_memory::OutOfMemory;
use std::marker::Model;
use stored_cost::{StoredCost, WideCost};

/// The latest costs of a front, at most sixteen: they stand in the first lanes of a block. What stands in the others counts for
/// nothing.
#[derive(Drop)]
pub(crate) struct LatestCosts<const D: usize, B: CostBlock<D>> {
    block: B,
    count: usize,
}

impl<const D: usize, B: CostBlock<D>> Model for LatestCosts<D, B> {
    ghost use Rattle.std.specs.Prelude.{ℕ, List, take};
    ghost use Rattle.settled_front.specs.Blocks.{AreFirst};

    ghost Value = { List (List ℕ) };

    ghost view = { λ l. take l.count (B.costs l.block) };

    ghost invariant = { λ l. AreFirst l.count (B.costs l.block) };
}

impl<const D: usize, B: CostBlock<D>> LatestCosts<D, B> {
    /// No costs.
    pub(crate) fn new() -> LatestCosts<D, B>
        ensures { result ≡ [] }
    {
        LatestCosts {
            block: B::blank(),
            count: 0,
        }
    }

    /// How many there are.
    pub(crate) fn len(&self) -> usize
        ensures { result ≡ length self.now }
    {
        self.count
    }

    /// Whether one of them is at most this one.
    #[tactic(auto, using(crate::proofs::BlockLanes::covered_before))]
    pub(crate) fn covers(&self, cost: &B::Cost) -> bool
        ensures { IsTrue result ↔ IsCovered self.now (B.Cost.components cost.now) }
    {
        self.block.lanes_at_most(cost).has_one_before(self.count)
    }

    /// Adds one.
    pub(crate) fn push(&mut self, cost: &B::Cost)
        requires { length self.old < block_size }
        ensures { self.new ≡ self.old ++ B.Cost.components cost.now ∷ [] }
    {
        self.block.set(self.count, cost);
        self.count += 1;
    }

    /// Lets all of them go.
    pub(crate) fn clear(&mut self)
        ensures { self.new ≡ [] }
    {
        self.count = 0;
    }

    /// Adds them to a list.
    pub(crate) fn list(&self, list: &mut Vec<CompactCost<D>>) -> Result<(), OutOfMemory>
        ensures { IfOk result (λ _.
            map (λ c. c.0) list.new.items ≡ map (λ c. c.0) list.old.items ++ self.now) }
    {
        list_first(&self.block, self.count, list)
    }

    /// Adds them to others.
    pub(crate) fn take(&self, costs: &mut Vec<B::Cost>) -> Result<(), OutOfMemory>
        ensures { IfOk result (λ _. map B.Cost.components costs.new.items
            ≡ map B.Cost.components costs.old.items ++ self.now) }
    {
        take_first(&self.block, self.count, costs)
    }
}

/// Adds so many costs of a block, the first ones, to a list.
pub(crate) fn list_first<const D: usize, B: CostBlock<D>>(
    block: &B,
    count: usize,
    list: &mut Vec<CompactCost<D>>,
) -> Result<(), OutOfMemory>
    requires { AreFirst count (B.costs block.now) }
    ensures first { IfOk result (λ _. map (λ c. c.0) list.new.items
        ≡ map (λ c. c.0) list.old.items ++ take count (B.costs block.now)) }
    ensures all { IfOk result (λ _. count ≡ block_size
        → map (λ c. c.0) list.new.items ≡ map (λ c. c.0) list.old.items ++ B.costs block.now) }
{
    for lane in 0..count {
        list.push(block.cost(lane).to_compact())?;
    }
    Ok(())
}

/// Adds so many costs of a block, the first ones, to others.
pub(crate) fn take_first<const D: usize, B: CostBlock<D>>(
    block: &B,
    count: usize,
    costs: &mut Vec<B::Cost>,
) -> Result<(), OutOfMemory>
    requires { AreFirst count (B.costs block.now) }
    ensures first { IfOk result (λ _. map B.Cost.components costs.new.items
        ≡ map B.Cost.components costs.old.items ++ take count (B.costs block.now)) }
    ensures all { IfOk result (λ _. count ≡ block_size → map B.Cost.components costs.new.items
        ≡ map B.Cost.components costs.old.items ++ B.costs block.now) }
{
    for lane in 0..count {
        costs.push(block.cost(lane))?;
    }
    Ok(())
}

impl<const D: usize> LatestCosts<D, NarrowBlock<D>> {
    /// The same costs at 64 bits.
    pub(crate) fn widen(&self) -> LatestCosts<D, WideBlock<D>>
        ensures { result ≡ self.now }
    {
        widen_first(&self.block, self.count)
    }
}

/// So many costs of a block, the first ones, at 64 bits.
pub(crate) fn widen_first<const D: usize>(
    block: &NarrowBlock<D>,
    count: usize,
) -> LatestCosts<D, WideBlock<D>>
    requires { AreFirst count block.now }
    ensures { result ≡ take count block.now }
{
    let mut wide = LatestCosts::new();
    for lane in 0..count {
        wide.push(&WideCost::of(&block.cost(lane).to_compact().0));
    }
    wide
}
