ghost use Rattle.std.specs.Prelude.{◌≡◌, ◌<◌, ◌≤◌, ◌++◌, ◌∷◌, length, IfOk, IsPermutation, OnErr};
ghost use Rattle.settled_front.specs.Blocks.{block_size};
ghost use Rattle.settled_front.specs.Fronts.{IsCovered};

use crate::block::{BLOCK, CostBlock};
use crate::cornered::CorneredBlocks;
use crate::front::{NarrowFront, SettledFront};
use crate::latest::LatestCosts;
use crate::narrow_block::NarrowBlock;
use crate::wide_block::WideBlock;
use cost_vector::CompactCost;
use out_of_memory::OutOfMemory;
use std::alloc::Global;
use std::marker::Model;

/// The settled costs of a node under 3 or 4 criteria, in blocks of sixteen that have corners, but for the latest ones.
#[derive(Drop)]
pub struct BlockFront<const D: usize, B: CostBlock<D>> {
    blocks: CorneredBlocks<D, B>,
    latest: LatestCosts<D, B>,
    len: usize,
}

impl<const D: usize, B: CostBlock<D>> Model for BlockFront<D, B> {
    ghost use Rattle.std.specs.Prelude.{ℕ, ◌++◌, List};
    ghost use Rattle.settled_front.specs.Corners.{IsBlockFront};

    ghost Value = { List (List ℕ) };

    ghost view = { λ f. f.blocks ++ f.latest };

    ghost invariant = { λ f. IsBlockFront f.blocks f.latest f.len };
}

impl<const D: usize, B: CostBlock<D>> SettledFront<D> for BlockFront<D, B> {
    type Cost = B::Cost;

    ghost costs = { λ f. f };

    fn new(alloc: Global) -> BlockFront<D, B> {
        BlockFront {
            blocks: CorneredBlocks::new(alloc),
            latest: LatestCosts::new(),
            len: 0,
        }
    }

    fn len(&self) -> usize {
        self.len
    }

    fn covers(&self, cost: &B::Cost) -> bool {
        self.latest.covers(cost) || self.blocks.covers(cost)
    }

    fn push(&mut self, cost: &B::Cost) -> Result<(), OutOfMemory> {
        self.add(cost)
    }

    fn to_costs(&self, alloc: Global) -> Result<Vec<CompactCost<D>>, OutOfMemory> {
        let mut list = Vec::new(alloc);
        self.blocks.list(&mut list)?;
        self.latest.list(&mut list)?;
        list.sort_unstable();
        Ok(list)
    }
}

impl<const D: usize, B: CostBlock<D>> BlockFront<D, B> {
    /// Adds a cost that none there is at most. It may dominate some, which stay.
    pub fn add(&mut self, cost: &B::Cost) -> Result<(), OutOfMemory>
        requires { ¬ IsCovered self.old (B.Cost.components cost.now) }
        ensures added { IfOk result (λ _.
            IsPermutation (B.Cost.components cost.now ∷ self.old) self.new) }
        ensures same { OnErr result (self.new ≡ self.old) }
    {
        make_room(&mut self.blocks, &mut self.latest)?;
        self.latest.push(cost);
        self.len = self.len.saturating_add(1);
        // The only latest cost comes where a block was just made.
        self.blocks.order_last(self.latest.len() == 1);
        Ok(())
    }
}

/// Makes a block of the latest costs, if they fill one.
fn make_room<const D: usize, B: CostBlock<D>>(
    blocks: &mut CorneredBlocks<D, B>,
    latest: &mut LatestCosts<D, B>,
) -> Result<(), OutOfMemory>
    requires { length latest.old ≤ block_size }
    ensures room { IfOk result (λ _. length latest.new < block_size) }
    ensures few { length latest.new ≤ block_size }
    ensures same { blocks.new ++ latest.new ≡ blocks.old ++ latest.old }
{
    if latest.len() == BLOCK {
        blocks.append_latest(latest)?;
        latest.clear();
    }
    Ok(())
}

impl<const D: usize> NarrowFront<D> for BlockFront<D, NarrowBlock<D>> {
    type Wide = BlockFront<D, WideBlock<D>>;

    fn widen(&self, alloc: Global) -> Result<BlockFront<D, WideBlock<D>>, OutOfMemory> {
        Ok(BlockFront {
            blocks: self.blocks.widen(alloc)?,
            latest: self.latest.widen(),
            len: self.len,
        })
    }
}
