ghost use Rattle.std.specs.Prelude.{◌≡◌, ◌+◌, ◌*◌, ◌/◌, ◌≤◌, ◌<◌, ◌↔◌, ◌++◌, ◌∷◌, ℕ, List, [], drop, length, map, slice_index_or, All, IfOk, IsPermutation, IsTrue, OnErr, vec_len, vec_capacity};
ghost use Rattle.cost_vector.specs.Costs.{AtMost, min_criteria};
ghost use Rattle.settled_front.specs.Blocks.{block_size};
ghost use Rattle.settled_front.specs.Corners.{AreCornered, CoversAmong, HasRoom, HaveCorners, in_blocks, laid_at_once};
ghost use Rattle.settled_front.specs.Fronts.{IsCovered};

use crate::block::{BLOCK, CostBlock};
use crate::lanes::Lanes;
use crate::latest::{LatestCosts, list_first, take_first, widen_first};
use crate::narrow_block::NarrowBlock;
use crate::sorting::order;
use crate::wide_block::WideBlock;
use cost_vector::CompactCost;
use out_of_memory::OutOfMemory;
use std::alloc::Global;
use std::marker::Model;
use stored_cost::StoredCost;

/// How many blocks are laid anew at once.
const LAID_AT_ONCE: usize = 8;

/// Full blocks of costs, to which further ones come. Each block has its corner, a cost that is at most each of the block's: where
/// it isn't at most a cost, the block isn't looked into. The corners of sixteen blocks stand side by side, in a block too.
#[derive(Drop)]
pub(crate) struct CorneredBlocks<const D: usize, B: CostBlock<D>> {
    blocks: Vec<B>,
    corners: Vec<B>,
    alloc: Global,
}

impl<const D: usize, B: CostBlock<D>> Model for CorneredBlocks<D, B> {
    ghost use Rattle.std.specs.Prelude.{ℕ, List, map};
    ghost use Rattle.settled_front.specs.Corners.{AreCornered, in_blocks};

    ghost Value = { List (List ℕ) };

    ghost view = { λ b. in_blocks (map B.costs b.blocks.items) };

    ghost invariant = { λ b. AreCornered D (map B.costs b.blocks.items)
        (map B.costs b.corners.items) };
}

impl<const D: usize, B: CostBlock<D>> CorneredBlocks<D, B> {
    /// No blocks.
    pub(crate) fn new(alloc: Global) -> CorneredBlocks<D, B>
        requires { min_criteria ≤ D }
        ensures { result ≡ [] }
    {
        CorneredBlocks {
            blocks: Vec::new(alloc),
            corners: Vec::new(alloc),
            alloc,
        }
    }

    /// Whether some cost is at most this one. The latest blocks are asked first.
    pub(crate) fn covers(&self, cost: &B::Cost) -> bool
        ensures { IsTrue result ↔ IsCovered self.now (B.Cost.components cost.now) }
    {
        blocks_cover(&self.blocks, &self.corners, cost)
    }

    /// Adds a block of these costs.
    pub(crate) fn append(&mut self, costs: &[B::Cost]) -> Result<(), OutOfMemory>
        requires { length costs.now ≡ block_size }
        ensures appended { IfOk result (λ _.
            self.new ≡ self.old ++ map B.Cost.components costs.now) }
        ensures same { OnErr result (self.new ≡ self.old) }
    {
        self.blocks.reserve(1)?;
        // A group takes as much memory as a block: room for one more is enough.
        self.corners.reserve_exact(1)?;
        add_block(&mut self.blocks, &mut self.corners, costs);
        Ok(())
    }

    /// Adds a block of the latest costs, which fill one.
    pub(crate) fn append_latest(&mut self, latest: &LatestCosts<D, B>) -> Result<(), OutOfMemory>
        requires { length latest.now ≡ block_size }
        ensures appended { IfOk result (λ _. self.new ≡ self.old ++ latest.now) }
        ensures same { OnErr result (self.new ≡ self.old) }
    {
        let mut costs = Vec::new(self.alloc);
        latest.take(&mut costs)?;
        self.append(&costs)
    }

    /// Where it is due and the last eight blocks are full, lays their costs anew, so that those of a block are near one another
    /// and its corner rules out more. Where there is no memory for it they stay as they are.
    pub(crate) fn order_last(&mut self, due: bool)
        ensures { IsPermutation self.old self.new }
    {
        if due {
            order_last(self.alloc, &mut self.blocks, &mut self.corners);
        }
    }

    /// Adds all costs to a list.
    #[tactic(auto, using(crate::proofs::Cornering::full_read))]
    pub(crate) fn list(&self, list: &mut Vec<CompactCost<D>>) -> Result<(), OutOfMemory>
        ensures { IfOk result (λ _.
            map (λ c. c.0) list.new.items ≡ map (λ c. c.0) list.old.items ++ self.now) }
    {
        for block in &self.blocks {
            list_first(block, BLOCK, list)?;
        }
        Ok(())
    }
}

/// Whether some cost of the blocks, which have these corners, is at most this one.
fn blocks_cover<const D: usize, B: CostBlock<D>>(
    blocks: &[B],
    corners: &[B],
    cost: &B::Cost,
) -> bool
    requires { HaveCorners (map B.costs blocks.now) (map B.costs corners.now) }
    ensures { IsTrue result
        ↔ IsCovered (in_blocks (map B.costs blocks.now)) (B.Cost.components cost.now) }
{
    for group in (0..corners.len()).rev() {
        let lanes = corners[group].lanes_at_most(cost);
        if some_cover(&blocks[group * BLOCK..], lanes, cost) {
            return true;
        }
    }
    false
}

/// Whether some cost of the blocks that stand in these lanes is at most this one. Lanes behind the last block tell of none.
fn some_cover<const D: usize, B: CostBlock<D>>(blocks: &[B], lanes: Lanes, cost: &B::Cost) -> bool
    ensures { IsTrue result
        ↔ CoversAmong (map B.costs blocks.now) lanes (B.Cost.components cost.now) }
{
    let mut rest = lanes;
    'lanes: while let Some(lane) = rest.take_one() {
        if covers_at(blocks, lane, cost) {
            return true;
        }
    }
    false
}

/// Whether there is a block at this place, some cost of which is at most this one.
fn covers_at<const D: usize, B: CostBlock<D>>(blocks: &[B], at: usize, cost: &B::Cost) -> bool
    ensures { IsTrue result
        ↔ IsCovered (slice_index_or (map B.costs blocks.now) at []) (B.Cost.components cost.now) }
{
    match blocks.get(at) {
        Some(block) => block.covers(cost),
        None => false,
    }
}

/// The greatest cost that is at most each of these.
fn corner_of<const D: usize, C: StoredCost<D>>(costs: &[C]) -> C
    requires { 0 < length costs.now }
    ensures { All (AtMost (C.components result)) (map C.components costs.now) }
{
    let mut corner = costs[0];
    for cost in costs {
        corner = corner.meet(cost);
    }
    corner
}

/// Adds a block of these costs, with its corner.
fn add_block<const D: usize, B: CostBlock<D>>(
    blocks: &mut Vec<B>,
    corners: &mut Vec<B>,
    costs: &[B::Cost],
)
    requires full { length costs.now ≡ block_size }
    requires room { HasRoom (vec_len blocks.old + 1) (vec_capacity blocks.old)
        (vec_capacity corners.old) }
    requires before { AreCornered D (map B.costs blocks.old.items) (map B.costs corners.old.items) }
    ensures after { AreCornered D (map B.costs blocks.new.items) (map B.costs corners.new.items) }
    ensures more { vec_len blocks.new ≡ vec_len blocks.old + 1 }
    ensures added { in_blocks (map B.costs blocks.new.items)
        ≡ in_blocks (map B.costs blocks.old.items) ++ map B.Cost.components costs.now }
    ensures room { (total : ℕ) → HasRoom total (vec_capacity blocks.old) (vec_capacity corners.old)
        → HasRoom total (vec_capacity blocks.new) (vec_capacity corners.new) }
{
    let corner = corner_of(costs);
    note_corner(corners, blocks, &corner);
    blocks.push_reserved(block_of(costs));
}

/// Puts the corner of the next block into the lane that follows the others.
fn note_corner<const D: usize, B: CostBlock<D>>(
    corners: &mut Vec<B>,
    blocks: &[B],
    corner: &B::Cost,
)
    requires room { length blocks.now / block_size < vec_capacity corners.old }
    requires before { HaveCorners (map B.costs blocks.now) (map B.costs corners.old.items) }
    ensures after { (block : List (List ℕ)) → All (AtMost (B.Cost.components corner.now)) block
        → HaveCorners (map B.costs blocks.now ++ block ∷ []) (map B.costs corners.new.items) }
    ensures capacity { vec_capacity corners.new ≡ vec_capacity corners.old }
{
    begin_group(corners, blocks);
    let count = blocks.len();
    corners[count / BLOCK].set(count % BLOCK, corner);
}

/// Begins a group of corners, where the others have no lane left for the next block.
fn begin_group<const D: usize, B: CostBlock<D>>(corners: &mut Vec<B>, blocks: &[B])
    requires room { length blocks.now / block_size < vec_capacity corners.old }
    requires before { HaveCorners (map B.costs blocks.now) (map B.costs corners.old.items) }
    ensures after { HaveCorners (map B.costs blocks.now) (map B.costs corners.new.items) }
    ensures more { length blocks.now / block_size < vec_len corners.new }
    ensures capacity { vec_capacity corners.new ≡ vec_capacity corners.old }
{
    if corners.len() <= blocks.len() / BLOCK {
        corners.push_reserved(B::blank());
    }
}

/// A block of sixteen costs.
fn block_of<const D: usize, B: CostBlock<D>>(costs: &[B::Cost]) -> B
    requires { length costs.now ≡ block_size }
    ensures { B.costs result ≡ map B.Cost.components costs.now }
{
    let mut block = B::blank();
    for (lane, cost) in costs.iter().enumerate() {
        block.set(lane, cost);
    }
    block
}

/// Lays the costs of the last eight blocks anew, if they are full and there is memory for it.
#[tactic(auto, using(crate::proofs::Cornering::full_behind))]
fn order_last<const D: usize, B: CostBlock<D>>(
    alloc: Global,
    blocks: &mut Vec<B>,
    corners: &mut Vec<B>,
)
    requires { AreCornered D (map B.costs blocks.old.items) (map B.costs corners.old.items) }
    ensures cornered { AreCornered D (map B.costs blocks.new.items) (map B.costs corners.new.items) }
    ensures moved { IsPermutation (in_blocks (map B.costs blocks.old.items))
        (in_blocks (map B.costs blocks.new.items)) }
{
    if blocks.is_empty() || blocks.len() % LAID_AT_ONCE != 0 {
        return;
    }
    let start = blocks.len() - LAID_AT_ONCE;
    let (_, last) = blocks.split_at(start);
    if let Ok(mut costs) = costs_of(alloc, last) {
        lay_anew(blocks, corners, start, &mut costs);
    }
}

/// Lays the last eight blocks anew, of their costs in another order.
fn lay_anew<const D: usize, B: CostBlock<D>>(
    blocks: &mut Vec<B>,
    corners: &mut Vec<B>,
    start: usize,
    costs: &mut [B::Cost],
)
    requires cornered { AreCornered D (map B.costs blocks.old.items) (map B.costs corners.old.items) }
    requires last { start + laid_at_once ≡ vec_len blocks.old }
    requires costs { map B.Cost.components costs.old
        ≡ in_blocks (drop start (map B.costs blocks.old.items)) }
    ensures cornered { AreCornered D (map B.costs blocks.new.items) (map B.costs corners.new.items) }
    ensures moved { IsPermutation (in_blocks (map B.costs blocks.old.items))
        (in_blocks (map B.costs blocks.new.items)) }
{
    order(costs);
    blocks.truncate(start);
    corners.truncate(start.div_ceil(BLOCK));
    add_blocks(blocks, corners, costs);
}

/// Adds eight blocks of these costs.
fn add_blocks<const D: usize, B: CostBlock<D>>(
    blocks: &mut Vec<B>,
    corners: &mut Vec<B>,
    costs: &[B::Cost],
)
    requires full { length costs.now ≡ laid_at_once * block_size }
    requires room { HasRoom (vec_len blocks.old + laid_at_once) (vec_capacity blocks.old)
        (vec_capacity corners.old) }
    requires before { AreCornered D (map B.costs blocks.old.items) (map B.costs corners.old.items) }
    ensures after { AreCornered D (map B.costs blocks.new.items) (map B.costs corners.new.items) }
    ensures added { in_blocks (map B.costs blocks.new.items)
        ≡ in_blocks (map B.costs blocks.old.items) ++ map B.Cost.components costs.now }
{
    for i in 0..LAID_AT_ONCE {
        let start = i * BLOCK;
        add_block(blocks, corners, &costs[start..start + BLOCK]);
    }
}

/// The costs of blocks, one after another.
#[tactic(auto, using(crate::proofs::Cornering::full_read))]
fn costs_of<const D: usize, B: CostBlock<D>>(
    alloc: Global,
    blocks: &[B],
) -> Result<Vec<B::Cost>, OutOfMemory>
    requires { All (λ block. length block ≡ block_size) (map B.costs blocks.now) }
    ensures { IfOk result (λ costs.
        map B.Cost.components costs.items ≡ in_blocks (map B.costs blocks.now)) }
{
    let mut costs = Vec::new(alloc);
    for block in blocks {
        take_first(block, BLOCK, &mut costs)?;
    }
    Ok(costs)
}

impl<const D: usize> CorneredBlocks<D, NarrowBlock<D>> {
    /// Blocks of the same costs at 64 bits.
    pub(crate) fn widen(
        &self,
        alloc: Global,
    ) -> Result<CorneredBlocks<D, WideBlock<D>>, OutOfMemory>
        ensures { IfOk result (λ wide. wide ≡ self.now) }
    {
        widen_blocks(alloc, &self.blocks)
    }
}

/// Blocks of the same costs at 64 bits.
fn widen_blocks<const D: usize>(
    alloc: Global,
    blocks: &[NarrowBlock<D>],
) -> Result<CorneredBlocks<D, WideBlock<D>>, OutOfMemory>
    requires two { min_criteria ≤ D }
    requires full { All (λ block. length block ≡ block_size) blocks.now }
    ensures { IfOk result (λ wide. wide ≡ in_blocks blocks.now) }
{
    let mut wide = CorneredBlocks::new(alloc);
    for block in blocks {
        wide.append_latest(&widen_first(block, BLOCK))?;
    }
    Ok(wide)
}
