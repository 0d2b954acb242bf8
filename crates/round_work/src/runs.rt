//! Runs of consecutive groups, which workers draw in place of single groups.
ghost use Rattle.std.specs.Prelude.{◌≡◌, ℕ, ◌-◌, ◌*◌, ◌<◌, ◌≤◌, false, length, map, Any, IfOk, IsPermutation, IsTrue};
ghost use Rattle.std.specs.List.{AllWithin};
ghost use Rattle.cost_vector.specs.Costs.{AtMost};
ghost use Rattle.waiting_queue.specs.Taking.{AreSorted};
ghost use Rattle.waiting_item.specs.Waiting.{spot_in};
ghost use Rattle.round_work.specs.Groups.{CanMergeRun, HaveOneNode, joined, run_of, runs_per_worker};
ghost use Rattle.round_work.specs.Pieces.{Appends};
ghost use Rattle.round_work.specs.Survivors.{KeepsNeeded};

use crate::pieces::cut;
use out_of_memory::OutOfMemory;
use std::alloc::Global;
use stored_cost::StoredCost;
use waiting_item::Item;
use waiting_queue::Look;
use work_claim::{Gate, Job, Phase, Workers};

/// At most so many runs come to each worker on the average: so many that the work is shared evenly, and so few that it takes
/// little to share it.
const RUNS_PER_WORKER: usize = 8;

/// How many groups are a run.
pub(crate) fn run_size<R, G>(groups: usize, workers: &Workers<'_, R, G>) -> usize
    ensures some { 1 ≤ result }
    ensures enough { groups ≤ result * (workers.now.count * runs_per_worker) }
    ensures least { 1 < result → (result - 1) * (workers.now.count * runs_per_worker) < groups }
    ensures workers { workers.now.count ≤ 64 }
{
    let runs = workers.count() as usize * RUNS_PER_WORKER;
    groups.div_ceil(runs).max(1)
}

/// Groups that are to be merged over fronts that stand still. So many consecutive ones are a run, which one worker merges;
/// each group passes the gate by its number.
#[derive(Drop)]
pub(crate) struct GroupRuns<'c, const D: usize, C: StoredCost<D>, K: Look<D, C>, G> {
    pub alloc: Global,
    pub gate: &'c G,
    pub look: &'c K,
    pub groups: &'c [&'c [Item<C>]],
    pub size: usize,
}

impl<const D: usize, C: StoredCost<D>, K: Look<D, C>, G> GroupRuns<'_, D, C, K, G> {
    /// How many runs there are.
    pub(crate) fn count(&self) -> usize
        requires { 1 ≤ self.now.size }
        ensures each { (i : ℕ) → i < result → i * self.now.size < length self.now.groups.now }
        ensures all { length self.now.groups.now ≤ result * self.now.size }
    {
        self.groups.len().div_ceil(self.size)
    }
}

impl<const D: usize, C: StoredCost<D> + Send + Sync, K: Look<D, C> + Sync, G: Gate> Job
    for GroupRuns<'_, D, C, K, G>
where
    C::Part: Send + Sync,
{
    type Out = Vec<Item<C>>;

    ghost accepts = { λ job run. CanMergeRun job.size (map (λ g. g.now) job.groups.now) run };

    ghost gives = { λ job run out. KeepsNeeded (spot_in C.components) (K.IsOpen job.look.now)
        (joined (run_of job.size (map (λ g. g.now) job.groups.now) run)) out.items };

    fn run(&self, piece: usize) -> Result<Vec<Item<C>>, OutOfMemory> {
        let first = piece * self.size;
        let mut order = Vec::new(self.alloc);
        let mut kept = Vec::new(self.alloc);
        for (i, group) in cut(self.groups, first, self.size).iter().enumerate() {
            self.gate.pass(Phase::Merge, (first + i) as u64);
            merge_group(self.look, group, &mut order, &mut kept)?;
        }
        Ok(kept)
    }
}

/// Appends what is kept of a group. What the order held before is gone.
#[tactic(auto, using(crate::proofs::SurvivorLemmas::appends_moved))]
fn merge_group<const D: usize, C: StoredCost<D>, K: Look<D, C>>(
    look: &K,
    group: &[Item<C>],
    order: &mut Vec<Item<C>>,
    kept: &mut Vec<Item<C>>,
) -> Result<(), OutOfMemory>
    requires { HaveOneNode group.now }
    ensures { IfOk result (λ _. Appends (KeepsNeeded (spot_in C.components) (K.IsOpen look.now)
        group.now) kept.old.items kept.new.items) }
{
    list_sorted(group, order)?;
    keep_survivors(look, order, kept)
}

/// Lists the items in order. What the list held before is gone.
fn list_sorted<const D: usize, C: StoredCost<D>>(
    items: &[Item<C>],
    list: &mut Vec<Item<C>>,
) -> Result<(), OutOfMemory>
    ensures same { IfOk result (λ _. IsPermutation items.now list.new.items) }
    ensures sorted { IfOk result (λ _. AreSorted (spot_in C.components) list.new.items) }
{
    list.clear();
    list.extend_from_slice(items)?;
    list.sort_unstable();
    Ok(())
}

/// Appends what is kept of candidates of one node. Since they are sorted, none dominates an earlier one.
#[tactic(auto, using(crate::proofs::OnwardLemmas::appends_none, crate::proofs::SurvivorLemmas::keeps_none))]
fn keep_survivors<const D: usize, C: StoredCost<D>, K: Look<D, C>>(
    look: &K,
    sorted: &[Item<C>],
    kept: &mut Vec<Item<C>>,
) -> Result<(), OutOfMemory>
    requires one_node { HaveOneNode sorted.now }
    requires sorted { AreSorted (spot_in C.components) sorted.now }
    ensures { IfOk result (λ _. Appends (KeepsNeeded (spot_in C.components) (K.IsOpen look.now)
        sorted.now) kept.old.items kept.new.items) }
{
    let first = kept.len();
    for item in sorted {
        if !has_below(&kept[first..], item) && look.is_open(item) {
            kept.push(*item)?;
        }
    }
    Ok(())
}

/// Whether one of the items costs at most as much as this one.
fn has_below<const D: usize, C: StoredCost<D>>(items: &[Item<C>], item: &Item<C>) -> bool
    ensures some { IsTrue result
        → Any (λ k. AtMost (C.components k.cost) (C.components item.now.cost)) items.now }
    ensures none { result ≡ false
        → AllWithin (λ k. ¬ AtMost (C.components k.cost) (C.components item.now.cost))
        items.now 0 (length items.now) }
{
    for other in items {
        if other.cost.at_most(&item.cost) {
            return true;
        }
    }
    false
}
