ghost use Rattle.std.specs.Prelude.{◌≡◌, ◌++◌, map, IfOk};
ghost use Rattle.waiting_item.specs.Waiting.{as_waiting, spot_in, spot_of};
ghost use Rattle.round_work.specs.Groups.{AscendByNode};
ghost use Rattle.round_work.specs.Pieces.{all_of};
ghost use Rattle.round_work.specs.Survivors.{KeepsNeeded, KeepsSurvivors};

use crate::groups::{list_groups, sort_by_node};
use crate::runs::{GroupRuns, run_size};
use out_of_memory::OutOfMemory;
use std::alloc::Global;
use std::thread::Threads;
use stored_cost::StoredCost;
use waiting_item::Item;
use waiting_queue::Look;
use work_claim::{Gate, OpenGate, Phase, Workers, run_pieces};

/// Keeps of the candidates exactly those spots that are open and that no other open candidate of their node dominates, each
/// once, for every number of workers. The candidates of each node are a group, which passes the gate before it is merged;
/// workers draw runs of groups.
pub fn merge<
    const D: usize,
    C: StoredCost<D> + Send + Sync,
    K: Look<D, C> + Sync,
    R: Threads + Sync,
    G: Gate,
>(
    workers: &Workers<'_, R, G>,
    alloc: Global,
    look: &K,
    candidates: &mut Vec<Item<C>>,
) -> Result<(), OutOfMemory>
where
    C::Part: Send + Sync,
    ensures { IfOk result (λ _. KeepsSurvivors spot_of (K.IsOpen look.now)
        (map (as_waiting C.components) candidates.old.items)
        (map (as_waiting C.components) candidates.new.items)) }
{
    sort_by_node(workers, candidates);
    let lists = merge_sorted(workers, alloc, look, candidates)?;
    candidates.clear();
    append_all(&lists, candidates)
}

/// Has the workers merge runs of the groups of sorted candidates, and lists what is kept of each run.
fn merge_sorted<
    const D: usize,
    C: StoredCost<D> + Send + Sync,
    K: Look<D, C> + Sync,
    R: Threads + Sync,
    G: Gate,
>(
    workers: &Workers<'_, R, G>,
    alloc: Global,
    look: &K,
    sorted: &[Item<C>],
) -> Result<Vec<Vec<Item<C>>>, OutOfMemory>
where
    C::Part: Send + Sync,
    requires { AscendByNode sorted.now }
    ensures { IfOk result (λ lists. KeepsNeeded (spot_in C.components) (K.IsOpen look.now)
        sorted.now (all_of lists.items)) }
{
    let groups = list_groups(alloc, sorted)?;
    let size = run_size(groups.len(), workers);
    let runs = GroupRuns {
        alloc,
        gate: workers.gate(),
        look,
        groups: &groups,
        size,
    };
    let pieces = runs.count();
    prove!(pieces <= 1 << 10);
    let ungated = workers.with_gate(&OpenGate);
    run_pieces(&ungated, alloc, pieces, Phase::Merge, &runs)
}

/// Appends all lists.
fn append_all<C: Copy>(lists: &[Vec<Item<C>>], all: &mut Vec<Item<C>>) -> Result<(), OutOfMemory>
    ensures { IfOk result (λ _. all.new.items ≡ all.old.items ++ all_of lists.now) }
{
    for list in lists {
        all.extend_from_slice(list)?;
    }
    Ok(())
}
