ghost use Rattle.std.specs.Prelude.{◌≡◌, ◌≤◌, [], ◌++◌, IfOk, OnErr, map};
ghost use Rattle.waiting_queue.specs.Ranges.{all_of};
ghost use Rattle.waiting_queue.specs.Taking.{AreSorted, Counts, TakesOpenSpots};
ghost use Rattle.waiting_item.specs.Waiting.{AreCriteria, as_waiting, spot_in, spot_of};

use crate::joining::{Part, join_parts, list_rests};
use crate::ranges::{Lists, pass_ranges};
use crate::sharing::labels_of_spots;
use crate::{Look, Steps, widen_items};
use out_of_memory::OutOfMemory;
use std::alloc::Global;
use std::marker::Model;
use std::mem;
use std::sync::ledger::Ledger;
use std::thread::Threads;
use stored_cost::StoredCost;
use waiting_item::Item;
use work_claim::{Gate, Workers};

/// What waits: some of it may be stale, barred or there more than once. Most of it stands in one ascending list, and each call goes
/// through it once, in as many ranges as workers share it.
#[derive(Drop)]
pub struct Queue<const D: usize, C: StoredCost<D>> {
    items: Vec<Item<C>>,
    /// What was taken in a range of the list though an item of an earlier range dominates it. It comes in again.
    late: Vec<Item<C>>,
    /// Room for all that ranges have taken.
    all: Vec<Item<C>>,
    left: Left<C>,
}

/// Room for what a call leaves.
#[derive(Drop)]
struct Left<C> {
    items: Vec<Item<C>>,
    late: Vec<Item<C>>,
    /// Those of a call: the next one uses their memory again.
    parts: Vec<Part<C>>,
}

impl<C> Left<C> {
    fn new(alloc: Global) -> Left<C>
        ensures { result.items.items ≡ [] }
    {
        Left {
            items: Vec::new(alloc),
            late: Vec::new(alloc),
            parts: Vec::new(alloc),
        }
    }
}

impl<const D: usize, C: StoredCost<D>> Model for Queue<D, C> {
    ghost use Rattle.std.specs.Prelude.{List, ◌≤◌, ◌++◌, map};
    ghost use Rattle.waiting_queue.specs.Taking.{AreSorted};
    ghost use Rattle.waiting_item.specs.Waiting.{AreCriteria, Waiting, spot_in, as_waiting};

    ghost Value = { List Waiting };

    ghost view = { λ q. map (as_waiting C.components) (q.items.items ++ q.late.items) };

    ghost invariant = { λ q. (AreCriteria D)
        × AreSorted (spot_in C.components) q.items.items };
}

impl<const D: usize, C: StoredCost<D>> Queue<D, C> {
    /// A queue in which nothing waits.
    pub fn new(alloc: Global) -> Queue<D, C>
        requires { AreCriteria D }
        ensures { result ≡ [] }
    {
        Queue {
            items: Vec::new(alloc),
            late: Vec::new(alloc),
            all: Vec::new(alloc),
            left: Left::new(alloc),
        }
    }

    /// The same queue, with room for greater costs.
    pub fn widen<W: StoredCost<D>>(&self, alloc: Global) -> Result<Queue<D, W>, OutOfMemory>
        requires { C.Part.bound ≤ W.Part.bound }
        ensures { IfOk result (λ wide. wide ≡ self.now) }
    {
        Ok(Queue {
            items: widen_items(alloc, &self.items)?,
            late: widen_items(alloc, &self.late)?,
            all: Vec::new(alloc),
            left: Left::new(alloc),
        })
    }
}

impl<const D: usize, C: StoredCost<D> + Send + Sync> Queue<D, C>
where
    C::Part: Send + Sync,
{
    /// Lets these items in, in any order, and takes those that are open and whose cost no open one dominates, each spot
    /// once, for every number of workers. What `taken` held before is gone. A step is counted where some are taken.
    pub fn pass<K: Look<D, C> + Sync, R: Threads + Sync, G: Gate, L: Ledger>(
        &mut self,
        workers: &Workers<'_, R, G>,
        alloc: Global,
        fresh: &[Item<C>],
        look: &K,
        taken: &mut Vec<Item<C>>,
        steps: &mut Steps<L>,
    ) -> Result<(), OutOfMemory>
        ensures taken { IfOk result (λ _. TakesOpenSpots spot_of (K.IsOpen look.now)
            (self.old ++ map (as_waiting C.components) fresh.now)
            (map (as_waiting C.components) taken.new.items) self.new) }
        ensures step { IfOk result (λ _. Counts taken.new.items steps.old steps.new) }
        ensures same { OnErr result (self.new ≡ self.old) }
        ensures uncounted { OnErr result (steps.new ≡ steps.old) }
    {
        let workers = &workers.for_labels(labels_of_spots(fresh.len()));
        let lists = Lists {
            items: &self.items,
            late: &self.late,
            fresh,
        };
        let (all, left) = (&mut self.all, &mut self.left);
        pass_lists(workers, alloc, look, &lists, all, taken, left)?;
        mem::swap(&mut self.items, &mut self.left.items);
        mem::swap(&mut self.late, &mut self.left.late);
        if !taken.as_slice().is_empty() {
            steps.tick();
        }
        Ok(())
    }
}

/// Takes the open ones of these items whose cost no open one dominates, and lists apart what is left. What the lists held before
/// is gone.
fn pass_lists<
    const D: usize,
    C: StoredCost<D> + Send + Sync,
    K: Look<D, C> + Sync,
    R: Threads + Sync,
    G,
>(
    workers: &Workers<'_, R, G>,
    alloc: Global,
    look: &K,
    lists: &Lists<'_, C>,
    all: &mut Vec<Item<C>>,
    taken: &mut Vec<Item<C>>,
    left: &mut Left<C>,
) -> Result<(), OutOfMemory>
where
    C::Part: Send + Sync,
    requires criteria { AreCriteria D }
    requires sorted { AreSorted (spot_in C.components) lists.now.items.now }
    ensures taken { IfOk result (λ _. TakesOpenSpots (spot_in C.components) (K.IsOpen look.now)
        (all_of lists.now) taken.new.items (left.new.items.items ++ left.new.late.items)) }
    ensures sorted { IfOk result (λ _. AreSorted (spot_in C.components) left.new.items.items) }
{
    pass_ranges(workers, alloc, look, lists, &mut left.parts)?;
    join_parts(workers, alloc, &left.parts, all, taken, &mut left.late)?;
    list_rests(&mut left.parts, &mut left.items)
}
