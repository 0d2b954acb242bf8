ghost use Rattle.std.specs.Prelude.{◌≡◌, ◌<◌, ◌≤◌, ◌↔◌, ℕ, List, [], length, map, replicate, All, Contains, IfOk};
ghost use Rattle.bulk_core.specs.Settled.{IsSpentBy};
ghost use Rattle.bulk_rounds.specs.Cores.{IsNewSearch, IsSpent, Spot};
ghost use Rattle.bulk_rounds.specs.Kept.{IsFrom};
ghost use Rattle.bulk_rounds.specs.Standing.{IsAt};
ghost use Rattle.event_machine.specs.Machine.{Task, SearchState};
ghost use Rattle.road_network.specs.Answers.{IsRelevant};
ghost use Rattle.road_network.specs.Limits.{max_budget, max_nodes};
ghost use Rattle.road_network.specs.Network.{IsNode};
ghost use Rattle.settled_fronts.specs.NodeFronts.{costs_at};
ghost use Rattle.waiting_item.specs.Waiting.{AreCriteria, as_waiting, spot_in};

use crate::Settled;
use cost_vector::{Limit, NodeNo};
use out_of_memory::OutOfMemory;
use settled_front::SettledFront;
use settled_fronts::Fronts;
use std::alloc::Global;
use std::marker::Model;
use stored_cost::StoredCost;
use waiting_item::Item;
use waiting_queue::Queue;

/// A search for the best costs from a node to another, within a limit and a budget of settled spots, round by round, with costs
/// stored at one width.
///
/// A round is begun by `begin`, which settles what it takes, and ended by `finish` with what this gives along its arcs. After
/// `Begun::Done` it has found all. After an error, or `Begun::Budget`, it is only to be let go.
#[derive(Drop)]
pub struct Core<const D: usize, F: SettledFront<D>> {
    pub(crate) start: NodeNo,
    pub(crate) budget: u32,
    pub(crate) settled: Settled<D, F>,
    /// How many spots are settled.
    pub(crate) count: usize,
    pub(crate) queue: Queue<D, F::Cost>,
    /// What waits and isn't in the queue yet.
    pub(crate) fresh: Vec<Item<F::Cost>>,
    /// The items of the open round; none between rounds.
    pub(crate) taken: Vec<Item<F::Cost>>,
}

impl<const D: usize, F: SettledFront<D>> Model for Core<D, F> {
    ghost use Rattle.std.specs.Prelude.{◌++◌, map};
    ghost use Rattle.bulk_core.specs.Kept.{IsKeptCore, core_of};
    ghost use Rattle.bulk_rounds.specs.Cores.{Core};
    ghost use Rattle.waiting_item.specs.Waiting.{as_waiting, spot_in};

    ghost Value = { Core };

    ghost view = { λ c. core_of D c.start.0 c.budget c.settled
        (c.queue ++ map (as_waiting F.Cost.components) c.fresh.items)
        (map (spot_in F.Cost.components) c.taken.items) };

    ghost invariant = { λ c. IsKeptCore
        (core_of D c.start.0 c.budget c.settled
        (c.queue ++ map (as_waiting F.Cost.components) c.fresh.items)
        (map (spot_in F.Cost.components) c.taken.items))
        c.count (map (as_waiting F.Cost.components) c.taken.items) };
}

impl<const D: usize, F: SettledFront<D>> Core<D, F> {
    /// A search in which the start waits, at no cost.
    pub fn new(
        alloc: Global,
        nodes: u32,
        start: NodeNo,
        target: NodeNo,
        limit: &Limit,
        budget: u32,
    ) -> Result<Core<D, F>, OutOfMemory>
        requires criteria { AreCriteria D }
        requires nodes { nodes ≤ max_nodes }
        requires start { IsNode nodes start.0 }
        requires target { IsNode nodes target.0 }
        requires limit { length limit.now ≡ D }
        requires budget { budget ≤ max_budget }
        requires room { 0 < F.Cost.Part.bound }
        ensures { IfOk result (IsNewSearch nodes D start.0 target.0 limit.now budget) }
    {
        let mut fresh = Vec::new(alloc);
        fresh.push(start_item(start))?;
        Ok(Core {
            start,
            budget,
            settled: Settled::new(alloc, nodes, target, limit)?,
            count: 0,
            queue: Queue::new(alloc),
            fresh,
            taken: Vec::new(alloc),
        })
    }

    /// What the open round has taken, ascending by cost and then by node; nothing between rounds.
    pub fn taken(&self) -> &[Item<F::Cost>]
        ensures spots { map (spot_in F.Cost.components) result.now ≡ self.now.taken }
        ensures from { All (IsFrom self.now) (map (as_waiting F.Cost.components) result.now) }
    {
        &self.taken
    }

    /// What tells which spots are spent. Threads can share it while a round is open.
    pub fn settled(&self) -> &Settled<D, F>
        ensures { (x : Spot) → IsSpentBy result.now x ↔ IsSpent self.now x }
    {
        &self.settled
    }

    /// What was found, once nothing waits and no round is open. It takes no memory.
    pub fn into_found(self) -> Fronts<D, F>
        requires none_waits { self.queue ≡ [] }
        requires none_taken { self.taken ≡ [] }
        ensures nodes { result.nodes ≡ self.nodes }
        ensures settled { result.costs ≡ self.settled }
        ensures relevant { (task : Task) (s : SearchState) (v : ℕ) (c : List ℕ) → IsAt task self s
            → (Contains (costs_at result v) c
            ↔ IsRelevant task.network self.start self.target self.limit v c) }
    {
        self.settled.into_fronts()
    }
}

/// The start, reached at no cost from nowhere.
fn start_item<const D: usize, C: StoredCost<D>>(start: NodeNo) -> Item<C>
    requires criteria { AreCriteria D }
    requires room { 0 < C.Part.bound }
    ensures { as_waiting C.components result
        ≡ (record { spot = record { cost = replicate D 0; node = start.0 }; from = 0 }) }
{
    Item {
        cost: C::of(&[0; D]),
        node: start,
        from: NodeNo(0),
    }
}
