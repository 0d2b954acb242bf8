ghost use Rattle.std.specs.Prelude.{◌≡◌, ◌≢◌, ◌+◌, ◌-◌, ◌<◌, ◌≤◌, [], ◌∷◌, ◌++◌, length, map, slice_index, IfOk, OnErr};
ghost use Rattle.cost_vector.specs.Costs.{max_criteria, min_criteria};
ghost use Rattle.road_network.specs.Limits.{max_budget};
ghost use Rattle.road_network.specs.Network.{IsNode};
ghost use Rattle.settled_front.specs.Fronts.{IsCovered};
ghost use Rattle.settled_fronts.specs.NodeFronts.{IsKept, kept_fronts};
ghost use Rattle.sweep_parts.specs.Settled.{IsBehind, IsSettledList, costs_of};

use crate::FoundLists;
use cost_vector::NodeNo;
use out_of_memory::OutOfMemory;
use settled_list::SettledList;
use std::alloc::Global;
use std::marker::Model;
use stored_cost::StoredCost;
use sweep_parts::SettledLists;

/// The settled costs of all nodes, in order. Of a node that has none, one number is kept.
#[derive(Drop)]
pub struct NodeLists<const D: usize, L: SettledList<D>> {
    /// The place of each node's list; 0 where the node has no settled cost.
    places: Vec<u32>,
    /// A list without costs, and then those of the nodes that have settled ones.
    lists: Vec<L>,
    /// How many costs are settled.
    count: u32,
    alloc: Global,
}

impl<const D: usize, L: SettledList<D>> Model for NodeLists<D, L> {
    ghost use Rattle.std.specs.Prelude.{ℕ, List, map};
    ghost use Rattle.settled_fronts.specs.NodeFronts.{costs_by};
    ghost use Rattle.node_lists.specs.KeptLists.{AreKept};

    ghost Value = { List (List (List ℕ)) };

    ghost view = { λ s. costs_by s.places.items (map L.costs s.lists.items) };

    ghost invariant = { λ s. AreKept D L.Cost.Part.bound s.places.items (map L.costs s.lists.items) s.count };
}

impl<const D: usize, L: SettledList<D>> NodeLists<D, L> {
    /// What was found between two nodes: all that is settled. No cost is copied.
    pub fn into_found(
        self,
        start: NodeNo,
        target: NodeNo,
    ) -> Result<FoundLists<D, L::Cost>, OutOfMemory>
        requires start { IsNode (length self - 1) start.0 }
        requires target { IsNode (length self - 1) target.0 }
        ensures { IfOk result (λ f. f
            ≡ record { criteria = D; start = start.0; target = target.0; lists = self }) }
    {
        let NodeLists {
            places,
            lists,
            count,
            alloc,
        } = self;
        Ok(FoundLists {
            start,
            target,
            places,
            lists: all_costs::<D, L>(alloc, lists)?,
            count,
        })
    }

    /// The list of a node.
    fn list(&self, node: NodeNo) -> &L
        requires { node.0 < length self.now }
        ensures { L.costs result.now ≡ costs_of self.now node.0 }
    {
        &self.lists[self.places[node.0 as usize] as usize]
    }
}

impl<const D: usize, L: SettledList<D>> SettledLists<D> for NodeLists<D, L> {
    type Cost = L::Cost;

    ghost lists = { λ s. s };

    fn new(alloc: Global, nodes: u32) -> Result<NodeLists<D, L>, OutOfMemory> {
        let places = vec![in alloc; 0u32; nodes as usize + 1]?;
        let mut lists = Vec::new(alloc);
        lists.push(L::new(alloc))?;
        Ok(NodeLists {
            places,
            lists,
            count: 0,
            alloc,
        })
    }

    fn count(&self) -> u32 {
        self.count
    }

    fn are_settled(&self) {
        let _kept = &self.places;
    }

    fn covers(&self, node: NodeNo, cost: &L::Cost) -> bool {
        self.list(node).covers(cost)
    }

    fn dominates(&self, node: NodeNo, cost: &L::Cost) -> bool {
        settled_list::dominates::<D, L>(self.list(node), cost)
    }

    fn push(&mut self, node: NodeNo, cost: &L::Cost) -> Result<(), OutOfMemory> {
        let place = reach::<D, L>(&mut self.places, &mut self.lists, self.alloc, node)?;
        let _read = cost.to_compact(); // a proof knows what there is room for of what is read
        push_or_clear::<D, L>(&mut self.lists[place], &mut self.count, self.alloc, cost)
    }
}

/// The place of a node's list; where it has none, one without costs is begun.
fn reach<const D: usize, L: SettledList<D>>(
    places: &mut Vec<u32>,
    lists: &mut Vec<L>,
    alloc: Global,
    node: NodeNo,
) -> Result<usize, OutOfMemory>
    requires kept { IsKept D L.Cost.Part.bound places.old.items (map L.costs lists.old.items) }
    requires within { node.0 < length places.old.items }
    ensures kept { IsKept D L.Cost.Part.bound places.new.items (map L.costs lists.new.items) }
    ensures same { kept_fronts places.new.items (map L.costs lists.new.items)
        ≡ kept_fronts places.old.items (map L.costs lists.old.items) }
    ensures place { IfOk result (λ k. k ≡ slice_index places.new.items node.0) }
    ensures reached { IfOk result (λ k. k ≢ 0) }
{
    let place = places[node.0 as usize];
    if place != 0 {
        return Ok(place as usize);
    }
    let next = lists.len();
    lists.push(L::new(alloc))?;
    places[node.0 as usize] = next as u32;
    Ok(next)
}

/// Adds a cost to a list, or else the list is without costs: what is in it where memory was wanting
/// isn't known.
fn push_or_clear<const D: usize, L: SettledList<D>>(
    list: &mut L,
    count: &mut u32,
    alloc: Global,
    cost: &L::Cost,
) -> Result<(), OutOfMemory>
    requires two { min_criteria ≤ D }
    requires four { D ≤ max_criteria }
    requires behind { IsBehind (L.costs list.old) (L.Cost.components cost.now) }
    requires uncovered { ¬ IsCovered (L.costs list.old) (L.Cost.components cost.now) }
    requires counted { length (L.costs list.old) ≤ count.old }
    requires few { count.old < max_budget }
    ensures pushed { IfOk result (λ _.
        L.costs list.new ≡ L.costs list.old ++ L.Cost.components cost.now ∷ []) }
    ensures cleared { OnErr result (L.costs list.new ≡ []) }
    ensures settled { IsSettledList (L.costs list.new) }
    ensures counted { count.new + length (L.costs list.old) ≡ count.old + length (L.costs list.new) }
{
    let before = list.as_slice().len() as u32;
    let pushed = list.push(cost);
    if pushed.is_err() {
        *list = L::new(alloc);
    }
    *count = *count - before + list.as_slice().len() as u32;
    pushed
}

/// The costs of all lists.
fn all_costs<const D: usize, L: SettledList<D>>(
    alloc: Global,
    lists: Vec<L>,
) -> Result<Vec<Vec<L::Cost>>, OutOfMemory>
    ensures { IfOk result (λ all.
        map (λ costs. map L.Cost.components costs.items) all.items ≡ map L.costs lists.items) }
{
    let mut all = Vec::with_capacity(alloc, lists.len())?;
    for list in lists {
        all.push(list.into_costs())?;
    }
    Ok(all)
}
