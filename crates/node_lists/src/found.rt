ghost use Rattle.std.specs.Prelude.{◌≡◌, ◌<◌, ◌≤◌, Some, length, map, slice_get, All, IfOk};
ghost use Rattle.cost_vector.specs.Costs.{AtMost, max_criteria, min_criteria};
ghost use Rattle.sweep_parts.specs.Settled.{costs_of};
ghost use Rattle.node_lists.specs.FoundLists.{Lowers};

use crate::lowered::lower_all;
use cost_vector::{CompactCost, Cost, NodeNo};
use out_of_memory::OutOfMemory;
use std::alloc::Global;
use std::marker::Model;
use stored_cost::StoredCost;
use walk_readback::{FoundCosts, SettledCosts};

/// What a search has found, each node's costs in ascending order.
#[derive(Drop)]
pub struct FoundLists<const D: usize, C: StoredCost<D>> {
    pub(crate) start: NodeNo,
    pub(crate) target: NodeNo,
    /// The place of each node's costs; 0 where the node has no settled cost.
    pub(crate) places: Vec<u32>,
    /// No costs, and then those of the nodes that have settled ones.
    pub(crate) lists: Vec<Vec<C>>,
    /// How many costs are settled.
    pub(crate) count: u32,
}

impl<const D: usize, C: StoredCost<D>> Model for FoundLists<D, C> {
    ghost use Rattle.std.specs.Prelude.{map};
    ghost use Rattle.settled_fronts.specs.NodeFronts.{costs_by};
    ghost use Rattle.node_lists.specs.FoundLists.{FoundLists};
    ghost use Rattle.node_lists.specs.KeptLists.{AreFound};

    ghost Value = { FoundLists };

    ghost view = { λ f. record {
      criteria = D;
      start = f.start.0;
      target = f.target.0;
      lists = costs_by f.places.items (map (λ costs. map C.components costs.items) f.lists.items);
    } };

    ghost invariant = { λ f. AreFound D C.Part.bound f.start.0 f.target.0
        f.places.items (map (λ costs. map C.components costs.items) f.lists.items) f.count };
}

impl<const D: usize, C: StoredCost<D>> FoundLists<D, C> {
    /// Takes a vector that is at most each cost of a node off each of these. They keep their order.
    pub fn lower(&mut self, node: NodeNo, by: &Cost)
        requires node { node.0 < length self.old.lists }
        requires criteria { length by.now ≡ self.old.criteria }
        requires at_most { All (AtMost by.now) (costs_of self.old.lists node.0) }
        ensures { Lowers node.0 by.now self.old self.new }
    {
        let place = self.places[node.0 as usize] as usize;
        if place != 0 {
            lower_all::<D, C>(&mut self.lists[place], by);
        }
    }

    /// How many costs a node has.
    pub fn count_at(&self, node: NodeNo) -> usize
        requires { node.0 < length self.now.lists }
        ensures { result ≡ length (costs_of self.now.lists node.0) }
    {
        self.list(node).len()
    }

    /// The costs of a node.
    fn list(&self, node: NodeNo) -> &[C]
        requires { node.0 < length self.now.lists }
        ensures { map C.components result.now ≡ costs_of self.now.lists node.0 }
    {
        &self.lists[self.places[node.0 as usize] as usize]
    }
}

impl<const D: usize, C: StoredCost<D>> FoundCosts for FoundLists<D, C> {
    ghost use Rattle.node_lists.specs.FoundLists.{found_in};

    ghost state = { found_in };

    fn start(&self) -> NodeNo {
        self.start
    }

    fn target(&self) -> NodeNo {
        self.target
    }

    fn count(&self) -> usize {
        self.list(self.target).len()
    }

    fn cost(&self, i: usize) -> Cost {
        let _kept = &self.places;
        cost_at::<D, C>(self.list(self.target), i)
    }

    fn has(&self, node: NodeNo, cost: &Cost) -> bool {
        let _kept = &self.places;
        // What is at most a settled cost has room where that is stored.
        let cost = CompactCost::<D>::of(cost);
        settled_list::has::<D, C>(self.list(node), &C::of(&cost.0))
    }

    fn longest(&self) -> u32 {
        let nodes = (self.places.len() - 1) as u32;
        nodes.min(self.count).saturating_sub(1)
    }
}

impl<const D: usize, C: StoredCost<D>> SettledCosts for FoundLists<D, C> {
    fn settled(&self) -> usize {
        self.count as usize
    }

    fn costs_of(&self, alloc: Global, node: NodeNo) -> Result<Vec<Cost>, OutOfMemory> {
        let _kept = &self.places;
        to_costs::<D, C>(alloc, self.list(node))
    }
}

/// The cost at the place `i`, from 0.
fn cost_at<const D: usize, C: StoredCost<D>>(list: &[C], i: usize) -> Cost
    requires two { min_criteria ≤ D }
    requires four { D ≤ max_criteria }
    requires there { i < length list.now }
    ensures { slice_get (map C.components list.now) i ≡ Some result }
{
    list[i].to_compact().to_cost()
}

/// The same costs, each of which tells its number of components.
fn to_costs<const D: usize, C: StoredCost<D>>(
    alloc: Global,
    list: &[C],
) -> Result<Vec<Cost>, OutOfMemory>
    requires two { min_criteria ≤ D }
    requires four { D ≤ max_criteria }
    ensures { IfOk result (λ costs. costs.items ≡ map C.components list.now) }
{
    let mut costs = Vec::with_capacity(alloc, list.len())?;
    for cost in list {
        costs.push(cost.to_compact().to_cost())?;
    }
    Ok(costs)
}
