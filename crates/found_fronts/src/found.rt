ghost use Rattle.std.specs.Prelude.{IfOk};
ghost use Rattle.road_network.specs.Network.{IsNode};
ghost use Rattle.found_fronts.specs.FoundFronts.{IsOfFronts};

use crate::list::to_costs;
use cost_vector::{CompactCost, Cost, NodeNo};
use out_of_memory::OutOfMemory;
use settled_front::SettledFront;
use settled_fronts::Fronts;
use std::alloc::Global;
use std::marker::Model;
use stored_cost::StoredCost;
use walk_readback::{FoundCosts, SettledCosts};

/// What a search has found, in the fronts of all nodes.
#[derive(Drop)]
pub struct FoundFronts<const D: usize, F: SettledFront<D>> {
    start: NodeNo,
    target: NodeNo,
    /// The settled costs of the target, in ascending order.
    costs: Vec<CompactCost<D>>,
    fronts: Fronts<D, F>,
}

impl<const D: usize, F: SettledFront<D>> Model for FoundFronts<D, F> {
    ghost use Rattle.std.specs.Prelude.{map};
    ghost use Rattle.walk_readback.specs.Found.{FoundCosts, IsFound};
    ghost use Rattle.found_fronts.specs.FoundFronts.{found_in};

    ghost Value = { FoundCosts };

    ghost view = { λ f. found_in D f.start.0 f.target.0 (map (λ c. c.0) f.costs.items) f.fronts };

    ghost invariant = { λ f. IsFound
        (found_in D f.start.0 f.target.0 (map (λ c. c.0) f.costs.items) f.fronts) };
}

impl<const D: usize, F: SettledFront<D>> FoundFronts<D, F> {
    /// What is settled in the fronts. Memory is taken for the costs of the target alone.
    pub fn new(
        alloc: Global,
        fronts: Fronts<D, F>,
        start: NodeNo,
        target: NodeNo,
    ) -> Result<FoundFronts<D, F>, OutOfMemory>
        requires start { IsNode fronts.nodes start.0 }
        requires target { IsNode fronts.nodes target.0 }
        ensures { IfOk result (IsOfFronts D start.0 target.0 fronts) }
    {
        fronts.costs_are_stored();
        let costs = fronts.costs_of(alloc, target)?;
        Ok(FoundFronts {
            start,
            target,
            costs,
            fronts,
        })
    }
}

impl<const D: usize, F: SettledFront<D>> FoundCosts for FoundFronts<D, F> {
    ghost state = { λ f. f };

    fn start(&self) -> NodeNo {
        self.start
    }

    fn target(&self) -> NodeNo {
        self.target
    }

    fn count(&self) -> usize {
        self.costs.len()
    }

    fn cost(&self, i: usize) -> Cost {
        self.costs[i].to_cost()
    }

    fn has(&self, node: NodeNo, cost: &Cost) -> bool {
        // What is at most a settled cost has room where that is stored.
        self.fronts.costs_are_stored();
        let cost = CompactCost::<D>::of(cost);
        self.fronts.covers(node, &F::Cost::of(&cost.0))
    }

    fn longest(&self) -> u32 {
        let most = self.fronts.len().min(self.fronts.nodes() as usize);
        most.saturating_sub(1) as u32
    }
}

impl<const D: usize, F: SettledFront<D>> SettledCosts for FoundFronts<D, F> {
    fn settled(&self) -> usize {
        self.fronts.len()
    }

    fn costs_of(&self, alloc: Global, node: NodeNo) -> Result<Vec<Cost>, OutOfMemory> {
        self.fronts.costs_are_stored();
        let list = self.fronts.costs_of(alloc, node)?;
        to_costs(alloc, &list)
    }
}
