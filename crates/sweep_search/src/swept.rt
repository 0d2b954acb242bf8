ghost use Rattle.std.specs.Prelude.{OnOk};
ghost use Rattle.road_network.specs.Queries.{IsQuery};
ghost use Rattle.sweep_search.specs.Finding.{HasAllBare, HasAllBy};
ghost use Rattle.sweep_search.specs.Swept.{lists_of};

use crate::SweptAtWidth;
use crate::ask::ask;
use arc_graph::Network;
use cost_vector::{Cost, NodeNo};
use out_of_memory::OutOfMemory;
use road_network::Query;
use std::alloc::Global;
use stored_cost::{NarrowCost, WideCost};
use sweep_core::Potential;
use walk_readback::{FoundCosts, SettledCosts};

/// What a query found, by the number of its criteria.
#[derive(Drop)]
pub enum Swept {
    Two(SweptAtWidth<2, NarrowCost<2>, WideCost<2>>),
    Three(SweptAtWidth<3, NarrowCost<3>, WideCost<3>>),
    Four(SweptAtWidth<4, NarrowCost<4>, WideCost<4>>),
}

impl Swept {
    /// Takes the height of each node off its costs.
    pub(crate) fn lower<P: Potential>(
        &mut self,
        network: &Network<'_>,
        query: &Query,
        potential: &mut P,
    ) -> Result<(), OutOfMemory>
        requires query { IsQuery network.now query.now }
        requires tells { P.tells potential.old network.now query.now.to }
        requires all { HasAllBy network.now query.now (P.height network.now query.now.to)
            (lists_of self.old) }
        ensures { OnOk result (HasAllBare network.now query.now
            (P.height network.now query.now.to) (lists_of self.new)) }
    {
        ask!(self, [Swept::Two, Swept::Three, Swept::Four], found => found.lower(network, query, potential))
    }
}

impl FoundCosts for Swept {
    ghost use Rattle.sweep_search.specs.Swept.{found_of};

    ghost state = { found_of };

    fn start(&self) -> NodeNo {
        ask!(self, [Swept::Two, Swept::Three, Swept::Four], found => found.start())
    }

    fn target(&self) -> NodeNo {
        ask!(self, [Swept::Two, Swept::Three, Swept::Four], found => found.target())
    }

    fn count(&self) -> usize {
        ask!(self, [Swept::Two, Swept::Three, Swept::Four], found => found.count())
    }

    fn cost(&self, i: usize) -> Cost {
        ask!(self, [Swept::Two, Swept::Three, Swept::Four], found => found.cost(i))
    }

    fn has(&self, node: NodeNo, cost: &Cost) -> bool {
        ask!(self, [Swept::Two, Swept::Three, Swept::Four], found => found.has(node, cost))
    }

    fn longest(&self) -> u32 {
        ask!(self, [Swept::Two, Swept::Three, Swept::Four], found => found.longest())
    }
}

impl SettledCosts for Swept {
    fn settled(&self) -> usize {
        ask!(self, [Swept::Two, Swept::Three, Swept::Four], found => found.settled())
    }

    fn costs_of(&self, alloc: Global, node: NodeNo) -> Result<Vec<Cost>, OutOfMemory> {
        ask!(self, [Swept::Two, Swept::Three, Swept::Four], found => found.costs_of(alloc, node))
    }
}
