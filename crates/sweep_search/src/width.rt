ghost use Rattle.std.specs.Prelude.{OnOk};
ghost use Rattle.road_network.specs.Queries.{IsQuery};
ghost use Rattle.sweep_search.specs.Finding.{HasAllBare, HasAllBy};
ghost use Rattle.sweep_search.specs.Swept.{lists_at_width};

use crate::ask::ask;
use crate::lowering::lower_all;
use arc_graph::Network;
use cost_vector::{Cost, NodeNo};
use node_lists::FoundLists;
use out_of_memory::OutOfMemory;
use road_network::Query;
use std::alloc::Global;
use stored_cost::StoredCost;
use sweep_core::Potential;
use walk_readback::{FoundCosts, SettledCosts};

/// What a search has found, at the width at which it ended.
#[derive(Drop)]
pub enum SweptAtWidth<const D: usize, N: StoredCost<D>, W: StoredCost<D>> {
    Narrow(FoundLists<D, N>),
    Wide(FoundLists<D, W>),
}

impl<const D: usize, N: StoredCost<D>, W: StoredCost<D>> SweptAtWidth<D, N, W> {
    /// Takes the height of each node off its costs.
    pub(crate) fn lower<P: Potential>(
        &mut self,
        network: &Network<'_>,
        query: &Query,
        potential: &mut P,
    ) -> Result<(), OutOfMemory>
        requires query { IsQuery network.now query.now }
        requires tells { P.tells potential.old network.now query.now.to }
        requires all { HasAllBy network.now query.now (P.height network.now query.now.to)
            (lists_at_width self.old) }
        ensures { OnOk result (HasAllBare network.now query.now
            (P.height network.now query.now.to) (lists_at_width self.new)) }
    {
        prove!(network.nodes() >= 1);
        let target = NodeNo(query.to);
        match self {
            SweptAtWidth::Narrow(found) => lower_all(network, target, potential, found),
            SweptAtWidth::Wide(found) => lower_all(network, target, potential, found),
        }
    }
}

impl<const D: usize, N: StoredCost<D>, W: StoredCost<D>> FoundCosts for SweptAtWidth<D, N, W> {
    ghost use Rattle.sweep_search.specs.Swept.{found_at_width};

    ghost state = { found_at_width };

    fn start(&self) -> NodeNo {
        ask!(self, [SweptAtWidth::Narrow, SweptAtWidth::Wide], found => found.start())
    }

    fn target(&self) -> NodeNo {
        ask!(self, [SweptAtWidth::Narrow, SweptAtWidth::Wide], found => found.target())
    }

    fn count(&self) -> usize {
        ask!(self, [SweptAtWidth::Narrow, SweptAtWidth::Wide], found => found.count())
    }

    fn cost(&self, i: usize) -> Cost {
        ask!(self, [SweptAtWidth::Narrow, SweptAtWidth::Wide], found => found.cost(i))
    }

    fn has(&self, node: NodeNo, cost: &Cost) -> bool {
        ask!(self, [SweptAtWidth::Narrow, SweptAtWidth::Wide], found => found.has(node, cost))
    }

    fn longest(&self) -> u32 {
        ask!(self, [SweptAtWidth::Narrow, SweptAtWidth::Wide], found => found.longest())
    }
}

impl<const D: usize, N: StoredCost<D>, W: StoredCost<D>> SettledCosts for SweptAtWidth<D, N, W> {
    fn settled(&self) -> usize {
        ask!(self, [SweptAtWidth::Narrow, SweptAtWidth::Wide], found => found.settled())
    }

    fn costs_of(&self, alloc: Global, node: NodeNo) -> Result<Vec<Cost>, OutOfMemory> {
        ask!(self, [SweptAtWidth::Narrow, SweptAtWidth::Wide], found => found.costs_of(alloc, node))
    }
}
