ghost use Rattle.std.specs.Prelude.{◌≡◌, IfOk, OnOk};
ghost use Rattle.road_network.specs.Network.{IsNode};
ghost use Rattle.goal_bounds.specs.Bounds.{IsBoundIfAny, IsBoundSearch};

use crate::reverse::ReverseSearch;
use arc_graph::Network;
use cost_vector::{Cost, NodeNo};
use out_of_memory::OutOfMemory;
use std::alloc::Global;
use std::marker::Model;

/// A search for the bounds of nodes, which goes as far as the nodes that are asked for. After an error it is only to be let go.
#[derive(Drop)]
pub struct BoundSearch {
    target: NodeNo,
    /// One for each criterion.
    searches: Vec<ReverseSearch>,
}

impl Model for BoundSearch {
    ghost use Rattle.goal_bounds.specs.Bounds.{BoundSearch};

    ghost Value = { BoundSearch };

    ghost view = { λ b. record { target = b.target.0; searches = b.searches.items } };
}

impl BoundSearch {
    /// A search for the bounds of walks to a node, of which none is known yet but the node's own.
    pub fn new(
        alloc: Global,
        network: &Network<'_>,
        target: NodeNo,
    ) -> Result<BoundSearch, OutOfMemory>
        requires { IsNode network.now.nodes target.0 }
        ensures { IfOk result (IsBoundSearch network.now target.0) }
    {
        let mut searches = Vec::new(alloc);
        for criterion in 0..network.criteria() {
            searches.push(ReverseSearch::new(alloc, network, target, criterion)?)?;
        }
        Ok(BoundSearch { target, searches })
    }

    /// The node to which the walks lead.
    pub fn target(&self) -> NodeNo
        ensures { result.0 ≡ self.now.target }
    {
        self.target
    }

    /// The bound of a node, or `None` where no walk leads from it to the target. The search is that of the same network.
    #[inline(always)]
    pub fn bound(
        &mut self,
        network: &Network<'_>,
        node: NodeNo,
    ) -> Result<Option<Cost>, OutOfMemory>
        requires node { IsNode network.now.nodes node.0 }
        requires search { IsBoundSearch network.now self.old.target self.old }
        ensures search { OnOk result (IsBoundSearch network.now self.old.target self.new) }
        ensures exact { IfOk result (IsBoundIfAny network.now node.0 self.old.target) }
    {
        match network.criteria() {
            2 => self.bound_in::<2>(network, node),
            3 => self.bound_in::<3>(network, node),
            _ => self.bound_in::<4>(network, node),
        }
    }

    /// The same where the number of criteria is known.
    #[inline(always)]
    fn bound_in<const D: usize>(
        &mut self,
        network: &Network<'_>,
        node: NodeNo,
    ) -> Result<Option<Cost>, OutOfMemory>
        requires criteria { network.now.criteria ≡ D }
        requires node { IsNode network.now.nodes node.0 }
        requires search { IsBoundSearch network.now self.old.target self.old }
        ensures search { OnOk result (IsBoundSearch network.now self.old.target self.new) }
        ensures exact { IfOk result (IsBoundIfAny network.now node.0 self.old.target) }
    {
        prove!(network.nodes() >= 1);
        prove!(network.criteria() == D);
        let mut components = [0; D];
        for j in 0..D {
            let Some(least) = self.searches[j].least(network, node)? else {
                return Ok(None);
            };
            components[j] = least;
        }
        Ok(Some(Cost::of_numbers(&components)))
    }
}
