ghost use Rattle.std.specs.Prelude.{◌≡◌, ◌-◌, ◌^◌, length, min, IfOk};
ghost use Rattle.road_network.specs.Network.{IsNode};
ghost use Rattle.walk_readback.specs.SettledCosts.{ListsSettled};

use crate::FoundCosts;
use cost_vector::{Cost, NodeNo};
use out_of_memory::OutOfMemory;
use std::alloc::Global;

/// What a search has found, whose settled costs can be listed, node by node.
pub trait SettledCosts: FoundCosts {
    /// How many pairs of a node and a cost are settled, as far as a number of 64 bits can tell.
    fn settled(&self) -> usize
        ensures { result ≡ min (length (Self.state self.now).settled) (2 ^ 64 - 1) };

    /// The settled costs of a node, in ascending lexicographic order.
    fn costs_of(&self, alloc: Global, node: NodeNo) -> Result<Vec<Cost>, OutOfMemory>
        requires { IsNode (Self.state self.now).nodes node.0 }
        ensures { IfOk result (λ list. ListsSettled (Self.state self.now) node.0 list.items) };
}
