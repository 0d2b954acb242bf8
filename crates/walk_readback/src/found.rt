ghost use Rattle.std.specs.Prelude.{◌≡◌, ◌<◌, Some, length, slice_get, IsTrue};
ghost use Rattle.road_network.specs.Network.{IsNode};
ghost use Rattle.walk_readback.specs.Found.{FoundCosts as FoundState, HasSettled, IsBelowSettled, IsCovered, IsFound, longest_in};

use cost_vector::{Cost, NodeNo};

/// What a search from a node to another has found: its settled costs.
pub trait FoundCosts {
    /// The settled costs of the nodes, and those of the target.
    ghost state: { Self → FoundState };

    /// The node from which walks lead.
    fn start(&self) -> NodeNo
        ensures { result.0 ≡ (state self.now).start };

    /// The node to which they lead.
    fn target(&self) -> NodeNo
        ensures { result.0 ≡ (state self.now).target };

    /// How many costs the target has.
    fn count(&self) -> usize
        ensures found { IsFound (state self.now) }
        ensures value { result ≡ length (state self.now).costs };

    /// The cost of the target at the place `i`, from 0, in ascending lexicographic order.
    fn cost(&self, i: usize) -> Cost
        requires { i < length (state self.now).costs }
        ensures found { IsFound (state self.now) }
        ensures value { slice_get (state self.now).costs i ≡ Some result };

    /// Whether the cost is settled at the node. Where it isn't, and a settled cost of the node is at most it, either may be
    /// answered. It is asked of what is at most some settled cost: for other costs there may be no room where the settled ones
    /// are stored.
    fn has(&self, node: NodeNo, cost: &Cost) -> bool
        requires node { IsNode (state self.now).nodes node.0 }
        requires criteria { length cost.now ≡ (state self.now).criteria }
        requires below { IsBelowSettled (state self.now) cost.now }
        ensures settled { HasSettled (state self.now) node.0 cost.now → IsTrue result }
        ensures covered { IsTrue result → IsCovered (state self.now) node.0 cost.now };

    /// The most arcs that a walk through settled costs alone can have.
    fn longest(&self) -> u32
        ensures { result ≡ longest_in (state self.now) };
}
