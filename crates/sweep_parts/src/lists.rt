ghost use Rattle.std.specs.Prelude.{◌≡◌, ℕ, ◌+◌, ◌<◌, ◌≤◌, ◌↔◌, List, [], length, replicate, IfOk, IsTrue};
ghost use Rattle.cost_vector.specs.Costs.{max_criteria, min_criteria};
ghost use Rattle.road_network.specs.Limits.{max_budget, max_nodes};
ghost use Rattle.settled_front.specs.Fronts.{IsCovered};
ghost use Rattle.sweep_parts.specs.Settled.{IsBehind, IsDominated, IsSettledList, Pushes, costs_of, count_settled};

use cost_vector::NodeNo;
use out_of_memory::OutOfMemory;
use std::alloc::Global;
use stored_cost::StoredCost;

/// The settled costs of all nodes, each node's in the order in which they were settled: lexicographically ascending.
pub trait SettledLists<const D: usize>: Drop {
    /// How a cost is stored.
    type Cost: StoredCost<D>;

    /// The costs by the node's number, from 0, which is no node.
    ghost lists: { Self → List (List (List ℕ)) };

    /// Those of so many nodes, none of which has one.
    fn new(alloc: Global, nodes: u32) -> Result<Self, OutOfMemory>
        requires two { min_criteria ≤ D }
        requires four { D ≤ max_criteria }
        requires nodes { nodes ≤ max_nodes }
        ensures { IfOk result (λ s. lists s ≡ replicate (nodes + 1) []) };

    /// How many there are.
    fn count(&self) -> u32
        ensures { result ≡ count_settled (lists self.now) };

    /// The costs of a node ascend, and none of them is at most another.
    fn are_settled(&self)
        ensures { (v : ℕ) → IsSettledList (costs_of (lists self.now) v) };

    /// Whether a settled cost of the node is at most this one, which none of them comes behind.
    fn covers(&self, node: NodeNo, cost: &Self::Cost) -> bool
        requires node { node.0 < length (lists self.now) }
        requires behind { IsBehind (costs_of (lists self.now) node.0) (Self.Cost.components cost.now) }
        ensures { IsTrue result
            ↔ IsCovered (costs_of (lists self.now) node.0) (Self.Cost.components cost.now) };

    /// Whether a settled cost of the node dominates this one, which none of them comes behind.
    fn dominates(&self, node: NodeNo, cost: &Self::Cost) -> bool
        requires node { node.0 < length (lists self.now) }
        requires behind { IsBehind (costs_of (lists self.now) node.0) (Self.Cost.components cost.now) }
        ensures { IsTrue result
            ↔ IsDominated (costs_of (lists self.now) node.0) (Self.Cost.components cost.now) };

    /// Settles a cost of a node, where none is at most it or comes behind it.
    fn push(&mut self, node: NodeNo, cost: &Self::Cost) -> Result<(), OutOfMemory>
        requires node { node.0 < length (lists self.old) }
        requires few { count_settled (lists self.old) < max_budget }
        requires behind { IsBehind (costs_of (lists self.old) node.0) (Self.Cost.components cost.now) }
        requires uncovered { ¬ IsCovered (costs_of (lists self.old) node.0)
            (Self.Cost.components cost.now) }
        ensures { IfOk result (λ _.
            Pushes (lists self.old) node.0 (Self.Cost.components cost.now) (lists self.new)) };
}
