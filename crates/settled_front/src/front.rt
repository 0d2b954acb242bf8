ghost use Rattle.std.specs.Prelude.{◌≡◌, ℕ, ◌-◌, ◌^◌, ◌≤◌, ◌↔◌, List, [], ◌∷◌, length, map, min, All, IfOk, IsPermutation, IsTrue, OnErr};
ghost use Rattle.cost_vector.specs.Costs.{Dominates, max_criteria, min_criteria};
ghost use Rattle.settled_front.specs.Fronts.{IsCovered, ListsCosts};

use cost_vector::CompactCost;
use out_of_memory::OutOfMemory;
use std::alloc::Global;
use stored_cost::StoredCost;

/// The settled costs of a node, in a layout that finds fast whether some cost there is at most another. It only grows.
pub trait SettledFront<const D: usize>: Drop {
    /// How a cost is stored.
    type Cost: StoredCost<D>;

    /// Its costs, in some order.
    ghost costs: { Self → List (List ℕ) };

    /// A front without costs.
    fn new(alloc: Global) -> Self
        requires two { min_criteria ≤ D }
        requires four { D ≤ max_criteria }
        ensures { costs result ≡ [] };

    /// How many costs are there, as far as a number of 64 bits can tell.
    fn len(&self) -> usize
        ensures { result ≡ min (length (costs self.now)) (2 ^ 64 - 1) };

    /// Whether some cost there is at most this one.
    fn covers(&self, cost: &Self::Cost) -> bool
        ensures { IsTrue result ↔ IsCovered (costs self.now) (Self.Cost.components cost.now) };

    /// Adds a cost that none there is at most, and that dominates none there.
    fn push(&mut self, cost: &Self::Cost) -> Result<(), OutOfMemory>
        requires uncovered { ¬ IsCovered (costs self.old) (Self.Cost.components cost.now) }
        requires spares { All (λ c. ¬ Dominates (Self.Cost.components cost.now) c) (costs self.old) }
        ensures pushed { IfOk result (λ _.
            IsPermutation (Self.Cost.components cost.now ∷ costs self.old) (costs self.new)) }
        ensures same { OnErr result (costs self.new ≡ costs self.old) };

    /// All costs, in ascending lexicographic order.
    fn to_costs(&self, alloc: Global) -> Result<Vec<CompactCost<D>>, OutOfMemory>
        ensures { IfOk result (λ list. ListsCosts (costs self.now) (map (λ c. c.0) list.items)) };
}

/// A front of costs in 32 bits a component, which can be had in 64.
pub trait NarrowFront<const D: usize>: SettledFront<D> {
    /// The same at 64 bits.
    type Wide: SettledFront<D>;

    /// A front of the same costs at 64 bits.
    fn widen(&self, alloc: Global) -> Result<Self::Wide, OutOfMemory>
        ensures { IfOk result (λ wide. Self.Wide.costs wide ≡ Self.costs self.now) };
}
