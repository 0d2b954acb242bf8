ghost use Rattle.std.specs.Prelude.{◌≡◌, ℕ, List, [], ◌∷◌, ◌++◌, ◌≤◌, ◌↔◌, map, IfOk, IsTrue};
ghost use Rattle.cost_vector.specs.Costs.{max_criteria, min_criteria};
ghost use Rattle.settled_front.specs.Fronts.{IsCovered};
ghost use Rattle.sweep_parts.specs.Settled.{IsBehind, IsDominated, IsSettledList};

use out_of_memory::OutOfMemory;
use std::alloc::Global;
use stored_cost::StoredCost;

/// The settled costs of a node, lexicographically ascending, with what tells fast whether one of them
/// is at most a later cost.
pub trait SettledList<const D: usize>: Drop {
    /// How a cost is stored.
    type Cost: StoredCost<D>;

    /// Its costs, in order.
    ghost costs: { Self → List (List ℕ) };

    /// A list without costs.
    fn new(alloc: Global) -> Self
        requires two { min_criteria ≤ D }
        requires four { D ≤ max_criteria }
        ensures { costs result ≡ [] };

    /// All of them.
    fn as_slice(&self) -> &[Self::Cost]
        ensures same { map Self.Cost.components result.now ≡ costs self.now }
        ensures settled { IsSettledList (costs self.now) };

    /// Whether one of them is at most this cost, which none of them comes behind.
    fn covers(&self, cost: &Self::Cost) -> bool
        requires behind { IsBehind (costs self.now) (Self.Cost.components cost.now) }
        ensures { IsTrue result ↔ IsCovered (costs self.now) (Self.Cost.components cost.now) };

    /// Adds a cost, where none of them comes behind it or is at most it.
    fn push(&mut self, cost: &Self::Cost) -> Result<(), OutOfMemory>
        requires behind { IsBehind (costs self.old) (Self.Cost.components cost.now) }
        requires uncovered { ¬ IsCovered (costs self.old) (Self.Cost.components cost.now) }
        ensures { IfOk result (λ _.
            costs self.new ≡ costs self.old ++ Self.Cost.components cost.now ∷ []) };

    /// All of them, without what tells what is covered.
    fn into_costs(self) -> Vec<Self::Cost>
        ensures { map Self.Cost.components result.items ≡ costs self };
}
