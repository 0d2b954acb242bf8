ghost use Rattle.std.specs.Prelude.{◌≡◌, ℕ, ◌^◌, ◌<◌, List, length, All, IfNone, IfSome};
ghost use Rattle.cost_vector.specs.Costs.{plus};

use cost_vector::{CompactCost, Cost, Weight};
use stored_cost::StoredCost;

/// A cost with the vector of an arc added, where the height of one node is taken from it and that of another is added.
pub(crate) fn moved_on<const D: usize>(
    cost: &CompactCost<D>,
    own: &Cost,
    by: &Weight,
    height: &Cost,
) -> CompactCost<D>
    requires own { length own.now ≡ D }
    requires by { length by.now ≡ D }
    requires height { length height.now ≡ D }
    requires parts { (c : List ℕ) × (length c ≡ D) × (cost.now.0 ≡ plus c own.now)
        × All (λ x. x < 2 ^ 59) c }
    requires small { All (λ x. x < 2 ^ 55) height.now }
    ensures { (c : List ℕ) → length c ≡ D → cost.now.0 ≡ plus c own.now
        → result.0 ≡ plus (plus c by.now) height.now }
{
    let mut components = cost.0;
    for i in 0..D {
        let onward = u64::from(by.component(i)) + height.component(i);
        components[i] = components[i] - own.component(i) + onward;
    }
    CompactCost(components)
}

/// The cost as it is stored, if there is room for it at that width.
pub(crate) fn stored<const D: usize, C: StoredCost<D>>(cost: &CompactCost<D>) -> Option<C>
    ensures cost { IfSome result (λ c. C.components c ≡ cost.now.0) }
    ensures room { IfNone result (¬ All (λ x. x < C.Part.bound) cost.now.0) }
{
    if C::fits(&cost.0) {
        Some(C::of(&cost.0))
    } else {
        None
    }
}
