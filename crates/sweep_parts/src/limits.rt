ghost use Rattle.std.specs.Prelude.{◌≡◌, ℕ, ◌^◌, ◌<◌, ◌↔◌, List, Option, length, All, IsTrue};
ghost use Rattle.cost_vector.specs.Costs.{Within};
ghost use Rattle.sweep_parts.specs.Limits.{IsGreatestWithin};

use cost_vector::{CompactCost, Limit};

/// The limit as a cost: where it has no bound, the component is as great as can be.
pub fn greatest_within<const D: usize>(limit: &Limit) -> CompactCost<D>
    requires { length limit.now ≡ D }
    ensures { IsGreatestWithin limit.now result.0 }
{
    let mut most = [u64::MAX; D];
    for (i, component) in most.iter_mut().enumerate() {
        *component = limit.place(i).unwrap_or(u64::MAX);
    }
    CompactCost(most)
}

/// Whether the cost is within the limit of this greatest cost.
pub fn is_within<const D: usize>(most: &CompactCost<D>, cost: &CompactCost<D>) -> bool
    ensures { (limit : List (Option ℕ)) → IsGreatestWithin limit most.now.0
        → IsTrue result ↔ Within limit cost.now.0 }
{
    have_64_bits(&cost.0);
    cost.at_most(most)
}

/// Components have 64 bits.
fn have_64_bits(components: &[u64])
    ensures { All (λ x. x < 2 ^ 64) components.now }
{}
