//! Costs that look drawn, and are the same in each run.
ghost use Rattle.std.specs.Prelude.{◌≤◌};
ghost use Rattle.cost_vector.specs.Costs.{max_criteria};

use std::process::Abort;
use stored_cost::StoredCost;

/// A number below the bound, or 0 where that is 0, by a linear congruence (Knuth's MMIX).
fn draw(state: &mut u64, below: u64) -> u64 {
    *state = state
        .wrapping_mul(6_364_136_223_846_793_005)
        .wrapping_add(1_442_695_040_888_963_407);
    if below == 0 {
        0
    } else {
        (*state >> 33) % below
    }
}

/// The cost of these components.
pub(super) fn cost_of<const D: usize, C: StoredCost<D>>(rt: &impl Abort, components: &[u64; D]) -> C
    requires { D ≤ max_criteria }
{
    assert!(rt; C::fits(components), "room for each component");
    C::of(components)
}

/// A cost of components below the bound.
pub(super) fn draw_cost<const D: usize, C: StoredCost<D>>(
    rt: &impl Abort,
    state: &mut u64,
    below: u64,
) -> C
    requires { D ≤ max_criteria }
{
    let mut components = [0; D];
    for component in components.iter_mut() {
        *component = draw(state, below);
    }
    cost_of(rt, &components)
}
