ghost use Rattle.std.specs.Prelude.{◌≡◌, length, map, All};
ghost use Rattle.cost_vector.specs.Costs.{AtMost};
ghost use Rattle.node_lists.specs.FoundLists.{AreLowered, IsLowered};

use cost_vector::Cost;
use stored_cost::StoredCost;

/// Takes a vector that is at most each of these costs off each.
pub(crate) fn lower_all<const D: usize, C: StoredCost<D>>(costs: &mut [C], by: &Cost)
    requires criteria { length by.now ≡ D }
    requires at_most { All (AtMost by.now) (map C.components costs.old) }
    ensures { AreLowered by.now (map C.components costs.old) (map C.components costs.new) }
{
    for cost in costs.iter_mut() {
        *cost = lowered::<D, C>(cost, by);
    }
}

/// What is left of a cost that the vector is at most.
fn lowered<const D: usize, C: StoredCost<D>>(cost: &C, by: &Cost) -> C
    requires criteria { length by.now ≡ D }
    requires at_most { AtMost by.now (C.components cost.now) }
    ensures { IsLowered by.now (C.components cost.now) (C.components result) }
{
    prove!(by.count() == D);
    let mut left = cost.to_compact();
    for (i, component) in left.0.iter_mut().enumerate() {
        *component -= by.component(i);
    }
    C::of(&left.0)
}
