ghost use Rattle.std.specs.Prelude.{◌≡◌, ◌≤◌, map, IfOk};
ghost use Rattle.cost_vector.specs.Costs.{max_criteria, min_criteria};

use cost_vector::{CompactCost, Cost};
use out_of_memory::OutOfMemory;
use std::alloc::Global;

/// The same costs, each of which tells its number of components.
pub(crate) fn to_costs<const D: usize>(
    alloc: Global,
    list: &[CompactCost<D>],
) -> Result<Vec<Cost>, OutOfMemory>
    requires at_least_two { min_criteria ≤ D }
    requires at_most_four { D ≤ max_criteria }
    ensures { IfOk result (λ costs. costs.items ≡ map (λ c. c.0) list.now) }
{
    let mut costs = Vec::with_capacity(alloc, list.len())?;
    for cost in list {
        costs.push(cost.to_cost())?;
    }
    Ok(costs)
}
