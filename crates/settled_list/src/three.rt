ghost use Rattle.std.specs.Prelude.{◌≡◌, ◌<◌, length};
ghost use Rattle.settled_list.specs.Ascending.{rest};
ghost use Rattle.settled_list.specs.Stairs.{as_pair};

use crate::SettledList;
use crate::staircase::{Rest, Staircase};
use out_of_memory::OutOfMemory;
use std::alloc::Global;
use std::marker::Model;
use stored_cost::StoredCost;

/// Those of 3 criteria. What is covered is told by their second and third components, as far as no
/// other's are at most these.
#[derive(Drop)]
pub struct StairList<C: StoredCost<3>> {
    costs: Vec<C>,
    stair: Staircase<C::Part>,
}

impl<C: StoredCost<3>> Model for StairList<C> {
    ghost use Rattle.std.specs.Prelude.{ℕ, List, map};
    ghost use Rattle.sweep_parts.specs.Settled.{IsSettledList};
    ghost use Rattle.settled_list.specs.Ascending.{AreRestsOf};

    ghost Value = { List (List ℕ) };

    ghost view = { λ f. map C.components f.costs.items };

    ghost invariant = { λ f. IsSettledList (map C.components f.costs.items)
        × AreRestsOf (map C.components f.costs.items) f.stair };
}

impl<C: StoredCost<3>> SettledList<3> for StairList<C> {
    type Cost = C;

    ghost costs = { λ f. f };

    fn new(alloc: Global) -> StairList<C> {
        StairList {
            costs: Vec::new(alloc),
            stair: Staircase::new(alloc),
        }
    }

    fn as_slice(&self) -> &[C] {
        self.costs.as_slice()
    }

    fn covers(&self, cost: &C) -> bool {
        self.stair.covers(&rest_of(cost))
    }

    fn push(&mut self, cost: &C) -> Result<(), OutOfMemory> {
        self.costs.reserve(1)?;
        self.stair.put(rest_of(cost))?;
        self.costs.push_reserved(*cost);
        Ok(())
    }

    fn into_costs(self) -> Vec<C> {
        self.costs
    }
}

/// A cost without its first component.
fn rest_of<C: StoredCost<3>>(cost: &C) -> Rest<C::Part>
    ensures rest { as_pair C.Part.value result ≡ rest (C.components cost.now) }
    ensures long { length (C.components cost.now) ≡ 3 }
    ensures fits { C.Part.value result.second < C.Part.bound }
{
    Rest {
        second: cost.part(1),
        third: cost.part(2),
    }
}
