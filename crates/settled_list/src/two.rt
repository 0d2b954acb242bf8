ghost use Rattle.std.specs.Prelude.{◌≡◌};

use crate::SettledList;
use out_of_memory::OutOfMemory;
use std::alloc::Global;
use std::marker::Model;
use stored_cost::{Part, StoredCost};

/// Those of 2 criteria: their second components fall, so that the last one decides. It stands
/// beside the costs, so that no cost is read to tell what is covered.
#[derive(Drop)]
pub struct SecondList<C: StoredCost<2>> {
    costs: Vec<C>,
    /// The second component of the last cost. While there is none, what no component comes to.
    last: C::Part,
}

impl<C: StoredCost<2>> Model for SecondList<C> {
    ghost use Rattle.std.specs.Prelude.{◌≡◌, ℕ, List, map};
    ghost use Rattle.settled_front.specs.Staircase.{IsStaircase};
    ghost use Rattle.settled_list.specs.Ascending.{last_second};

    ghost Value = { List (List ℕ) };

    ghost view = { λ f. map C.components f.costs.items };

    ghost invariant = { λ f. IsStaircase (map C.components f.costs.items)
        × (C.Part.value f.last ≡ last_second C.Part.bound (map C.components f.costs.items)) };
}

impl<C: StoredCost<2>> SettledList<2> for SecondList<C> {
    type Cost = C;

    ghost costs = { λ f. f };

    fn new(alloc: Global) -> SecondList<C> {
        SecondList {
            costs: Vec::new(alloc),
            last: C::Part::beyond(),
        }
    }

    fn as_slice(&self) -> &[C] {
        self.costs.as_slice()
    }

    fn covers(&self, cost: &C) -> bool {
        self.last.is_at_most(cost.part(1))
    }

    fn push(&mut self, cost: &C) -> Result<(), OutOfMemory> {
        let second = cost.part(1);
        self.costs.push(*cost)?;
        self.last = second;
        Ok(())
    }

    fn into_costs(self) -> Vec<C> {
        self.costs
    }
}
