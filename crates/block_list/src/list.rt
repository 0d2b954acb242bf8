ghost use Rattle.std.specs.Prelude.{◌≡◌};

use crate::RestFront;
use out_of_memory::OutOfMemory;
use settled_list::SettledList;
use std::alloc::Global;
use std::marker::Model;
use stored_cost::StoredCost;

/// Those of 4 criteria: in order, and beside it their rests in blocks, which tell what is covered. What a later one is at most
/// stays there too.
#[derive(Drop)]
pub struct BlockList<F: RestFront> {
    costs: Vec<F::Whole>,
    rests: F,
}

impl<F: RestFront> Model for BlockList<F> {
    ghost use Rattle.std.specs.Prelude.{ℕ, List, map};
    ghost use Rattle.settled_list.specs.Ascending.{AreRestsOf};
    ghost use Rattle.sweep_parts.specs.Settled.{IsSettledList};

    ghost Value = { List (List ℕ) };

    ghost view = { λ l. map F.Whole.components l.costs.items };

    ghost invariant = { λ l. IsSettledList (map F.Whole.components l.costs.items)
        × AreRestsOf (map F.Whole.components l.costs.items) (F.rests l.rests) };
}

impl<F: RestFront> SettledList<4> for BlockList<F> {
    type Cost = F::Whole;

    ghost costs = { λ l. l };

    fn new(alloc: Global) -> BlockList<F> {
        BlockList {
            costs: Vec::new(alloc),
            rests: F::without_rests(alloc),
        }
    }

    fn as_slice(&self) -> &[F::Whole] {
        self.costs.as_slice()
    }

    fn covers(&self, cost: &F::Whole) -> bool {
        self.rests.covers_rest(cost)
    }

    fn push(&mut self, cost: &F::Whole) -> Result<(), OutOfMemory> {
        let _second = cost.part(1);
        self.costs.reserve(1)?;
        self.rests.add_rest(cost)?;
        self.costs.push_reserved(*cost);
        Ok(())
    }

    fn into_costs(self) -> Vec<F::Whole> {
        self.costs
    }
}
