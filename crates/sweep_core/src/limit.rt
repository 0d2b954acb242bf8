ghost use Rattle.std.specs.Prelude.{◌≡◌, ◌↔◌, length, IsTrue};
ghost use Rattle.cost_vector.specs.Costs.{Within};

use cost_vector::{CompactCost, Limit};
use std::marker::Model;
use sweep_parts::{greatest_within, is_within};

/// A limit, with the greatest cost within it that has 64 bits in each component. A contract sees the limit.
#[derive(Drop)]
pub(crate) struct CostLimit<const D: usize> {
    limit: Limit,
    most: CompactCost<D>,
}

impl<const D: usize> Model for CostLimit<D> {
    ghost use Rattle.std.specs.Prelude.{ℕ, List, Option};
    ghost use Rattle.sweep_parts.specs.Limits.{IsGreatestWithin};

    ghost Value = { List (Option ℕ) };

    ghost view = { λ l. l.limit };

    ghost invariant = { λ l. IsGreatestWithin l.limit l.most.0 };
}

impl<const D: usize> CostLimit<D> {
    pub(crate) fn new(limit: Limit) -> CostLimit<D>
        requires { length limit ≡ D }
        ensures { result ≡ limit }
    {
        let most = greatest_within(&limit);
        CostLimit { limit, most }
    }

    /// Whether a cost is within the limit.
    pub(crate) fn allows(&self, cost: &CompactCost<D>) -> bool
        ensures { IsTrue result ↔ Within self.now cost.now.0 }
    {
        is_within(&self.most, cost)
    }
}
