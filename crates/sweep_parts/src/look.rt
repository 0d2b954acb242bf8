ghost use Rattle.std.specs.Prelude.{◌↔◌, IsTrue};
ghost use Rattle.waiting_item.specs.Waiting.{Spot, spot_in};

use stored_cost::StoredCost;
use waiting_item::Item;

/// Who tells what is spent: what is never to be settled any more.
pub trait Look<const D: usize, C: StoredCost<D>> {
    /// Of this spot it can be asked.
    ghost allows: { Self → Spot → Type 0 };

    /// The spot is spent.
    ghost IsSpent: { Self → Spot → Type 0 };

    /// Whether the spot of an item is spent.
    fn is_spent(&self, item: &Item<C>) -> bool
        requires { allows self.now (spot_in C.components item.now) }
        ensures { IsTrue result ↔ IsSpent self.now (spot_in C.components item.now) };
}
