ghost use Rattle.std.specs.Prelude.{◌↔◌, IsTrue};
ghost use Rattle.waiting_item.specs.Waiting.{Spot, spot_in};

use stored_cost::StoredCost;
use waiting_item::Item;

/// Which spots are open, as a search knows it: those that are still of use.
pub trait Look<const D: usize, C: StoredCost<D>> {
    /// The spot is open.
    ghost IsOpen: { Self → Spot → Type 0 };

    /// Whether the item's spot is open.
    fn is_open(&self, item: &Item<C>) -> bool
        ensures { IsTrue result ↔ IsOpen self.now (spot_in C.components item.now) };
}
