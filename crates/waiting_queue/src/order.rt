ghost use Rattle.std.specs.Prelude.{◌≡◌, ◌+◌, ◌<◌, ◌↔◌, ◌++◌, IfOk, IsPermutation, IsTrue, length};
ghost use Rattle.waiting_queue.specs.Passing.{EndsAt, IsSplit};
ghost use Rattle.waiting_queue.specs.Taking.{AreSorted};
ghost use Rattle.waiting_item.specs.Waiting.{SpotLess, spot_in};

use out_of_memory::OutOfMemory;
use stored_cost::StoredCost;
use waiting_item::Item;

/// How many items are gone by at once, where the last of them comes before the one whose place is sought.
const STEP: usize = 16;

/// Whether both have one cost and one node.
pub(crate) fn is_same_spot<const D: usize, C: StoredCost<D>>(a: &Item<C>, b: &Item<C>) -> bool
    ensures { IsTrue result ↔ (spot_in C.components a.now ≡ spot_in C.components b.now) }
{
    a.node == b.node && a.cost.compare(&b.cost).is_eq()
}

/// Whether the one's spot comes before the other's. Nodes are compared in any case: whether costs are alike can't be foreseen.
pub(crate) fn is_before<const D: usize, C: StoredCost<D>>(a: &Item<C>, b: &Item<C>) -> bool
    ensures { IsTrue result ↔ SpotLess (spot_in C.components a.now) (spot_in C.components b.now) }
{
    let order = a.cost.compare(&b.cost);
    order.is_lt() | (order.is_eq() & (a.node < b.node))
}

/// Whether the last of the items has the spot of this one.
pub(crate) fn is_last<const D: usize, C: StoredCost<D>>(items: &[Item<C>], item: &Item<C>) -> bool
    ensures { IsTrue result ↔ EndsAt (spot_in C.components) items.now
        (spot_in C.components item.now) }
{
    match items.last() {
        Some(last) => is_same_spot(last, item),
        None => false,
    }
}

/// How many of the items come before this one. They are gone through, as whoever passes them does anyway, but most by steps: so
/// only two comparisons, one that ends each loop, can't be foreseen.
pub(crate) fn count_before<const D: usize, C: StoredCost<D>>(
    items: &[Item<C>],
    item: &Item<C>,
) -> usize
    requires { AreSorted (spot_in C.components) items.now }
    ensures { IsSplit (spot_in C.components) items.now (spot_in C.components item.now) result }
{
    let mut count = 0;
    while STEP <= items.len() - count && is_before(&items[count + STEP - 1], item) {
        count += STEP;
    }
    while count < items.len() && is_before(&items[count], item) {
        count += 1;
    }
    count
}

/// Sorts items. Those that are in order already are only gone through.
pub(crate) fn sort_items<const D: usize, C: StoredCost<D>>(items: &mut Vec<Item<C>>)
    ensures same { IsPermutation items.old.items items.new.items }
    ensures sorted { AreSorted (spot_in C.components) items.new.items }
{
    items.sort_unstable();
}
