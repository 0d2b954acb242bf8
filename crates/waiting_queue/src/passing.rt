ghost use Rattle.std.specs.Prelude.{◌≡◌, ◌+◌, ◌<◌, ◌≤◌, [], ◌++◌, IfOk};
ghost use Rattle.waiting_queue.specs.Passing.{IsLookedAt, IsPassed, HasPassed, PassesNext};
ghost use Rattle.waiting_queue.specs.Shadows.{Descends, IsShadow};
ghost use Rattle.waiting_queue.specs.Taking.{AreSorted, TakesOpen};
ghost use Rattle.waiting_item.specs.Waiting.{AreCriteria, spot_in};

use crate::Look;
use crate::order::{count_before, is_last};
use crate::shadow::{cast, count_shadowed};
use out_of_memory::OutOfMemory;
use stored_cost::StoredCost;
use waiting_item::Item;

/// Lists the open ones of two sorted lists of items whose cost no open one dominates, and apart what stays. What the lists
/// held before is gone.
pub(crate) fn pass_anew<const D: usize, C: StoredCost<D>, K: Look<D, C>>(
    look: &K,
    items: &[Item<C>],
    fresh: &[Item<C>],
    shadow: &mut Vec<C>,
    taken: &mut Vec<Item<C>>,
    rest: &mut Vec<Item<C>>,
) -> Result<(), OutOfMemory>
    requires criteria { AreCriteria D }
    requires sorted { AreSorted (spot_in C.components) items.now }
    requires fresh_sorted { AreSorted (spot_in C.components) fresh.now }
    ensures taken { IfOk result (λ _. TakesOpen (spot_in C.components) (K.IsOpen look.now)
        (items.now ++ fresh.now) taken.new.items rest.new.items) }
    ensures sorted { IfOk result (λ _. AreSorted (spot_in C.components) rest.new.items) }
    ensures shadow { IfOk result (λ _. IsShadow C.components taken.new.items shadow.new.items) }
    ensures descends { IfOk result (λ _. Descends C.components shadow.new.items) }
{
    shadow.clear();
    taken.clear();
    rest.clear();
    pass_in_turn(look, items, fresh, shadow, taken, rest)
}

/// Passes the items of both lists, in ascending order.
fn pass_in_turn<const D: usize, C: StoredCost<D>, K: Look<D, C>>(
    look: &K,
    items: &[Item<C>],
    fresh: &[Item<C>],
    shadow: &mut Vec<C>,
    taken: &mut Vec<Item<C>>,
    rest: &mut Vec<Item<C>>,
) -> Result<(), OutOfMemory>
    requires criteria { AreCriteria D }
    requires sorted { AreSorted (spot_in C.components) items.now }
    requires fresh_sorted { AreSorted (spot_in C.components) fresh.now }
    requires none { IsPassed C.components (K.IsOpen look.now) [] shadow.old.items taken.old.items
        rest.old.items }
    ensures { IfOk result (λ _. HasPassed C.components (K.IsOpen look.now)
        (items.now ++ fresh.now) shadow.new.items taken.new.items rest.new.items) }
{
    let mut left = items;
    for (i, item) in fresh.iter().enumerate() {
        let (front, others) = left.split_at(count_before(left, item));
        pass_all(look, front, shadow, taken, rest)?;
        pass_all(look, &fresh[i..i + 1], shadow, taken, rest)?;
        left = others;
    }
    pass_all(look, left, shadow, taken, rest)
}

/// Passes the items that come next. A run of those that the shadow dominates stays at once, since the shadow only changes
/// with an item that is taken.
fn pass_all<const D: usize, C: StoredCost<D>, K: Look<D, C>>(
    look: &K,
    items: &[Item<C>],
    shadow: &mut Vec<C>,
    taken: &mut Vec<Item<C>>,
    rest: &mut Vec<Item<C>>,
) -> Result<(), OutOfMemory>
    requires criteria { AreCriteria D }
    requires descends { Descends C.components shadow.old.items }
    ensures descends { IfOk result (λ _. Descends C.components shadow.new.items) }
    ensures passed { IfOk result (λ _. PassesNext C.components (K.IsOpen look.now) items.now
        shadow.old.items taken.old.items rest.old.items
        shadow.new.items taken.new.items rest.new.items) }
{
    let mut left = items;
    loop {
        let (run, others) = left.split_at(count_shadowed(shadow, left));
        rest.extend_from_slice(run)?;
        let Some((item, later)) = others.split_first() else {
            return Ok(());
        };
        look_at(look, item, shadow, taken)?;
        left = later;
    }
}

/// An item that the shadow doesn't dominate is taken, unless it isn't open or its spot was taken last.
fn look_at<const D: usize, C: StoredCost<D>, K: Look<D, C>>(
    look: &K,
    item: &Item<C>,
    shadow: &mut Vec<C>,
    taken: &mut Vec<Item<C>>,
) -> Result<(), OutOfMemory>
    requires criteria { AreCriteria D }
    requires descends { Descends C.components shadow.old.items }
    ensures descends { IfOk result (λ _. Descends C.components shadow.new.items) }
    ensures looked { IfOk result (λ _. IsLookedAt C.components (K.IsOpen look.now) item.now
        shadow.old.items taken.old.items shadow.new.items taken.new.items) }
{
    if is_last(taken, item) || !look.is_open(item) {
        return Ok(());
    }
    cast(shadow, &item.cost)?;
    taken.push(*item)?;
    Ok(())
}
