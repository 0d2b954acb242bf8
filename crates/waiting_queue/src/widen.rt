ghost use Rattle.std.specs.Prelude.{◌≡◌, ◌≤◌, map, IfOk};
ghost use Rattle.waiting_item.specs.Waiting.{AreCriteria, as_waiting};

use out_of_memory::OutOfMemory;
use std::alloc::Global;
use stored_cost::StoredCost;
use waiting_item::Item;

/// The same items, with room for greater costs.
pub fn widen_items<const D: usize, C: StoredCost<D>, W: StoredCost<D>>(
    alloc: Global,
    items: &[Item<C>],
) -> Result<Vec<Item<W>>, OutOfMemory>
    requires criteria { AreCriteria D }
    requires room { C.Part.bound ≤ W.Part.bound }
    ensures { IfOk result (λ wide.
        map (as_waiting W.components) wide.items ≡ map (as_waiting C.components) items.now) }
{
    let mut wide = Vec::new(alloc);
    for item in items {
        wide.push(widened(item))?;
    }
    Ok(wide)
}

/// The same item, with room for a greater cost.
fn widened<const D: usize, C: StoredCost<D>, W: StoredCost<D>>(item: &Item<C>) -> Item<W>
    requires criteria { AreCriteria D }
    requires room { C.Part.bound ≤ W.Part.bound }
    ensures { as_waiting W.components result ≡ as_waiting C.components item.now }
{
    let cost = item.cost.to_compact();
    Item {
        cost: W::of(&cost.0),
        node: item.node,
        from: item.from,
    }
}
