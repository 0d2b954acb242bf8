//! A queue cut into ranges, which workers pass side by side, each with a shadow of its own.
ghost use Rattle.std.specs.Prelude.{◌≡◌, ◌≤◌, ◌↔◌, length, All, IfOk, IsTrue, List, None};
ghost use Rattle.waiting_queue.specs.Ranges.{ArePassed, AreRanges, LiesIn, ListsWithin, PassesRange, all_of, others_of};
ghost use Rattle.waiting_queue.specs.Taking.{AreSorted};
ghost use Rattle.waiting_item.specs.Waiting.{AreCriteria, spot_in};
ghost use Rattle.waiting_item.specs.declared.item.Item.{Item};

use crate::Look;
use crate::filling::{Fills, fill_each};
use crate::joining::Part;
use crate::order::{is_before, sort_items};
use crate::passing::pass_anew;
use out_of_memory::OutOfMemory;
use std::alloc::Global;
use std::thread::Threads;
use stored_cost::StoredCost;
use waiting_item::Item;
use work_claim::Workers;

/// What waits: a sorted list, what comes in again, and what is new, both in any order.
#[derive(Drop)]
pub(crate) struct Lists<'q, C> {
    pub items: &'q [Item<C>],
    pub late: &'q [Item<C>],
    pub fresh: &'q [Item<C>],
}

/// A range of a queue: some of the sorted list, and where it begins and ends. What comes in is of it where it lies between.
#[derive(Drop)]
pub(crate) struct Range<'q, C> {
    pub items: &'q [Item<C>],
    pub from: Option<&'q Item<C>>,
    pub until: Option<&'q Item<C>>,
}

/// Cuts a sorted list into at most so many ranges, in order, among which all that comes in is shared out.
fn cut_ranges<'q, const D: usize, C: StoredCost<D>>(
    alloc: Global,
    items: &'q [Item<C>],
    count: usize,
) -> Result<Vec<Range<'q, C>>, OutOfMemory>
    requires some { 1 ≤ count }
    requires sorted { AreSorted (spot_in C.components) items.now }
    ensures { IfOk result (λ ranges. (others : List (Item C))
        → AreRanges C.components items.now others ranges.items) }
{
    let size = items.len() / count + 1;
    let mut ranges = Vec::new(alloc);
    let mut items = items;
    let mut from = None;
    for _ in 1..count {
        let (front, others) = items.split_at(items.len().min(size));
        let Some(until) = others.first() else {
            break;
        };
        ranges.push(Range {
            items: front,
            from,
            until: Some(until),
        })?;
        items = others;
        from = Some(until);
    }
    ranges.push(Range {
        items,
        from,
        until: None,
    })?;
    Ok(ranges)
}

/// Has the workers pass ranges of what waits, as many as they are, side by side, each into a part, whose memory is used again.
/// What the parts held before is gone.
pub(crate) fn pass_ranges<
    'q,
    const D: usize,
    C: StoredCost<D> + Send + Sync,
    K: Look<D, C> + Sync,
    R: Threads + Sync,
    G,
>(
    workers: &Workers<'_, R, G>,
    alloc: Global,
    look: &'q K,
    lists: &'q Lists<'q, C>,
    parts: &mut Vec<Part<C>>,
) -> Result<(), OutOfMemory>
where
    C::Part: Send + Sync,
    requires criteria { AreCriteria D }
    requires sorted { AreSorted (spot_in C.components) lists.now.items.now }
    ensures { IfOk result (λ _. ArePassed C.components (K.IsOpen look.now) (all_of lists.now)
        parts.new.items) }
{
    let ranges = cut_ranges(alloc, lists.items, workers.count() as usize)?;
    have_parts(alloc, parts, ranges.len())?;
    let pass = RangePass {
        look,
        lists,
        ranges: &ranges,
    };
    fill_each(workers.rt(), &pass, parts);
    are_whole(parts)
}

/// Passes over ranges.
#[derive(Drop)]
struct RangePass<'q, const D: usize, C: StoredCost<D>, K: Look<D, C>> {
    look: &'q K,
    lists: &'q Lists<'q, C>,
    ranges: &'q [Range<'q, C>],
}

impl<'q, const D: usize, C: StoredCost<D> + Send + Sync, K: Look<D, C> + Sync> Fills<Part<C>>
    for RangePass<'q, D, C, K>
where
    C::Part: Send + Sync,
{
    ghost use Rattle.std.specs.Prelude.{◌≡◌, None};
    ghost use Rattle.waiting_queue.specs.Ranges.{CanPass, GivesPart, others_of};

    ghost accepts = { λ pass place. CanPass C.components D pass.ranges.now place };

    ghost gives = { λ pass place part. part.want ≡ None → GivesPart C.components
        (K.IsOpen pass.look.now) (others_of pass.lists.now) pass.ranges.now place part };

    #[tactic(auto, using(std::proofs::lemmas::Option::gets))]
    fn fill(&self, place: usize, part: &mut Part<C>) {
        let passed = pass_range(self.look, self.lists, &self.ranges[place], part);
        part.want = passed.err();
    }
}

/// Passes a range of what waits.
fn pass_range<const D: usize, C: StoredCost<D>, K: Look<D, C>>(
    look: &K,
    lists: &Lists<'_, C>,
    range: &Range<'_, C>,
    part: &mut Part<C>,
) -> Result<(), OutOfMemory>
    requires criteria { AreCriteria D }
    requires sorted { AreSorted (spot_in C.components) range.now.items.now }
    ensures { IfOk result (λ _. PassesRange C.components (K.IsOpen look.now)
        (others_of lists.now) range.now part.new.taken.items part.new.rest.items
        part.new.shadow.items) }
{
    part.order.clear();
    list_within(range, lists.late, &mut part.order)?;
    list_within(range, lists.fresh, &mut part.order)?;
    sort_items(&mut part.order);
    pass_anew(
        look,
        range.items,
        &part.order,
        &mut part.shadow,
        &mut part.taken,
        &mut part.rest,
    )
}

/// Lists those of the items that lie in the range behind what is there.
fn list_within<const D: usize, C: StoredCost<D>>(
    range: &Range<'_, C>,
    items: &[Item<C>],
    list: &mut Vec<Item<C>>,
) -> Result<(), OutOfMemory>
    ensures { IfOk result (λ _. ListsWithin C.components range.now items.now list.old.items
        list.new.items) }
{
    for item in items {
        if is_within(range, item) {
            list.push(*item)?;
        }
    }
    Ok(())
}

/// Whether an item lies in the range. Both bounds are compared in any case: what lies between can't be foreseen.
fn is_within<const D: usize, C: StoredCost<D>>(range: &Range<'_, C>, item: &Item<C>) -> bool
    ensures { IsTrue result ↔ LiesIn C.components range.now item.now }
{
    let is_behind = match range.from {
        Some(from) => !is_before(item, from),
        None => true,
    };
    let is_in_front = match range.until {
        Some(until) => is_before(item, until),
        None => true,
    };
    is_behind & is_in_front
}

/// Refuses parts for one of which memory didn't suffice.
fn are_whole<C>(parts: &[Part<C>]) -> Result<(), OutOfMemory>
    ensures { IfOk result (λ _. All (λ p. p.want ≡ None) parts.now) }
{
    for part in parts {
        match part.want {
            None => {}
            Some(want) => return Err(want),
        }
    }
    Ok(())
}

/// Brings the parts to so many, whatever they hold.
fn have_parts<C: Drop>(
    alloc: Global,
    parts: &mut Vec<Part<C>>,
    count: usize,
) -> Result<(), OutOfMemory>
    ensures { IfOk result (λ _. length parts.new.items ≡ count) }
{
    parts.truncate(count);
    while parts.len() < count {
        parts.push(Part::new(alloc))?;
    }
    Ok(())
}
