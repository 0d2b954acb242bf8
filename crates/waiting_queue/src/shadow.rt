ghost use Rattle.std.specs.Prelude.{◌≡◌, ◌+◌, ◌≤◌, ◌↔◌, drop, length, slice_get, take, false, All, Contains, IfNone, IfOk, IfSome, IsTrue, Some};
ghost use Rattle.cost_vector.specs.Costs.{AtMost, Dominates};
ghost use Rattle.list_laws.specs.Without.{IsWithout};
ghost use Rattle.waiting_queue.specs.Shadows.{Descends, ExceedsBefore, ReachesBefore, IsBehind, IsBelowSome, IsDominatedBy, IsRun, Joins, grounded};
ghost use Rattle.waiting_item.specs.Waiting.{AreCriteria};
ghost use Rattle.waiting_item.specs.declared.item.Item.{Item};

use out_of_memory::OutOfMemory;
use stored_cost::{Part, StoredCost};
use waiting_item::Item;

/// So few costs are gone through faster than searched.
const FEW: usize = 8;

/// A cost of the list that dominates this one.
fn find_dominating<'a, const D: usize, C: StoredCost<D>>(by: &'a [C], cost: &C) -> Option<&'a C>
    ensures listed { IfSome result (λ c. Contains by.now c.now) }
    ensures dominates { IfSome result (λ c.
        Dominates (C.components c.now) (C.components cost.now)) }
    ensures none { IfNone result (¬ IsDominatedBy C.components by.now (C.components cost.now)) }
{
    for other in by {
        if other.dominates(cost) {
            return Some(other);
        }
    }
    None
}

/// How many costs of the shadow exceed this one in the second component. The search has no branch that couldn't be foreseen.
fn count_above<const D: usize, C: StoredCost<D>>(shadow: &[C], cost: &C) -> usize
    requires criteria { AreCriteria D }
    requires descends { Descends C.components shadow.now }
    ensures { ExceedsBefore C.components shadow.now (C.components cost.now) result }
{
    let bound = cost.part(1);
    let mut start = 0;
    let mut size = shadow.len();
    while size > 0 {
        let half = size - size / 2;
        start += half * bound.less_bit(shadow[start + half - 1].part(1));
        size -= half;
    }
    start
}

/// How many costs of the shadow come up to this one in the second component. The search has no branch that couldn't be foreseen.
fn count_up_to<const D: usize, C: StoredCost<D>>(shadow: &[C], cost: &C) -> usize
    requires criteria { AreCriteria D }
    requires descends { Descends C.components shadow.now }
    ensures { ReachesBefore C.components shadow.now (C.components cost.now) result }
{
    let bound = cost.part(1);
    let mut start = 0;
    let mut size = shadow.len();
    while size > 0 {
        let half = size - size / 2;
        start += half * (1 - shadow[start + half - 1].part(1).less_bit(bound));
        size -= half;
    }
    start
}

/// A cost of the shadow that dominates this one, which comes behind it. It is kept out of its caller: there the comparisons of
/// costs would become branches, which can't be foreseen.
#[inline(never)]
fn search_shadowing<'a, const D: usize, C: StoredCost<D>>(
    shadow: &'a [C],
    cost: &C,
) -> Option<&'a C>
    requires criteria { AreCriteria D }
    requires descends { Descends C.components shadow.now }
    ensures listed { IfSome result (λ c. Contains shadow.now c.now) }
    ensures dominates { IfSome result (λ c.
        Dominates (C.components c.now) (C.components cost.now)) }
    ensures none { IfNone result (IsBehind C.components shadow.now (C.components cost.now)
        → ¬ IsDominatedBy C.components shadow.now (C.components cost.now)) }
{
    let start = count_above(shadow, cost);
    find_dominating(&shadow[start..], cost)
}

/// A cost of the shadow that dominates this one. The last that dominated one is tried first: mostly it dominates the next too.
#[inline(always)]
fn find_shadowing<'a, const D: usize, C: StoredCost<D>>(
    shadow: &'a [C],
    last: &'a C,
    cost: &C,
) -> Option<&'a C>
    requires criteria { AreCriteria D }
    requires descends { Descends C.components shadow.now }
    requires last { Contains shadow.now last.now }
    ensures listed { IfSome result (λ c. Contains shadow.now c.now) }
    ensures dominates { IfSome result (λ c.
        Dominates (C.components c.now) (C.components cost.now)) }
    ensures none { IfNone result (IsBehind C.components shadow.now (C.components cost.now)
        → ¬ IsDominatedBy C.components shadow.now (C.components cost.now)) }
{
    if last.dominates(cost) {
        return Some(last);
    }
    if shadow.len() < FEW {
        return find_dominating(shadow, cost);
    }
    search_shadowing(shadow, cost)
}

/// How many of the items the shadow dominates, up to the first that it doesn't. It is always part of its caller: called for each run,
/// it took a tenth more of the whole time.
#[inline(always)]
pub(crate) fn count_shadowed<const D: usize, C: StoredCost<D>>(
    shadow: &[C],
    items: &[Item<C>],
) -> usize
    requires criteria { AreCriteria D }
    requires descends { Descends C.components shadow.now }
    ensures { IsRun C.components shadow.now items.now result }
{
    let Some(mut last) = shadow.first() else {
        return 0;
    };
    let mut count = 0;
    loop {
        let (_, left) = items.split_at(count);
        count += count_dominated(last, left);
        let Some(item) = items.get(count) else {
            return count;
        };
        let Some(found) = find_shadowing(shadow, last, &item.cost) else {
            return count;
        };
        last = found;
        count += 1;
    }
}

/// How many of the items this cost dominates, up to the first that it doesn't.
fn count_dominated<const D: usize, C: StoredCost<D>>(by: &C, items: &[Item<C>]) -> usize
    ensures within { result ≤ length items.now }
    ensures dominated { All (λ i. Dominates (C.components by.now) (C.components i.cost))
        (take result items.now) }
    ensures ends { (i : Item C) → slice_get (drop result items.now) 0 ≡ Some i
        → ¬ Dominates (C.components by.now) (C.components i.cost) }
{
    for (count, item) in items.iter().enumerate() {
        if !by.dominates(&item.cost) {
            return count;
        }
    }
    items.len()
}

/// Whether a cost of the shadow dominates this one, which comes behind it.
pub(crate) fn is_shadowed<const D: usize, C: StoredCost<D>>(shadow: &[C], cost: &C) -> bool
    requires criteria { AreCriteria D }
    requires descends { Descends C.components shadow.now }
    ensures dominated { IsTrue result
        → IsDominatedBy C.components shadow.now (C.components cost.now) }
    ensures free { result ≡ false → IsBehind C.components shadow.now (C.components cost.now)
        → ¬ IsDominatedBy C.components shadow.now (C.components cost.now) }
{
    search_shadowing(shadow, cost).is_some()
}

/// The cost with zero as its first component.
fn floor<const D: usize, C: StoredCost<D>>(cost: &C) -> C
    requires { AreCriteria D }
    ensures value { C.components result ≡ grounded (C.components cost.now) }
    ensures long { length (C.components cost.now) ≡ D }
{
    let mut low = cost.to_compact();
    low.0[0] = 0;
    C::of(&low.0)
}

/// Whether this cost is at most one of the list. All are compared, without a branch between them.
#[tactic(auto, using(crate::proofs::ShadowLemmas::below_some_more))]
fn is_below_any<const D: usize, C: StoredCost<D>>(low: &C, costs: &[C]) -> bool
    ensures { IsTrue result ↔ IsBelowSome C.components costs.now (C.components low.now) }
{
    let mut any = false;
    for cost in costs {
        any |= low.at_most(cost);
    }
    any
}

/// Takes out the costs that this one is at most. Mostly there are none. They come up to it in the second component, so the others
/// aren't looked at.
fn uncover<const D: usize, C: StoredCost<D>>(shadow: &mut Vec<C>, low: &C)
    requires criteria { AreCriteria D }
    requires descends { Descends C.components shadow.old.items }
    ensures descends { Descends C.components shadow.new.items }
    ensures without { IsWithout (λ x. AtMost (C.components low.now) (C.components x))
        shadow.old.items shadow.new.items }
{
    let near = count_up_to(shadow, low);
    if is_below_any(low, &shadow[..near]) {
        remove_above(shadow, low);
    }
}

/// Takes out the costs that this one is at most: the others move up, without a branch between them.
fn remove_above<const D: usize, C: StoredCost<D>>(shadow: &mut Vec<C>, low: &C)
    requires { Descends C.components shadow.old.items }
    ensures descends { Descends C.components shadow.new.items }
    ensures without { IsWithout (λ x. AtMost (C.components low.now) (C.components x))
        shadow.old.items shadow.new.items }
{
    let mut kept = 0;
    for i in 0..shadow.len() {
        let cost = shadow[i];
        shadow[kept] = cost;
        kept += usize::from(!low.at_most(&cost));
    }
    shadow.truncate(kept);
}

/// A taken cost joins the shadow. Those leave that it covers. As part of its caller this would be slower.
#[inline(never)]
pub(crate) fn cast<const D: usize, C: StoredCost<D>>(
    shadow: &mut Vec<C>,
    cost: &C,
) -> Result<(), OutOfMemory>
    requires criteria { AreCriteria D }
    requires descends { Descends C.components shadow.old.items }
    ensures joins { IfOk result (λ _. Joins C.components shadow.old.items cost.now
        shadow.new.items) }
    ensures descends { IfOk result (λ _. Descends C.components shadow.new.items) }
{
    uncover(shadow, &floor(cost));
    let place = count_above(shadow, cost);
    shadow.insert(place, *cost)?;
    Ok(())
}
