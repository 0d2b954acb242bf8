ghost use Rattle.std.specs.Prelude.{◌≡◌, ℕ, ◌≤◌, ◌<◌, ◌↔◌, List, [], ◌∷◌, length, map, IfOk, IsTrue, OnErr};
ghost use Rattle.std.specs.List.{splice};
ghost use Rattle.std.specs.List.Sorted.{IsPartitionPoint};
ghost use Rattle.settled_front.specs.Fronts.{IsCovered};
ghost use Rattle.settled_front.specs.Staircase.{IsStaircase, IsUpTo};
ghost use Rattle.settled_list.specs.Stairs.{IsPlaceFor, PutsIn, SecondsFit, as_pair};

use out_of_memory::OutOfMemory;
use std::alloc::Global;
use std::marker::Model;
use stored_cost::Part;

/// A cost of 3 components without its first one.
#[derive(Clone, Copy, Debug)]
pub(crate) struct Rest<P: Part> {
    pub(crate) second: P,
    pub(crate) third: P,
}

/// Rests of which none is at most another: ascending in the second component, so that they fall in
/// the third.
#[derive(Drop)]
pub(crate) struct Staircase<P: Part> {
    rests: Vec<Rest<P>>,
}

impl<P: Part> Model for Staircase<P> {
    ghost use Rattle.std.specs.Prelude.{ℕ, List, map};
    ghost use Rattle.settled_front.specs.Staircase.{IsStaircase};
    ghost use Rattle.settled_list.specs.Stairs.{SecondsFit, as_pair};

    ghost Value = { List (List ℕ) };

    ghost view = { λ s. map (as_pair P.value) s.rests.items };

    ghost invariant = { λ s. IsStaircase (map (as_pair P.value) s.rests.items)
        × SecondsFit P.value P.bound s.rests.items };
}

impl<P: Part> Staircase<P> {
    /// One without rests.
    pub(crate) fn new(alloc: Global) -> Staircase<P>
        ensures { result ≡ [] }
    {
        Staircase {
            rests: Vec::new(alloc),
        }
    }

    /// Whether a rest is at most this one.
    pub(crate) fn covers(&self, rest: &Rest<P>) -> bool
        requires fits { P.value rest.now.second < P.bound }
        ensures { IsTrue result ↔ IsCovered self.now (as_pair P.value rest.now) }
    {
        let place = up_to(&self.rests, rest.second);
        place > 0 && self.rests[place - 1].third.is_at_most(rest.third)
    }

    /// Puts in this rest, which none is at most. Those that it is at most go.
    pub(crate) fn put(&mut self, rest: Rest<P>) -> Result<(), OutOfMemory>
        requires fits { P.value rest.second < P.bound }
        requires uncovered { ¬ IsCovered self.old (as_pair P.value rest) }
        ensures put { IfOk result (λ _. PutsIn self.old (as_pair P.value rest) self.new) }
        ensures same { OnErr result (self.new ≡ self.old) }
    {
        let (start, end) = place_for(&self.rests, &rest);
        replace(&mut self.rests, start, end, rest)?;
        Ok(())
    }
}

/// How many rests have a second component that isn't greater. The search has no branch that couldn't be foreseen: of the rests that
/// are left the later half goes where its first one is greater.
fn up_to<P: Part>(rests: &[Rest<P>], second: P) -> usize
    requires stairs { IsStaircase (map (as_pair P.value) rests.now) }
    requires seconds { SecondsFit P.value P.bound rests.now }
    requires fits { P.value second < P.bound }
    ensures { IsUpTo (map (as_pair P.value) rests.now) (P.value second) result }
{
    let mut end = rests.len();
    let mut size = rests.len();
    while size > 0 {
        let half = size - size / 2;
        end -= half * second.less_bit(rests[end - half].second);
        size -= half;
    }
    end
}

/// How many rests have a lesser second component: one that has the same one is the last that isn't greater.
fn below<P: Part>(rests: &[Rest<P>], second: P) -> usize
    requires stairs { IsStaircase (map (as_pair P.value) rests.now) }
    requires seconds { SecondsFit P.value P.bound rests.now }
    requires fits { P.value second < P.bound }
    ensures within { result ≤ length rests.now }
    ensures cut { IsPartitionPoint (λ r. P.value r.second < P.value second)
        (λ r. P.value second ≤ P.value r.second) rests.now result }
{
    let place = up_to(rests, second);
    if place > 0 && second.is_at_most(rests[place - 1].second) {
        return place - 1;
    }
    place
}

/// Where the rest belongs: behind those with a lesser second component, in the place of those that
/// it is at most.
fn place_for<P: Part>(rests: &[Rest<P>], rest: &Rest<P>) -> (usize, usize)
    requires stairs { IsStaircase (map (as_pair P.value) rests.now) }
    requires seconds { SecondsFit P.value P.bound rests.now }
    requires fits { P.value rest.now.second < P.bound }
    ensures { IsPlaceFor (map (as_pair P.value) rests.now) (as_pair P.value rest.now)
        result.0 result.1 }
{
    let start = below(rests, rest.second);
    let mut end = start;
    while end < rests.len() && rest.third.is_at_most(rests[end].third) {
        end += 1;
    }
    (start, end)
}

/// Puts the item where others stand, from one place to another.
fn replace<T: Copy + Drop>(
    items: &mut Vec<T>,
    start: usize,
    end: usize,
    item: T,
) -> Result<(), OutOfMemory>
    requires order { start ≤ end }
    requires within { end ≤ length items.old.items }
    ensures replaced { IfOk result (λ _.
        items.new.items ≡ splice items.old.items start end (item ∷ [])) }
    ensures same { OnErr result (items.new.items ≡ items.old.items) }
{
    if start == end {
        items.insert(start, item)?;
        return Ok(());
    }
    items[start] = item;
    // That more than one leaves is rare.
    if start + 1 < end {
        let left = items.len() - (end - (start + 1));
        items.copy_within(end.., start + 1);
        items.truncate(left);
    }
    Ok(())
}
