ghost use Rattle.std.specs.Prelude.{◌≡◌, ◌-◌, ◌<◌, ◌≤◌, ◌↔◌, length, map, slice_get, IsTrue};
ghost use Rattle.settled_front.specs.Fronts.{IsCovered};
ghost use Rattle.settled_front.specs.Staircase.{IsStaircase, IsUpTo, first};

use crate::front::{NarrowFront, SettledFront};
use cost_vector::CompactCost;
use out_of_memory::OutOfMemory;
use std::alloc::Global;
use std::marker::Model;
use stored_cost::{NarrowCost, Part, StoredCost, WideCost};

/// The settled costs of a node under 2 criteria, in ascending order of their first components, so that the second ones
/// descend: of those whose first component is small enough the last one decides.
///
/// Often an end tells: the first one is at most another cost, or exceeds its first component, and so do all; or the last one's
/// first component doesn't exceed it, so that this one decides. So both stand beside the list too, where they are read without
/// another access to memory.
#[derive(Drop)]
pub struct StairFront<C: StoredCost<2>> {
    costs: Vec<C>,
    first: Option<C>,
    last: Option<C>,
}

impl<C: StoredCost<2>> Model for StairFront<C> {
    ghost use Rattle.std.specs.Prelude.{◌≡◌, ◌-◌, ℕ, List, length, map, slice_get};
    ghost use Rattle.settled_front.specs.Staircase.{IsStaircase};

    ghost Value = { List (List ℕ) };

    ghost view = { λ f. map C.components f.costs.items };

    ghost invariant = { λ f. IsStaircase (map C.components f.costs.items)
        × ((f.first ≡ slice_get f.costs.items 0)
        × (f.last ≡ slice_get f.costs.items (length f.costs.items - 1))) };
}

impl<C: StoredCost<2>> SettledFront<2> for StairFront<C> {
    type Cost = C;

    ghost costs = { λ f. f };

    fn new(alloc: Global) -> StairFront<C> {
        StairFront {
            costs: Vec::new(alloc),
            first: None,
            last: None,
        }
    }

    fn len(&self) -> usize {
        self.costs.len()
    }

    fn covers(&self, cost: &C) -> bool {
        let Some(first) = &self.first else {
            return false;
        };
        first.at_most(cost)
            || (is_up_to(first, cost) && stairs_cover(&self.costs, &self.last, cost))
    }

    fn push(&mut self, cost: &C) -> Result<(), OutOfMemory> {
        let place = up_to(&self.costs, cost);
        self.costs.insert(place, *cost)?;
        self.first = self.costs.first().copied();
        self.last = self.costs.last().copied();
        Ok(())
    }

    fn to_costs(&self, alloc: Global) -> Result<Vec<CompactCost<2>>, OutOfMemory> {
        let mut list = Vec::new(alloc);
        for cost in &self.costs {
            list.push(cost.to_compact())?;
        }
        Ok(list)
    }
}

/// Whether the cost's first component isn't greater than the other's.
fn is_up_to<C: StoredCost<2>>(cost: &C, other: &C) -> bool
    ensures test { IsTrue result ↔ (first (C.components cost.now) ≤ first (C.components other.now)) }
    ensures long { length (C.components other.now) ≡ 2 }
{
    cost.part(0).to_number() <= other.part(0).to_number()
}

/// Whether some cost is at most this one: the last of those whose first component isn't greater decides.
fn stairs_cover<C: StoredCost<2>>(costs: &[C], last: &Option<C>, cost: &C) -> bool
    requires stairs { IsStaircase (map C.components costs.now) }
    requires last { last.now ≡ slice_get costs.now (length costs.now - 1) }
    ensures { IsTrue result ↔ IsCovered (map C.components costs.now) (C.components cost.now) }
{
    let Some(last) = last else {
        return false;
    };
    if is_up_to(last, cost) {
        return last.at_most(cost);
    }
    search_cover(costs, cost)
}

/// Whether some cost is at most this one, by a search for the one that decides.
#[tactic(auto, using(crate::proofs::Stairs::last_decides))]
fn search_cover<C: StoredCost<2>>(costs: &[C], cost: &C) -> bool
    requires stairs { IsStaircase (map C.components costs.now) }
    requires some { 0 < length costs.now }
    ensures { IsTrue result ↔ IsCovered (map C.components costs.now) (C.components cost.now) }
{
    let place = search_up_to(costs, cost);
    place > 0 && costs[place - 1].at_most(cost)
}

/// How many costs have a first component that isn't greater. It is often none, as at the target, or all.
#[tactic(auto, using(crate::proofs::Stairs::none_up_to))]
fn up_to<C: StoredCost<2>>(costs: &[C], cost: &C) -> usize
    requires { IsStaircase (map C.components costs.now) }
    ensures long { length (C.components cost.now) ≡ 2 }
    ensures cut { IsUpTo (map C.components costs.now) (first (C.components cost.now)) result }
{
    let first = cost.part(0).to_number();
    let (Some(least), Some(greatest)) = (costs.first(), costs.last()) else {
        return 0;
    };
    if first < least.part(0).to_number() {
        return 0;
    }
    if greatest.part(0).to_number() <= first {
        return costs.len();
    }
    search_up_to(costs, cost)
}

/// How many costs have a first component that isn't greater. The search has no branch that couldn't be foreseen: of the costs that
/// are left the later half goes where its first one is greater.
fn search_up_to<C: StoredCost<2>>(costs: &[C], cost: &C) -> usize
    requires stairs { IsStaircase (map C.components costs.now) }
    requires some { 0 < length costs.now }
    ensures long { length (C.components cost.now) ≡ 2 }
    ensures cut { IsUpTo (map C.components costs.now) (first (C.components cost.now)) result }
{
    let first = cost.part(0);
    let mut end = costs.len();
    let mut size = costs.len();
    while size > 1 {
        let half = size / 2;
        end -= half * first.less_bit(costs[end - half].part(0));
        size -= half;
    }
    end - first.less_bit(costs[end - 1].part(0))
}

impl NarrowFront<2> for StairFront<NarrowCost<2>> {
    type Wide = StairFront<WideCost<2>>;

    fn widen(&self, alloc: Global) -> Result<StairFront<WideCost<2>>, OutOfMemory> {
        let mut costs = Vec::new(alloc);
        for cost in &self.costs {
            costs.push(WideCost::of(&cost.to_compact().0))?;
        }
        let first = costs.first().copied();
        let last = costs.last().copied();
        Ok(StairFront { costs, first, last })
    }
}
