ghost use Rattle.std.specs.Prelude.{◌≡◌, ℕ, ◌^◌, ◌<◌, ◌≤◌, ◌↔◌, List, length, replicate, All, IsTrue};
ghost use Rattle.cost_vector.specs.Costs.{AtMost, Dominates, plus, max_criteria, min_criteria};

use crate::{Cost, Weight};

/// A cost of `D` components. Costs are ordered lexicographically.
#[derive(Clone, Copy, Debug, PartialEq, Eq, PartialOrd, Ord)]
pub struct CompactCost<const D: usize>(pub [u64; D]);

impl<const D: usize> CompactCost<D> {
    /// The cost of standing still.
    pub fn zero() -> CompactCost<D>
        ensures { result.0 ≡ replicate D 0 }
    {
        CompactCost([0; D])
    }

    /// The cost, which has `D` components.
    pub fn of(cost: &Cost) -> CompactCost<D>
        requires { length cost.now ≡ D }
        ensures { result.0 ≡ cost.now }
    {
        let mut components = [0; D];
        for (i, component) in components.iter_mut().enumerate() {
            *component = cost.component(i);
        }
        CompactCost(components)
    }

    /// The same cost, which tells its number of components.
    pub fn to_cost(&self) -> Cost
        requires at_least_two { min_criteria ≤ D }
        requires at_most_four { D ≤ max_criteria }
        ensures { result ≡ self.now.0 }
    {
        Cost::of_numbers(&self.0)
    }

    /// Whether no component exceeds the other's.
    pub fn at_most(&self, other: &CompactCost<D>) -> bool
        ensures { IsTrue result ↔ AtMost self.now.0 other.now.0 }
    {
        // All are compared: where the first greater one stands can't be foreseen, and a wrong guess of the processor costs
        // more than they do.
        let mut none_greater = true;
        for (i, component) in self.0.iter().enumerate() {
            none_greater &= *component <= other.0[i];
        }
        none_greater
    }

    /// Whether no component exceeds the other's, and some component is smaller.
    pub fn dominates(&self, other: &CompactCost<D>) -> bool
        ensures { IsTrue result ↔ Dominates self.now.0 other.now.0 }
    {
        self.at_most(other) && self != other
    }

    /// The sum, component by component.
    pub fn plus(&self, w: &Weight) -> CompactCost<D>
        requires same_count { length w.now ≡ D }
        requires no_wrap { All (λ x. x < 2 ^ 64) (plus self.now.0 w.now) }
        ensures { result.0 ≡ plus self.now.0 w.now }
    {
        let mut sum = *self;
        for (i, component) in sum.0.iter_mut().enumerate() {
            *component += u64::from(w.component(i));
        }
        sum
    }

    /// The greatest cost that is at most both: the lesser component at each place.
    pub fn meet(&self, other: &CompactCost<D>) -> CompactCost<D>
        ensures below_this { AtMost result.0 self.now.0 }
        ensures below_other { AtMost result.0 other.now.0 }
        ensures greatest { (c : List ℕ) → AtMost c self.now.0 → AtMost c other.now.0
            → AtMost c result.0 }
    {
        let mut least = *self;
        for (i, component) in least.0.iter_mut().enumerate() {
            *component = (*component).min(other.0[i]);
        }
        least
    }
}
