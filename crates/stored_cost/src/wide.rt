ghost use Rattle.std.specs.Prelude.{refl};

use crate::StoredCost;
use cost_vector::{CompactCost, Weight};
use std::cmp::Ordering;
use std::marker::Model;

/// A cost in 64 bits a component, each below 2^63. A contract sees the list of its components.
#[derive(Clone, Copy, Debug, PartialEq, Eq, PartialOrd, Ord)]
pub struct WideCost<const D: usize> {
    parts: [u64; D],
}

impl<const D: usize> Model for WideCost<D> {
    ghost use Rattle.std.specs.Prelude.{ℕ, ◌^◌, List};
    ghost use Rattle.stored_cost.specs.Stored.{IsStored};

    ghost Value = { List ℕ };

    ghost view = { λ c. c.parts };

    ghost invariant = { λ c. IsStored D (2 ^ 63) c.parts };

    ghost inverse = { λ xs. record { parts = xs } };
}

impl<const D: usize> StoredCost<D> for WideCost<D> {
    type Part = u64;

    ghost components = { λ c. c };

    fn fits(numbers: &[u64]) -> bool {
        numbers.iter().all(|number| *number < 1 << 63)
    }

    fn of(numbers: &[u64]) -> WideCost<D> {
        let mut parts = [0; D];
        for (i, part) in parts.iter_mut().enumerate() {
            *part = numbers[i];
        }
        WideCost { parts }
    }

    fn to_compact(&self) -> CompactCost<D> {
        let mut components = [0; D];
        for (i, component) in components.iter_mut().enumerate() {
            *component = self.parts[i];
        }
        CompactCost(components)
    }

    fn part(&self, i: usize) -> u64 {
        self.parts[i]
    }

    #[tactic(auto, using(crate::proofs::Parts::sums_fit))]
    fn plus(&self, by: &Weight) -> Option<WideCost<D>> {
        prove!(by.count() == D);
        let sum = self.to_compact().plus(by);
        if WideCost::<D>::fits(&sum.0) {
            Some(WideCost::of(&sum.0))
        } else {
            None
        }
    }

    fn compare(&self, other: &WideCost<D>) -> Ordering {
        self.parts.cmp(&other.parts)
    }

    fn at_most(&self, other: &WideCost<D>) -> bool {
        // All are compared: where the first greater one stands can't be foreseen.
        let mut none_greater = true;
        for (i, part) in self.parts.iter().enumerate() {
            none_greater &= *part <= other.parts[i];
        }
        none_greater
    }

    fn dominates(&self, other: &WideCost<D>) -> bool {
        self.at_most(other) && self != other
    }

    fn meet(&self, other: &WideCost<D>) -> WideCost<D> {
        let mut parts = self.parts;
        for (i, part) in parts.iter_mut().enumerate() {
            *part = (*part).min(other.parts[i]);
        }
        WideCost { parts }
    }

    ghost orders = { λ a b. refl };

    ghost same = { λ a b e. e };
}
