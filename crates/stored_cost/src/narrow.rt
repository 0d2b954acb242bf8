ghost use Rattle.std.specs.Prelude.{◌≡◌, ◌+◌, ◌*◌, ◌^◌, ◌↔◌, Some, length, IsTrue, refl};
ghost use Rattle.std.specs.Ordering.{nat_cmp};
ghost use Rattle.std.specs.Cmp.Lexicographic.{slice_cmp, nat_list_cmp_total, texts_po, texts_ties};
ghost use Rattle.cost_vector.specs.Costs.{AtMost, lex_cmp};

use crate::StoredCost;
use cost_vector::{CompactCost, Weight};
use std::cmp::Ordering;
use std::marker::Model;
use std::simd::prelude::*;

/// A cost in 32 bits a component, each below 2^31. A contract sees the list of its components.
#[derive(Clone, Copy, Debug, PartialEq, Eq)]
pub struct NarrowCost<const D: usize> {
    parts: [u32; D],
}

impl<const D: usize> Model for NarrowCost<D> {
    ghost use Rattle.std.specs.Prelude.{ℕ, ◌^◌, List};
    ghost use Rattle.stored_cost.specs.Stored.{IsStored};

    ghost Value = { List ℕ };

    ghost view = { λ c. c.parts };

    ghost invariant = { λ c. IsStored D (2 ^ 31) c.parts };

    ghost inverse = { λ xs. record { parts = xs } };
}

impl<const D: usize> PartialOrd for NarrowCost<D> {
    ghost partial_cmp = { λ a b. Some (slice_cmp nat_cmp a b) };

    ghost laws = { texts_po };

    fn partial_cmp(&self, other: &NarrowCost<D>) -> Option<Ordering> {
        Some(self.cmp(other))
    }
}

impl<const D: usize> Ord for NarrowCost<D> {
    ghost cmp = { slice_cmp nat_cmp };

    ghost total = { nat_list_cmp_total };

    ghost matches_partial_cmp = { λ a b. refl };

    ghost matches_eq = { texts_ties };

    fn cmp(&self, other: &NarrowCost<D>) -> Ordering {
        if D == 2 {
            return compare_two(&self.parts, &other.parts);
        }
        self.parts.cmp(&other.parts)
    }
}

impl<const D: usize> StoredCost<D> for NarrowCost<D> {
    type Part = u32;

    ghost components = { λ c. c };

    fn fits(numbers: &[u64]) -> bool {
        numbers.iter().all(|number| *number < 1 << 31)
    }

    fn of(numbers: &[u64]) -> NarrowCost<D> {
        let mut parts = [0; D];
        for (i, part) in parts.iter_mut().enumerate() {
            *part = numbers[i] as u32;
        }
        NarrowCost { parts }
    }

    fn to_compact(&self) -> CompactCost<D> {
        let mut components = [0; D];
        for (i, component) in components.iter_mut().enumerate() {
            *component = u64::from(self.parts[i]);
        }
        CompactCost(components)
    }

    fn part(&self, i: usize) -> u32 {
        self.parts[i]
    }

    #[tactic(auto, using(crate::proofs::Parts::sums_fit))]
    fn plus(&self, by: &Weight) -> Option<NarrowCost<D>> {
        prove!(by.count() == D);
        let sum = self.to_compact().plus(by);
        if NarrowCost::<D>::fits(&sum.0) {
            Some(NarrowCost::of(&sum.0))
        } else {
            None
        }
    }

    fn compare(&self, other: &NarrowCost<D>) -> Ordering {
        self.cmp(other)
    }

    fn at_most(&self, other: &NarrowCost<D>) -> bool {
        if D == 4 {
            return four_at_most(&self.parts, &other.parts);
        }
        // All are compared: where the first greater one stands can't be foreseen.
        let mut none_greater = true;
        for (i, part) in self.parts.iter().enumerate() {
            none_greater &= *part <= other.parts[i];
        }
        none_greater
    }

    fn dominates(&self, other: &NarrowCost<D>) -> bool {
        self.at_most(other) && self != other
    }

    fn meet(&self, other: &NarrowCost<D>) -> NarrowCost<D> {
        let mut parts = self.parts;
        for (i, part) in parts.iter_mut().enumerate() {
            *part = (*part).min(other.parts[i]);
        }
        NarrowCost { parts }
    }

    ghost orders = { λ a b. refl };

    ghost same = { λ a b e. e };
}

/// Compares the first of two components that differ: without a branch between them, as where it stands can't be foreseen.
fn compare_two(a: &[u32], b: &[u32]) -> Ordering
    requires long { length a.now ≡ 2 }
    requires other_long { length b.now ≡ 2 }
    ensures { result ≡ lex_cmp a.now b.now }
{
    as_one(a[0], a[1]).cmp(&as_one(b[0], b[1]))
}

/// Two components as one number, the first of them above the second.
fn as_one(first: u32, second: u32) -> u64
    ensures { result ≡ first * 2 ^ 32 + second }
{
    u64::from(first) * (1 << 32) + u64::from(second)
}

/// Whether none of four components exceeds the other's. They are compared side by side.
fn four_at_most(a: &[u32], b: &[u32]) -> bool
    requires long { length a.now ≡ 4 }
    requires other_long { length b.now ≡ 4 }
    ensures { IsTrue result ↔ AtMost a.now b.now }
{
    let greater = u32x4::from_slice(b).simd_lt(u32x4::from_slice(a));
    greater.to_bitmask() == 0
}
