ghost use Rattle.std.specs.Prelude.{◌≡◌, ℕ, ◌<◌, ◌↔◌, List, length, slice_index, All, IfSome, IsSome, IsTrue};
ghost use Rattle.cost_vector.specs.Costs.{AtMost, Dominates, lex_cmp, plus};

use crate::Part;
use cost_vector::{CompactCost, Weight};
use std::cmp::Ordering;
use std::fmt::Debug;

/// A cost of `D` components, stored at some width. Costs are ordered lexicographically, also by `Ord`, which the law
/// `orders` says.
pub trait StoredCost<const D: usize>: Copy + Drop + Debug + Ord {
    /// What stores a component.
    type Part: Part;

    /// The list of its components.
    ghost components: { Self → List ℕ };

    /// Whether there is room for these components at this width.
    fn fits(numbers: &[u64]) -> bool
        ensures { IsTrue result ↔ All (λ x. x < Self.Part.bound) numbers.now };

    /// The cost of these components, where there is room for them.
    fn of(numbers: &[u64]) -> Self
        requires long { length numbers.now ≡ D }
        requires fits { All (λ x. x < Self.Part.bound) numbers.now }
        ensures { components result ≡ numbers.now };

    /// The same cost in 64 bits a component.
    fn to_compact(&self) -> CompactCost<D>
        ensures same { result.0 ≡ components self.now }
        ensures long { length (components self.now) ≡ D }
        ensures fits { All (λ x. x < Self.Part.bound) (components self.now) };

    /// The component at `i`, from 0.
    fn part(&self, i: usize) -> Self::Part
        requires { i < D }
        ensures value { Self.Part.value result ≡ slice_index (components self.now) i }
        ensures long { length (components self.now) ≡ D }
        ensures fits { All (λ x. x < Self.Part.bound) (components self.now) };

    /// The sum, component by component, where there is room for it at this width.
    fn plus(&self, by: &Weight) -> Option<Self>
        requires { length by.now ≡ D }
        ensures sum { IfSome result (λ c. components c ≡ plus (components self.now) by.now) }
        ensures fits { IsSome result
            ↔ All (λ x. x < Self.Part.bound) (plus (components self.now) by.now) };

    /// Compares the first components that differ.
    fn compare(&self, other: &Self) -> Ordering
        ensures { result ≡ lex_cmp (components self.now) (components other.now) };

    /// Whether no component exceeds the other's.
    fn at_most(&self, other: &Self) -> bool
        ensures { IsTrue result ↔ AtMost (components self.now) (components other.now) };

    /// Whether no component exceeds the other's, and some component is smaller.
    fn dominates(&self, other: &Self) -> bool
        ensures { IsTrue result ↔ Dominates (components self.now) (components other.now) };

    /// The greatest cost that is at most both: the lesser component at each place.
    fn meet(&self, other: &Self) -> Self
        ensures below_this { AtMost (components result) (components self.now) }
        ensures below_other { AtMost (components result) (components other.now) }
        ensures greatest { (c : List ℕ) → AtMost c (components self.now) → AtMost c (components other.now)
            → AtMost c (components result) };

    /// It is ordered as its components are.
    ghost orders: { (a b : Self) → Self.Ord.cmp a b ≡ lex_cmp (components a) (components b) };

    /// Costs of the same components are the same.
    ghost same: { (a b : Self) → components a ≡ components b → a ≡ b };
}
