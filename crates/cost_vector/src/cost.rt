ghost use Rattle.std.specs.Prelude.{◌≡◌, ℕ, ◌^◌, ◌<◌, ◌≤◌, ◌↔◌, List, length, replicate, slice_index, All, IsTrue, IfSome, IsSome, Some, ◌==◌, nat_eq, refl};
ghost use Rattle.std.specs.Ordering.{nat_cmp};
ghost use Rattle.std.specs.Cmp.{partial_equiv_from_equiv};
ghost use Rattle.std.specs.Cmp.Lexicographic.{pointwise, slice_cmp, nat_list_eq_equiv, nat_list_cmp_total, texts_po, texts_ties};
ghost use Rattle.cost_vector.specs.Costs.{AtMost, Dominates, plus, lex_cmp, max_criteria, min_criteria};

use crate::{MAX_CRITERIA, Weight};
use std::cmp::Ordering;
use std::fmt;
use std::marker::Model;

/// The cost of a walk in each of 2 to 4 criteria. A contract sees the list of its components.
///
/// Costs are ordered lexicographically, and a proper prefix is the lesser.
#[derive(Clone, Copy)]
pub struct Cost {
    count: usize,
    pub(crate) places: [u64; MAX_CRITERIA],
}

impl Model for Cost {
    ghost use Rattle.std.specs.Prelude.{ℕ, List, length, take};
    ghost use Rattle.cost_vector.specs.Places.{IsStored, filled_up, length-used, filled_up-used};

    ghost Value = { List ℕ };

    ghost view = { λ c. take c.count c.places };

    ghost invariant = { λ c. IsStored 0 c.count c.places };

    ghost inverse = { λ xs. record { count = length xs; places = filled_up 0 xs } };

    ghost inverse_ok = { λ c stored i. record {
      count = length-used 0 c.count c.places stored i;
      places = filled_up-used 0 c.count c.places stored i;
    } };
}

impl Cost {
    /// The cost of standing still, in `d` criteria.
    pub fn zero(d: usize) -> Cost
        requires at_least_two { min_criteria ≤ d }
        requires at_most_four { d ≤ max_criteria }
        ensures { result ≡ replicate d 0 }
    {
        Cost {
            count: d,
            places: [0; MAX_CRITERIA],
        }
    }

    /// The cost with these components.
    pub fn of_numbers(list: &[u64]) -> Cost
        requires at_least_two { min_criteria ≤ length list.now }
        requires at_most_four { length list.now ≤ max_criteria }
        ensures { result ≡ list.now }
    {
        let mut places = [0; MAX_CRITERIA];
        places[..list.len()].copy_from_slice(list);
        Cost {
            count: list.len(),
            places,
        }
    }

    /// How many components there are.
    pub fn count(&self) -> usize
        ensures value { result ≡ length self.now }
        ensures at_least_two { min_criteria ≤ result }
        ensures at_most_four { result ≤ max_criteria }
        ensures in_range { All (λ x. x < 2 ^ 64) self.now }
    {
        let components = self.as_slice();
        let _read = components[0]; // a proof knows the range of what is read
        components.len()
    }

    /// The component at `i`, from 0.
    pub fn component(&self, i: usize) -> u64
        requires { i < length self.now }
        ensures { result ≡ slice_index self.now i }
    {
        self.as_slice()[i]
    }

    fn as_slice(&self) -> &[u64]
        ensures value { result.now ≡ self.now }
        ensures at_least_two { min_criteria ≤ length result.now }
        ensures at_most_four { length result.now ≤ max_criteria }
    {
        &self.places[..self.count]
    }

    /// Whether no component exceeds the other's.
    pub fn at_most(&self, other: &Cost) -> bool
        requires { length self.now ≡ length other.now }
        ensures { IsTrue result ↔ AtMost self.now other.now }
    {
        self.places.iter().zip(&other.places).all(|(a, b)| a <= b)
    }

    /// Whether no component exceeds the other's, and some component is smaller.
    pub fn dominates(&self, other: &Cost) -> bool
        requires { length self.now ≡ length other.now }
        ensures { IsTrue result ↔ Dominates self.now other.now }
    {
        self.at_most(other) && self != other
    }

    /// Compares the first components that differ.
    pub fn lex_cmp(&self, other: &Cost) -> Ordering
        ensures { result ≡ lex_cmp self.now other.now }
    {
        self.as_slice().cmp(other.as_slice())
    }

    /// The sum, component by component.
    pub fn plus(&self, w: &Weight) -> Cost
        requires same_count { length self.now ≡ length w.now }
        requires no_wrap { All (λ x. x < 2 ^ 64) (plus self.now w.now) }
        ensures { result ≡ plus self.now w.now }
    {
        Cost {
            count: self.count,
            places: [
                self.places[0] + u64::from(w.places[0]),
                self.places[1] + u64::from(w.places[1]),
                self.places[2] + u64::from(w.places[2]),
                self.places[3] + u64::from(w.places[3]),
            ],
        }
    }

    /// The cost that is this one after the weight is added to it, if there is one.
    pub fn minus(&self, w: &Weight) -> Option<Cost>
        requires { length self.now ≡ length w.now }
        ensures fits { IsSome result ↔ AtMost w.now self.now }
        ensures same_count { IfSome result (λ rest. length rest ≡ length self.now) }
        ensures difference { IfSome result (λ rest. plus rest w.now ≡ self.now) }
    {
        if !w.is_within(self) {
            return None;
        }
        Some(Cost {
            count: self.count,
            places: [
                self.places[0] - u64::from(w.places[0]),
                self.places[1] - u64::from(w.places[1]),
                self.places[2] - u64::from(w.places[2]),
                self.places[3] - u64::from(w.places[3]),
            ],
        })
    }
}

/// The list of its components.
impl fmt::Debug for Cost {
    fn fmt<W: fmt::Write>(&self, f: &mut fmt::Formatter<W>) -> fmt::Result {
        f.debug_list().entries(self.as_slice()).finish()
    }
}

impl PartialEq for Cost {
    ghost eq = { pointwise ◌==◌ };

    ghost laws = { partial_equiv_from_equiv nat_list_eq_equiv };

    fn eq(&self, other: &Cost) -> bool {
        self.as_slice() == other.as_slice()
    }
}

impl Eq for Cost {
    ghost laws = { nat_list_eq_equiv };
}

impl PartialOrd for Cost {
    ghost partial_cmp = { λ a b. Some (slice_cmp nat_cmp a b) };

    ghost laws = { texts_po };

    fn partial_cmp(&self, other: &Cost) -> Option<Ordering> {
        Some(self.cmp(other))
    }
}

impl Ord for Cost {
    ghost cmp = { slice_cmp nat_cmp };

    ghost total = { nat_list_cmp_total };

    ghost matches_partial_cmp = { λ a b. refl };

    ghost matches_eq = { texts_ties };

    fn cmp(&self, other: &Cost) -> Ordering {
        self.lex_cmp(other)
    }
}
