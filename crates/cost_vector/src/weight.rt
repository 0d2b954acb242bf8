ghost use Rattle.std.specs.Prelude.{◌≡◌, ℕ, ◌^◌, ◌<◌, ◌≤◌, ◌↔◌, List, length, replicate, slice_index, take, All, IsTrue, Some, ◌==◌, nat_eq, refl};
ghost use Rattle.std.specs.Ordering.{nat_cmp};
ghost use Rattle.std.specs.Cmp.{partial_equiv_from_equiv};
ghost use Rattle.std.specs.Cmp.Lexicographic.{pointwise, slice_cmp, nat_list_eq_equiv, nat_list_cmp_total, texts_po, texts_ties};
ghost use Rattle.cost_vector.specs.Costs.{AtMost, max_criteria, min_criteria};
ghost use Rattle.cost_vector.specs.Places.{IsStored};

use crate::{Cost, MAX_CRITERIA};
use std::cmp::Ordering;
use std::fmt;
use std::marker::Model;

/// What an arc adds to the cost of a walk, in each of 2 to 4 criteria. A contract sees the list of its components.
///
/// Weights are ordered lexicographically, and a proper prefix is the lesser.
#[derive(Clone, Copy)]
pub struct Weight {
    count: usize,
    pub(crate) places: [u32; MAX_CRITERIA],
}

impl Model for Weight {
    ghost use Rattle.std.specs.Prelude.{ℕ, List, length, take};
    ghost use Rattle.cost_vector.specs.Places.{IsStored, filled_up, length-used, filled_up-used};

    ghost Value = { List ℕ };

    ghost view = { λ w. take w.count w.places };

    ghost invariant = { λ w. IsStored 0 w.count w.places };

    ghost inverse = { λ xs. record { count = length xs; places = filled_up 0 xs } };

    ghost inverse_ok = { λ w stored i. record {
      count = length-used 0 w.count w.places stored i;
      places = filled_up-used 0 w.count w.places stored i;
    } };
}

impl Weight {
    /// The weight with these components.
    pub fn of_numbers(list: &[u32]) -> Weight
        requires at_least_two { min_criteria ≤ length list.now }
        requires at_most_four { length list.now ≤ max_criteria }
        ensures { result ≡ list.now }
    {
        let mut places = [0; MAX_CRITERIA];
        places[..list.len()].copy_from_slice(list);
        Weight {
            count: list.len(),
            places,
        }
    }

    /// The weight with the components at the first places, past which all hold 0.
    pub fn of_places(count: usize, places: [u32; MAX_CRITERIA]) -> Weight
        requires { IsStored 0 count places }
        ensures { result ≡ take count places }
    {
        Weight { count, places }
    }

    /// How many components there are.
    pub fn count(&self) -> usize
        ensures value { result ≡ length self.now }
        ensures at_least_two { min_criteria ≤ result }
        ensures at_most_four { result ≤ max_criteria }
        ensures in_range { All (λ x. x < 2 ^ 32) self.now }
    {
        let components = self.as_slice();
        let _read = components[0]; // a proof knows the range of what is read
        components.len()
    }

    /// The component at `i`, from 0.
    pub fn component(&self, i: usize) -> u32
        requires { i < length self.now }
        ensures { result ≡ slice_index self.now i }
    {
        self.as_slice()[i]
    }

    /// Whether the arc adds nothing in any criterion.
    pub fn is_zero(&self) -> bool
        ensures { IsTrue result ↔ All (λ x. x ≡ 0) self.now }
    {
        self.places == [0; MAX_CRITERIA]
    }

    fn as_slice(&self) -> &[u32]
        ensures value { result.now ≡ self.now }
        ensures at_least_two { min_criteria ≤ length result.now }
        ensures at_most_four { length result.now ≤ max_criteria }
    {
        &self.places[..self.count]
    }

    /// Whether no component exceeds the cost's.
    pub(crate) fn is_within(&self, cost: &Cost) -> bool
        requires { length self.now ≡ length cost.now }
        ensures { IsTrue result ↔ AtMost self.now cost.now }
    {
        let mut pairs = self.places.iter().zip(&cost.places);
        pairs.all(|(a, b)| u64::from(*a) <= *b)
    }
}

/// The list of its components.
impl fmt::Debug for Weight {
    fn fmt<W: fmt::Write>(&self, f: &mut fmt::Formatter<W>) -> fmt::Result {
        f.debug_list().entries(self.as_slice()).finish()
    }
}

impl PartialEq for Weight {
    ghost eq = { pointwise ◌==◌ };

    ghost laws = { partial_equiv_from_equiv nat_list_eq_equiv };

    fn eq(&self, other: &Weight) -> bool {
        self.as_slice() == other.as_slice()
    }
}

impl Eq for Weight {
    ghost laws = { nat_list_eq_equiv };
}

impl PartialOrd for Weight {
    ghost partial_cmp = { λ a b. Some (slice_cmp nat_cmp a b) };

    ghost laws = { texts_po };

    fn partial_cmp(&self, other: &Weight) -> Option<Ordering> {
        Some(self.cmp(other))
    }
}

impl Ord for Weight {
    ghost cmp = { slice_cmp nat_cmp };

    ghost total = { nat_list_cmp_total };

    ghost matches_partial_cmp = { λ a b. refl };

    ghost matches_eq = { texts_ties };

    fn cmp(&self, other: &Weight) -> Ordering {
        self.as_slice().cmp(other.as_slice())
    }
}
