ghost use Rattle.std.specs.Prelude.{◌≡◌, ℕ, ◌<◌, ◌≤◌, ◌↔◌, List, Option, None, length, replicate, slice_get, IsTrue, Some, ◌==◌, nat_eq, refl};
ghost use Rattle.std.specs.Ordering.{nat_cmp};
ghost use Rattle.std.specs.Option.{option_eq, option_cmp};
ghost use Rattle.std.specs.Cmp.{partial_equiv_from_equiv};
ghost use Rattle.std.specs.Cmp.Lexicographic.{pointwise, slice_cmp};
ghost use Rattle.cost_vector.specs.Costs.{IsAllowed, Within, no_limit, max_criteria, min_criteria};
ghost use Rattle.cost_vector.specs.LimitOrder.{limits_equiv, limits_total, limits_tie, limits_po};

use crate::{Cost, MAX_CRITERIA};
use std::cmp::Ordering;
use std::fmt;
use std::marker::Model;

/// The greatest cost that is asked for, in each of 2 to 4 criteria; `None` is no bound. A contract sees the list of
/// its places.
///
/// Limits are ordered lexicographically, no bound before each bound, and a proper prefix is the lesser.
#[derive(Clone, Copy)]
pub struct Limit {
    count: usize,
    places: [Option<u64>; MAX_CRITERIA],
}

impl Model for Limit {
    ghost use Rattle.std.specs.Prelude.{ℕ, List, Option, None, length, take};
    ghost use Rattle.cost_vector.specs.Places.{IsStored, filled_up, length-used, filled_up-used};

    ghost Value = { List (Option ℕ) };

    ghost view = { λ l. take l.count l.places };

    ghost invariant = { λ l. IsStored None l.count l.places };

    ghost inverse = { λ xs. record { count = length xs; places = filled_up None xs } };

    ghost inverse_ok = { λ l stored i. record {
      count = length-used None l.count l.places stored i;
      places = filled_up-used None l.count l.places stored i;
    } };
}

impl Limit {
    /// No bound in any of `d` criteria.
    pub fn none(d: usize) -> Limit
        requires at_least_two { min_criteria ≤ d }
        requires at_most_four { d ≤ max_criteria }
        ensures { result ≡ no_limit d }
    {
        Limit {
            count: d,
            places: [None; MAX_CRITERIA],
        }
    }

    /// The limit with these places.
    pub fn of_places(list: &[Option<u64>]) -> Limit
        requires at_least_two { min_criteria ≤ length list.now }
        requires at_most_four { length list.now ≤ max_criteria }
        ensures { result ≡ list.now }
    {
        let mut places = [None; MAX_CRITERIA];
        places[..list.len()].copy_from_slice(list);
        Limit {
            count: list.len(),
            places,
        }
    }

    /// How many places there are.
    pub fn count(&self) -> usize
        ensures value { result ≡ length self.now }
        ensures at_least_two { min_criteria ≤ result }
        ensures at_most_four { result ≤ max_criteria }
    {
        self.count
    }

    /// The place at `i`, from 0.
    pub fn place(&self, i: usize) -> Option<u64>
        requires { i < length self.now }
        ensures { slice_get self.now i ≡ Some result }
    {
        self.as_slice()[i]
    }

    /// Whether no component of the cost exceeds its place.
    pub fn holds(&self, cost: &Cost) -> bool
        requires { length self.now ≡ length cost.now }
        ensures { IsTrue result ↔ Within self.now cost.now }
    {
        let mut pairs = self.places.iter().zip(&cost.places);
        pairs.all(|(place, x)| is_allowed(*place, *x))
    }

    fn as_slice(&self) -> &[Option<u64>]
        ensures { result.now ≡ self.now }
    {
        &self.places[..self.count]
    }
}

fn is_allowed(place: Option<u64>, component: u64) -> bool
    ensures { IsTrue result ↔ IsAllowed place component }
{
    place.is_none_or(|most| component <= most)
}

/// The list of its places.
impl fmt::Debug for Limit {
    fn fmt<W: fmt::Write>(&self, f: &mut fmt::Formatter<W>) -> fmt::Result {
        f.debug_list().entries(self.as_slice()).finish()
    }
}

impl PartialEq for Limit {
    ghost eq = { pointwise (option_eq ◌==◌) };

    ghost laws = { partial_equiv_from_equiv limits_equiv };

    fn eq(&self, other: &Limit) -> bool {
        self.as_slice() == other.as_slice()
    }
}

impl Eq for Limit {
    ghost laws = { limits_equiv };
}

impl PartialOrd for Limit {
    ghost partial_cmp = { λ a b. Some (slice_cmp (option_cmp nat_cmp) a b) };

    ghost laws = { limits_po };

    fn partial_cmp(&self, other: &Limit) -> Option<Ordering> {
        Some(self.cmp(other))
    }
}

impl Ord for Limit {
    ghost cmp = { slice_cmp (option_cmp nat_cmp) };

    ghost total = { limits_total };

    ghost matches_partial_cmp = { λ a b. refl };

    ghost matches_eq = { limits_tie };

    fn cmp(&self, other: &Limit) -> Ordering {
        self.as_slice().cmp(other.as_slice())
    }
}
