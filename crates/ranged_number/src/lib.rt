//! Numbers whose range is part of their type.
#![tactic(auto)]

ghost use Rattle.std.specs.Prelude.{◌≡◌, ◌≤◌};
ghost use Rattle.ranged_number.specs.Ranges.{in_range};

use std::marker::Model;

/// A number from `LEAST` to `GREATEST`.
#[derive(Clone, Copy, Debug, PartialEq, Eq)]
pub struct Ranged<const LEAST: u32, const GREATEST: u32> {
    number: u32,
}

impl<const LEAST: u32, const GREATEST: u32> Model for Ranged<LEAST, GREATEST> {
    ghost use Rattle.std.specs.Prelude.{ℕ, ◌≤◌};

    ghost Value = { ℕ };

    ghost view = { λ r. r.number };

    ghost invariant = { λ r. (LEAST ≤ r.number) × (r.number ≤ GREATEST) };

    ghost inverse = { λ number. record { number = number } };
}

impl<const LEAST: u32, const GREATEST: u32> Ranged<LEAST, GREATEST> {
    /// The number, if it is in the range.
    pub fn new(number: u32) -> Option<Self>
        ensures { result ≡ in_range LEAST GREATEST number }
    {
        if LEAST <= number && number <= GREATEST {
            Some(Ranged { number })
        } else {
            None
        }
    }

    /// A number that is known to be in the range, as a constant is.
    pub fn of(number: u32) -> Self
        requires at_least { LEAST ≤ number }
        requires at_most { number ≤ GREATEST }
        ensures { result ≡ number }
    {
        Ranged { number }
    }

    pub fn get(self) -> u32
        ensures value { result ≡ self.entry }
        ensures at_least { LEAST ≤ result }
        ensures at_most { result ≤ GREATEST }
    {
        self.number
    }
}
