//! What forms of sources, sinks and the like count.
ghost use Rattle.std.specs.Prelude.{◌≡◌, ◌≤◌, ◌↔◌, ltb, IsErr};
ghost use Rattle.route_io.specs.Calls.{IsToFail, after_call, none_made};
ghost use Rattle.route_io.specs.Causes.{count_up};

use crate::Failed;
use std::marker::Model;

/// The calls of a form in memory: which are to fail, how many were made, and how often it failed.
#[derive(Drop)]
pub struct CallList {
    fails: Vec<u64>,
    made: u64,
    faults: u64,
}

impl Model for CallList {
    ghost use Rattle.route_io.specs.Calls.{CallList};

    ghost Value = { CallList };

    ghost view = { λ c. record { fails = c.fails.items; made = c.made; faults = c.faults } };
}

impl CallList {
    /// The calls of these numbers, from 0, are to fail. None was made yet.
    pub fn new(fails: Vec<u64>) -> Self
        ensures { result ≡ none_made fails.items }
    {
        CallList {
            fails,
            made: 0,
            faults: 0,
        }
    }

    /// Counts a call, and fails where its number is listed.
    pub fn make(&mut self) -> Result<(), Failed>
        ensures listed { IsErr result ↔ IsToFail self.old }
        ensures counted { self.new ≡ after_call self.old result }
        ensures never_falls { self.old.faults ≤ self.new.faults }
    {
        let fails = self.fails.contains(&self.made);
        count(&mut self.made);
        if fails {
            count(&mut self.faults);
            return Err(Failed);
        }
        Ok(())
    }

    /// Counts a fault of a call that was counted before.
    pub fn fail(&mut self)
        ensures counted { self.new ≡ record self.old { faults = count_up self.old.faults } }
        ensures never_falls { self.old.faults ≤ self.new.faults }
    {
        count(&mut self.faults);
    }

    /// There was a fault.
    pub fn has_failed(&self) -> bool
        ensures { result ≡ ltb 0 self.now.faults }
    {
        0 < self.faults
    }
}

/// Counts one more, and stays at the greatest value.
pub fn count(counter: &mut u64)
    ensures counted { counter.new ≡ count_up counter.old }
    ensures never_falls { counter.old ≤ counter.new }
{
    *counter = counter.saturating_add(1);
}
