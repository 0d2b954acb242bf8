ghost use Rattle.std.specs.Prelude.{◌≡◌, ◌≤◌, ◌/◌, true, false, if◌then◌else◌};
ghost use Rattle.std.specs.Bool.{nat_le};

use crate::Helpers;
use crate::gate::Gate;
use std::marker::Model;

/// Who does the pieces of a job: so many workers, on the threads of this runtime, and the gate that they pass before each
/// piece. Where `helpers` tells that threads came too late, work isn't shared.
#[derive(Drop)]
pub struct Workers<'w, R, G> {
    rt: &'w R,
    count: u32,
    gate: &'w G,
    helpers: Option<&'w Helpers>,
}

impl<'w, R, G> Model for Workers<'w, R, G> {
    ghost use Rattle.std.specs.Prelude.{◌≤◌, is_none};
    ghost use Rattle.work_claim.specs.Workers.{Workers};

    ghost Value = { Workers R G };

    ghost view = { λ w. record {
      rt = w.rt.now;
      count = w.count;
      gate = w.gate.now;
      all = is_none w.helpers;
    } };

    ghost invariant = { λ w. (1 ≤ w.count) × (w.count ≤ 64) };
}

impl<'w, R, G> Workers<'w, R, G> {
    /// So many workers.
    pub fn new(rt: &'w R, count: u32, gate: &'w G) -> Workers<'w, R, G>
        requires at_least_one { 1 ≤ count }
        requires at_most_64 { count ≤ 64 }
        ensures { result ≡ record { rt = rt.now; count = count; gate = gate.now; all = true } }
    {
        Workers {
            rt,
            count,
            gate,
            helpers: None,
        }
    }

    /// How many they are.
    pub fn count(&self) -> u32
        ensures count { result ≡ self.now.count }
        ensures at_least_one { 1 ≤ result }
        ensures at_most_64 { result ≤ 64 }
    {
        self.count
    }

    /// The runtime that has their threads.
    pub fn rt(&self) -> &'w R
        ensures { result.now ≡ self.now.rt }
    {
        self.rt
    }

    /// The gate that they pass.
    pub fn gate(&self) -> &'w G
        ensures { result.now ≡ self.now.gate }
    {
        self.gate
    }

    /// One of them.
    pub fn alone(&self) -> Workers<'w, R, G>
        ensures { result ≡ record self.now { count = 1; all = true } }
    {
        Workers {
            count: 1,
            helpers: None,
            ..*self
        }
    }

    /// The same workers, of whom work on labels is shared as long as helpers come in time.
    pub fn watched(&self, helpers: &'w Helpers) -> Workers<'w, R, G>
        ensures { result ≡ record self.now { all = false } }
    {
        Workers {
            helpers: Some(helpers),
            ..*self
        }
    }

    /// One of them, who was started to help, did so many pieces.
    pub(crate) fn help(&self, pieces: u64) {
        if let Some(helpers) = self.helpers {
            helpers.help(pieces);
        }
    }

    /// They have shared a job of so many pieces.
    pub(crate) fn end_job(&self, pieces: u64) {
        if let Some(helpers) = self.helpers {
            helpers.end_job(pieces, self.count);
        }
    }

    /// The same workers, who pass another gate.
    pub fn with_gate<H>(&self, gate: &'w H) -> Workers<'w, R, H>
        ensures { result ≡ record {
          rt = self.now.rt;
          count = self.now.count;
          gate = gate.now;
          all = true;
        } }
    {
        Workers {
            rt: self.rt,
            count: self.count,
            gate,
            helpers: None,
        }
    }
}

impl<'w, R, G: Gate> Workers<'w, R, G> {
    /// Those who share work on so many labels: all of them where each has as many as the gate asks for, else one, since starting
    /// threads would take longer than they save; also one where helpers came too late.
    pub fn for_labels(&self, labels: usize) -> Workers<'w, R, G>
        ensures exact { self.now.all ≡ true → result ≡ record self.now {
          count = if nat_le G.SHARED_FROM (labels / self.now.count) then self.now.count else 1;
        } }
        ensures at_most { result.count ≤ self.now.count }
        ensures rt { result.rt ≡ self.now.rt }
        ensures gate { result.gate ≡ self.now.gate }
    {
        let count = self.count;
        if labels / count as usize >= G::SHARED_FROM && (count == 1 || self.may_share()) {
            Workers { ..*self }
        } else {
            self.alone()
        }
    }

    /// Whether helpers come in time. A gate that wants all work shared doesn't ask.
    fn may_share(&self) -> bool
        ensures { self.now.all ≡ true → result ≡ true }
    {
        match self.helpers {
            Some(helpers) if G::SHARED_FROM > 0 => helpers.may_share(),
            _ => true,
        }
    }
}
