ghost use Rattle.std.specs.Prelude.{◌≡◌};

use session_core::{Named, SessionEnd};
use std::marker::Model;

/// What became of a lane.
#[derive(Drop)]
pub struct LaneReport {
    pub(crate) end: SessionEnd,
    pub(crate) last: u32,
    pub(crate) named: Named,
}

impl Model for LaneReport {
    ghost use Rattle.route_lanes.specs.Lanes.{LaneReport};

    ghost Value = { LaneReport };

    ghost view = { λ r. record { end = r.end; last = r.last; numbers = r.named.numbers } };
}

impl LaneReport {
    /// How it ended.
    pub fn end(&self) -> SessionEnd
        ensures { result ≡ self.now.end }
    {
        self.end
    }

    /// The number of the last epoch that it came to see.
    pub fn last(&self) -> u32
        ensures { result ≡ self.now.last }
    {
        self.last
    }
}
