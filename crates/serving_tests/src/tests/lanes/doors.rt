//! Doors of one link each, over which a lane waits for another.
ghost use Rattle.std.specs.Prelude.{◌≡◌, ◌<◌, is_some};
ghost use Rattle.route_io.specs.Forms.{memory_sink_state, memory_source_state};
ghost use Rattle.link_doors.specs.Doors.{returned_one};
ghost use Rattle.link_doors.specs.Links.{state_of};
ghost use Rattle.serving_tests.specs.TurnDoors.{turn_door};

use super::turns::{TurnSink, TurnSource};
use link_doors::Door;
use route_io::{Failed, Link};

/// A door of one link, which it has until it is given, and again when it was given back.
#[derive(Drop)]
pub(super) struct TurnDoor<'t> {
    given: bool,
    link: Option<Link<TurnSource<'t>, TurnSink<'t>>>,
}

impl<'t> TurnDoor<'t> {
    pub(super) fn of(link: Link<TurnSource<'t>, TurnSink<'t>>) -> Self {
        TurnDoor {
            given: false,
            link: Some(link),
        }
    }

    /// What was sent on the link, where the door has it.
    pub(super) fn sent(&self) -> Option<&[u8]> {
        match &self.link {
            Some(link) => Some(link.to.to.sent()),
            None => None,
        }
    }
}

impl<'t> Door for TurnDoor<'t> {
    ghost use Rattle.std.specs.Prelude.{is_some};
    ghost use Rattle.serving_tests.specs.TurnDoors.{turn_door};

    type From = TurnSource<'t>;

    type To = TurnSink<'t>;

    ghost state = { λ d. turn_door d.given (is_some d.link) };

    fn next_link(&mut self) -> Result<Option<Link<TurnSource<'t>, TurnSink<'t>>>, Failed> {
        if self.given {
            return Ok(None);
        }
        let Some(link) = self.link.take() else {
            return Ok(None);
        };
        self.given = true;
        Ok(Some(link))
    }

    fn give_back(&mut self, link: Link<TurnSource<'t>, TurnSink<'t>>)
        requires owed { (turn_door self.old.given (is_some self.old.link)).returned
            < (turn_door self.old.given (is_some self.old.link)).given }
        ensures { turn_door self.new.given (is_some self.new.link)
            ≡ returned_one (turn_door self.old.given (is_some self.old.link))
            (state_of (λ s. memory_source_state s.from) (λ k. memory_sink_state k.to) link.entry) }
    {
        self.link = Some(link);
    }
}
