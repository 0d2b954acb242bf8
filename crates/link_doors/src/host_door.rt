//! The host's listeners as doors.
ghost use Rattle.std.specs.Prelude.{◌≡◌, ◌+◌, ◌<◌, IfOk, IfSome, OnErr, ltb};
ghost use Rattle.route_io.specs.Causes.{count_up};
ghost use Rattle.link_doors.specs.Doors.{Gives, next_shown, returned_one};
ghost use Rattle.link_doors.specs.Forms.{host_door_state, host_link_state, new_host_door};

use crate::Door;
use crate::listener::HostListener;
use crate::stream::{StreamSink, StreamSource, close};
use route_io::calls::count;
use route_io::{Failed, Link};
use std::marker::Model;
use std::time::Duration;

/// A listener that gives so many connections, and is let go of with the last one. It counts each error of the system, of
/// whatever kind.
#[derive(Drop)]
pub struct HostDoor {
    listener: Option<HostListener>,
    patience: Option<Duration>,
    place: u64,
    left: u32,
    given: u32,
    returned: u32,
    faults: u64,
}

impl Model for HostDoor {
    ghost use Rattle.std.specs.Prelude.{◌≡◌, ◌+◌, ◌<◌, ◌≤◌, ◌^◌, eqb, is_some, not};
    ghost use Rattle.link_doors.specs.Forms.{HostDoor};

    ghost Value = { HostDoor };

    ghost view = { λ d. record {
      place = d.place;
      faults = d.faults;
      left = d.left;
      given = d.given;
      returned = d.returned;
    } };

    ghost invariant = { λ d. (d.returned ≤ d.given) × (d.given + d.left < 2 ^ 32)
        × (is_some d.listener ≡ not (eqb d.left 0)) };
}

impl HostDoor {
    /// A door at this place, which gives so many connections. A read or a write of one that takes longer than this fails.
    pub(crate) fn new(
        listener: HostListener,
        patience: Option<Duration>,
        place: u64,
        links: u32,
    ) -> Self
        ensures { result ≡ new_host_door links place }
    {
        HostDoor {
            listener: (links != 0).then_some(listener),
            patience,
            place,
            left: links,
            given: 0,
            returned: 0,
            faults: 0,
        }
    }

    /// It failed at a call.
    pub(crate) fn has_failed(&self) -> bool
        ensures { result ≡ ltb 0 self.now.faults }
    {
        0 < self.faults
    }
}

impl Door for HostDoor {
    type From = StreamSource;

    type To = StreamSink;

    ghost state = { host_door_state };

    fn next_link(&mut self) -> Result<Option<Link<StreamSource, StreamSink>>, Failed>
        ensures fresh { IfOk result (λ next. IfSome next (λ link. (link.from ≡ 0) × (link.to ≡ 0))) }
        ensures counted { OnErr result (self.new.faults ≡ count_up self.old.faults) }
        ensures gives { Gives (host_door_state self.old) (host_door_state self.new)
            (next_shown host_link_state result) }
    {
        let Some(listener) = &self.listener else {
            return Ok(None);
        };
        let Ok(link) = listener.accept(self.patience) else {
            count(&mut self.faults);
            return Err(Failed);
        };
        self.given += 1;
        self.left -= 1;
        if self.left == 0 {
            self.listener = None;
        }
        Ok(Some(link))
    }

    fn give_back(&mut self, link: Link<StreamSource, StreamSink>)
        requires owed { self.old.returned < self.old.given }
        ensures kept { self.new ≡ record self.old { returned = self.old.returned + 1 } }
        ensures returned { host_door_state self.new
            ≡ returned_one (host_door_state self.old) (host_link_state link) }
    {
        self.returned += 1;
        close(link);
    }
}
