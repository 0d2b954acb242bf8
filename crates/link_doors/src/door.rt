ghost use Rattle.std.specs.Prelude.{◌≡◌, ◌<◌};
ghost use Rattle.link_doors.specs.Doors.{DoorState, Gives, next_shown, returned_one};
ghost use Rattle.link_doors.specs.Links.{state_of};

use route_io::{Failed, Link, Sink, Source};

/// What gives links, one after another, and takes each back when its use has ended.
pub trait Door {
    type From: Source + Send;

    type To: Sink + Send;

    /// The door's place, its faults and its links.
    ghost state: { Self → DoorState };

    /// Waits for the next link and gives it, or none where the door has ended.
    fn next_link(&mut self) -> Result<Option<Link<Self::From, Self::To>>, Failed>
        ensures { Gives (state self.old) (state self.new)
            (next_shown (state_of Self.From.state Self.To.state) result) };

    /// Takes a link back, and ends it.
    fn give_back(&mut self, link: Link<Self::From, Self::To>)
        requires owed { (state self.old).returned < (state self.old).given }
        ensures { state self.new
            ≡ returned_one (state self.old) (state_of Self.From.state Self.To.state link) };
}
