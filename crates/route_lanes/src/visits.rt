//! Links that a door gives, served one after another.
ghost use Rattle.std.specs.Prelude.{◌≡◌};
ghost use Rattle.link_doors.specs.Links.{LinkState, state_of};
ghost use Rattle.session_core.specs.declared.end.SessionEnd.{SessionEnd};
ghost use Rattle.route_lanes.specs.Visits.{AttendsEach, IsCallableIn, ServesDoor, ServesNext, want_of};

use link_doors::Door;
use out_of_memory::OutOfMemory;
use route_io::{Failed, Link};
use session_core::SessionEnd;

/// Who serves links, one after another, in a setting that stays. Whoever has one serve a door passes a closure that serves one
/// link: a search starts threads, which a method of this trait could not.
pub(crate) trait Attendant<C> {
    /// In which setting it can serve links, as it stands.
    ghost ready: { C → Self → Type 0 };

    /// What serving a link does: from what the link showed to what it shows, with this end, and from this one to that.
    ghost visits: { C → Self → LinkState → LinkState → SessionEnd → Self → Type 0 };
}

/// What became of a door.
#[derive(Clone, Copy, Debug, PartialEq, Eq)]
pub(crate) struct DoorTally {
    /// It failed.
    pub failed: bool,
    /// The first want of memory that ended one of its links.
    pub want: Option<OutOfMemory>,
}

impl DoorTally {
    /// Nothing became of it yet.
    pub(crate) const NEW: DoorTally = DoorTally {
        failed: false,
        want: None,
    };
}

/// Serves the links of a door, one after another, and gives each back, until there is no next one.
pub(crate) fn serve_door<C, P, D: Door, F>(
    setting: &C,
    party: &mut P,
    door: &mut D,
    attend: &F,
) -> DoorTally
where
    P: Attendant<C>,
    F: Fn(&C, &mut P, &mut Link<D::From, D::To>) -> SessionEnd,
    requires callable { IsCallableIn P.ready (F.pre attend.now) }
    requires attends { AttendsEach P.ready P.visits (state_of D.From.state D.To.state) (F.post attend.now) }
    requires ready { P.ready setting.now party.old }
    ensures { ServesDoor (P.visits setting.now) party.old party.new
        (D.state door.old) (D.state door.new) result }
{
    let mut want = None;
    'links: loop {
        match serve_next(setting, party, door, attend) {
            Ok(Some(end)) => want = want.or(want_of(end)),
            Ok(None) => {
                return DoorTally {
                    failed: false,
                    want,
                };
            }
            Err(_) => {
                return DoorTally { failed: true, want };
            }
        }
    }
}

/// Serves the next link of a door, and gives it back.
fn serve_next<C, P, D: Door, F>(
    setting: &C,
    party: &mut P,
    door: &mut D,
    attend: &F,
) -> Result<Option<SessionEnd>, Failed>
where
    P: Attendant<C>,
    F: Fn(&C, &mut P, &mut Link<D::From, D::To>) -> SessionEnd,
    requires callable { IsCallableIn P.ready (F.pre attend.now) }
    requires attends { AttendsEach P.ready P.visits (state_of D.From.state D.To.state) (F.post attend.now) }
    requires ready { P.ready setting.now party.old }
    ensures stays { P.ready setting.now party.new }
    ensures serves { ServesNext (P.visits setting.now) party.old party.new
        (D.state door.old) (D.state door.new) result }
{
    match door.next_link() {
        Ok(Some(mut link)) => {
            let end = attend(setting, party, &mut link);
            door.give_back(link);
            Ok(Some(end))
        }
        Ok(None) => Ok(None),
        Err(fault) => Err(fault),
    }
}

/// The want of memory that ended the serving of a link.
fn want_of(end: SessionEnd) -> Option<OutOfMemory>
    ensures { result ≡ want_of end }
{
    match end {
        SessionEnd::OutOfMemory(want) => Some(want),
        _ => None,
    }
}
