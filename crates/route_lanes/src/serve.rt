ghost use Rattle.std.specs.Prelude.{◌≡◌, ◌≤◌, ◌∷◌, All, length, map};
ghost use mathlib.Core.List.{IsPrefix};
ghost use Rattle.road_network.specs.Limits.{max_budget};
ghost use Rattle.arc_graph.specs.Graph.{Match};
ghost use Rattle.session_core.specs.Answering.{CanSearch, scene_of};
ghost use Rattle.route_lanes.specs.DoorsServed.{sum_of};
ghost use Rattle.route_lanes.specs.Served.{whole_of};
ghost use Rattle.route_lanes.specs.Serving.{ServesLanes};

use crate::door_lanes::serve_doors;
use crate::operator_lane::{OperatorLane, StoreState};
use crate::session_lane::{SessionLane, end_store, session_lanes};
use crate::visits::DoorTally;
use arc_graph::Weights;
use epoch_store::{Chronicle, Store, make};
use link_doors::Door;
use out_of_memory::OutOfMemory;
use session_core::ServeContext;
use std::marker::Brand;
use std::sync::Wait;
use std::thread::Threads;
use std::time::Clock;
use work_claim::Gate;

/// What became of doors that were served until each had ended or failed.
#[derive(Clone, Copy, Debug, PartialEq, Eq)]
pub struct Served {
    /// How many doors failed.
    pub failed: usize,
    /// The first want of memory that ended a link, in the order of the doors.
    pub want: Option<OutOfMemory>,
}

/// Serves the links of all doors at once, the operator's the first, on the caller's thread, and up to 16 of sessions, each on one of
/// its own; where none can be started the caller's does its work. A door's links are served one after another and given back,
/// until there is no next one: a link that fails or wants memory ends alone. When the operator's door gives no more links
/// the store is closed, and each session's lane comes to the end of its history.
///
/// It waits for links, a publication for readers, and a session for an epoch.
pub fn serve_lanes<R: Threads + Wait + Clock + Sync, G: Gate, D: Door + Send>(
    context: &ServeContext<'_, R, G>,
    weights: Weights,
    first: u32,
    doors: &mut [D],
) -> Result<Served, OutOfMemory>
    requires weights { Match context.now.graph.now weights }
    requires budget { context.now.budget ≤ max_budget }
    requires some_session { 2 ≤ length doors.old }
    requires at_most_16_sessions { length doors.old ≤ 17 }
    ensures { ServesLanes context.now.graph.now weights first context.now.budget context.now.policy
        (map D.state doors.old) (map D.state doors.new) result }
{
    serve_in_store::<R, G, D, Brand>(context, Chronicle::default(), weights, first, doors)
}

/// Serves all doors over the store of a chronicle.
fn serve_in_store<
    R: Threads + Wait + Clock + Sync,
    G: Gate,
    D: Door + Send,
    T: Store + Send + Sync,
>(
    context: &ServeContext<'_, R, G>,
    chronicle: Chronicle,
    weights: Weights,
    first: u32,
    doors: &mut [D],
) -> Result<Served, OutOfMemory>
    requires chronicle { chronicle ≡ T.origin.chronicle }
    requires first { first ≡ T.origin.first }
    requires base { weights ≡ T.origin.base }
    requires search { CanSearch (scene_of context.now.graph.now T.origin context.now.budget) }
    requires some_session { 2 ≤ length doors.old }
    requires at_most_16_sessions { length doors.old ≤ 17 }
    ensures { ServesLanes context.now.graph.now weights first context.now.budget context.now.policy
        (map D.state doors.old) (map D.state doors.new) result }
{
    let sessions = (doors.len() - 1) as u32;
    let (operator, readers) = make::<T, R>(
        context.workers.rt(),
        context.alloc,
        chronicle,
        first,
        weights,
        sessions,
    )?;
    let mut operator = OperatorLane {
        store: StoreState::Open(operator),
        end: DoorTally::NEW,
    };
    match session_lanes(context.alloc, readers, DoorTally::NEW) {
        Ok(mut sessions) => {
            serve_doors(context, &mut operator, &mut sessions, doors);
            Ok(finish(context.workers.rt(), operator, sessions))
        }
        Err(want) => {
            let OperatorLane { store, end: _ } = operator;
            store.close(context.workers.rt()).end(context.workers.rt());
            Err(want)
        }
    }
}

/// Brings each session's lane to the end of the history, ends the store, and sums up what became of the doors.
fn finish<R: Wait, T: Store>(
    rt: &R,
    operator: OperatorLane<T, DoorTally>,
    mut sessions: Vec<SessionLane<T, DoorTally>>,
) -> Served
    ensures sums { result ≡ sum_of (operator.end ∷ map (λ lane. lane.end) sessions.items) }
    ensures begins { All (λ lane. IsPrefix lane.session.seen (whole_of operator.store)) sessions.items }
{
    let OperatorLane { store, end } = operator;
    let served = sum_up(end, &sessions);
    end_store(rt, store, &mut sessions);
    served
}

/// Sums up what became of the operator's door and those of the sessions.
fn sum_up<T: Store>(operator: DoorTally, sessions: &[SessionLane<T, DoorTally>]) -> Served
    ensures { result ≡ sum_of (operator ∷ map (λ lane. lane.end) sessions.now) }
{
    let mut served = Served {
        failed: usize::from(operator.failed),
        want: operator.want,
    };
    for lane in sessions {
        served.failed += usize::from(lane.end.failed);
        served.want = served.want.or(lane.end.want);
    }
    served
}
