//! Lanes that serve what their doors give.
ghost use Rattle.std.specs.Prelude.{◌≡◌, ◌+◌, ◌≤◌, [], All, length};
ghost use Rattle.arc_graph.specs.Graph.{Match};
ghost use Rattle.session_core.specs.Answering.{CanSearch, scene_of};
ghost use Rattle.route_lanes.specs.DoorsServed.{OperatorServesDoor, ServesOpenDoor, SessionServesDoor};
ghost use Rattle.route_lanes.specs.Served.{IsFresh, IsNew};
ghost use Rattle.route_lanes.specs.Services.{FirstAndAllServe};

use crate::operator_lane::{OperatorLane, StoreState, close_in_place};
use crate::service::serve_all;
use crate::session_lane::SessionLane;
use crate::visits::{Attendant, DoorTally, serve_door};
use core::mem::replace_with;
use epoch_store::{Operator, Store};
use link_doors::Door;
use route_io::Link;
use session_core::{ServeContext, Session, serve_operator};
use std::sync::Wait;
use std::thread::Threads;
use std::time::Clock;
use work_claim::Gate;

impl<T: Store, R, G> Attendant<ServeContext<'_, R, G>> for Operator<T> {
    ghost use Rattle.std.specs.Prelude.{◌≡◌, []};
    ghost use Rattle.arc_graph.specs.Graph.{Match};
    ghost use Rattle.route_lanes.specs.Serving.{OperatorVisit};

    ghost ready = { λ context operator. Match context.graph.now T.origin.base × (operator.pending ≡ []) };

    ghost visits = { λ context. OperatorVisit T.origin context.policy };
}

impl<T: Store, R, G> Attendant<ServeContext<'_, R, G>> for Session<T> {
    ghost use Rattle.session_core.specs.Answering.{CanSearch, scene_of};
    ghost use Rattle.route_lanes.specs.Serving.{SessionVisit};

    ghost ready = { λ context session. CanSearch (scene_of context.graph.now T.origin context.budget) };

    ghost visits = { λ context. SessionVisit
        (scene_of context.graph.now T.origin context.budget) context.policy };
}

impl<T: Store> OperatorLane<T, DoorTally> {
    /// Serves the links of a door, and closes the store.
    fn serve_door<R: Wait, G, D: Door>(&mut self, context: &ServeContext<'_, R, G>, door: &mut D)
        requires new { IsNew self.old.store }
        requires weights { Match context.now.graph.now T.origin.base }
        ensures { OperatorServesDoor D.state T.origin context.now.policy
            self.old door.old self.new door.new }
    {
        self.end = serve_open_door(context, &mut self.store, door);
        replace_with(
            &mut self.store,
            context.workers.rt(),
            close_in_place::<T, R>,
        );
    }
}

/// Has the operator of a new store serve the links of a door.
fn serve_open_door<T: Store, R: Wait, G, D: Door>(
    context: &ServeContext<'_, R, G>,
    store: &mut StoreState<T>,
    door: &mut D,
) -> DoorTally
    requires new { IsNew store.old }
    requires weights { Match context.now.graph.now T.origin.base }
    ensures { ServesOpenDoor T.origin context.now.policy (D.state door.old) (D.state door.new)
        result store.new }
{
    match store {
        StoreState::Open(operator) => {
            let attend = |context: &ServeContext<'_, R, G>, operator: &mut Operator<
                T,
            >, link: &mut Link<D::From, D::To>|
                requires { Match context.now.graph.now T.origin.base × (operator.now.pending ≡ []) }
            { serve_operator(context, operator, link) };
            let tally = serve_door(context, operator, door, &attend);
            let _number = operator.number(); // a proof knows what every operator keeps
            tally
        }
        StoreState::Closed(_) => DoorTally::NEW,
    }
}

impl<T: Store> SessionLane<T, DoorTally> {
    /// Serves the links of a door.
    fn serve_door<R: Threads + Wait + Clock + Sync, G: Gate, D: Door>(
        &mut self,
        context: &ServeContext<'_, R, G>,
        door: &mut D,
    )
        requires fresh { IsFresh self.old.session }
        requires search { CanSearch (scene_of context.now.graph.now T.origin context.now.budget) }
        ensures { SessionServesDoor D.state
            (scene_of context.now.graph.now T.origin context.now.budget) context.now.policy
            self.old door.old self.new door.new }
    {
        let attend = |context: &ServeContext<'_, R, G>, session: &mut Session<T>, link: &mut Link<
            D::From,
            D::To,
        >|
            requires { CanSearch (scene_of context.now.graph.now T.origin context.now.budget) }
        {
            session.forget_numbers();
            session.serve(context, link)
        };
        self.end = serve_door(context, &mut self.session, door, &attend);
    }
}

/// Has all lanes serve their doors at once, the operator's the first.
pub(crate) fn serve_doors<
    R: Threads + Wait + Clock + Sync,
    G: Gate,
    D: Door + Send,
    T: Store + Send + Sync,
>(
    context: &ServeContext<'_, R, G>,
    operator: &mut OperatorLane<T, DoorTally>,
    sessions: &mut [SessionLane<T, DoorTally>],
    doors: &mut [D],
)
    requires search { CanSearch (scene_of context.now.graph.now T.origin context.now.budget) }
    requires some { 1 ≤ length sessions.old }
    requires doors { length doors.old ≡ length sessions.old + 1 }
    requires operator { IsNew operator.old.store }
    requires sessions { All (λ lane. IsFresh lane.session) sessions.old }
    ensures { FirstAndAllServe
        (OperatorServesDoor D.state T.origin context.now.policy)
        (SessionServesDoor D.state
        (scene_of context.now.graph.now T.origin context.now.budget) context.now.policy)
        operator.old sessions.old doors.old operator.new sessions.new doors.new }
{
    serve_all(
        context.workers.rt(),
        &|lane: &mut OperatorLane<T, DoorTally>, door: &mut D|
            requires { IsNew lane.now.store × Match context.now.graph.now T.origin.base }
            ensures { OperatorServesDoor D.state T.origin context.entry.now.policy
                lane.entry.now door.entry.now lane.exit.now door.exit.now }
        { lane.serve_door(context, door) },
        operator,
        &|lane: &mut SessionLane<T, DoorTally>, door: &mut D|
            requires { IsFresh lane.now.session × CanSearch
                (scene_of context.now.graph.now T.origin context.now.budget) }
            ensures { SessionServesDoor D.state
                (scene_of context.entry.now.graph.now T.origin context.entry.now.budget)
                context.entry.now.policy lane.entry.now door.entry.now lane.exit.now door.exit.now }
        { lane.serve_door(context, door) },
        sessions,
        doors,
    );
}
