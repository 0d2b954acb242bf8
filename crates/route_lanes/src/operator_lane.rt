//! The operator's lane.
ghost use Rattle.std.specs.Prelude.{◌≡◌};
ghost use Rattle.arc_graph.specs.Graph.{Match};
ghost use Rattle.route_lanes.specs.Served.{IsNew, OperatorServes, ServesOpen, whole_of};
ghost use Rattle.link_doors.specs.Links.{state_of};

use core::mem::replace_with;
use epoch_store::{Ended, Operator, Store};
use route_io::{Link, Sink, Source};
use session_core::{ServeContext, SessionEnd, serve_operator};
use std::sync::Wait;

/// Where a store stands. It isn't `Drop`: close it, and end what that gives.
pub(crate) enum StoreState<T: Store> {
    /// Its operator may publish.
    Open(Operator<T>),
    /// It is closed.
    Closed(Ended<T>),
}

/// The operator's lane: its store, and what became of its link or its door.
pub(crate) struct OperatorLane<T: Store, E> {
    pub store: StoreState<T>,
    pub end: E,
}

impl<T: Store> OperatorLane<T, SessionEnd> {
    /// Serves a link, and closes the store.
    pub(crate) fn serve<R: Wait, G, S: Source, K: Sink>(
        &mut self,
        context: &ServeContext<'_, R, G>,
        link: &mut Link<S, K>,
    )
        requires new { IsNew self.old.store }
        requires weights { Match context.now.graph.now T.origin.base }
        ensures { OperatorServes (state_of S.state K.state) T.origin context.now.policy
            self.old link.old self.new link.new }
    {
        self.end = serve_open(context, &mut self.store, link);
        replace_with(
            &mut self.store,
            context.workers.rt(),
            close_in_place::<T, R>,
        );
    }
}

/// Has the operator of a new store serve a link.
fn serve_open<T: Store, R: Wait, G, S: Source, K: Sink>(
    context: &ServeContext<'_, R, G>,
    store: &mut StoreState<T>,
    link: &mut Link<S, K>,
) -> SessionEnd
    requires new { IsNew store.old }
    requires weights { Match context.now.graph.now T.origin.base }
    ensures { ServesOpen T.origin context.now.policy (state_of S.state K.state link.old)
        (state_of S.state K.state link.new) result store.new }
{
    match store {
        StoreState::Open(operator) => {
            let end = serve_operator(context, operator, link);
            let _number = operator.number(); // a proof knows what every operator keeps
            end
        }
        StoreState::Closed(_) => SessionEnd::Ended,
    }
}

/// Closes a store that may be open, and keeps it.
pub(crate) fn close_in_place<T: Store, R: Wait>(store: StoreState<T>, rt: &R) -> (StoreState<T>, ())
    ensures { result.0 ≡ StoreState.Closed (whole_of store) }
{
    (StoreState::Closed(store.close(rt)), ())
}

impl<T: Store> StoreState<T> {
    /// Closes the store, if it is open.
    pub(crate) fn close<R: Wait>(self, rt: &R) -> Ended<T>
        ensures { result ≡ whole_of self }
    {
        match self {
            StoreState::Open(operator) => operator.close(rt),
            StoreState::Closed(ended) => ended,
        }
    }
}
