ghost use Rattle.std.specs.Prelude.{◌≡◌, ◌+◌, ◌≤◌, All, length};
ghost use Rattle.arc_graph.specs.Graph.{Match};
ghost use Rattle.session_core.specs.Answering.{CanSearch, scene_of};
ghost use Rattle.route_lanes.specs.Served.{IsFresh, IsNew, OperatorServes, SessionServes};
ghost use Rattle.link_doors.specs.Links.{state_of};
ghost use Rattle.route_lanes.specs.Services.{FirstAndAllServe};

use crate::operator_lane::OperatorLane;
use crate::service::serve_all;
use crate::session_lane::SessionLane;
use epoch_store::Store;
use route_io::{Link, Sink, Source};
use session_core::{ServeContext, SessionEnd};
use std::sync::Wait;
use std::thread::Threads;
use std::time::Clock;
use work_claim::Gate;

/// Has all lanes serve their links at once, the operator's the first.
pub(crate) fn serve_links<
    R: Threads + Wait + Clock + Sync,
    G: Gate,
    S: Source + Send,
    K: Sink + Send,
    T: Store + Send + Sync,
>(
    context: &ServeContext<'_, R, G>,
    operator: &mut OperatorLane<T, SessionEnd>,
    sessions: &mut [SessionLane<T, SessionEnd>],
    links: &mut [Link<S, K>],
)
    requires search { CanSearch (scene_of context.now.graph.now T.origin context.now.budget) }
    requires some { 1 ≤ length sessions.old }
    requires links { length links.old ≡ length sessions.old + 1 }
    requires operator { IsNew operator.old.store }
    requires sessions { All (λ lane. IsFresh lane.session) sessions.old }
    ensures { FirstAndAllServe
        (OperatorServes (state_of S.state K.state) T.origin context.now.policy)
        (SessionServes (state_of S.state K.state)
        (scene_of context.now.graph.now T.origin context.now.budget) context.now.policy)
        operator.old sessions.old links.old operator.new sessions.new links.new }
{
    serve_all(
        context.workers.rt(),
        &|lane: &mut OperatorLane<T, SessionEnd>, link: &mut Link<S, K>|
            requires { IsNew lane.now.store × Match context.now.graph.now T.origin.base }
            ensures { OperatorServes (state_of S.state K.state) T.origin context.entry.now.policy
                lane.entry.now link.entry.now lane.exit.now link.exit.now }
        { lane.serve(context, link) },
        operator,
        &|lane: &mut SessionLane<T, SessionEnd>, link: &mut Link<S, K>|
            requires { IsFresh lane.now.session × CanSearch
                (scene_of context.now.graph.now T.origin context.now.budget) }
            ensures { SessionServes (state_of S.state K.state)
                (scene_of context.entry.now.graph.now T.origin context.entry.now.budget)
                context.entry.now.policy lane.entry.now link.entry.now lane.exit.now link.exit.now }
        { lane.serve(context, link) },
        sessions,
        links,
    );
}
