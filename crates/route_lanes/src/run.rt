ghost use Rattle.std.specs.Prelude.{◌≡◌, ◌+◌, ◌≤◌, [], ◌∷◌, All, IfOk, OnErr, length, map, vec_len, vec_capacity};
ghost use mathlib.Core.List.{IsPrefix};
ghost use Rattle.road_network.specs.Limits.{max_budget};
ghost use Rattle.arc_graph.specs.Graph.{Match};
ghost use Rattle.epoch_store.specs.Origin.{last_number};
ghost use Rattle.route_lanes.specs.Lanes.{RunsLanes};
ghost use Rattle.session_core.specs.Answering.{CanSearch, scene_of};
ghost use Rattle.route_lanes.specs.Served.{report_of, whole_of};

use crate::lanes::serve_links;
use crate::operator_lane::{OperatorLane, StoreState};
use crate::report::LaneReport;
use crate::session_lane::{SessionLane, end_store, report_sessions, session_lanes};
use arc_graph::Weights;
use epoch_store::{Chronicle, Store, make};
use out_of_memory::OutOfMemory;
use route_io::{Link, Sink, Source};
use session_core::{Named, ServeContext, SessionEnd};
use std::marker::Brand;
use std::sync::Wait;
use std::thread::Threads;
use std::time::Clock;
use work_claim::Gate;

/// Serves all links at once, the operator's first, on the caller's thread, and up to 16 sessions', each on one of its own; where none
/// can be started the caller's does its work. When the operator's link has ended the store is closed, and each session's lane
/// comes to the end of its history.
///
/// One report a link, in order. It may wait: a publication for readers, and a session for an epoch. All memory outside of the
/// lanes is taken before any of them is served.
pub fn run_lanes<R: Threads + Wait + Clock + Sync, G: Gate, S: Source + Send, K: Sink + Send>(
    context: &ServeContext<'_, R, G>,
    weights: Weights,
    first: u32,
    links: &mut [Link<S, K>],
) -> Result<Vec<LaneReport>, OutOfMemory>
    requires weights { Match context.now.graph.now weights }
    requires budget { context.now.budget ≤ max_budget }
    requires some_session { 2 ≤ length links.old }
    requires at_most_16_sessions { length links.old ≤ 17 }
    ensures served { IfOk result (λ reports. RunsLanes context.now.graph.now weights first
        context.now.budget context.now.policy
        (map (λ l. record { from = S.state l.from; to = K.state l.to }) links.old)
        (map (λ l. record { from = S.state l.from; to = K.state l.to }) links.new)
        reports.items) }
    ensures unserved { OnErr result (links.new ≡ links.old) }
{
    run_in_store::<R, G, S, K, Brand>(context, Chronicle::default(), weights, first, links)
}

/// Serves all links over the store of a chronicle.
fn run_in_store<
    R: Threads + Wait + Clock + Sync,
    G: Gate,
    S: Source + Send,
    K: Sink + Send,
    T: Store + Send + Sync,
>(
    context: &ServeContext<'_, R, G>,
    chronicle: Chronicle,
    weights: Weights,
    first: u32,
    links: &mut [Link<S, K>],
) -> Result<Vec<LaneReport>, OutOfMemory>
    requires chronicle { chronicle ≡ T.origin.chronicle }
    requires first { first ≡ T.origin.first }
    requires base { weights ≡ T.origin.base }
    requires search { CanSearch (scene_of context.now.graph.now T.origin context.now.budget) }
    requires some_session { 2 ≤ length links.old }
    requires at_most_16_sessions { length links.old ≤ 17 }
    ensures served { IfOk result (λ reports. RunsLanes context.now.graph.now weights first
        context.now.budget context.now.policy
        (map (λ l. record { from = S.state l.from; to = K.state l.to }) links.old)
        (map (λ l. record { from = S.state l.from; to = K.state l.to }) links.new)
        reports.items) }
    ensures unserved { OnErr result (links.new ≡ links.old) }
{
    let reports = Vec::with_capacity(context.alloc, links.len())?;
    let sessions = (links.len() - 1) as u32;
    let (operator, readers) = make::<T, R>(
        context.workers.rt(),
        context.alloc,
        chronicle,
        first,
        weights,
        sessions,
    )?;
    let mut operator = OperatorLane {
        store: StoreState::Open(operator),
        end: SessionEnd::Ended,
    };
    match session_lanes(context.alloc, readers, SessionEnd::Ended) {
        Ok(mut sessions) => {
            serve_links(context, &mut operator, &mut sessions, links);
            Ok(report_lanes(context.workers.rt(), reports, operator, sessions))
        }
        Err(want) => {
            let OperatorLane { store, end: _ } = operator;
            store.close(context.workers.rt()).end(context.workers.rt());
            Err(want)
        }
    }
}

/// Closes and ends the store, and makes the lanes' reports, in a list that is empty before.
fn report_lanes<R: Wait, T: Store>(
    rt: &R,
    mut reports: Vec<LaneReport>,
    operator: OperatorLane<T, SessionEnd>,
    mut sessions: Vec<SessionLane<T, SessionEnd>>,
) -> Vec<LaneReport>
    requires none { reports.items ≡ [] }
    requires room { 1 + vec_len sessions ≤ vec_capacity reports }
    ensures reports { result.items
        ≡ record {
          end = operator.end;
          last = last_number T.origin (whole_of operator.store);
          numbers = [];
        } ∷ map (report_of (last_number T.origin (whole_of operator.store))) sessions.items }
    ensures begins { All (λ lane. IsPrefix lane.session.seen (whole_of operator.store)) sessions.items }
{
    let OperatorLane { store, end } = operator;
    let last = end_store(rt, store, &mut sessions);
    reports.push_reserved(LaneReport {
        end,
        last,
        named: Named::none(),
    });
    report_sessions(reports, sessions, last)
}
