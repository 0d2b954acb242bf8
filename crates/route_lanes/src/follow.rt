ghost use Rattle.std.specs.Prelude.{◌≡◌, ◌≤◌, [], All, IfOk, OnErr, length, map, vec_len, vec_capacity};
ghost use mathlib.Core.List.{IsPrefix};
ghost use Rattle.road_network.specs.Limits.{max_budget};
ghost use Rattle.arc_graph.specs.Graph.{Match};
ghost use Rattle.epoch_store.specs.Origin.{last_number};
ghost use Rattle.link_doors.specs.Links.{state_of};
ghost use Rattle.session_core.specs.Answering.{CanSearch, scene_of};
ghost use Rattle.route_lanes.specs.Following.{RunsFollow};
ghost use Rattle.route_lanes.specs.Served.{IsFresh, SessionServes, report_of, whole_of};
ghost use Rattle.route_lanes.specs.Services.{AllServe};
ghost use Rattle.route_lanes.specs.Taken.{CanTake, LaneTakes};

use crate::feed_lane::FeedReport;
use crate::operator_lane::{OperatorLane, StoreState};
use crate::report::LaneReport;
use crate::service::lead_beside;
use crate::session_lane::{SessionLane, end_store, report_sessions, session_lanes};
use arc_graph::Weights;
use epoch_store::{Chronicle, Store, make};
use out_of_memory::OutOfMemory;
use route_io::{Link, Sink, Source};
use session_core::{ServeContext, SessionEnd};
use std::marker::{Brand, Model};
use std::sync::Wait;
use std::thread::Threads;
use std::time::Clock;
use work_claim::Gate;

/// What became of the feeds that a follower took, and of the sessions beside it.
#[derive(Drop)]
pub struct FollowReport {
    feeds: Vec<FeedReport>,
    lanes: Vec<LaneReport>,
}

impl Model for FollowReport {
    ghost use Rattle.route_lanes.specs.Following.{FollowReport};

    ghost Value = { FollowReport };

    ghost view = { λ r. record { feeds = r.feeds.items; lanes = r.lanes.items } };
}

impl FollowReport {
    /// One report a feed, in the order in which they were taken.
    pub fn feeds(&self) -> &[FeedReport]
        ensures { result.now ≡ self.now.feeds }
    {
        &self.feeds
    }

    /// One report a session's lane.
    pub fn lanes(&self) -> &[LaneReport]
        ensures { result.now ≡ self.now.lanes }
    {
        &self.lanes
    }
}

/// Takes the feeds of a leader, one after another, into a new store, and beside it serves up to 16 links of sessions, each lane
/// on a thread of its own; where none can be started the caller's does its work. When the last feed has ended the store is
/// closed, and each session's lane comes to the end of its history.
///
/// It may wait: a publication for readers, and a session for an epoch. All memory outside of the lanes is taken before any
/// feed is taken and any link served.
pub fn run_follow<
    R: Threads + Wait + Clock + Sync,
    G: Gate,
    F: Source,
    S: Source + Send,
    K: Sink + Send,
>(
    context: &ServeContext<'_, R, G>,
    weights: Weights,
    first: u32,
    feeds: &mut [F],
    links: &mut [Link<S, K>],
) -> Result<FollowReport, OutOfMemory>
    requires weights { Match context.now.graph.now weights }
    requires budget { context.now.budget ≤ max_budget }
    requires some_session { 1 ≤ length links.old }
    requires at_most_16_sessions { length links.old ≤ 16 }
    ensures served { IfOk result (λ report. RunsFollow context.now.graph.now weights first
        context.now.budget context.now.policy (map F.state feeds.old) (map F.state feeds.new)
        (map (λ l. record { from = S.state l.from; to = K.state l.to }) links.old)
        (map (λ l. record { from = S.state l.from; to = K.state l.to }) links.new) report) }
    ensures untaken { OnErr result (feeds.new ≡ feeds.old) }
    ensures unserved { OnErr result (links.new ≡ links.old) }
{
    follow_in_store::<R, G, F, S, K, Brand>(
        context,
        Chronicle::default(),
        weights,
        first,
        feeds,
        links,
    )
}

/// Takes the feeds into the store of a chronicle, and serves the links.
fn follow_in_store<
    R: Threads + Wait + Clock + Sync,
    G: Gate,
    F: Source,
    S: Source + Send,
    K: Sink + Send,
    T: Store + Send + Sync,
>(
    context: &ServeContext<'_, R, G>,
    chronicle: Chronicle,
    weights: Weights,
    first: u32,
    feeds: &mut [F],
    links: &mut [Link<S, K>],
) -> Result<FollowReport, OutOfMemory>
    requires chronicle { chronicle ≡ T.origin.chronicle }
    requires first { first ≡ T.origin.first }
    requires base { weights ≡ T.origin.base }
    requires search { CanSearch (scene_of context.now.graph.now T.origin context.now.budget) }
    requires some_session { 1 ≤ length links.old }
    requires at_most_16_sessions { length links.old ≤ 16 }
    ensures served { IfOk result (λ report. RunsFollow context.now.graph.now weights first
        context.now.budget context.now.policy (map F.state feeds.old) (map F.state feeds.new)
        (map (λ l. record { from = S.state l.from; to = K.state l.to }) links.old)
        (map (λ l. record { from = S.state l.from; to = K.state l.to }) links.new) report) }
    ensures untaken { OnErr result (feeds.new ≡ feeds.old) }
    ensures unserved { OnErr result (links.new ≡ links.old) }
{
    let reports = Vec::with_capacity(context.alloc, feeds.len())?;
    let lanes = Vec::with_capacity(context.alloc, links.len())?;
    let (operator, readers) = make::<T, R>(
        context.workers.rt(),
        context.alloc,
        chronicle,
        first,
        weights,
        links.len() as u32,
    )?;
    let mut follower = OperatorLane {
        store: StoreState::Open(operator),
        end: reports,
    };
    match session_lanes(context.alloc, readers, SessionEnd::Ended) {
        Ok(mut sessions) => {
            follow_and_serve(context, &mut follower, feeds, &mut sessions, links);
            Ok(report_follow(context.workers.rt(), lanes, follower, sessions))
        }
        Err(want) => {
            let OperatorLane { store, end: _ } = follower;
            store.close(context.workers.rt()).end(context.workers.rt());
            Err(want)
        }
    }
}

/// Has a follower take its feeds, and the sessions' lanes serve their links, all at once.
fn follow_and_serve<
    R: Threads + Wait + Clock + Sync,
    G: Gate,
    F: Source,
    S: Source + Send,
    K: Sink + Send,
    T: Store + Send + Sync,
>(
    context: &ServeContext<'_, R, G>,
    follower: &mut OperatorLane<T, Vec<FeedReport>>,
    feeds: &mut [F],
    sessions: &mut [SessionLane<T, SessionEnd>],
    links: &mut [Link<S, K>],
)
    requires search { CanSearch (scene_of context.now.graph.now T.origin context.now.budget) }
    requires some { 1 ≤ length sessions.old }
    requires links { length links.old ≡ length sessions.old }
    requires follower { CanTake follower.old feeds.old }
    requires sessions { All (λ lane. IsFresh lane.session) sessions.old }
    ensures follower { LaneTakes F.state context.now.graph.now T.origin
        follower.old feeds.old follower.new feeds.new }
    ensures sessions { AllServe (SessionServes (state_of S.state K.state)
        (scene_of context.now.graph.now T.origin context.now.budget) context.now.policy)
        sessions.old links.old sessions.new links.new }
{
    lead_beside(
        context.workers.rt(),
        &|lane: &mut OperatorLane<T, Vec<FeedReport>>, feeds: &mut [F]|
            requires { CanTake lane.now feeds.now × Match context.now.graph.now T.origin.base }
            ensures { LaneTakes F.state context.entry.now.graph.now T.origin
                lane.entry.now feeds.entry.now lane.exit.now feeds.exit.now }
        { lane.take(context, feeds) },
        follower,
        feeds,
        &|lane: &mut SessionLane<T, SessionEnd>, link: &mut Link<S, K>|
            requires { IsFresh lane.now.session × CanSearch
                (scene_of context.now.graph.now T.origin context.now.budget) }
            ensures { SessionServes (state_of S.state K.state)
                (scene_of context.entry.now.graph.now T.origin context.entry.now.budget)
                context.entry.now.policy lane.entry.now link.entry.now lane.exit.now link.exit.now }
        { lane.serve(context, link) },
        sessions,
        links,
    );
}

/// Closes and ends the store, and makes the report. The list of the lanes' reports is empty before, and has room for all.
fn report_follow<R: Wait, T: Store>(
    rt: &R,
    lanes: Vec<LaneReport>,
    follower: OperatorLane<T, Vec<FeedReport>>,
    mut sessions: Vec<SessionLane<T, SessionEnd>>,
) -> FollowReport
    requires none { lanes.items ≡ [] }
    requires room { vec_len sessions ≤ vec_capacity lanes }
    ensures reports { result ≡ record {
      feeds = follower.end.items;
      lanes = map (report_of (last_number T.origin (whole_of follower.store))) sessions.items;
    } }
    ensures begins { All (λ lane. IsPrefix lane.session.seen (whole_of follower.store)) sessions.items }
{
    let OperatorLane { store, end: feeds } = follower;
    let last = end_store(rt, store, &mut sessions);
    let lanes = report_sessions(lanes, sessions, last);
    FollowReport { feeds, lanes }
}
