//! The lanes of sessions.
ghost use Rattle.std.specs.Prelude.{◌≡◌, ◌+◌, ◌≤◌, ◌++◌, All, IfOk, map, vec_len, vec_capacity};
ghost use mathlib.Core.List.{IsPrefix};
ghost use Rattle.epoch_store.specs.Origin.{last_number};
ghost use Rattle.epoch_store.specs.Readers.{unread};
ghost use Rattle.session_core.specs.Answering.{CanSearch, scene_of};
ghost use Rattle.route_lanes.specs.Served.{IsFresh, SessionServes, learnt, report_of, whole_of};
ghost use Rattle.link_doors.specs.Links.{state_of};

use crate::operator_lane::StoreState;
use crate::report::LaneReport;
use epoch_store::{Ended, EpochReader, Store};
use out_of_memory::OutOfMemory;
use route_io::{Link, Sink, Source};
use session_core::{ServeContext, Session, SessionEnd};
use std::alloc::Global;
use std::sync::Wait;
use std::thread::Threads;
use std::time::Clock;
use work_claim::Gate;

/// A session's lane, and what became of its link or its door.
#[derive(Drop)]
pub(crate) struct SessionLane<T: Store, E> {
    pub session: Session<T>,
    pub end: E,
}

impl<T: Store> SessionLane<T, SessionEnd> {
    /// Serves a link.
    pub(crate) fn serve<R: Threads + Wait + Clock + Sync, G: Gate, S: Source, K: Sink>(
        &mut self,
        context: &ServeContext<'_, R, G>,
        link: &mut Link<S, K>,
    )
        requires fresh { IsFresh self.old.session }
        requires search { CanSearch (scene_of context.now.graph.now T.origin context.now.budget) }
        ensures { SessionServes (state_of S.state K.state)
            (scene_of context.now.graph.now T.origin context.now.budget) context.now.policy
            self.old link.old self.new link.new }
    {
        self.end = self.session.serve(context, link);
    }

    /// What is reported of the lane, where the last epoch has this number.
    fn report(self, last: u32) -> LaneReport
        ensures { result ≡ report_of last self }
    {
        let SessionLane { session, end } = self;
        let named = session.into_named();
        LaneReport { end, last, named }
    }
}

impl<T: Store, E> SessionLane<T, E> {
    /// Goes on to the last epoch of a store that is closed.
    fn learn<R: Wait>(&mut self, rt: &R, ended: &Ended<T>)
        ensures learnt { self.new ≡ learnt ended.now self.old }
        ensures begins { IsPrefix self.old.session.seen ended.now }
    {
        self.session.learn(rt, ended);
    }
}

/// A lane for each reader, with this end before anything was served.
pub(crate) fn session_lanes<T: Store, E: Copy>(
    alloc: Global,
    readers: Vec<EpochReader<T>>,
    end: E,
) -> Result<Vec<SessionLane<T, E>>, OutOfMemory>
    requires unread { All (λ x. x ≡ unread) readers.items }
    ensures count { IfOk result (λ lanes. vec_len lanes ≡ vec_len readers) }
    ensures fresh { IfOk result (λ lanes. All (λ lane. IsFresh lane.session) lanes.items) }
{
    let mut lanes = Vec::with_capacity(alloc, readers.len())?;
    let mut rest = readers;
    while let Some(reader) = rest.pop() {
        lanes.push(SessionLane {
            session: Session::new(alloc, reader)?,
            end,
        })?;
    }
    Ok(lanes)
}

/// Goes on to the last epoch of a store that is closed, in each lane.
fn learn_all<T: Store, R: Wait, E>(rt: &R, lanes: &mut [SessionLane<T, E>], ended: &Ended<T>)
    ensures learnt { lanes.new ≡ map (learnt ended.now) lanes.old }
    ensures begins { All (λ lane. IsPrefix lane.session.seen ended.now) lanes.old }
{
    for k in 0..lanes.len() {
        lanes[k].learn(rt, ended);
    }
}

/// Closes and ends a store, once each of these lanes has gone on to its last epoch, and answers the number of that epoch.
pub(crate) fn end_store<T: Store, R: Wait, E>(
    rt: &R,
    store: StoreState<T>,
    lanes: &mut [SessionLane<T, E>],
) -> u32
    ensures last { result ≡ last_number T.origin (whole_of store) }
    ensures learnt { lanes.new ≡ map (learnt (whole_of store)) lanes.old }
    ensures begins { All (λ lane. IsPrefix lane.session.seen (whole_of store)) lanes.old }
{
    let ended = store.close(rt);
    learn_all(rt, lanes, &ended);
    ended.end(rt)
}

/// Adds what is reported of each of these lanes, where the last epoch has this number, in room that was taken before.
pub(crate) fn report_sessions<T: Store>(
    mut reports: Vec<LaneReport>,
    lanes: Vec<SessionLane<T, SessionEnd>>,
    last: u32,
) -> Vec<LaneReport>
    requires room { vec_len reports + vec_len lanes ≤ vec_capacity reports }
    ensures { result.items ≡ reports.items ++ map (report_of last) lanes.items }
{
    for lane in lanes {
        reports.push_reserved(lane.report(last));
    }
    reports
}
