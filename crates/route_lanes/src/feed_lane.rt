//! The lane of a follower, which takes the feeds of its leader.
ghost use Rattle.std.specs.Prelude.{◌≡◌, ◌≤◌, [], length, map, vec_capacity};
ghost use Rattle.arc_graph.specs.Graph.{Match};
ghost use Rattle.route_lanes.specs.Following.{TakesFeeds};
ghost use Rattle.route_lanes.specs.Served.{IsNew};
ghost use Rattle.route_lanes.specs.Taken.{CanTake, LaneTakes, TakesOpen};

use crate::operator_lane::{OperatorLane, StoreState, close_in_place};
use core::mem::replace_with;
use epoch_follow::{FeedEnd, take_feed};
use epoch_store::{Operator, Store};
use line_text::LineLimits;
use route_io::Source;
use session_core::ServeContext;
use std::sync::Wait;

/// The limits of a feed.
const FEED_LIMITS: LineLimits = LineLimits {
    line: 1024,
    total: 1 << 24,
};

/// What became of a feed.
#[derive(Clone, Copy, Debug, PartialEq, Eq)]
pub struct FeedReport {
    /// How it ended.
    pub end: FeedEnd,
    /// The number of the follower's current epoch after it.
    pub number: u32,
}

impl<T: Store> OperatorLane<T, Vec<FeedReport>> {
    /// Takes feeds, one after another, and closes the store.
    pub(crate) fn take<R: Wait, G, F: Source>(
        &mut self,
        context: &ServeContext<'_, R, G>,
        feeds: &mut [F],
    )
        requires can { CanTake self.old feeds.old }
        requires weights { Match context.now.graph.now T.origin.base }
        ensures { LaneTakes F.state context.now.graph.now T.origin
            self.old feeds.old self.new feeds.new }
    {
        take_open(context, &mut self.store, feeds, &mut self.end);
        replace_with(
            &mut self.store,
            context.workers.rt(),
            close_in_place::<T, R>,
        );
    }
}

/// Has the operator of a new store take feeds, one after another.
fn take_open<T: Store, R: Wait, G, F: Source>(
    context: &ServeContext<'_, R, G>,
    store: &mut StoreState<T>,
    feeds: &mut [F],
    reports: &mut Vec<FeedReport>,
)
    requires new { IsNew store.old }
    requires none { reports.old.items ≡ [] }
    requires room { length feeds.old ≤ vec_capacity reports.old }
    requires weights { Match context.now.graph.now T.origin.base }
    ensures { TakesOpen F.state context.now.graph.now T.origin
        feeds.old feeds.new reports.new.items store.new }
{
    match store {
        StoreState::Open(operator) => {
            take_each(context, operator, feeds, reports);
            let _number = operator.number(); // a proof knows what every operator keeps
        }
        StoreState::Closed(_) => {}
    }
}

/// Takes feeds, one after another, and adds a report of each.
fn take_each<T: Store, R: Wait, G, F: Source>(
    context: &ServeContext<'_, R, G>,
    operator: &mut Operator<T>,
    feeds: &mut [F],
    reports: &mut Vec<FeedReport>,
)
    requires new { operator.old ≡ record { published = []; pending = [] } }
    requires none { reports.old.items ≡ [] }
    requires room { length feeds.old ≤ vec_capacity reports.old }
    requires weights { Match context.now.graph.now T.origin.base }
    ensures idle { operator.new.pending ≡ [] }
    ensures takes { TakesFeeds context.now.graph.now T.origin
        (map F.state feeds.old) (map F.state feeds.new)
        reports.new.items operator.new.published }
{
    for k in 0..feeds.len() {
        let end = take_feed(
            context.workers.rt(),
            context.alloc,
            operator,
            context.graph,
            &mut feeds[k],
            FEED_LIMITS,
        );
        let number = operator.number();
        reports.push_reserved(FeedReport { end, number });
    }
}
