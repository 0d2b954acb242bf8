//! Numbers within their ranges: how a search is done, and how many lanes, links and feeds there are.
ghost use Rattle.std.specs.Prelude.{◌≡◌, ◌≤◌, None};

use ranged_number::Ranged;
use road_network::{MAX_BUDGET, Query};
use std::marker::Model;

/// The budget of a query that gives none.
pub const DEFAULT_BUDGET: u32 = 10_000_000;
/// The budget of a query whose labels are listed, where none is given.
pub const DEFAULT_LISTED: u32 = 1_000_000;
/// The greatest budget of a query whose labels are listed.
pub const MAX_LISTED: u32 = 4_000_000;
/// The greatest number that may stand for a node.
pub const MAX_NODE: u32 = u32::MAX;
/// The greatest number that a plan may start with.
pub const MAX_START: u32 = u32::MAX;
/// The workers of a command that gives none.
pub const DEFAULT_WORKERS: u32 = 1;
/// The most workers.
pub const MAX_WORKERS: u32 = 64;
/// The lanes of sessions where none are given.
pub const DEFAULT_LANES: u32 = 1;
/// The most lanes of sessions.
pub const MAX_LANES: u32 = 16;
/// The links of each lane of a server where none are given.
pub const DEFAULT_LINKS: u32 = 1_000_000_000;
/// The most links of each lane of a server.
pub const MAX_LINKS: u32 = 1_000_000_000;
/// The feeds of a follower where no number is given.
pub const DEFAULT_FEEDS: u32 = 1;
/// The most feeds of a follower.
pub const MAX_FEEDS: u32 = 64;
/// The number of the first epoch where none is given, which is that of the files' weights.
pub const DEFAULT_EPOCH: u32 = 0;

/// The most labels that a search may settle.
pub type Budget = Ranged<1, MAX_BUDGET>;
/// How many workers share a search.
pub type WorkerCount = Ranged<1, MAX_WORKERS>;
/// How many lanes of sessions there are.
pub type LaneCount = Ranged<1, MAX_LANES>;
/// How many links each lane of a server has at most.
pub type LinkCount = Ranged<1, MAX_LINKS>;
/// How many feeds a follower takes.
pub type FeedCount = Ranged<1, MAX_FEEDS>;

/// How a search is done.
#[derive(Clone, Copy)]
pub struct SearchLimits {
    pub budget: Budget,
    pub workers: WorkerCount,
}

/// A query without a limit, whose budget is at most `MOST`.
#[derive(Clone, Copy)]
pub struct UnlimitedQuery<const MOST: u32> {
    query: Query,
}

impl<const MOST: u32> Model for UnlimitedQuery<MOST> {
    ghost use Rattle.std.specs.Prelude.{◌≡◌, ◌≤◌, None};
    ghost use Rattle.road_network.specs.declared.query.Query.{Query};

    ghost Value = { Query };

    ghost view = { λ q. q.query };

    ghost invariant = { λ q. (q.query.limit ≡ None) × (q.query.budget ≤ MOST) };

    ghost inverse = { λ query. record { query = query } };
}

impl<const MOST: u32> UnlimitedQuery<MOST> {
    pub fn new(from: u32, to: u32, budget: Ranged<1, MOST>) -> Self
        ensures { result
            ≡ record { from = from; to = to; limit = None; budget = budget.entry } }
    {
        let budget = budget.get();
        UnlimitedQuery {
            query: Query {
                from,
                to,
                limit: None,
                budget,
            },
        }
    }

    pub fn query(&self) -> &Query
        ensures query { result.now ≡ self.now }
        ensures unlimited { result.now.limit ≡ None }
        ensures at_most { result.now.budget ≤ MOST }
    {
        &self.query
    }
}
