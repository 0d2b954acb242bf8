//! Searches of several forms, each with the reply that it leads to.
ghost use Rattle.road_network.specs.Queries.{IsQuery, limit_of};
ghost use Rattle.walk_readback.specs.Found.{IsOf, IsWellFound};

use super::networks::{Drawn, graph, query_of};
use answer_writer::put_answer;
use arc_graph::Network;
use road_network::{AnswerKind, Query, SearchFault};
use route_io::sure::SureSink;
use std::alloc::Global;
use std::process::Abort;
use std::test::Fail;
use std::thread::Threads;
use walk_readback::{FoundCosts, Room};
use work_claim::{Gate, Phase, Workers};

/// Has all work shared, however little.
#[derive(Drop)]
struct AllShared;

impl Gate for AllShared {
    const SHARED_FROM: usize = 0;

    ghost SHARED_FROM = { 0 };

    fn pass(&self, _phase: Phase, _piece: u64) {}
}

/// A form of search.
#[derive(Clone, Copy, Debug)]
pub(super) enum Search {
    /// In rounds, by so many workers.
    Rounds(u32),
    /// In the order of cost.
    Sweep,
    /// In the order of cost, directed to the target.
    Directed,
}

/// The reply to the query of a drawn network within a budget, after such a search, or why it was refused.
pub(super) fn reply_within<R: Threads + Sync + Abort>(
    rt: &R,
    alloc: Global,
    drawn: &Drawn,
    budget: u32,
    search: Search,
) -> Result<Result<SureSink, SearchFault>, Fail> {
    let (graph, weights) = graph(rt, alloc, drawn)?;
    let network = Network::new(&graph, &weights);
    let query = query_of(rt, drawn, &network, budget);
    reply_by(rt, alloc, &network, &query, search)
}

/// Whether such a search is refused for this budget.
pub(super) fn refuses_at<R: Threads + Sync + Abort>(
    rt: &R,
    alloc: Global,
    drawn: &Drawn,
    budget: u32,
    search: Search,
) -> Result<bool, Fail> {
    let fault = reply_within(rt, alloc, drawn, budget, search)?.err();
    Ok(fault == Some(SearchFault::Budget))
}

/// The reply to a query after such a search, or why it was refused.
fn reply_by<R: Threads + Sync + Abort>(
    rt: &R,
    alloc: Global,
    network: &Network<'_>,
    query: &Query,
    search: Search,
) -> Result<Result<SureSink, SearchFault>, Fail>
    requires { IsQuery network.now query.now }
{
    match search {
        Search::Rounds(count) => reply_by_rounds(rt, alloc, network, query, count),
        Search::Sweep => match sweep_search::find(alloc, network, query) {
            Ok(found) => Ok(Ok(reply(alloc, network, query, &found)?)),
            Err(fault) => Ok(Err(fault)),
        },
        Search::Directed => match sweep_search::search_toward(alloc, network, query) {
            Ok(found) => Ok(Ok(reply(alloc, network, query, &found)?)),
            Err(fault) => Ok(Err(fault)),
        },
    }
}

fn reply_by_rounds<R: Threads + Sync + Abort>(
    rt: &R,
    alloc: Global,
    network: &Network<'_>,
    query: &Query,
    count: u32,
) -> Result<Result<SureSink, SearchFault>, Fail>
    requires { IsQuery network.now query.now }
{
    assert!(rt; 1 <= count && count <= 64);
    let workers = Workers::new(rt, count, &AllShared);
    match bulk_search::find(&workers, alloc, network, query) {
        Ok(found) => Ok(Ok(reply(alloc, network, query, &found)?)),
        Err(fault) => Ok(Err(fault)),
    }
}

/// The reply of what was found for a query.
pub(super) fn reply<F: FoundCosts>(
    alloc: Global,
    network: &Network<'_>,
    query: &Query,
    found: &F,
) -> Result<SureSink, Fail>
    requires of_query { IsOf network.now query.now (F.state found.now) }
    requires well_found { IsWellFound network.now (limit_of network.now.criteria query.now)
        (F.state found.now) }
{
    let mut room = Room::with(alloc, found.longest())?;
    let mut text = SureSink::new(alloc);
    put_answer(
        &mut text,
        0,
        AnswerKind::Walks,
        query,
        network,
        found,
        &mut room,
    )?;
    Ok(text)
}
