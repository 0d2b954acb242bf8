ghost use Rattle.std.specs.Prelude.{◌≡◌, ◌<◌};
ghost use Rattle.found_fronts.specs.Findings.{found_of};
ghost use Rattle.road_network.specs.Queries.{IsQuery};
ghost use Rattle.walk_readback.specs.Answers.{Answers};

use crate::query::search;
use arc_graph::Network;
use found_fronts::Findings;
use road_network::{Query, SearchFault};
use std::alloc::Global;
use std::marker::Brand;
use std::sync::ledger::{Blank, Ledger};
use std::thread::Threads;
use waiting_queue::Steps;
use work_claim::{Gate, Workers};

/// Answers a query as `search` does, where nobody counts its rounds.
pub fn find<R: Threads + Sync, G: Gate>(
    workers: &Workers<'_, R, G>,
    alloc: Global,
    network: &Network<'_>,
    query: &Query,
) -> Result<Findings, SearchFault>
    requires query { IsQuery network.now query.now }
    ensures { Answers found_of network.now query.now result }
{
    counted::<R, G, Brand>(workers, alloc, network, query, Blank::new(1))
}

/// Answers a query over a counter of its own.
fn counted<R: Threads + Sync, G: Gate, L: Ledger>(
    workers: &Workers<'_, R, G>,
    alloc: Global,
    network: &Network<'_>,
    query: &Query,
    blank: Blank,
) -> Result<Findings, SearchFault>
    requires query { IsQuery network.now query.now }
    requires name { blank.name ≡ L.name }
    requires parts { blank.parts ≡ L.parts }
    requires some_parts { 0 < L.parts }
    ensures { Answers found_of network.now query.now result }
{
    let mut steps = Steps::<L>::new(blank);
    search(workers, alloc, network, query, &mut steps)
}
