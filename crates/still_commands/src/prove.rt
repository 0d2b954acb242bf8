//! The command `prove`.
ghost use Rattle.std.specs.Prelude.{◌≡◌, ◌≤◌, All, None};
ghost use Rattle.road_network.specs.Queries.{HaveNodes, IsTooLarge, limit_of};
ghost use Rattle.walk_readback.specs.Answers.{Answers};
ghost use Rattle.walk_readback.specs.Found.{HasAllRelevant, IsOf};
ghost use Rattle.command_words.specs.Ranges.{max_listed};
ghost use Rattle.command_words.specs.declared.commands.StillCommand.TheVariants.{Prove};
ghost use Rattle.still_commands.specs.Output.{RunsCommand, StillEnds};
ghost use Rattle.still_commands.specs.Prove.{ProveReplies};
ghost use Rattle.still_commands.specs.Stops.{Replies, run_outcome};

use crate::network::read_network;
use crate::reply::{has_nodes, refuse};
use crate::stop::Stop;
use arc_graph::Network;
use bulk_search::rounds_pay;
use cert_writer::{list_labels, write_cert};
use command_words::ProveWords;
use road_network::{Query, SearchFault};
use route_io::{Folder, Sink};
use std::alloc::Global;
use std::thread::Threads;
use walk_readback::SettledCosts;
use work_claim::{Gate, Helpers, Workers};

/// Sends a certificate of the answer to one query over the named files.
pub(crate) fn run<'a, R: Threads + Sync, G: Gate, F: Folder, K: Sink>(
    rt: &R,
    alloc: Global,
    asked: &ProveWords<'a>,
    folder: &mut F,
    out: &mut K,
    gate: &G,
) -> Result<(), Stop<'a>>
    requires { All F.admits asked.now.files }
    ensures { RunsCommand (StillEnds (F.state folder.old).files (Prove asked.now))
        (F.state folder.old) (F.state folder.new) (K.state out.old) (K.state out.new)
        (run_outcome result) }
{
    let (graph, weights) = read_network(alloc, folder, &asked.files)?;
    let network = Network::new(&graph, &weights);
    let helpers = Helpers::new();
    let workers = Workers::new(rt, asked.workers.get(), gate).watched(&helpers);
    reply(&workers, alloc, &network, asked.query.query(), out)
}

/// Sends the certificate of a query, or why it is refused.
fn reply<'a, R: Threads + Sync, G: Gate, K: Sink>(
    workers: &Workers<'_, R, G>,
    alloc: Global,
    network: &Network<'_>,
    query: &Query,
    out: &mut K,
) -> Result<(), Stop<'a>>
    requires unlimited { query.now.limit ≡ None }
    requires budget { query.now.budget ≤ max_listed }
    ensures { Replies (ProveReplies query.now network.now)
        (K.state out.old) (K.state out.new) (run_outcome result) }
{
    if !has_nodes(network, query) {
        return refuse(out, query, " node");
    }
    prove!(network.nodes() >= 1);
    if rounds_pay(workers, network.criteria()) {
        let found = bulk_search::find(workers, alloc, network, query);
        put_found(alloc, network, query, found, out)
    } else {
        let found = sweep_search::find(alloc, network, query);
        put_found(alloc, network, query, found, out)
    }
}

/// Sends the certificate of what a search answered.
fn put_found<'a, F: SettledCosts + Drop, K: Sink>(
    alloc: Global,
    network: &Network<'_>,
    query: &Query,
    found: Result<F, SearchFault>,
    out: &mut K,
) -> Result<(), Stop<'a>>
    requires unlimited { query.now.limit ≡ None }
    requires budget { query.now.budget ≤ max_listed }
    requires nodes { HaveNodes network.now query.now }
    requires answers { Answers F.FoundCosts.state network.now query.now found }
    ensures { Replies (ProveReplies query.now network.now)
        (K.state out.old) (K.state out.new) (run_outcome result) }
{
    match found {
        Ok(found) => put_cert(alloc, network, query, &found, out),
        Err(SearchFault::Budget) => refuse(out, query, " budget"),
        Err(SearchFault::OutOfMemory(want)) => Err(Stop::OutOfMemory(want)),
    }
}

/// Sends the certificate of what was found for a query. All its labels are listed before the first byte.
fn put_cert<'a, F: SettledCosts, K: Sink>(
    alloc: Global,
    network: &Network<'_>,
    query: &Query,
    found: &F,
    out: &mut K,
) -> Result<(), Stop<'a>>
    requires of_query { IsOf network.now query.now (F.FoundCosts.state found.now) }
    requires unlimited { query.now.limit ≡ None }
    requires relevant { HasAllRelevant network.now (limit_of network.now.criteria query.now)
        (F.FoundCosts.state found.now) }
    requires nodes { HaveNodes network.now query.now }
    requires budget { query.now.budget ≤ max_listed }
    requires in_budget { ¬ IsTooLarge network.now query.now }
    ensures { Replies (ProveReplies query.now network.now)
        (K.state out.old) (K.state out.new) (run_outcome result) }
{
    prove!(network.nodes() >= 1);
    let listing = list_labels(alloc, network, query, found)?;
    write_cert(out, &listing)?;
    Ok(())
}
