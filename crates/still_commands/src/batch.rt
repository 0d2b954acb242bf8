//! The command `batch`.
ghost use Rattle.std.specs.Prelude.{◌≡◌, ◌≤◌, ◌<◌, ◌^◌, ℕ, List, ◌∷◌, All, IfOk, length};
ghost use Rattle.road_network.specs.Network.{Network};
ghost use Rattle.road_network.specs.Queries.{IsAsked};
ghost use Rattle.command_words.specs.Words.{names_of_still};
ghost use Rattle.command_words.specs.declared.commands.StillCommand.TheVariants.{Batch};
ghost use Rattle.route_io.specs.Sources.{ReadsFiles};
ghost use Rattle.still_commands.specs.Ahead.{AreAhead, IsAhead};
ghost use Rattle.still_commands.specs.Batch.{PairsReplies, mode_of, query_between};
ghost use Rattle.still_commands.specs.Outcome.{failed_file};
ghost use Rattle.still_commands.specs.Output.{RunsCommand, StillEnds};
ghost use Rattle.still_commands.specs.ReadResults.{PairsRead};
ghost use Rattle.still_commands.specs.Stops.{Replies, run_outcome};

use crate::network::{LIMITS, read_network};
use crate::reply::EPOCH;
use crate::stop::Stop;
use arc_graph::Network;
use command_words::{BatchWords, SearchLimits};
use gr_reader::FileFault;
use out_of_memory::OutOfMemory;
use query_reader::{Pair, read_p2p};
use road_network::{AnswerKind, Query};
use route_io::{Folder, Sink};
use session_core::{Answerer, MadeReply, SearchMode};
use std::alloc::Global;
use std::thread::Threads;
use walk_readback::Room;
use work_claim::{Gate, Helpers, Workers};

/// How many pairs a window has at most. The replies to all of them may be in memory before the first of them is sent.
const MOST_PAIRS: usize = 1024;

/// Answers a query for each pair of the file of pairs over the named files.
pub(crate) fn run<'a, R: Threads + Sync, G: Gate, F: Folder, K: Sink>(
    rt: &R,
    alloc: Global,
    asked: &BatchWords<'a>,
    folder: &mut F,
    out: &mut K,
    gate: &G,
) -> Result<(), Stop<'a>>
    requires { All F.admits (names_of_still (Batch asked.now)) }
    ensures { RunsCommand (StillEnds (F.state folder.old).files (Batch asked.now))
        (F.state folder.old) (F.state folder.new) (K.state out.old) (K.state out.new)
        (run_outcome result) }
{
    let (graph, weights) = read_network(alloc, folder, &asked.files)?;
    let mut room = Room::with(alloc, 0)?;
    let pairs = read_pairs(alloc, folder, asked.pairs.text())?;
    let network = Network::new(&graph, &weights);
    let helpers = Helpers::new();
    let workers = Workers::new(rt, asked.limits.workers.get(), gate).watched(&helpers);
    let answerer = Answerer {
        workers: &workers,
        alloc,
        network: &network,
        mode: mode_of(asked.goal),
    };
    reply_each(&answerer, &asked.limits, &pairs, &mut room, out)
}

/// How each query is searched, by whether the flag for the directed search is given.
fn mode_of(goal: bool) -> SearchMode
    ensures { result ≡ mode_of goal }
{
    if goal {
        SearchMode::Goal
    } else {
        SearchMode::Plain
    }
}

/// Reads the file of pairs.
fn read_pairs<'a, F: Folder>(
    alloc: Global,
    folder: &mut F,
    name: &'a str,
) -> Result<Vec<Pair>, Stop<'a>>
    requires { F.admits name.now }
    ensures read { PairsRead (F.state folder.old).files name.now result }
    ensures folder { ReadsFiles (F.state folder.old) (F.state folder.new)
        (failed_file (run_outcome result)) }
{
    let Ok(()) = folder.select(name) else {
        return Err(Stop::Folder { name });
    };
    match read_p2p(alloc, folder, LIMITS) {
        Ok(pairs) => Ok(pairs),
        Err(FileFault::Line { kind, line }) => Err(Stop::Pairs { name, line, kind }),
        Err(FileFault::Read) => Err(Stop::Folder { name }),
        Err(FileFault::OutOfMemory(want)) => Err(Stop::OutOfMemory(want)),
    }
}

/// Sends the reply to each pair in order. A refused pair ends nothing, and the room serves all pairs.
fn reply_each<'a, R: Threads + Sync, G: Gate, K: Sink>(
    answerer: &Answerer<'_, R, G>,
    limits: &SearchLimits,
    pairs: &[Pair],
    room: &mut Room,
    out: &mut K,
) -> Result<(), Stop<'a>>
    ensures { Replies (PairsReplies answerer.now.mode limits.now answerer.now.network.now pairs.now)
        (K.state out.old) (K.state out.new) (run_outcome result) }
{
    let mut ahead = Vec::new(answerer.alloc);
    for i in 0..pairs.len() {
        refill(answerer, limits, &pairs[i..], &mut ahead);
        let query = query_between(limits, pairs[i]);
        let made = take_next(&mut ahead);
        answerer.reply_as_made(EPOCH, AnswerKind::Walks, &query, made, room, out)?;
    }
    Ok(())
}

/// The reply that was made ahead to the next pair, if it was.
fn take_next(ahead: &mut Vec<Option<MadeReply>>) -> Option<MadeReply>
    ensures { (mode : SearchMode) (limits : SearchLimits) (net : Network) (pair : Pair)
        (pairs : List Pair) → AreAhead mode limits net (pair ∷ pairs) ahead.old.items
        → IsAhead mode limits net pair result × AreAhead mode limits net pairs ahead.new.items }
{
    ahead.pop().flatten()
}

/// Where no reply is left that was made ahead, has the workers make those to the first of these pairs side by side. None are
/// made by one worker, nor to a last pair, of which the workers may share the search, nor where memory runs out.
fn refill<R: Threads + Sync, G: Gate>(
    answerer: &Answerer<'_, R, G>,
    limits: &SearchLimits,
    pairs: &[Pair],
    ahead: &mut Vec<Option<MadeReply>>,
)
    requires { AreAhead answerer.now.mode limits.now answerer.now.network.now pairs.now ahead.old.items }
    ensures { AreAhead answerer.now.mode limits.now answerer.now.network.now pairs.now ahead.new.items }
{
    if !ahead.is_empty() {
        return;
    }
    let count = count_ahead(answerer, limits, pairs.len());
    if let Ok(made) = make_ahead(answerer, limits, &pairs[..count]) {
        *ahead = made;
    }
}

/// How many of so many pairs are searched side by side: a window of so many that few workers wait for the last of its
/// searches. A search is counted as a label for each node, or as its budget.
fn count_ahead<R, G: Gate>(
    answerer: &Answerer<'_, R, G>,
    limits: &SearchLimits,
    left: usize,
) -> usize
    ensures within { result ≤ left }
    ensures few { result < 2 ^ 32 }
{
    let window = left.min(MOST_PAIRS);
    let labels = window * answerer.network.nodes().min(limits.budget.get()) as usize;
    if left < 2 || answerer.workers.for_labels(labels).count() == 1 {
        return 0;
    }
    window
}

/// The replies to the first of these pairs, made in memory, the first of them last.
fn make_ahead<R: Threads + Sync, G: Gate>(
    answerer: &Answerer<'_, R, G>,
    limits: &SearchLimits,
    pairs: &[Pair],
) -> Result<Vec<Option<MadeReply>>, OutOfMemory>
    requires { length pairs.now < 2 ^ 32 }
    ensures { IfOk result (λ ahead. AreAhead answerer.now.mode limits.now answerer.now.network.now pairs.now ahead.items) }
{
    let mut queries = Vec::with_capacity(answerer.alloc, pairs.len())?;
    for pair in pairs {
        queries.push(query_between(limits, *pair))?;
    }
    let mut made = answerer.make_replies(EPOCH, AnswerKind::Walks, &queries)?;
    made.reverse();
    Ok(made)
}

/// The query from one node of a pair to the other, without a limit.
pub(crate) fn query_between(limits: &SearchLimits, pair: Pair) -> Query
    ensures value { result ≡ query_between limits.now pair }
    ensures asked { (criteria : ℕ) → IsAsked criteria result }
{
    Query {
        from: pair.from,
        to: pair.to,
        limit: None,
        budget: limits.budget.get(),
    }
}
