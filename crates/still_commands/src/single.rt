//! The commands `costs`, `one` and `goal`.
ghost use Rattle.std.specs.Prelude.{All};
ghost use Rattle.road_network.specs.Queries.{IsAsked};
ghost use Rattle.command_words.specs.declared.commands.StillCommand.TheVariants.{Goal, Single};
ghost use Rattle.still_commands.specs.Output.{RunsCommand, StillEnds};
ghost use Rattle.still_commands.specs.Queries.{QueryReplies};
ghost use Rattle.still_commands.specs.Stops.{Replies, run_outcome};

use crate::network::read_network;
use crate::reply::{EPOCH, end_of};
use crate::stop::Stop;
use arc_graph::Network;
use command_words::{GoalWords, SingleWords};
use road_network::{AnswerKind, Query};
use route_io::{Folder, Sink};
use session_core::{Answerer, SearchMode};
use std::alloc::Global;
use std::thread::Threads;
use walk_readback::Room;
use work_claim::{Gate, Helpers, Workers};

/// Answers one query over the named files by a plain search.
pub(crate) fn run<'a, R: Threads + Sync, G: Gate, F: Folder, K: Sink>(
    rt: &R,
    alloc: Global,
    asked: &SingleWords<'a>,
    folder: &mut F,
    out: &mut K,
    gate: &G,
) -> Result<(), Stop<'a>>
    requires { All F.admits asked.now.files }
    ensures { RunsCommand (StillEnds (F.state folder.old).files (Single asked.now))
        (F.state folder.old) (F.state folder.new) (K.state out.old) (K.state out.new)
        (run_outcome result) }
{
    let (graph, weights) = read_network(alloc, folder, &asked.files)?;
    let network = Network::new(&graph, &weights);
    let helpers = Helpers::new();
    let workers = Workers::new(rt, asked.workers.get(), gate).watched(&helpers);
    let answerer = Answerer {
        workers: &workers,
        alloc,
        network: &network,
        mode: SearchMode::Plain,
    };
    reply_once(&answerer, asked.kind, asked.query.query(), out)
}

/// Answers one query over the named files by a search that is directed to its target. One worker makes it.
pub(crate) fn run_goal<'a, R: Threads + Sync, G: Gate, F: Folder, K: Sink>(
    rt: &R,
    alloc: Global,
    asked: &GoalWords<'a>,
    folder: &mut F,
    out: &mut K,
    gate: &G,
) -> Result<(), Stop<'a>>
    requires { All F.admits asked.now.files }
    ensures { RunsCommand (StillEnds (F.state folder.old).files (Goal asked.now))
        (F.state folder.old) (F.state folder.new) (K.state out.old) (K.state out.new)
        (run_outcome result) }
{
    let (graph, weights) = read_network(alloc, folder, &asked.files)?;
    let network = Network::new(&graph, &weights);
    let answerer = Answerer {
        workers: &Workers::new(rt, 1, gate),
        alloc,
        network: &network,
        mode: SearchMode::Goal,
    };
    reply_once(&answerer, AnswerKind::Walks, asked.query.query(), out)
}

/// Sends the reply to the only query of a run.
fn reply_once<'a, R: Threads + Sync, G: Gate, K: Sink>(
    answerer: &Answerer<'_, R, G>,
    kind: AnswerKind,
    query: &Query,
    out: &mut K,
) -> Result<(), Stop<'a>>
    requires { IsAsked answerer.now.network.now.criteria query.now }
    ensures { Replies (QueryReplies answerer.now.mode kind query.now answerer.now.network.now)
        (K.state out.old) (K.state out.new) (run_outcome result) }
{
    let mut room = Room::with(answerer.alloc, 0)?;
    let reply = answerer.reply(EPOCH, kind, query, &mut room, out)?;
    end_of(reply)
}
