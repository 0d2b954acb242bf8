//! The command `serve`.
ghost use Rattle.std.specs.Prelude.{◌≡◌, ◌≤◌, All, false, length, map};
ghost use Rattle.arc_graph.specs.Graph.{Match, network};
ghost use Rattle.route_io.specs.Sinks.{Sends};
ghost use Rattle.command_words.specs.Words.{names_of};
ghost use Rattle.command_words.specs.declared.commands.Command.TheVariants.{Waiting};
ghost use Rattle.command_words.specs.declared.commands.WaitingCommand.TheVariants.{Serve};
ghost use Rattle.still_commands.specs.Output.{RunsCommand};
ghost use Rattle.still_commands.specs.Stops.{run_outcome};
ghost use Rattle.route_top.specs.Ends.{Ends};
ghost use Rattle.route_top.specs.Serve.{AsksTown, ServesDoors, ServesTown, ready_reply, serve_policy, served_outcome};

use crate::lanes::MAX_TAKEN;
use answer_writer::{Piece, put_line};
use arc_graph::Weights;
use command_words::ServeWords;
use link_doors::{Door, Town};
use out_of_memory::OutOfMemory;
use route_io::{Folder, Sink, WriteFault};
use route_lanes::{Served, serve_lanes};
use session_core::{LinkPolicy, ServeContext};
use std::alloc::Global;
use std::sync::Wait;
use std::thread::Threads;
use std::time::Clock;
use still_commands::{Stop, read_network};
use work_claim::{Gate, Helpers, Workers};

/// How each link is served: a line of another protocol ends it, so that no web page can have a line obeyed.
const SERVE_POLICY: LinkPolicy = LinkPolicy {
    bytes: MAX_TAKEN,
    guarded: true,
};

/// Has the town listen over the network of the named files, and serves what its doors give until they give no more.
pub(crate) fn run<'a, R: Threads + Wait + Clock + Sync, G: Gate, F: Folder, K: Sink, T: Town>(
    rt: &R,
    alloc: Global,
    asked: &ServeWords<'a>,
    folder: &mut F,
    out: &mut K,
    town: &mut T,
    gate: &G,
) -> Result<(), Stop<'a>>
    requires admitted { All F.admits (names_of (Waiting (Serve asked.now))) }
    requires addresses { T.admits asked.now.listen asked.now.operator
        asked.now.lanes asked.now.links }
    requires unasked { (T.state town.old).asked ≡ false }
    ensures runs { RunsCommand (Ends (F.state folder.old).files (Waiting (Serve asked.now)))
        (F.state folder.old) (F.state folder.new) (K.state out.old) (K.state out.new)
        (run_outcome result) }
    ensures town { AsksTown (F.state folder.old).files asked.now
        (T.state town.old) (T.state town.new) (K.state out.old) (K.state out.new)
        (run_outcome result) }
{
    let (graph, weights) = read_network(alloc, folder, &asked.files)?;
    let helpers = Helpers::new();
    let workers = Workers::new(rt, asked.limits.workers.get(), gate).watched(&helpers);
    let budget = asked.limits.budget.get();
    let context = ServeContext {
        workers: &workers,
        alloc,
        graph: &graph,
        budget,
        policy: SERVE_POLICY,
    };
    serve_town(&context, weights, asked, out, town)
}

/// Has the town listen, serves its doors, and gives them back.
fn serve_town<'a, R: Threads + Wait + Clock + Sync, G: Gate, K: Sink, T: Town>(
    context: &ServeContext<'_, R, G>,
    weights: Weights,
    asked: &ServeWords<'a>,
    out: &mut K,
    town: &mut T,
) -> Result<(), Stop<'a>>
    requires addresses { T.admits asked.now.listen asked.now.operator
        asked.now.lanes asked.now.links }
    requires unasked { (T.state town.old).asked ≡ false }
    requires weights { Match context.now.graph.now weights }
    requires budget { context.now.budget ≡ asked.now.limits.budget }
    requires policy { context.now.policy ≡ serve_policy }
    ensures { ServesTown asked.now (network context.now.graph.now weights)
        (T.state town.old) (T.state town.new) (K.state out.old) (K.state out.new)
        (run_outcome result) }
{
    let lanes = asked.lanes.get();
    let links = asked.links.get();
    let mut doors = town.listen(asked.listen.text(), asked.operator.text(), lanes, links)?;
    let served = serve_doors(context, weights, asked, out, &mut doors);
    town.take_back(doors);
    served
}

/// Says that links may come in, and serves what these doors give until they give no more.
fn serve_doors<'a, R: Threads + Wait + Clock + Sync, G: Gate, K: Sink, D: Door + Send>(
    context: &ServeContext<'_, R, G>,
    weights: Weights,
    asked: &ServeWords<'a>,
    out: &mut K,
    doors: &mut [D],
) -> Result<(), Stop<'a>>
    requires weights { Match context.now.graph.now weights }
    requires budget { context.now.budget ≡ asked.now.limits.budget }
    requires policy { context.now.policy ≡ serve_policy }
    requires some_session { 2 ≤ length doors.old }
    requires at_most_16_sessions { length doors.old ≤ 17 }
    ensures { ServesDoors asked.now (network context.now.graph.now weights)
        (map D.state doors.old) (map D.state doors.new)
        (K.state out.old) (K.state out.new) (run_outcome result) }
{
    prove!(asked.limits.budget.get() >= 1);
    let lanes = asked.lanes.get();
    put_ready(out, lanes)?;
    end_of(serve_lanes(context, weights, asked.epoch, doors))
}

/// How a run ends by what became of its doors.
fn end_of<'a>(served: Result<Served, OutOfMemory>) -> Result<(), Stop<'a>>
    ensures { run_outcome result ≡ served_outcome served }
{
    let served = served?;
    if let Some(want) = served.want {
        return Err(Stop::OutOfMemory(want));
    }
    if 0 < served.failed {
        return Err(Stop::Town);
    }
    Ok(())
}

/// Says that links may come in, for so many lanes of sessions.
fn put_ready<K: Sink>(out: &mut K, lanes: u32) -> Result<(), WriteFault>
    ensures { Sends (K.state out.old) (K.state out.new) (ready_reply lanes) result }
{
    use Piece::{Number, Text};
    put_line(out, &[Text("ready"), Number(u64::from(lanes)), Text("\n")])
}
