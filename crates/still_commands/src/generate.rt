//! The command `gen`.
ghost use Rattle.std.specs.Prelude.{◌≡◌, ◌≤◌, [], IfOk, OnOk};
ghost use Rattle.cost_vector.specs.Costs.{max_criteria};
ghost use Rattle.still_commands.specs.Gen.{GenEnds, SendsFile, SendsSummary};
ghost use Rattle.still_commands.specs.Stops.{Replies, run_outcome};
ghost use Rattle.still_commands.specs.Summary.{ComesTo};
ghost use Rattle.still_commands.specs.Texts.{gen_reply};

use crate::counting::Counter;
use crate::plan::{plan_network, plan_pairs};
use crate::reply::{kept, send};
use crate::stop::Stop;
use crate::summary::{Summary, put_summary};
use arc_graph::Network;
use command_words::GenWords;
use gen_laws::{
    networks_are_small, pair_files_are_read, pairs_have_nodes, weight_files_agree,
    weight_files_are_read,
};
use graph_gen::{GenPlan, gen_file};
use out_of_memory::OutOfMemory;
use route_io::Sink;
use route_io::sure::SureSink;
use std::alloc::Global;
use std::thread::Threads;
use work_claim::{Gate, Helpers, Workers};

/// Sends the file that is asked for, or where none is, what all files of the plan come to. It is made in memory first.
pub(crate) fn run<'a, R: Threads + Sync, G: Gate, K: Sink>(
    rt: &R,
    alloc: Global,
    asked: &GenWords,
    out: &mut K,
    gate: &G,
) -> Result<(), Stop<'a>>
    ensures { Replies (GenEnds asked.now)
        (K.state out.old) (K.state out.new) (run_outcome result) }
{
    match asked.file {
        Some(number) => send_file(alloc, &asked.plan, number.get(), out),
        None => send_summary(rt, alloc, asked, out, gate),
    }
}

/// Sends a file of a plan.
fn send_file<'a, K: Sink>(
    alloc: Global,
    plan: &GenPlan,
    number: u32,
    out: &mut K,
) -> Result<(), Stop<'a>>
    requires { number ≤ max_criteria }
    ensures { Replies (SendsFile plan.now number)
        (K.state out.old) (K.state out.new) (run_outcome result) }
{
    let file = gen_file(alloc, plan, number)?;
    send(out, &file)
}

/// Sends what all files of a plan come to.
fn send_summary<'a, R: Threads + Sync, G: Gate, K: Sink>(
    rt: &R,
    alloc: Global,
    asked: &GenWords,
    out: &mut K,
    gate: &G,
) -> Result<(), Stop<'a>>
    ensures { Replies (SendsSummary asked.now)
        (K.state out.old) (K.state out.new) (run_outcome result) }
{
    let counts = sum_up(rt, alloc, asked, gate)?;
    let mut text = SureSink::new(alloc);
    put_text(&counts, &mut text)?;
    send(out, text.sent())
}

/// Writes the line of a summary.
fn put_text(counts: &Summary, text: &mut SureSink) -> Result<(), OutOfMemory>
    requires { text.old.sent ≡ [] }
    ensures { OnOk result (text.new.sent ≡ gen_reply counts.now) }
{
    kept(put_summary(text, counts))
}

/// Reads all files of a plan, and answers their queries.
fn sum_up<R: Threads + Sync, G: Gate>(
    rt: &R,
    alloc: Global,
    asked: &GenWords,
    gate: &G,
) -> Result<Summary, OutOfMemory>
    ensures { IfOk result (ComesTo asked.now) }
{
    asked.plan.numbers_are_in_range();
    weight_files_are_read();
    weight_files_agree();
    pair_files_are_read();
    networks_are_small();
    pairs_have_nodes();
    let (graph, weights) = plan_network(alloc, &asked.plan)?;
    let pairs = plan_pairs(alloc, &asked.plan)?;
    let network = Network::new(&graph, &weights);
    let helpers = Helpers::new();
    let workers = Workers::new(rt, asked.limits.workers.get(), gate).watched(&helpers);
    let counter = Counter {
        workers: &workers,
        alloc,
        network: &network,
    };
    counter.count_pairs(&asked.limits, &pairs)
}
