//! The command `lanes`.
ghost use Rattle.std.specs.Prelude.{◌≡◌, ◌≤◌, ◌++◌, [], IfErr, IfOk, OnOk, All, false, get_or, map};
ghost use Rattle.std.specs.List.{AllZip};
ghost use Rattle.route_io.specs.Sinks.{Sends};
ghost use Rattle.route_io.specs.Sources.{ReadsFiles};
ghost use Rattle.session_core.specs.Links.{is_starved};
ghost use Rattle.command_words.specs.Words.{names_of, scripts_of};
ghost use Rattle.command_words.specs.declared.commands.Command.TheVariants.{Waiting};
ghost use Rattle.command_words.specs.declared.commands.WaitingCommand.TheVariants.{Lanes};
ghost use Rattle.still_commands.specs.Outcome.{failed_file};
ghost use Rattle.still_commands.specs.Output.{RunsCommand};
ghost use Rattle.still_commands.specs.Stops.{outcome_of, run_outcome, script_name};
ghost use Rattle.route_top.specs.Lanes.{SaysScript, ScriptsStop, heading, lanes_reply};
ghost use Rattle.route_top.specs.Ends.{Ends};

use crate::script::read_script;
use answer_writer::{Piece, put_line};
use command_words::LanesWords;
use out_of_memory::OutOfMemory;
use route_io::sure::{SureSink, SureSource};
use route_io::{Folder, Link, Sink, SureLink, WriteFault, put_all};
use route_lanes::{LaneReport, run_lanes};
use session_core::{LinkPolicy, ServeContext, SessionEnd};
use std::alloc::Global;
use std::sync::Wait;
use std::thread::Threads;
use std::time::Clock;
use still_commands::{Script, Stop, read_network};
use work_claim::{Gate, Helpers, Workers};

/// The most bytes that are taken from a link. No script has as many.
pub(crate) const MAX_TAKEN: u64 = 1 << 40;

/// How a script is served: a line of another protocol is one like any other.
pub(crate) const SCRIPT_POLICY: LinkPolicy = LinkPolicy {
    bytes: MAX_TAKEN,
    guarded: false,
};

/// Serves the lanes of an operator and of sessions over the named files, and sends their replies lane by lane.
pub(crate) fn run<'a, R: Threads + Wait + Clock + Sync, G: Gate, F: Folder, K: Sink>(
    rt: &R,
    alloc: Global,
    asked: &LanesWords<'a>,
    folder: &mut F,
    out: &mut K,
    gate: &G,
) -> Result<(), Stop<'a>>
    requires { All F.admits (names_of (Waiting (Lanes asked.now))) }
    ensures { RunsCommand (Ends (F.state folder.old).files (Waiting (Lanes asked.now)))
        (F.state folder.old) (F.state folder.new) (K.state out.old) (K.state out.new)
        (run_outcome result) }
{
    let (graph, weights) = read_network(alloc, folder, &asked.files)?;
    let mut links = read_scripts(alloc, folder, asked)?;
    let helpers = Helpers::new();
    let workers = Workers::new(rt, asked.limits.workers.get(), gate).watched(&helpers);
    let budget = asked.limits.budget.get();
    let context = ServeContext {
        workers: &workers,
        alloc,
        graph: &graph,
        budget,
        policy: SCRIPT_POLICY,
    };
    prove!(asked.count.get() >= 1);
    let reports = run_lanes(&context, weights, asked.epoch, &mut links)?;
    memory_sufficed(&reports)?;
    put_lanes(out, 0, &links)?;
    Ok(())
}

/// Reads the scripts in order, the operator's first, each into a link of its own.
fn read_scripts<'a, F: Folder>(
    alloc: Global,
    folder: &mut F,
    asked: &LanesWords<'a>,
) -> Result<Vec<SureLink>, Stop<'a>>
    requires { All F.admits (scripts_of asked.now) }
    ensures read { IfOk result (λ links. AllZip (SaysScript (F.state folder.old).files)
        (scripts_of asked.now) (map (λ l. l.from) links.items)) }
    ensures unsent { IfOk result (λ links.
        All (λ l. l.to ≡ record { sent = []; wants = 0 }) links.items) }
    ensures stopped { IfErr result (λ stop. ScriptsStop (F.state folder.old).files
        (scripts_of asked.now) (outcome_of stop)) }
    ensures folder { ReadsFiles (F.state folder.old) (F.state folder.new)
        (failed_file (run_outcome result)) }
{
    let mut links = Vec::new(alloc);
    for number in 0..asked.count.get() + 1 {
        let bytes = read_script(alloc, folder, script_at(asked, number))?;
        if let Err(want) = links.push(link_of(alloc, bytes)) {
            return Err(Stop::OutOfMemory(want.into()));
        }
    }
    Ok(links)
}

/// The operator's script for 0, and then those of the sessions.
fn script_at<'a>(asked: &LanesWords<'a>, number: u32) -> Script<'a>
    requires { number ≤ asked.now.count }
    ensures { script_name result ≡ get_or (scripts_of asked.now) number [] }
{
    if number == 0 {
        return Script::Operator {
            name: asked.operator.text(),
        };
    }
    let stem = asked.stem.text();
    Script::Session { stem, number }
}

/// A link from which a script is read.
pub(crate) fn link_of(alloc: Global, bytes: Vec<u8>) -> SureLink
    ensures from { result.from ≡ bytes.items }
    ensures to { result.to ≡ record { sent = []; wants = 0 } }
{
    let from = SureSource::new(bytes);
    let to = SureSink::new(alloc);
    Link { from, to }
}

/// Refuses reports of which one says that memory ran out in its lane.
pub(crate) fn memory_sufficed(reports: &[LaneReport]) -> Result<(), OutOfMemory>
    ensures { OnOk result (All (λ r. is_starved r.end ≡ false) reports.now) }
{
    for report in reports {
        if let SessionEnd::OutOfMemory(want) = report.end() {
            return Err(want);
        }
    }
    Ok(())
}

/// Sends the replies of lanes, of which the first has this number: 0 is the operator's.
pub(crate) fn put_lanes<K: Sink>(
    out: &mut K,
    first: usize,
    links: &[SureLink],
) -> Result<(), WriteFault>
    requires first { first ≤ 1 }
    ensures { Sends (K.state out.old) (K.state out.new)
        (lanes_reply first (map (λ l. l.to.sent) links.now)) result }
{
    for place in 0..links.len() {
        put_lane(out, first + place, &links[place])?;
    }
    Ok(())
}

/// Sends the replies of one lane below its heading.
fn put_lane<K: Sink>(out: &mut K, number: usize, link: &SureLink) -> Result<(), WriteFault>
    ensures { Sends (K.state out.old) (K.state out.new)
        (heading number ++ link.now.to.sent) result }
{
    put_heading(out, number)?;
    put_all(out, link.to.sent())
}

/// Sends the line above a lane's replies.
fn put_heading<K: Sink>(out: &mut K, number: usize) -> Result<(), WriteFault>
    ensures { Sends (K.state out.old) (K.state out.new) (heading number) result }
{
    use Piece::{Number, Text};
    if number == 0 {
        return put_all(out, b"operator\n");
    }
    put_line(out, &[Text("lane"), Number(number as u64), Text("\n")])
}
