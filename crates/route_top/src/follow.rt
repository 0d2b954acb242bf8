//! The command `follow`.
ghost use Rattle.std.specs.Prelude.{◌≡◌, ◌≤◌, ◌+◌, ◌++◌, [], IfErr, IfOk, OnOk, All, codes, false, map};
ghost use Rattle.std.specs.List.{AllZip};
ghost use Rattle.route_io.specs.Sinks.{Sends};
ghost use Rattle.route_io.specs.Sources.{ReadsFiles};
ghost use Rattle.epoch_follow.specs.Takes.{feed_starved};
ghost use Rattle.answer_writer.specs.Replies.{and_number, end_line};
ghost use Rattle.command_words.specs.Ranges.{max_feeds};
ghost use Rattle.command_words.specs.Words.{feeds_of, names_of_follow, sessions_of};
ghost use Rattle.command_words.specs.declared.commands.FollowWords.TheVariants.{Take, Write};
ghost use Rattle.still_commands.specs.Outcome.{failed_file};
ghost use Rattle.still_commands.specs.Output.{RunsCommand};
ghost use Rattle.still_commands.specs.Stops.{outcome_of, run_outcome};
ghost use Rattle.route_top.specs.Follow.{FollowEnds, feed_line, feed_lines, numbered};
ghost use Rattle.route_top.specs.Lanes.{SaysScript, ScriptsStop, lanes_reply};

use crate::lanes::{SCRIPT_POLICY, link_of, memory_sufficed, put_lanes};
use crate::script::read_script;
use answer_writer::{Piece, put_line};
use command_words::{FollowWords, TakeWords, WriteWords};
use epoch_follow::FeedEnd;
use out_of_memory::OutOfMemory;
use route_io::sure::{SureSink, SureSource};
use route_io::{Folder, Link, Sink, SureLink, WriteFault};
use route_lanes::{FeedReport, FollowReport, run_follow, write_feed};
use session_core::ServeContext;
use std::alloc::Global;
use std::sync::Wait;
use std::thread::Threads;
use std::time::Clock;
use still_commands::{Script, Stop, read_network};
use work_claim::{Gate, Helpers, Workers};

/// Writes the feed of an operator's script, or takes feeds and serves sessions beside them, over the named files.
pub(crate) fn run<'a, R: Threads + Wait + Clock + Sync, G: Gate, F: Folder, K: Sink>(
    rt: &R,
    alloc: Global,
    asked: &FollowWords<'a>,
    folder: &mut F,
    out: &mut K,
    gate: &G,
) -> Result<(), Stop<'a>>
    requires { All F.admits (names_of_follow asked.now) }
    ensures { RunsCommand (FollowEnds (F.state folder.old).files asked.now)
        (F.state folder.old) (F.state folder.new) (K.state out.old) (K.state out.new)
        (run_outcome result) }
{
    match asked {
        FollowWords::Write(asked) => write_script(rt, alloc, asked, folder, out, gate),
        FollowWords::Take(asked) => take_feeds(rt, alloc, asked, folder, out, gate),
    }
}

/// Writes the feed of all that an operator's script publishes.
fn write_script<'a, R: Threads + Wait + Clock + Sync, G: Gate, F: Folder, K: Sink>(
    rt: &R,
    alloc: Global,
    asked: &WriteWords<'a>,
    folder: &mut F,
    out: &mut K,
    gate: &G,
) -> Result<(), Stop<'a>>
    requires { All F.admits (names_of_follow (Write asked.now)) }
    ensures { RunsCommand (FollowEnds (F.state folder.old).files (Write asked.now))
        (F.state folder.old) (F.state folder.new) (K.state out.old) (K.state out.new)
        (run_outcome result) }
{
    let (graph, weights) = read_network(alloc, folder, &asked.files)?;
    let name = asked.operator.text();
    let bytes = read_script(alloc, folder, Script::Operator { name })?;
    let mut link = link_of(alloc, bytes);
    let workers = Workers::new(rt, 1, gate);
    let context = ServeContext {
        workers: &workers,
        alloc,
        graph: &graph,
        budget: 0,
        policy: SCRIPT_POLICY,
    };
    write_feed(&context, weights, asked.epoch, &mut link, out)?;
    Ok(())
}

/// Takes the feeds and serves the sessions' scripts beside them, and sends how each feed ended and the replies lane by lane.
fn take_feeds<'a, R: Threads + Wait + Clock + Sync, G: Gate, F: Folder, K: Sink>(
    rt: &R,
    alloc: Global,
    asked: &TakeWords<'a>,
    folder: &mut F,
    out: &mut K,
    gate: &G,
) -> Result<(), Stop<'a>>
    requires { All F.admits (names_of_follow (Take asked.now)) }
    ensures { RunsCommand (FollowEnds (F.state folder.old).files (Take asked.now))
        (F.state folder.old) (F.state folder.new) (K.state out.old) (K.state out.new)
        (run_outcome result) }
{
    let (graph, weights) = read_network(alloc, folder, &asked.files)?;
    let (mut feeds, mut links) = read_all(alloc, folder, asked)?;
    let helpers = Helpers::new();
    let workers = Workers::new(rt, asked.limits.workers.get(), gate).watched(&helpers);
    let budget = asked.limits.budget.get();
    let context = ServeContext {
        workers: &workers,
        alloc,
        graph: &graph,
        budget,
        policy: SCRIPT_POLICY,
    };
    prove!(asked.count.get() >= 1);
    let report = run_follow(&context, weights, asked.epoch, &mut feeds, &mut links)?;
    feeds_sufficed(report.feeds())?;
    memory_sufficed(report.lanes())?;
    put_report(out, report.feeds(), &links)?;
    Ok(())
}

/// Reads the feeds, and then the sessions' scripts, each of these into a link of its own.
fn read_all<'a, F: Folder>(
    alloc: Global,
    folder: &mut F,
    asked: &TakeWords<'a>,
) -> Result<(Vec<SureSource>, Vec<SureLink>), Stop<'a>>
    requires feeds { All F.admits (feeds_of asked.now) }
    requires sessions { All F.admits (sessions_of asked.now) }
    ensures feeds { IfOk result (λ r. AllZip (SaysScript (F.state folder.old).files)
        (feeds_of asked.now) r.0.items) }
    ensures sessions { IfOk result (λ r. AllZip (SaysScript (F.state folder.old).files)
        (sessions_of asked.now) (map (λ l. l.from) r.1.items)) }
    ensures unsent { IfOk result (λ r.
        All (λ l. l.to ≡ record { sent = []; wants = 0 }) r.1.items) }
    ensures stopped { IfErr result (λ stop. ScriptsStop (F.state folder.old).files
        (feeds_of asked.now ++ sessions_of asked.now) (outcome_of stop)) }
    ensures folder { ReadsFiles (F.state folder.old) (F.state folder.new)
        (failed_file (run_outcome result)) }
{
    let feeds = read_numbered(alloc, folder, asked.feeds.text(), asked.links.get())?;
    let scripts = read_numbered(alloc, folder, asked.stem.text(), asked.count.get())?;
    let links = links_of(alloc, scripts)?;
    Ok((feeds, links))
}

/// Reads files in order, whose names are a stem and a number from 1 on, each whole.
fn read_numbered<'a, F: Folder>(
    alloc: Global,
    folder: &mut F,
    stem: &'a str,
    count: u32,
) -> Result<Vec<SureSource>, Stop<'a>>
    requires admitted { All F.admits (numbered stem.now count) }
    requires few { count ≤ max_feeds }
    ensures read { IfOk result (λ all. AllZip (SaysScript (F.state folder.old).files)
        (numbered stem.entry.now count) all.items) }
    ensures stopped { IfErr result (λ stop. ScriptsStop (F.state folder.old).files
        (numbered stem.entry.now count) (outcome_of stop)) }
    ensures folder { ReadsFiles (F.state folder.old) (F.state folder.new)
        (failed_file (run_outcome result)) }
{
    let mut all = Vec::new(alloc);
    for place in 0..count {
        let number = place + 1;
        let bytes = read_script(alloc, folder, Script::Session { stem, number })?;
        if let Err(want) = all.push(SureSource::new(bytes)) {
            return Err(Stop::OutOfMemory(want.into()));
        }
    }
    Ok(all)
}

/// A link for each script, from which it is read.
fn links_of(alloc: Global, scripts: Vec<SureSource>) -> Result<Vec<SureLink>, OutOfMemory>
    ensures from { IfOk result (λ links. map (λ l. l.from) links.items ≡ scripts.items) }
    ensures unsent { IfOk result (λ links.
        All (λ l. l.to ≡ record { sent = []; wants = 0 }) links.items) }
{
    let mut links = Vec::new(alloc);
    for from in scripts {
        let to = SureSink::new(alloc);
        links.push(Link { from, to })?;
    }
    Ok(links)
}

/// Refuses reports of which one says that memory ran out in its feed.
fn feeds_sufficed(reports: &[FeedReport]) -> Result<(), OutOfMemory>
    ensures { OnOk result (All (λ r. feed_starved r.end ≡ false) reports.now) }
{
    for report in reports {
        if let FeedEnd::OutOfMemory(want) = report.end {
            return Err(want);
        }
    }
    Ok(())
}

/// Sends how each feed ended, and the replies of all lanes.
fn put_report<K: Sink>(
    out: &mut K,
    reports: &[FeedReport],
    links: &[SureLink],
) -> Result<(), WriteFault>
    ensures { Sends (K.state out.old) (K.state out.new) (feed_lines 1 reports.now
        ++ lanes_reply 1 (map (λ l. l.to.sent) links.now)) result }
{
    put_feeds(out, reports)?;
    put_lanes(out, 1, links)
}

/// Sends how each feed ended.
fn put_feeds<K: Sink>(out: &mut K, reports: &[FeedReport]) -> Result<(), WriteFault>
    ensures { Sends (K.state out.old) (K.state out.new) (feed_lines 1 reports.now) result }
{
    for place in 0..reports.len() {
        put_feed_line(out, place as u64 + 1, &reports[place])?;
    }
    Ok(())
}

/// Sends how the feed of a number ended.
fn put_feed_line<K: Sink>(out: &mut K, number: u64, report: &FeedReport) -> Result<(), WriteFault>
    ensures { Sends (K.state out.old) (K.state out.new) (feed_line number report.now) result }
{
    match report.end {
        FeedEnd::Whole => put_end(out, number, " whole", report.number),
        FeedEnd::Cut => put_end(out, number, " cut", report.number),
        FeedEnd::Bad { line } => put_end_at(out, number, " bad", line, report.number),
        FeedEnd::Gap { line } => put_end_at(out, number, " gap", line, report.number),
        FeedEnd::Long => put_end(out, number, " long", report.number),
        FeedEnd::Read => put_end(out, number, " read", report.number),
        FeedEnd::OutOfMemory(_) => put_end(out, number, " memory", report.number),
    }
}

/// Sends that the feed of a number ended in this way, with the number of the last epoch then.
fn put_end<'x, K: Sink>(out: &mut K, number: u64, end: &'x str, last: u32) -> Result<(), WriteFault>
    ensures { Sends (K.state out.old) (K.state out.new)
        (codes "feed" ++ and_number number ++ end.now ++ and_number last ++ end_line) result }
{
    use Piece::{Number, Text};
    put_line(
        out,
        &[
            Text("feed"),
            Number(number),
            Text(end),
            Number(u64::from(last)),
            Text("\n"),
        ],
    )
}

/// Sends that the feed of a number ended in this way at a line, with the number of the last epoch then.
fn put_end_at<'x, K: Sink>(
    out: &mut K,
    number: u64,
    end: &'x str,
    line: u64,
    last: u32,
) -> Result<(), WriteFault>
    ensures { Sends (K.state out.old) (K.state out.new) (codes "feed" ++ and_number number
        ++ end.now ++ and_number line ++ and_number last ++ end_line) result }
{
    use Piece::{Number, Text};
    put_line(
        out,
        &[
            Text("feed"),
            Number(number),
            Text(end),
            Number(line),
            Number(u64::from(last)),
            Text("\n"),
        ],
    )
}
