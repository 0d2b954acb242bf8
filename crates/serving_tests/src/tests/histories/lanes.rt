use super::drawing::{Asked, History, State, draw};
use super::replay::Replay;
use super::replies::{Epoch, network, put_reply, sent};
use road_network::MAX_BUDGET;
use route_io::memory::{MemorySink, MemorySource};
use route_io::{Failed, Link, Source};
use route_lanes::{LaneReport, run_lanes};
use session_core::{LinkPolicy, ServeContext, SessionEnd};
use std::alloc::{AllocError, Global};
use std::process::Abort;
use std::str::from_utf8;
use std::sync::Wait;
use std::test::Fail;
use std::thread::{Threads, yield_now};
use std::time::Clock;
use work_claim::{OpenGate, Workers};

/// How many histories are drawn.
const HISTORIES: u64 = 100;

/// Runs the history of each number.
fn run_all<R: Threads + Wait + Clock + Sync + Abort>(rt: &R, alloc: Global) -> Result<(), Fail> {
    for name in 0..HISTORIES {
        run(rt, alloc, &draw(alloc, name)?)?;
    }
    Ok(())
}

#[test]
fn replies_are_those_of_the_epochs_that_they_name(rt: HostRuntime) -> Result<(), Fail> {
    run_all(&rt, rt.alloc())
}

/// A source that lets other threads go on before each read.
#[derive(Drop)]
struct Slow {
    from: MemorySource,
}

impl Source for Slow {
    ghost use Rattle.route_io.specs.Forms.{memory_source_state};

    ghost state = { λ s. memory_source_state s.from };

    fn read(&mut self, buf: &mut [u8]) -> Result<usize, Failed> {
        for _ in 0..20 {
            yield_now();
        }
        self.from.read(buf)
    }
}

type SlowLink = Link<Slow, MemorySink>;

/// A link from which this text comes, a few bytes a read.
fn link_of(alloc: Global, text: &str) -> Result<SlowLink, AllocError> {
    let bytes = Vec::from_slice(alloc, text.as_bytes())?;
    Ok(Link {
        from: Slow {
            from: MemorySource::new(bytes, Vec::new(alloc)).with_piece(8),
        },
        to: MemorySink::new(alloc, u64::MAX, Vec::new(alloc)),
    })
}

/// The links of the operator and of both sessions.
fn links_of(
    alloc: Global,
    history: &History,
    replay: &Replay,
) -> Result<Vec<SlowLink>, AllocError> {
    let mut links = Vec::new(alloc);
    links.push(link_of(alloc, &replay.sent)?)?;
    for lines in &history.asked {
        let mut text = String::new(alloc);
        for asked in lines {
            text.push_str(&sent(alloc, asked)?)?;
        }
        links.push(link_of(alloc, &text)?)?;
    }
    Ok(links)
}

/// Serves all lanes, and compares what is replied.
fn run<R: Threads + Wait + Clock + Sync + Abort>(
    rt: &R,
    alloc: Global,
    history: &History,
) -> Result<(), Fail> {
    let replay = Replay::of(alloc, history)?;
    let mut links = links_of(alloc, history, &replay)?;
    let reports = serve(rt, alloc, history, &replay, &mut links)?;
    let (operator, sessions) = reports.split_first().ok_or("the operator's lane")?;
    let (link, links) = links.split_first().ok_or("the operator's link")?;
    assert!(rt;
        link.to.sent() == replay.replies.as_bytes(),
        "{}: the operator's replies",
        history.name
    );
    compare_sessions(
        rt,
        alloc,
        history,
        &replay,
        operator.last(),
        sessions,
        links,
    )
}

/// What is replied to the sessions, each of which sees this epoch as the last one.
fn compare_sessions(
    rt: &impl Abort,
    alloc: Global,
    history: &History,
    replay: &Replay,
    last: u32,
    reports: &[LaneReport],
    links: &[SlowLink],
) -> Result<(), Fail> {
    for ((report, link), asked) in reports.iter().zip(links).zip(&history.asked) {
        assert!(rt; report.last() == last, "{}: the last epoch", history.name);
        compare(rt, alloc, history, replay, report, link, asked)?;
    }
    Ok(())
}

/// Serves all lanes.
fn serve<R: Threads + Wait + Clock + Sync + Abort>(
    rt: &R,
    alloc: Global,
    history: &History,
    replay: &Replay,
    links: &mut [SlowLink],
) -> Result<Vec<LaneReport>, Fail> {
    let states = replay.epochs.first().ok_or("the first epoch")?;
    let (graph, weights) = network(rt, alloc, history, states)?;
    assert!(rt; links.len() == 3 && history.budget <= MAX_BUDGET);
    assert!(rt; 1 <= history.workers && history.workers <= 64);
    let context = ServeContext {
        workers: &Workers::new(rt, history.workers, &OpenGate),
        alloc,
        graph: &graph,
        budget: history.budget,
        policy: LinkPolicy {
            bytes: u64::MAX,
            guarded: false,
        },
    };
    Ok(run_lanes(&context, weights, history.first, links)?)
}

/// Each reply is that of the epoch whose number it names, and these never fall.
fn compare(
    rt: &impl Abort,
    alloc: Global,
    history: &History,
    replay: &Replay,
    report: &LaneReport,
    link: &SlowLink,
    asked: &[Asked],
) -> Result<(), Fail> {
    let (name, text) = (history.name, from_utf8(link.to.sent())?);
    let numbers = numbers_of(alloc, text)?;
    assert!(rt; report.end() == SessionEnd::Ended, "{name}: the end");
    assert!(rt; numbers.is_sorted(), "{name}: numbers fall");
    assert!(rt; numbers.len() == asked.len(), "{name}: numbers");
    let wanted = wanted_lines(alloc, history, replay, &numbers, asked)?;
    assert_lines(rt, name, text, &wanted);
    Ok(())
}

/// The numbers that replies name, each in its first line; the lines of costs and of walks name none.
fn numbers_of(alloc: Global, text: &str) -> Result<Vec<u32>, Fail> {
    let mut numbers = Vec::new(alloc);
    for line in text.lines() {
        if !line.starts_with('v') && !line.starts_with('p') {
            let word = line.split(' ').nth(1).ok_or("a number")?;
            numbers.push(word.parse()?)?;
        }
    }
    Ok(numbers)
}

/// The lines that are wanted, where the replies name these numbers.
fn wanted_lines(
    alloc: Global,
    history: &History,
    replay: &Replay,
    numbers: &[u32],
    asked: &[Asked],
) -> Result<Vec<String>, Fail> {
    let mut wanted = Vec::new(alloc);
    for (asked, &number) in asked.iter().zip(numbers) {
        let states = states_of(history, replay, number).ok_or("an epoch that never was")?;
        let epoch = Epoch { number, states };
        put_reply(alloc, history, &epoch, asked, &mut wanted)?;
    }
    Ok(wanted)
}

/// The states of all arcs in the epoch of a number, if there is one.
fn states_of<'r>(history: &History, replay: &'r Replay, number: u32) -> Option<&'r [State]> {
    let place = number.checked_sub(history.first)?;
    let states = replay.epochs.get(place as usize)?;
    Some(states.as_slice())
}

/// A text has these lines. Of a line of a walk, only its front is wanted.
fn assert_lines(rt: &impl Abort, name: u64, text: &str, wanted: &[String]) {
    assert!(rt; text.lines().count() == wanted.len(), "{name}: lines");
    for (line, wanted) in text.lines().zip(wanted) {
        assert!(rt; is_wanted(line, wanted), "{name}: {line} and {wanted}");
    }
}

fn is_wanted(line: &str, wanted: &str) -> bool {
    if wanted.starts_with('p') {
        line.starts_with(wanted)
    } else {
        line == wanted
    }
}
