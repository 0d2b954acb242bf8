use super::doors::TurnDoor;
use super::turns::{TurnSink, TurnSource};
use crate::tests::stores::six_arcs;
use route_io::Link;
use route_io::memory::{MemorySink, MemorySource};
use route_lanes::{Served, run_lanes, serve_lanes};
use session_core::{LinkPolicy, ServeContext, SessionEnd};
use std::alloc::{AllocError, Global};
use std::process::Abort;
use std::sync::Wait;
use std::sync::atomic::{AtomicBool, Ordering};
use std::test::Fail;
use std::thread::Threads;
use std::time::Clock;
use work_claim::{OpenGate, Workers};

type TurnLink<'t> = Link<TurnSource<'t>, TurnSink<'t>>;

/// Whether each lane has sent something, and whether a wait reached its limit.
#[derive(Drop)]
struct Flags {
    operator: AtomicBool,
    first: AtomicBool,
    second: AtomicBool,
    gave_up: AtomicBool,
}

fn unset() -> Flags {
    Flags {
        operator: AtomicBool::new(false),
        first: AtomicBool::new(false),
        second: AtomicBool::new(false),
        gave_up: AtomicBool::new(false),
    }
}

/// What comes over a link, so many bytes a read, and how many reads come before the one that waits.
struct Turn<'b> {
    text: &'b [u8],
    piece: usize,
    before: u32,
}

/// A link whose own flag is the first, and which waits for the other.
fn link<'t>(
    alloc: Global,
    turn: &Turn<'_>,
    sent: &'t AtomicBool,
    other_sent: &'t AtomicBool,
    gave_up: &'t AtomicBool,
) -> Result<TurnLink<'t>, AllocError> {
    let bytes = Vec::from_slice(alloc, turn.text)?;
    Ok(Link {
        from: TurnSource {
            from: MemorySource::new(bytes, Vec::new(alloc)).with_piece(turn.piece.max(1)),
            before: turn.before,
            other_sent,
            gave_up,
        },
        to: TurnSink {
            to: MemorySink::new(alloc, u64::MAX, Vec::new(alloc)),
            sent,
        },
    })
}

const PUBLISHES: Turn = Turn {
    text: b"publish\n",
    piece: 8,
    before: 0,
};

const ASKS_AGAIN: Turn = Turn {
    text: b"e\ne\n",
    piece: 2,
    before: 1,
};

const ASKS: Turn = Turn {
    text: b"e\n",
    piece: 2,
    before: 0,
};

const SENDS_NOTHING: Turn = Turn {
    text: b"",
    piece: 1,
    before: u32::MAX,
};

/// The operator publishes once the session was replied to, and the session asks again once the operator was.
fn with_operator(alloc: Global, flags: &Flags) -> Result<Vec<TurnLink<'_>>, AllocError> {
    let (operator, first, gave_up) = (&flags.operator, &flags.first, &flags.gave_up);
    let mut links = Vec::new(alloc);
    links.push(link(alloc, &PUBLISHES, operator, first, gave_up)?)?;
    links.push(link(alloc, &ASKS_AGAIN, first, operator, gave_up)?)?;
    Ok(links)
}

/// The operator sends nothing. The first session asks again once the other was replied to, and the other asks once the
/// first was.
fn of_sessions(alloc: Global, flags: &Flags) -> Result<Vec<TurnLink<'_>>, AllocError> {
    let (first, second, gave_up) = (&flags.first, &flags.second, &flags.gave_up);
    let mut links = Vec::new(alloc);
    links.push(link(alloc, &SENDS_NOTHING, &flags.operator, first, gave_up)?)?;
    links.push(link(alloc, &ASKS_AGAIN, first, second, gave_up)?)?;
    links.push(link(alloc, &ASKS, second, first, gave_up)?)?;
    Ok(links)
}

/// Each link was sent its replies, without a wait that reached its limit.
fn assert_sent(rt: &impl Abort, flags: &Flags, links: &[TurnLink<'_>], replies: &[&str]) {
    assert!(rt;
        !flags.gave_up.load(Ordering::SeqCst),
        "a wait reached its limit"
    );
    assert!(rt; links.len() == replies.len(), "so many links");
    for (link, wanted) in links.iter().zip(replies) {
        assert!(rt;
            link.to.to.sent() == wanted.as_bytes(),
            "{wanted:?} is replied"
        );
    }
}

#[test]
fn lanes_are_served_at_once(rt: HostRuntime) -> Result<(), Fail> {
    let flags = unset();
    let mut links = with_operator(rt.alloc(), &flags)?;
    serve(&rt, rt.alloc(), &mut links, 1)?;
    assert_sent(&rt, &flags, &links, &["k 1\n", "k 0\nk 1\n"]);
    Ok(())
}

#[test]
fn sessions_are_served_at_once(rt: HostRuntime) -> Result<(), Fail> {
    let flags = unset();
    let mut links = of_sessions(rt.alloc(), &flags)?;
    serve(&rt, rt.alloc(), &mut links, 0)?;
    assert_sent(&rt, &flags, &links, &["", "k 0\nk 0\n", "k 0\n"]);
    Ok(())
}

/// Serves the links, each of which ends in order, and sees the epoch of this number as the last one.
fn serve<R: Threads + Wait + Clock + Sync + Abort>(
    rt: &R,
    alloc: Global,
    links: &mut [TurnLink<'_>],
    last: u32,
) -> Result<(), Fail> {
    let (graph, weights) = six_arcs(alloc)?;
    assert!(rt; 2 <= links.len() && links.len() <= 17);
    let context = ServeContext {
        workers: &Workers::new(rt, 1, &OpenGate),
        alloc,
        graph: &graph,
        budget: 100,
        policy: LinkPolicy {
            bytes: u64::MAX,
            guarded: false,
        },
    };
    let reports = run_lanes(&context, weights, 0, links)?;
    for report in &reports {
        assert!(rt; report.end() == SessionEnd::Ended, "a link ends in order");
        assert!(rt; report.last() == last, "the last epoch");
    }
    Ok(())
}

/// The operator and a session wait for each other, each over the one link of its door.
fn doors_with_operator(alloc: Global, flags: &Flags) -> Result<Vec<TurnDoor<'_>>, AllocError> {
    let (operator, first, gave_up) = (&flags.operator, &flags.first, &flags.gave_up);
    let mut doors = Vec::new(alloc);
    let publishes = link(alloc, &PUBLISHES, operator, first, gave_up)?;
    doors.push(TurnDoor::of(publishes))?;
    let asks = link(alloc, &ASKS_AGAIN, first, operator, gave_up)?;
    doors.push(TurnDoor::of(asks))?;
    Ok(doors)
}

#[test]
fn links_of_doors_are_served_at_once(rt: HostRuntime) -> Result<(), Fail> {
    let flags = unset();
    let mut doors = doors_with_operator(rt.alloc(), &flags)?;
    serve_doors(&rt, rt.alloc(), &mut doors)?;
    assert!(rt;
        !flags.gave_up.load(Ordering::SeqCst),
        "a wait reached its limit"
    );
    for (door, wanted) in doors.iter().zip(&["k 1\n", "k 0\nk 1\n"]) {
        assert!(rt;
            door.sent() == Some(wanted.as_bytes()),
            "{wanted:?} is replied"
        );
    }
    Ok(())
}

/// Serves the doors, none of which fails.
fn serve_doors<R: Threads + Wait + Clock + Sync + Abort>(
    rt: &R,
    alloc: Global,
    doors: &mut [TurnDoor<'_>],
) -> Result<(), Fail> {
    let (graph, weights) = six_arcs(alloc)?;
    assert!(rt; 2 <= doors.len() && doors.len() <= 17);
    let context = ServeContext {
        workers: &Workers::new(rt, 1, &OpenGate),
        alloc,
        graph: &graph,
        budget: 100,
        policy: LinkPolicy {
            bytes: u64::MAX,
            guarded: false,
        },
    };
    let served = serve_lanes(&context, weights, 0, doors)?;
    let wanted = Served {
        failed: 0,
        want: None,
    };
    assert!(rt; served == wanted, "no door fails");
    Ok(())
}
