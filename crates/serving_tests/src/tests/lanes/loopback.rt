//! A server on the loopback, and peers that connect to it.
ghost use Rattle.std.specs.Prelude.{◌≤◌, length};
ghost use Rattle.arc_graph.specs.Graph.{Match};
ghost use Rattle.road_network.specs.Limits.{max_budget};

use crate::tests::stores::six_arcs;
use arc_graph::Weights;
use link_doors::{HostDoor, HostTown, Town};
use out_of_memory::OutOfMemory;
use route_lanes::{Served, serve_lanes};
use session_core::{LinkPolicy, ServeContext};
use std::alloc::Global;
use std::fs::Files;
use std::io::{Read, Write};
use std::net::{Net, TcpListener, TcpStream};
use std::sync::Wait;
use std::test::Fail;
use std::thread::Threads;
use std::time::{Clock, Duration};
use std::{io, thread};
use work_claim::{Gate, OpenGate, Workers};

/// The addresses of an operator and of sessions.
type Addresses = (&'static str, &'static str);

/// Where one is in use, the next two are tried.
const ADDRESSES: [Addresses; 3] = [
    ("127.0.0.1:47401", "127.0.0.1:47402"),
    ("127.0.0.1:47411", "127.0.0.1:47412"),
    ("127.0.0.1:47421", "127.0.0.1:47422"),
];

/// How many seconds a peer waits for a reply.
const PATIENCE: u64 = 20;

/// A session is refused an operator's line, and then has its answer to the query from 1 to 4 over the six arcs.
const ANSWER: &[u8] = b"x line\nr 1 1 4 2\nv 2 8\nv 4 2\n";

/// Doors that listen, of one link each, for an operator and two lanes of sessions, and their addresses.
fn listen<R: Net<Listener = TcpListener, Stream = TcpStream> + Files>(
    rt: &R,
    alloc: Global,
) -> Option<(Vec<HostDoor>, Addresses)> {
    for addresses in ADDRESSES {
        let mut town = HostTown::new(alloc, rt);
        if let Ok(doors) = town.listen(addresses.1, addresses.0, 2, 1) {
            return Some((doors, addresses));
        }
    }
    None
}

/// Sends these lines to an address, and tells whether exactly this is replied, each part of it in good time.
fn is_replied<R: Net<Listener = TcpListener, Stream = TcpStream> + Files>(
    rt: &R,
    address: &str,
    lines: &[u8],
    reply: &[u8],
) -> io::Result<bool> {
    let mut stream = TcpStream::connect(rt, address)?;
    stream.set_read_timeout(Some(Duration::from_secs(PATIENCE)))?;
    stream.write_all(lines)?;
    let mut got = [0u8; 32];
    let (part, rest) = got.split_at_mut(reply.len().min(32));
    stream.read_exact(part)?;
    Ok(*part == *reply && stream.read(rest)? == 0)
}

/// One session is silent until the others have gone. The operator is refused a session's line and publishes, and then the
/// other session asks, whatever became of those before: so each door has its link.
fn visit<R: Net<Listener = TcpListener, Stream = TcpStream> + Files>(
    rt: &R,
    addresses: Addresses,
) -> io::Result<bool> {
    let silent = TcpStream::connect(rt, addresses.1);
    let operator = is_replied(rt, addresses.0, b"e\npublish\nbye\n", b"x line\nk 1\n");
    let session = is_replied(rt, addresses.1, b"publish\nc 1 4\nbye\n", ANSWER);
    Ok(silent.is_ok() && operator? && session?)
}

/// Serves the doors while peers visit their addresses, and tells what became of the doors, and whether the peers had their
/// replies. Where no thread can be started the peers come first, and go when they have waited long enough.
fn serve_visits<
    R: Net<Listener = TcpListener, Stream = TcpStream> + Files + Threads + Wait + Clock + Sync,
    G: Gate,
>(
    rt: &R,
    context: &ServeContext<'_, R, G>,
    weights: Weights,
    doors: &mut [HostDoor],
    addresses: Addresses,
) -> (Result<Served, OutOfMemory>, io::Result<bool>)
    requires weights { Match context.now.graph.now weights }
    requires budget { context.now.budget ≤ max_budget }
    requires some_session { 2 ≤ length doors.old }
    requires at_most_16_sessions { length doors.old ≤ 17 }
{
    thread::join(
        rt,
        move ||
            requires weights { Match context.now.graph.now weights }
            requires budget { context.now.budget ≤ max_budget }
            requires some_session { 2 ≤ length doors.now }
            requires at_most_16_sessions { length doors.now ≤ 17 }
        { serve_lanes(context, weights, 0, doors) },
        move || visit(rt, addresses),
    )
}

#[test]
fn links_over_tcp_are_served(rt: HostRuntime) -> Result<(), Fail> {
    let (graph, weights) = six_arcs(rt.alloc())?;
    let Some((mut doors, addresses)) = listen(&rt, rt.alloc()) else {
        panic!(rt; "no pair of the addresses can be listened at");
    };
    assert!(rt; 2 <= doors.len() && doors.len() <= 17);
    let context = ServeContext {
        workers: &Workers::new(&rt, 1, &OpenGate),
        alloc: rt.alloc(),
        graph: &graph,
        budget: 100,
        policy: LinkPolicy {
            bytes: u64::MAX,
            guarded: false,
        },
    };
    let (served, replied) = serve_visits(&rt, &context, weights, &mut doors, addresses);
    let wanted = Served {
        failed: 0,
        want: None,
    };
    assert!(rt; replied?, "the peers have their replies");
    assert!(rt; served? == wanted, "no door fails");
    Ok(())
}
