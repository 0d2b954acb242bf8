ghost use Rattle.std.specs.Prelude.{◌≡◌};
ghost use Rattle.arc_graph.specs.Graph.{Match};

use super::links::{Feed, LongLine, in_pieces, link_of, text_of, whole};
use crate::tests::stores::six_arcs;
use arc_graph::{Graph, Weights};
use epoch_store::{Chronicle, EpochReader, Operator, Store, make};
use road_network::MAX_BUDGET;
use route_io::memory::{MemorySink, MemorySource};
use route_io::{Failed, Link, MemoryLink, Sink, Source};
use session_core::{LinkPolicy, ServeContext, Session, SessionEnd};
use std::alloc::Global;
use std::marker::Brand;
use std::process::Abort;
use std::sync::Wait;
use std::test::Fail;
use std::thread::Threads;
use std::time::Clock;
use work_claim::{OpenGate, Workers};

/// What becomes of the store before the link is served.
#[derive(Clone, Copy, PartialEq)]
enum Before {
    Stays,
    Closes,
}

/// What becomes of a link of a session over a store of six arcs and two criteria, whose first epoch has the number 0.
#[derive(Clone, Copy)]
struct Row<'r> {
    budget: u32,
    /// The most bytes that are taken.
    bytes: u64,
    /// Whether a line of HTTP ends the link.
    guarded: bool,
    /// The read before which an epoch is published, from 0.
    publishes_at: u32,
    /// What becomes of the store before.
    before: Before,
    replies: &'r str,
    end: SessionEnd,
}

/// Nothing is published, and the link ends as the input does, or by `bye`.
fn ended<'r>(replies: &'r str) -> Row<'r> {
    Row {
        budget: 10_000_000,
        bytes: u64::MAX,
        guarded: false,
        publishes_at: u32::MAX,
        before: Before::Stays,
        replies,
        end: SessionEnd::Ended,
    }
}

/// The reply to `q 1 4`.
const WALKS: &str = "r 0 1 4 2\np 2 8 2 1 3\np 4 2 2 2 4\n";

/// The budget of each query, what is sent, and what is replied.
type Ended = (u32, &'static str, &'static str);

const ENDED: &[Ended] = &[
    (4, "", ""),
    (
        5,
        "q 5 1\nq 1\n\nhello\n \tq  1\t4 \n",
        "x 0 5 1 node\nx line\nx line\nr 0 1 4 2\np 2 8 2 1 3\np 4 2 2 2 4\n",
    ),
    (
        5,
        "c 1 4\nc 4 1\nq 4 4\nc 1 0",
        "r 0 1 4 2\nv 2 8\nv 4 2\nr 0 4 1 0\nr 0 4 4 1\np 0 0 0\nx 0 1 0 node\n",
    ),
    (4, "c 1 4\n", "x 0 1 4 budget\n"),
    (
        5,
        "l 1 4 3 -\nl 1 4 3 3\nl 1 4 - -\nl 1 4 3\nl 5 1 - -\n",
        "l 0 1 4 3 - 1\np 2 8 2 1 3\nl 0 1 4 3 3 0\nl 0 1 4 - - 2\np 2 8 2 1 3\np 4 2 2 2 4\nx line\nx 0 5 1 node\n",
    ),
    (
        5,
        "l 1 4 2 -\nl 1 4 1 -\n",
        "l 0 1 4 2 - 1\np 2 8 2 1 3\nl 0 1 4 1 - 0\n",
    ),
    (
        4,
        "q 1 4\nl 1 4 3 -\n",
        "x 0 1 4 budget\nl 0 1 4 3 - 1\np 2 8 2 1 3\n",
    ),
    (3, "l 1 4 3 -\n", "x 0 1 4 budget\n"),
    (4, "e\nbye\ne\nhello", "k 0\n"),
    (4, "e\nbye", "k 0\n"),
    (4, "e\nw 0", "k 0\nk 0\n"),
    (4, "e\r\n\r\n\r\r\nbye\r\ne\r\n", "k 0\nx line\n"),
    (
        4,
        "e 1\nw\nw 4294967296\nw 0 0\nbye now\npublish\ns 1 1 1",
        "x line\nx line\nx line\nx line\nx line\nx line\nx line\n",
    ),
    (4, "\n \t\r\n\n", ""),
];

fn ended_rows() -> &'static [Ended] {
    ENDED
}

/// Each row, also where its bytes come and go one by one.
fn serve_ended<R: Threads + Wait + Clock + Sync + Abort>(
    rt: &R,
    alloc: Global,
    rows: &[Ended],
) -> Result<(), Fail> {
    for &(budget, text, replies) in rows {
        let row = Row {
            budget,
            ..ended(replies)
        };
        serve_row(rt, alloc, &whole(text), &row)?;
        serve_row(rt, alloc, &in_pieces(text, 1, 1), &row)?;
    }
    Ok(())
}

#[test]
fn each_line_has_its_reply(rt: HostRuntime) -> Result<(), Fail> {
    serve_ended(&rt, rt.alloc(), ended_rows())
}

const LONG: &[LongLine] = &[
    ("e", b' ', 1024, "\n"),
    ("e", b' ', 1023, "\r\n"),
    ("e", b' ', 1024, "\r\n"),
    ("e", b'e', 1025, "\n"),
    ("e", b' ', 1025, ""),
];

fn serve_long<R: Threads + Wait + Clock + Sync + Abort>(rt: &R, alloc: Global) -> Result<(), Fail> {
    let text = text_of(alloc, LONG)?;
    let feed = Feed {
        text: &text,
        ..whole("")
    };
    let row = ended("k 0\nk 0\nx line\nx line\nx line\n");
    serve_row(rt, alloc, &feed, &row)
}

#[test]
fn a_line_has_at_most_1024_bytes(rt: HostRuntime) -> Result<(), Fail> {
    serve_long(&rt, rt.alloc())
}

/// What is sent over a guarded link, and what is replied.
const GUARDED: &[(&str, &str)] = &[
    ("GET / HTTP/1.1\r\ne\n", ""),
    ("e\nGET /\tHTTP/1.0 \t\r\ne\n", "k 0\n"),
    ("e\nHTTP/\ne\n", "k 0\n"),
    ("e\nGET / HTTP/2", "k 0\n"),
    ("HTTP/1.1 200 OK\ne\n", "x line\nk 0\n"),
    ("GET / HTTP/1.1 x\r\r\ne\n", "x line\nk 0\n"),
    ("GET / HTTP/1.1 \r\r\ne\n", "x line\nk 0\n"),
    (
        "GET /HTTP/1.1\nHTTP\nhttp/1.1\nHTHTTP/\ne\n",
        "x line\nx line\nx line\nx line\nk 0\n",
    ),
    ("e\nbye\nGET / HTTP/1.1\n", "k 0\n"),
    ("\0\ne\n", ""),
    ("e\n\u{16}\u{3}\u{1}\0\u{4d}\ne\n", "k 0\n"),
    ("\u{16}\u{3}\u{1}\u{2}\n\u{1}\0 x\r\ne\n", "x line\n"),
    ("e\ne\0", "k 0\n"),
];

/// Each row, in pieces of several sizes; and without a guard each line has its reply.
fn serve_guarded<R: Threads + Wait + Clock + Sync + Abort>(
    rt: &R,
    alloc: Global,
) -> Result<(), Fail> {
    for &(text, replies) in GUARDED {
        let row = Row {
            guarded: true,
            ..ended(replies)
        };
        for piece in 1..9 {
            serve_row(rt, alloc, &in_pieces(text, piece, usize::MAX), &row)?;
        }
    }
    let row = ended("x line\nk 0\n");
    serve_row(rt, alloc, &whole("GET / HTTP/1.1\r\ne\n"), &row)
}

#[test]
fn a_line_of_another_protocol_ends_a_guarded_link(rt: HostRuntime) -> Result<(), Fail> {
    serve_guarded(&rt, rt.alloc())
}

/// Lines that are too long for a request, of which the second is one of HTTP.
const LONG_HTTP: &[LongLine] = &[
    ("HTTP/1.1 ", b'x', 1500, "\n"),
    ("GET /", b'x', 1500, " HTTP/1.1\r\n"),
    ("e", b' ', 1, "\n"),
];

/// The same, where the second holds a byte 0.
const LONG_ZERO: &[LongLine] = &[
    ("HTTP/1.1 ", b'x', 1500, "\n"),
    ("GET /\0", b'x', 1500, " HTTP/1.1 x\r\n"),
    ("e", b' ', 1, "\n"),
];

fn serve_long_foreign<R: Threads + Wait + Clock + Sync + Abort>(
    rt: &R,
    alloc: Global,
    lines: &[LongLine],
) -> Result<(), Fail> {
    let text = text_of(alloc, lines)?;
    let guarded = Row {
        guarded: true,
        ..ended("x line\n")
    };
    for piece in [1, 7, 1024, 1025, 1506, 1507, 1508, 1511, 5000] {
        let feed = Feed {
            text: &text,
            ..in_pieces("", piece, usize::MAX)
        };
        serve_row(rt, alloc, &feed, &guarded)?;
        serve_row(rt, alloc, &feed, &ended("x line\nx line\nk 0\n"))?;
    }
    Ok(())
}

#[test]
fn a_long_line_of_http_ends_a_guarded_link(rt: HostRuntime) -> Result<(), Fail> {
    serve_long_foreign(&rt, rt.alloc(), LONG_HTTP)
}

#[test]
fn a_byte_0_in_a_long_line_ends_a_guarded_link(rt: HostRuntime) -> Result<(), Fail> {
    serve_long_foreign(&rt, rt.alloc(), LONG_ZERO)
}

/// The most bytes that are taken of three lines, what is replied, and how the link ends.
const TAKEN: &[(u64, &str, SessionEnd)] = &[
    (7, "k 0\nk 0\nk 0\n", SessionEnd::Ended),
    (6, "k 0\nk 0\nk 0\n", SessionEnd::TooLong),
    (5, "k 0\nk 0\n", SessionEnd::TooLong),
    (4, "k 0\nk 0\n", SessionEnd::TooLong),
    (0, "", SessionEnd::TooLong),
];

fn serve_taken<R: Threads + Wait + Clock + Sync + Abort>(
    rt: &R,
    alloc: Global,
) -> Result<(), Fail> {
    for &(bytes, replies, end) in TAKEN {
        let row = Row {
            bytes,
            end,
            ..ended(replies)
        };
        serve_row(rt, alloc, &whole("e\ne\ne\n"), &row)?;
    }
    Ok(())
}

#[test]
fn so_many_bytes_are_taken(rt: HostRuntime) -> Result<(), Fail> {
    serve_taken(&rt, rt.alloc())
}

/// The read that fails, what is replied, and how the link ends.
const FAILED_READS: &[(u64, &str, SessionEnd)] = &[
    (0, "", SessionEnd::ReadFault),
    (1, "", SessionEnd::ReadFault),
    (2, "k 0\n", SessionEnd::ReadFault),
    (3, "k 0\n", SessionEnd::ReadFault),
    (4, "k 0\nk 0\n", SessionEnd::ReadFault),
    (5, "k 0\nk 0\n", SessionEnd::Ended),
];

fn serve_failed_reads<R: Threads + Wait + Clock + Sync + Abort>(
    rt: &R,
    alloc: Global,
) -> Result<(), Fail> {
    for &(read, replies, end) in FAILED_READS {
        let feed = Feed {
            fails: &[read],
            ..in_pieces("e\ne\n", 1, usize::MAX)
        };
        let row = Row {
            end,
            ..ended(replies)
        };
        serve_row(rt, alloc, &feed, &row)?;
    }
    Ok(())
}

/// Each line whose LF was taken before has its reply.
#[test]
fn a_failed_read_ends_a_link(rt: HostRuntime) -> Result<(), Fail> {
    serve_failed_reads(&rt, rt.alloc())
}

/// A sink that takes so many bytes has the front of the reply.
fn serve_room<R: Threads + Wait + Clock + Sync + Abort>(
    rt: &R,
    alloc: Global,
    room: usize,
) -> Result<(), Fail> {
    let feed = Feed {
        room: room as u64,
        ..whole("q 1 4\n")
    };
    let end = if room < 34 {
        SessionEnd::WriteFault
    } else {
        SessionEnd::Ended
    };
    let row = Row {
        end,
        ..ended(WALKS.get(..room).unwrap_or(WALKS))
    };
    serve_row(rt, alloc, &feed, &row)
}

fn serve_rooms<R: Threads + Wait + Clock + Sync + Abort>(
    rt: &R,
    alloc: Global,
) -> Result<(), Fail> {
    for room in 0..35 {
        serve_room(rt, alloc, room)?;
    }
    Ok(())
}

#[test]
fn a_failed_write_ends_a_link(rt: HostRuntime) -> Result<(), Fail> {
    serve_rooms(&rt, rt.alloc())
}

#[test]
fn a_closed_store_ends_a_wait(rt: HostRuntime) -> Result<(), Fail> {
    let row = Row {
        before: Before::Closes,
        ..ended("k 0\nx 0 closed\nr 0 1 2 1\nv 1 4\nk 0\n")
    };
    serve_row(&rt, rt.alloc(), &whole("w 0\nw 9\nc 1 2\ne\n"), &row)
}

/// An epoch that is published before a line comes is seen by it.
#[test]
fn each_line_has_a_look_of_its_own(rt: HostRuntime) -> Result<(), Fail> {
    let row = Row {
        publishes_at: 1,
        ..ended("k 0\nk 1\n")
    };
    serve_row(&rt, rt.alloc(), &in_pieces("e\ne\n", 2, usize::MAX), &row)
}

/// Serves the link over a store of its own.
fn serve_row<R: Threads + Wait + Clock + Sync + Abort>(
    rt: &R,
    alloc: Global,
    feed: &Feed<'_>,
    row: &Row<'_>,
) -> Result<(), Fail> {
    let link = link_of(alloc, feed)?;
    let (graph, weights) = six_arcs(alloc)?;
    serve_store::<Brand, R>(rt, alloc, Chronicle::default(), weights, &graph, link, row)
}

fn serve_store<S: Store, R: Threads + Wait + Clock + Sync + Abort>(
    rt: &R,
    alloc: Global,
    chronicle: Chronicle,
    weights: Weights,
    graph: &Graph,
    link: MemoryLink,
    row: &Row<'_>,
) -> Result<(), Fail>
    requires chronicle { chronicle ≡ S.origin.chronicle }
    requires first { S.origin.first ≡ 0 }
    requires weights { weights ≡ S.origin.base }
    requires matched { Match graph.now S.origin.base }
{
    let (operator, readers) = make::<S, R>(rt, alloc, chronicle, 0, weights, 1)?;
    if row.before == Before::Closes {
        let ended = operator.close(rt);
        let mut link = link;
        let outcome = serve(rt, alloc, graph, readers, &mut link, row);
        ended.end(rt);
        return outcome;
    }
    let publishing = Publishing {
        rt,
        operator,
        reads: row.publishes_at,
        from: link.from,
    };
    let mut link = Link {
        from: publishing,
        to: link.to,
    };
    let outcome = serve(rt, alloc, graph, readers, &mut link, row);
    let Link { from, to: _to } = link;
    from.into_operator().close(rt).end(rt);
    outcome
}

/// Serves the link, and compares what becomes of it.
fn serve<S: Store, R: Threads + Wait + Clock + Sync + Abort, F: Source>(
    rt: &R,
    alloc: Global,
    graph: &Graph,
    readers: Vec<EpochReader<S>>,
    link: &mut Link<F, MemorySink>,
    row: &Row<'_>,
) -> Result<(), Fail>
    requires matched { Match graph.now S.origin.base }
{
    let mut readers = readers;
    let reader = readers.pop().ok_or("a reader")?;
    let mut session = Session::new(alloc, reader)?;
    assert!(rt; row.budget <= MAX_BUDGET);
    let context = ServeContext {
        workers: &Workers::new(rt, 1, &OpenGate),
        alloc,
        graph,
        budget: row.budget,
        policy: LinkPolicy {
            bytes: row.bytes,
            guarded: row.guarded,
        },
    };
    let end = session.serve(&context, link);
    assert!(rt;
        link.to.sent() == row.replies.as_bytes(),
        "{:?} is replied",
        row.replies
    );
    assert!(rt; end == row.end, "the end behind {:?}", row.replies);
    Ok(())
}

/// A source that publishes an epoch before one of its reads.
struct Publishing<'p, S: Store, R> {
    rt: &'p R,
    operator: Operator<S>,
    /// How many reads come before.
    reads: u32,
    from: MemorySource,
}

impl<S: Store, R> Publishing<'_, S, R> {
    fn into_operator(self) -> Operator<S> {
        let Publishing {
            rt: _rt,
            operator,
            reads: _reads,
            from: _from,
        } = self;
        operator
    }
}

impl<S: Store, R: Wait> Source for Publishing<'_, S, R> {
    ghost use Rattle.route_io.specs.Forms.{memory_source_state};

    ghost state = { λ s. memory_source_state s.from };

    fn read(&mut self, buf: &mut [u8]) -> Result<usize, Failed> {
        if self.reads == 0 {
            let _number = self.operator.publish(self.rt).ok();
        }
        self.reads = self.reads.wrapping_sub(1);
        self.from.read(buf)
    }
}
