ghost use Rattle.std.specs.Prelude.{◌≡◌};
ghost use Rattle.arc_graph.specs.Graph.{Match};

use super::links::{Feed, LongLine, in_pieces, link_of, text_of, whole};
use crate::tests::stores::six_arcs;
use arc_graph::{Change, Weights};
use cost_vector::Weight;
use epoch_store::{ChangeSet, Chronicle, Operator, Store, make};
use route_io::MemoryLink;
use session_core::{LinkPolicy, ServeContext, SessionEnd, serve_operator};
use std::alloc::{AllocError, Global};
use std::marker::Brand;
use std::process::Abort;
use std::sync::Wait;
use std::test::Fail;
use work_claim::{OpenGate, Workers};

/// A change by the number of the epoch that it came with and that of its arc; `None` shuts the arc.
type Published = (u32, u32, Option<(u32, u32)>);

/// What becomes of a link of the operator of a store of six arcs and two criteria.
#[derive(Clone, Copy)]
struct Row<'r> {
    /// The number of the first epoch.
    first: u32,
    /// The most bytes that are taken.
    bytes: u64,
    /// Whether a line of HTTP ends the link.
    guarded: bool,
    replies: &'r str,
    end: SessionEnd,
    /// The number of the last epoch.
    last: u32,
    published: &'r [Published],
}

/// A link that ends as the input does, or by `bye`, and the first epoch has the number 0.
fn ended<'r>(replies: &'r str, last: u32, published: &'r [Published]) -> Row<'r> {
    Row {
        first: 0,
        bytes: u64::MAX,
        guarded: false,
        replies,
        end: SessionEnd::Ended,
        last,
        published,
    }
}

/// What is sent, what is replied, the number of the last epoch, and what is published.
type Ended = (&'static str, &'static str, u32, &'static [Published]);

const ENDED: &[Ended] = &[
    ("", "", 0, &[]),
    (
        "s 2 5 5\npublish\n",
        "ok\nk 1\n",
        1,
        &[(1, 2, Some((5, 5)))],
    ),
    ("publish\npublish\n", "k 1\nk 2\n", 2, &[]),
    (
        "s 1 1 1\nx 3\npublish",
        "ok\nok\nk 1\n",
        1,
        &[(1, 1, Some((1, 1))), (1, 3, None)],
    ),
    (
        "x 2\ns 2 1 0\npublish\n",
        "ok\nok\nk 1\n",
        1,
        &[(1, 2, None), (1, 2, Some((1, 0)))],
    ),
    (
        "x 2\npublish\ns 2 1 0\npublish\n",
        "ok\nk 1\nok\nk 2\n",
        2,
        &[(1, 2, None), (2, 2, Some((1, 0)))],
    ),
    ("x 6\ndrop\npublish\n", "ok\nok\nk 1\n", 1, &[]),
    ("publish\nbye\npublish\nhello", "k 1\n", 1, &[]),
    ("bye\r\ns 1 1 1\n", "", 0, &[]),
    (
        "\n \t\r\n\r\ns\t2  5\t5 \r\n\n\tpublish\r\n\r",
        "ok\nk 1\n",
        1,
        &[(1, 2, Some((5, 5)))],
    ),
    (
        "s 7 1 1\ns 0 1 1\ns 7 0 0\ns 1 0 0\ns 1 1\ns 1 1 1 1\nx 7\nx 0\nx 2 1\nx\npublish\n",
        "x arc\nx arc\nx arc\nx zero\nx line\nx line\nx arc\nx arc\nx line\nx line\nk 1\n",
        1,
        &[],
    ),
    (
        "hello\npublish 1\nq 1 2\ne\nw 0\nbye now\ndrop it\nbye",
        "x line\nx line\nx line\nx line\nx line\nx line\nx line\n",
        0,
        &[],
    ),
    (
        "s 1 4294967295 0\ns 1 4294967296 0\nx 3\n",
        "ok\nx line\nok\n",
        0,
        &[],
    ),
];

fn ended_rows() -> &'static [Ended] {
    ENDED
}

fn serve_ended<R: Wait + Abort>(rt: &R, alloc: Global, rows: &[Ended]) -> Result<(), Fail> {
    for &(text, replies, last, published) in rows {
        serve_row(rt, alloc, &whole(text), &ended(replies, last, published))?;
    }
    Ok(())
}

#[test]
fn each_line_has_its_reply(rt: HostRuntime) -> Result<(), Fail> {
    serve_ended(&rt, rt.alloc(), ended_rows())
}

const LONG: &[LongLine] = &[
    ("publish", b' ', 1024, "\n"),
    ("publish", b' ', 1024, "\r\n"),
    ("publish", b' ', 1023, "\r\n"),
    ("", b' ', 1025, "\n"),
    ("", b' ', 1024, "\n"),
    ("publish", b' ', 5000, "\n"),
    ("publish", b' ', 1025, ""),
];

fn serve_long<R: Wait + Abort>(rt: &R, alloc: Global) -> Result<(), Fail> {
    let text = text_of(alloc, LONG)?;
    let feed = Feed {
        text: &text,
        ..whole("")
    };
    let replies = "k 1\nx line\nk 2\nx line\nx line\nx line\n";
    serve_row(rt, alloc, &feed, &ended(replies, 2, &[]))
}

#[test]
fn a_line_has_at_most_1024_bytes(rt: HostRuntime) -> Result<(), Fail> {
    serve_long(&rt, rt.alloc())
}

/// A line as often as so many changes may be pending, and what stands behind.
fn repeated(alloc: Global, line: &str, behind: &str) -> Result<String, AllocError> {
    let mut text = String::new(alloc);
    for _ in 0..65536 {
        text.push_str(line)?;
    }
    text.push_str(behind)?;
    Ok(text)
}

/// So many changes of arc 1 by the first epoch, and then it is shut.
fn many_changes(alloc: Global) -> Result<Vec<Published>, AllocError> {
    let mut published = Vec::new(alloc);
    for _ in 0..65536 {
        published.push((1, 1, Some((1, 1))))?;
    }
    published.push((2, 1, None))?;
    Ok(published)
}

fn serve_many<R: Wait + Abort>(rt: &R, alloc: Global) -> Result<(), Fail> {
    let behind = "s 1 1 1\nx 1\ns 1 0 0\npublish\nx 1\npublish\n";
    let text = repeated(alloc, "s 1 1 1\n", behind)?;
    let replies = repeated(alloc, "ok\n", "x full\nx full\nx zero\nk 1\nok\nk 2\n")?;
    let published = many_changes(alloc)?;
    serve_row(rt, alloc, &whole(&text), &ended(&replies, 2, &published))
}

#[test]
fn so_many_changes_may_be_pending(rt: HostRuntime) -> Result<(), Fail> {
    serve_many(&rt, rt.alloc())
}

#[test]
fn small_pieces_are_read_and_written(rt: HostRuntime) -> Result<(), Fail> {
    let feed = in_pieces("s 2 5 5\r\npublish\nx 9\n", 1, 2);
    let row = ended("ok\nk 1\nx arc\n", 1, &[(1, 2, Some((5, 5)))]);
    serve_row(&rt, rt.alloc(), &feed, &row)
}

/// The read behind the first line fails, whose change isn't published.
#[test]
fn a_failed_read_ends_a_link(rt: HostRuntime) -> Result<(), Fail> {
    let feed = Feed {
        fails: &[1],
        ..in_pieces("s 2 5 5\npublish\n", 8, usize::MAX)
    };
    let row = Row {
        end: SessionEnd::ReadFault,
        ..ended("ok\n", 0, &[])
    };
    serve_row(&rt, rt.alloc(), &feed, &row)
}

/// What was published before stays, and what the cut reply is to doesn't.
#[test]
fn a_failed_write_ends_a_link(rt: HostRuntime) -> Result<(), Fail> {
    let feed = Feed {
        room: 9,
        ..whole("x 1\npublish\nx 2\npublish\n")
    };
    let row = Row {
        end: SessionEnd::WriteFault,
        ..ended("ok\nk 1\nok", 1, &[(1, 1, None)])
    };
    serve_row(&rt, rt.alloc(), &feed, &row)
}

/// What a web page can have sent.
const PAGE: &str =
    "POST / HTTP/1.1\r\nHost: 127.0.0.1:7002\r\nOrigin: null\r\n\r\nx 3\npublish\nbye\n";

fn serve_page<R: Wait + Abort>(rt: &R, alloc: Global) -> Result<(), Fail> {
    let guarded = Row {
        guarded: true,
        ..ended("", 0, &[])
    };
    serve_row(rt, alloc, &whole(PAGE), &guarded)?;
    serve_row(rt, alloc, &in_pieces(PAGE, 1, 1), &guarded)?;
    let replies = "x line\nx line\nx line\nok\nk 1\n";
    serve_row(rt, alloc, &whole(PAGE), &ended(replies, 1, &[(1, 3, None)]))
}

#[test]
fn a_page_has_no_line_obeyed_over_a_guarded_link(rt: HostRuntime) -> Result<(), Fail> {
    serve_page(&rt, rt.alloc())
}

/// What is pending when a line of HTTP comes is dropped, and what was published stays.
fn serve_pending<R: Wait + Abort>(rt: &R, alloc: Global) -> Result<(), Fail> {
    let guarded = Row {
        guarded: true,
        ..ended("ok\nk 1\nok\n", 1, &[(1, 3, None)])
    };
    let text = "x 3\npublish\nx 1\nGET / HTTP/1.1\r\npublish\n";
    serve_row(rt, alloc, &whole(text), &guarded)
}

#[test]
fn a_line_of_http_drops_what_is_pending(rt: HostRuntime) -> Result<(), Fail> {
    serve_pending(&rt, rt.alloc())
}

/// The most bytes that are taken of two lines, what is replied, the last epoch, and how the link ends.
const TAKEN: &[(u64, &str, u32, SessionEnd)] = &[
    (17, "k 1\nok\n", 1, SessionEnd::Ended),
    (16, "k 1\nok\n", 1, SessionEnd::TooLong),
    (9, "k 1\n", 1, SessionEnd::TooLong),
    (8, "k 1\n", 1, SessionEnd::TooLong),
    (7, "", 0, SessionEnd::TooLong),
    (0, "", 0, SessionEnd::TooLong),
];

fn serve_taken<R: Wait + Abort>(rt: &R, alloc: Global) -> Result<(), Fail> {
    for &(bytes, replies, last, end) in TAKEN {
        let row = Row {
            bytes,
            end,
            ..ended(replies, last, &[])
        };
        serve_row(rt, alloc, &whole("publish\ns 1 1 1\n"), &row)?;
    }
    Ok(())
}

#[test]
fn so_many_bytes_are_taken(rt: HostRuntime) -> Result<(), Fail> {
    serve_taken(&rt, rt.alloc())
}

#[test]
fn no_epoch_comes_after_the_greatest_number(rt: HostRuntime) -> Result<(), Fail> {
    let row = Row {
        first: 4294967294,
        ..ended(
            "ok\nk 4294967295\nok\nx last\nok\nx last\n",
            4294967295,
            &[(4294967295, 1, None)],
        )
    };
    let text = "x 1\npublish\nx 2\npublish\ndrop\npublish\n";
    serve_row(&rt, rt.alloc(), &whole(text), &row)
}

/// Serves the link in a store of its own.
fn serve_row<R: Wait + Abort>(
    rt: &R,
    alloc: Global,
    feed: &Feed<'_>,
    row: &Row<'_>,
) -> Result<(), Fail> {
    let link = link_of(alloc, feed)?;
    let (graph, weights) = six_arcs(alloc)?;
    let context = ServeContext {
        workers: &Workers::new(rt, 1, &OpenGate),
        alloc,
        graph: &graph,
        budget: 0,
        policy: LinkPolicy {
            bytes: row.bytes,
            guarded: row.guarded,
        },
    };
    operate::<Brand, R>(&context, Chronicle::default(), weights, link, row)
}

fn operate<S: Store, R: Wait + Abort>(
    context: &ServeContext<'_, R, OpenGate>,
    chronicle: Chronicle,
    weights: Weights,
    link: MemoryLink,
    row: &Row<'_>,
) -> Result<(), Fail>
    requires chronicle { chronicle ≡ S.origin.chronicle }
    requires first { row.now.first ≡ S.origin.first }
    requires weights { weights ≡ S.origin.base }
    requires matched { Match context.now.graph.now S.origin.base }
{
    let rt = context.workers.rt();
    let (mut operator, _readers) = make::<S, R>(
        rt,
        context.alloc,
        chronicle,
        row.first,
        weights,
        1,
    )?;
    let mut link = link;
    let end = serve_operator(context, &mut operator, &mut link);
    assert!(rt;
        link.to.sent() == row.replies.as_bytes(),
        "{:?} is replied",
        row.replies
    );
    assert!(rt; end == row.end, "the end behind {:?}", row.replies);
    let compared = compare(rt, &mut operator, row);
    operator.close(rt).end(rt);
    compared
}

/// What the row says was published, and nothing is pending.
fn compare<S: Store, R: Wait + Abort>(
    rt: &R,
    operator: &mut Operator<S>,
    row: &Row<'_>,
) -> Result<(), Fail> {
    assert!(rt;
        operator.number() == row.last,
        "the number behind {:?}",
        row.replies
    );
    let same = are(operator.first(), operator.sets(), row.published);
    assert!(rt; same, "changes behind {:?}", row.replies);
    if operator.publish(rt).is_ok() {
        let set = operator.sets().last().ok_or("a set was published")?;
        assert!(rt;
            set.changes().is_empty(),
            "pending behind {:?}",
            row.replies
        );
    }
    Ok(())
}

/// Whether the sets, published from this number on, are of these changes.
fn are(first: u32, sets: &[ChangeSet], published: &[Published]) -> bool {
    let mut number = first;
    let mut rest = published;
    for set in sets {
        number = number.saturating_add(1);
        for change in set.changes() {
            let Some((&wanted, behind)) = rest.split_first() else {
                return false;
            };
            if !is(number, change, wanted) {
                return false;
            }
            rest = behind;
        }
    }
    rest.is_empty()
}

/// Whether it is this change.
fn is(number: u32, change: &Change, wanted: Published) -> bool {
    let (epoch, arc, weight) = wanted;
    let weight = match weight {
        Some((one, two)) => Some(Weight::of_numbers(&[one, two])),
        None => None,
    };
    number == epoch && change.arc.0 == arc && change.weight == weight
}
