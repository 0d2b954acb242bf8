//! Feeds that a follower takes: rows, a feed that is cut at each of its bytes, drawn links, and the longest message.
ghost use Rattle.std.specs.Prelude.{◌≡◌, []};
ghost use Rattle.arc_graph.specs.Graph.{Match};

use crate::tests::stores::six_arcs;
use arc_graph::{Graph, Weights};
use epoch_follow::{FeedEnd, put_feed, take_feed};
use epoch_store::{Chronicle, Operator, Store, make};
use line_text::LineLimits;
use route_io::memory::{MemorySink, MemorySource};
use std::alloc::{AllocError, Global};
use std::marker::Brand;
use std::process::Abort;
use std::sync::Wait;
use std::test::Fail;

/// The first line of each feed of a store of six arcs and two criteria.
const HEAD: &str = "feed 6 2 0\n";

/// Two epochs.
const TWO: &str = "feed 6 2 0\ng 1 1\ns 2 5 5\nend 1\ng 2 1\nx 1\nend 2\n";

/// The first of them.
const ONE: &str = "feed 6 2 0\ng 1 1\ns 2 5 5\nend 1\n";

/// The most bytes of a feed.
const TOTAL: u64 = 1 << 24;

/// A feed that comes, how it ends, and the number of the last epoch then.
#[derive(Clone, Copy)]
struct Feed<'f> {
    text: &'f str,
    total: u64,
    /// The most bytes of a read.
    piece: usize,
    /// The numbers of the reads that fail.
    fails: &'f [u64],
    end: FeedEnd,
    last: u32,
}

/// A feed that comes at once.
fn whole(text: &str, end: FeedEnd, last: u32) -> Feed<'_> {
    Feed {
        text,
        total: TOTAL,
        piece: usize::MAX,
        fails: &[],
        end,
        last,
    }
}

/// A follower of six arcs takes these feeds, one after another, and then its own feed is this text.
fn follow<R: Wait + Abort>(
    rt: &R,
    alloc: Global,
    feeds: &[Feed<'_>],
    wanted: &str,
) -> Result<(), Fail> {
    let (graph, weights) = six_arcs(alloc)?;
    follow_in::<Brand, R>(
        rt,
        alloc,
        Chronicle::default(),
        &graph,
        weights,
        feeds,
        wanted.as_bytes(),
    )
}

fn follow_in<S: Store, R: Wait + Abort>(
    rt: &R,
    alloc: Global,
    chronicle: Chronicle,
    graph: &Graph,
    weights: Weights,
    feeds: &[Feed<'_>],
    wanted: &[u8],
) -> Result<(), Fail>
    requires chronicle { chronicle ≡ S.origin.chronicle }
    requires first { 0 ≡ S.origin.first }
    requires weights { weights ≡ S.origin.base }
    requires matched { Match graph.now S.origin.base }
{
    let (mut operator, _readers) = make::<S, R>(rt, alloc, chronicle, 0, weights, 1)?;
    let taken = take_all(rt, alloc, &mut operator, graph, feeds);
    let mut sink = MemorySink::new(alloc, u64::MAX, Vec::new(alloc));
    let sent = put_feed(&mut sink, &operator, graph);
    operator.close(rt).end(rt);
    taken?;
    assert!(rt;
        sent.is_ok() && sink.sent() == wanted,
        "the feed of what was taken"
    );
    Ok(())
}

/// Each feed ends as is wanted.
fn take_all<S: Store, R: Wait + Abort>(
    rt: &R,
    alloc: Global,
    operator: &mut Operator<S>,
    graph: &Graph,
    feeds: &[Feed<'_>],
) -> Result<(), Fail>
    requires matched { Match graph.now S.origin.base }
    requires idle { operator.old.pending ≡ [] }
{
    for feed in feeds {
        let bytes = Vec::from_slice(alloc, feed.text.as_bytes())?;
        let fails = Vec::from_slice(alloc, feed.fails)?;
        let mut source = MemorySource::new(bytes, fails).with_piece(feed.piece.max(1));
        let limits = LineLimits {
            line: 1024,
            total: feed.total,
        };
        let end = take_feed(rt, alloc, operator, graph, &mut source, limits);
        assert!(rt;
            end == feed.end && operator.number() == feed.last,
            "{end:?} and epoch {} behind {:?}",
            operator.number(),
            feed.text
        );
    }
    Ok(())
}

/// What one feed leads to.
type Ended = (&'static str, FeedEnd, u32);

/// By the first line, and what comes behind.
const HEADS: &[Ended] = &[
    (TWO, FeedEnd::Whole, 2),
    (ONE, FeedEnd::Whole, 1),
    (HEAD, FeedEnd::Whole, 0),
    ("", FeedEnd::Cut, 0),
    ("feed 6 2 0", FeedEnd::Whole, 0),
    ("\tfeed  06 2 00 \r\n", FeedEnd::Whole, 0),
    ("\n", FeedEnd::Bad { line: 1 }, 0),
    ("feed 7 2 0\n", FeedEnd::Bad { line: 1 }, 0),
    ("feed 6 3 0\n", FeedEnd::Bad { line: 1 }, 0),
    ("feed 6 2 1\n", FeedEnd::Bad { line: 1 }, 0),
    ("feed 6 2 0\nfeed 6 2 0\n", FeedEnd::Bad { line: 2 }, 0),
];

fn heads() -> &'static [Ended] {
    HEADS
}

/// By messages. Bad comes before Gap.
const MESSAGES: &[Ended] = &[
    ("feed 6 2 0\ng 2 0\nend 2\n", FeedEnd::Gap { line: 2 }, 0),
    ("feed 6 2 0\ng 2 65537\n", FeedEnd::Bad { line: 2 }, 0),
    ("feed 6 2 0\ng 0 0\nend 0\n", FeedEnd::Bad { line: 2 }, 0),
    ("feed 6 2 0\ng 4294967296 0\n", FeedEnd::Bad { line: 2 }, 0),
    ("feed 6 2 0\ng 1 0\nend 1\n", FeedEnd::Whole, 1),
    ("feed 6 2 0\ng 1 0\nend 1", FeedEnd::Whole, 1),
];

fn messages() -> &'static [Ended] {
    MESSAGES
}

/// By changes: as many as the message says, each as an operator may ask for it.
const CHANGES: &[Ended] = &[
    ("feed 6 2 0\ng 1 0\nx 1\n", FeedEnd::Bad { line: 3 }, 0),
    ("feed 6 2 0\ng 1 1\nend 1\n", FeedEnd::Bad { line: 3 }, 0),
    ("feed 6 2 0\ng 1 0\nend 2\n", FeedEnd::Bad { line: 3 }, 0),
    ("feed 6 2 0\ng 1 1\ns 7 1 1\n", FeedEnd::Bad { line: 3 }, 0),
    ("feed 6 2 0\ng 1 1\ns 1 0 0\n", FeedEnd::Bad { line: 3 }, 0),
    ("feed 6 2 0\ng 1 1\ns 1 1\n", FeedEnd::Bad { line: 3 }, 0),
    (
        "feed 6 2 0\ng 1 1\ns 1 4294967296 1\n",
        FeedEnd::Bad { line: 3 },
        0,
    ),
    ("feed 6 2 0\ng 1 1\nx 0\n", FeedEnd::Bad { line: 3 }, 0),
    ("feed 6 2 0\ng 1 0\ng 2 0\n", FeedEnd::Bad { line: 3 }, 0),
];

fn changes() -> &'static [Ended] {
    CHANGES
}

/// A repeat is checked like any message, and changes nothing.
const REPEATS: &[Ended] = &[
    (
        "feed 6 2 0\ng 1 0\nend 1\ng 1 1\nx 1\nend 1\n",
        FeedEnd::Whole,
        1,
    ),
    (
        "feed 6 2 0\ng 1 0\nend 1\ng 1 1\nx 7\nend 1\n",
        FeedEnd::Bad { line: 5 },
        1,
    ),
    (
        "feed 6 2 0\ng 1 0\nend 1\ng 3 0\nend 3\n",
        FeedEnd::Gap { line: 4 },
        1,
    ),
];

fn repeats() -> &'static [Ended] {
    REPEATS
}

/// The feed of so many epochs without changes, or of the two.
fn wanted_behind(text: &str, last: u32) -> &'static str {
    match (text == TWO || text == ONE, last) {
        (true, 1) => ONE,
        (true, _) => TWO,
        (false, 0) => HEAD,
        (false, _) => "feed 6 2 0\ng 1 0\nend 1\n",
    }
}

fn take_rows<R: Wait + Abort>(rt: &R, alloc: Global, rows: &[Ended]) -> Result<(), Fail> {
    for &(text, end, last) in rows {
        follow(
            rt,
            alloc,
            &[whole(text, end, last)],
            wanted_behind(text, last),
        )?;
    }
    Ok(())
}

#[test]
fn a_feed_ends_by_its_first_fault(rt: HostRuntime) -> Result<(), Fail> {
    for rows in [heads(), messages(), changes(), repeats()] {
        take_rows(&rt, rt.alloc(), rows)?;
    }
    Ok(())
}

/// The line feed is byte 11.
#[test]
fn so_many_bytes_are_taken(rt: HostRuntime) -> Result<(), Fail> {
    let long = Feed {
        total: 10,
        ..whole(HEAD, FeedEnd::Long, 0)
    };
    let whole = Feed {
        total: 11,
        ..whole(HEAD, FeedEnd::Whole, 0)
    };
    follow(&rt, rt.alloc(), &[long, whole], HEAD)
}

#[test]
fn a_source_may_fail(rt: HostRuntime) -> Result<(), Fail> {
    let at_once = Feed {
        fails: &[0],
        ..whole(TWO, FeedEnd::Read, 0)
    };
    let behind_one = Feed {
        fails: &[1],
        piece: ONE.len(),
        ..whole(TWO, FeedEnd::Read, 1)
    };
    follow(&rt, rt.alloc(), &[at_once, behind_one], ONE)
}

/// How a feed ends that is cut behind so many bytes, and the number of the last epoch then, where it was this before. No line has
/// a front that is a line that is due.
fn fold(text: &str, cut: usize, before: u32) -> (FeedEnd, u32) {
    let (mut start, mut line, mut last) = (0usize, 0u64, before);
    let (mut end, mut epoch) = (FeedEnd::Cut, 0);
    for whole in text.lines() {
        let stop = start.saturating_add(whole.len());
        line = line.saturating_add(1);
        if cut <= start && cut < stop {
            return (end, last);
        }
        if cut < stop {
            return (FeedEnd::Bad { line }, last);
        }
        start = stop.saturating_add(1);
        if let Some(&digit) = whole.as_bytes().get(2) {
            epoch = if whole.starts_with('g') {
                u32::from(digit).saturating_sub(48)
            } else {
                epoch
            };
        }
        if whole.starts_with('g') && last.saturating_add(1) < epoch {
            return (FeedEnd::Gap { line }, last);
        }
        let between = whole.starts_with('f') || whole.starts_with('e');
        end = if between {
            FeedEnd::Whole
        } else {
            FeedEnd::Cut
        };
        last = if whole.starts_with('e') {
            last.max(epoch)
        } else {
            last
        };
    }
    (end, last)
}

/// The feed, cut behind each of its bytes: alone, and followed by the whole.
fn cut_everywhere<R: Wait + Abort>(rt: &R, alloc: Global) -> Result<(), Fail> {
    for cut in 0..TWO.len() {
        let Some(front) = TWO.get(..cut) else {
            continue;
        };
        let (end, last) = fold(TWO, cut, 0);
        let part = whole(front, end, last);
        let wanted = match last {
            0 => HEAD,
            1 => ONE,
            _ => TWO,
        };
        follow(rt, alloc, &[part], wanted)?;
        follow(rt, alloc, &[part, whole(TWO, FeedEnd::Whole, 2)], TWO)?;
    }
    Ok(())
}

#[test]
fn a_cut_feed_leaves_whole_epochs(rt: HostRuntime) -> Result<(), Fail> {
    cut_everywhere(&rt, rt.alloc())
}

/// Draws numbers.
#[derive(Drop)]
struct Draws {
    state: u64,
}

impl Draws {
    /// A number below this bound.
    fn below(&mut self, bound: u32) -> u32 {
        self.state = self
            .state
            .wrapping_mul(6_364_136_223_846_793_005)
            .wrapping_add(1_442_695_040_888_963_407);
        ((self.state >> 33) as u32).checked_rem(bound).unwrap_or(0)
    }

    /// The message of an epoch with up to three changes.
    fn message(&mut self, alloc: Global, epoch: u32) -> Result<String, AllocError> {
        let count = self.below(4);
        let mut text = format!(in alloc; "g {epoch} {count}\n")?;
        for _ in 0..count {
            let (arc, one, two) = (self.below(6), self.below(9), self.below(9));
            let arc = arc.saturating_add(1);
            let line = if one == 0 {
                format!(in alloc; "x {arc}\n")?
            } else {
                format!(in alloc; "s {arc} {one} {two}\n")?
            };
            text.push_str(&line)?;
        }
        text.push_str(&format!(in alloc; "end {epoch}\n")?)?;
        Ok(text)
    }
}

/// The feed of the messages from one number to another.
fn feed_of(alloc: Global, messages: &[String], from: u32, to: u32) -> Result<String, AllocError> {
    let mut text = String::from_str(alloc, HEAD)?;
    for (place, message) in messages.iter().enumerate() {
        if from as usize <= place && place < to as usize {
            text.push_str(message)?;
        }
    }
    Ok(text)
}

/// A leader of up to eight epochs, whose feeds come over up to nine links: each is of some of the epochs, and may be cut.
fn draw_and_follow<R: Wait + Abort>(rt: &R, alloc: Global, name: u64) -> Result<(), Fail> {
    let mut draws = Draws {
        state: name.wrapping_mul(0x9E37_79B9_7F4A_7C15),
    };
    let epochs = draws.below(9);
    let mut messages = Vec::new(alloc);
    for epoch in 0..epochs {
        messages.push(draws.message(alloc, epoch.saturating_add(1))?)?;
    }
    let mut texts = Vec::new(alloc);
    for _ in 0..draws.below(10) {
        texts.push(draw_link(alloc, &mut draws, &messages, epochs)?)?;
    }
    let mut feeds = Vec::new(alloc);
    let mut last = 0;
    for (text, cut) in &texts {
        let (end, number) = fold(text, *cut, last);
        last = number;
        feeds.push(whole(text.get(..*cut).unwrap_or(""), end, last))?;
    }
    let wanted = feed_of(alloc, &messages, 0, last)?;
    follow(rt, alloc, &feeds, &wanted)
}

/// The feed of some of the epochs, and where it is cut.
fn draw_link(
    alloc: Global,
    draws: &mut Draws,
    messages: &[String],
    epochs: u32,
) -> Result<(String, usize), AllocError> {
    let from = draws.below(3u32.min(epochs.saturating_add(1)));
    let to = from.saturating_add(draws.below(epochs.saturating_add(1)));
    let text = feed_of(alloc, messages, from, to.min(epochs))?;
    let cut = match draws.below(3) {
        0 => text.len(),
        _ => draws.below(text.len().min(u32::MAX as usize) as u32) as usize,
    };
    Ok((text, cut))
}

/// How many leaders are drawn.
const LEADERS: u64 = 100;

fn follow_drawn<R: Wait + Abort>(rt: &R, alloc: Global) -> Result<(), Fail> {
    for name in 0..LEADERS {
        draw_and_follow(rt, alloc, name)?;
    }
    Ok(())
}

#[test]
fn links_may_be_cut_and_repeat(rt: HostRuntime) -> Result<(), Fail> {
    follow_drawn(&rt, rt.alloc())
}

/// A message that says so many changes, and has so many.
fn long_feed(alloc: Global, said: u32, count: u32) -> Result<String, AllocError> {
    let mut text = format!(in alloc; "feed 6 2 0\ng 1 {said}\n")?;
    for _ in 0..count {
        text.push_str("x 1\n")?;
    }
    text.push_str("end 1\n")?;
    Ok(text)
}

/// Sixteen bits count the changes of a message, and one more is none.
#[test]
fn a_message_may_have_65536_changes(rt: HostRuntime) -> Result<(), Fail> {
    let alloc = rt.alloc();
    let most = long_feed(alloc, 65536, 65536)?;
    let (said, more) = (
        long_feed(alloc, 65537, 65537)?,
        long_feed(alloc, 65536, 65537)?,
    );
    let feeds = [
        whole(&said, FeedEnd::Bad { line: 2 }, 0),
        whole(&more, FeedEnd::Bad { line: 65539 }, 0),
        whole(&most, FeedEnd::Whole, 1),
    ];
    follow(&rt, alloc, &feeds, &most)
}

/// The feed of an epoch without changes, the first line of whose message is filled up to so many bytes.
fn filled_up(alloc: Global, length: usize) -> Result<String, AllocError> {
    let mut text = String::from_str(alloc, "feed 6 2 0\ng 1 0")?;
    for _ in 5..length {
        text.push(' ')?;
    }
    text.push_str("\nend 1\n")?;
    Ok(text)
}

/// Where a line is too long and the feed is too, the byte that comes first decides.
#[test]
fn a_line_has_1024_bytes_at_most(rt: HostRuntime) -> Result<(), Fail> {
    let alloc = rt.alloc();
    let (most, more) = (filled_up(alloc, 1024)?, filled_up(alloc, 1025)?);
    let bad = whole(&more, FeedEnd::Bad { line: 2 }, 0);
    let long = whole(&more, FeedEnd::Long, 0);
    let feeds = [
        bad,
        Feed {
            total: 1034,
            ..long
        },
        Feed { total: 1035, ..bad },
        whole(&most, FeedEnd::Whole, 1),
    ];
    follow(&rt, alloc, &feeds, "feed 6 2 0\ng 1 0\nend 1\n")
}
