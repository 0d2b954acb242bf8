use super::networks::{Drawn, Ties, draw, with_ties};
use super::searches::{Search, refuses_at, reply_within};
use super::walks::{Wanted, enumerate, wanted_reply};
use std::alloc::Global;
use std::process::Abort;
use std::test::Fail;
use std::thread::Threads;

/// How many networks are drawn.
const NETWORKS: u64 = 240;

/// One of so many is also searched by as many workers as there can be, whose threads take most of the time.
const MANY_WORKERS_EACH: u64 = 8;

/// What differs from what is wanted after such a search, whose budget is that of the relevant pairs or one less: no text if nothing
/// does.
pub(super) fn difference<R: Threads + Sync + Abort>(
    rt: &R,
    alloc: Global,
    drawn: &Drawn,
    wanted: &Wanted,
    search: Search,
) -> Result<&'static str, Fail> {
    assert!(rt; 1 <= wanted.relevant);
    let text = reply_within(rt, alloc, drawn, wanted.relevant, search)??;
    let is_sent = text.sent() == wanted_reply(alloc, drawn, wanted)?.as_bytes();
    let is_refused = refuses_at(rt, alloc, drawn, wanted.relevant - 1, search)?;
    Ok(match (is_sent, is_refused) {
        (true, true) => "",
        (true, false) => "the refusal",
        _ => "the reply",
    })
}

/// Compares what such a search finds in the drawn network of this number with what an enumeration does.
fn compare<R: Threads + Sync + Abort>(
    rt: &R,
    alloc: Global,
    name: u64,
    drawn: &Drawn,
    wanted: &Wanted,
    search: Search,
) -> Result<(), Fail> {
    let difference = difference(rt, alloc, drawn, wanted, search)?;
    assert!(rt; difference == "", "{name}: {difference} by {search:?}");
    Ok(())
}

/// All searches of the drawn network of this number find what an enumeration does.
fn compare_drawn<R: Threads + Sync + Abort>(rt: &R, alloc: Global, name: u64) -> Result<(), Fail> {
    let drawn = draw(alloc, name)?;
    let wanted = enumerate(alloc, &drawn)?;
    for count in [1, 2, 3] {
        compare(rt, alloc, name, &drawn, &wanted, Search::Rounds(count))?;
    }
    if name % MANY_WORKERS_EACH == 0 {
        compare(rt, alloc, name, &drawn, &wanted, Search::Rounds(64))?;
    }
    compare(rt, alloc, name, &drawn, &wanted, Search::Sweep)
}

/// The sweep of that network finds what an enumeration does where many costs tie.
fn compare_ties<R: Threads + Sync + Abort>(rt: &R, alloc: Global, name: u64) -> Result<(), Fail> {
    let drawn = with_ties(draw(alloc, name)?, Ties::ZeroOrOne);
    let wanted = enumerate(alloc, &drawn)?;
    compare(rt, alloc, name, &drawn, &wanted, Search::Sweep)
}

fn compare_all<R: Threads + Sync + Abort>(rt: &R, alloc: Global) -> Result<(), Fail> {
    for name in 0..NETWORKS {
        compare_drawn(rt, alloc, name)?;
        compare_ties(rt, alloc, name)?;
    }
    Ok(())
}

#[test]
fn finds_the_best_walks_of_drawn_networks(rt: HostRuntime) -> Result<(), Fail> {
    compare_all(&rt, rt.alloc())
}
