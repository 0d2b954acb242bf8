//! Searches that are directed to the target, beside such that aren't.
use super::bounds::count_goal_relevant;
use super::networks::{Drawn, Ties, draw, with_ties};
use super::searches::{Search, refuses_at, reply_within};
use road_network::MAX_BUDGET;
use std::alloc::Global;
use std::process::Abort;
use std::test::Fail;
use std::thread::Threads;

/// How many networks are drawn.
const NETWORKS: u64 = 240;

/// Whether the directed search within this budget sends that reply.
fn replies_within<R: Threads + Sync + Abort>(
    rt: &R,
    alloc: Global,
    drawn: &Drawn,
    budget: u32,
    reply: &[u8],
) -> Result<bool, Fail> {
    match reply_within(rt, alloc, drawn, budget, Search::Directed)? {
        Ok(directed) => Ok(directed.sent() == reply),
        Err(_) => Ok(false),
    }
}

/// Whether the directed search answers just where the budget is at least the number of goal-relevant pairs, and then as the other
/// one does.
fn is_alike<R: Threads + Sync + Abort>(
    rt: &R,
    alloc: Global,
    drawn: &Drawn,
    other: Search,
) -> Result<bool, Fail> {
    let exact = count_goal_relevant(alloc, drawn)?;
    let more = exact.saturating_add(1);
    let is_refused = exact == 0 || refuses_at(rt, alloc, drawn, exact - 1, Search::Directed)?;
    let plain = reply_within(rt, alloc, drawn, MAX_BUDGET, other)??;
    Ok(
        is_refused
            && replies_within(rt, alloc, drawn, exact, plain.sent())?
            && replies_within(rt, alloc, drawn, more, plain.sent())?,
    )
}

/// The searches of the drawn network of this number answer alike, whatever the ties of its costs.
fn compare<R: Threads + Sync + Abort>(rt: &R, alloc: Global, name: u64) -> Result<(), Fail> {
    for ties in [Ties::AsDrawn, Ties::ZeroOrOne, Ties::AllAlike] {
        let drawn = with_ties(draw(alloc, name)?, ties);
        let is_alike = is_alike(rt, alloc, &drawn, Search::Sweep)?;
        assert!(rt; is_alike, "{name}: {ties:?}, beside the sweep");
    }
    let drawn = with_ties(draw(alloc, name)?, Ties::ZeroOrOne);
    let is_alike = is_alike(rt, alloc, &drawn, Search::Rounds(1))?;
    assert!(rt; is_alike, "{name}: beside the rounds");
    Ok(())
}

fn compare_all<R: Threads + Sync + Abort>(rt: &R, alloc: Global) -> Result<(), Fail> {
    for name in 0..NETWORKS {
        compare(rt, alloc, name)?;
    }
    Ok(())
}

#[test]
fn directed_searches_answer_as_others_do(rt: HostRuntime) -> Result<(), Fail> {
    compare_all(&rt, rt.alloc())
}
