//! Feeds that a follower takes.
ghost use Rattle.std.specs.Prelude.{◌≡◌, ◌<◌, ◌^◌, [], None, IfSome, IfOk, OnOk, MatchBool};
ghost use mathlib.Core.List.{IsPrefix};
ghost use Rattle.route_io.specs.Sources.{ReadsFrom};
ghost use Rattle.line_text.specs.Reading.{CountsLine, KnowsEnd, begun as begun_lines};
ghost use Rattle.arc_graph.specs.Graph.{Match};
ghost use Rattle.epoch_follow.specs.Reads.{ReadsOn, end_of, has_read_fault};
ghost use Rattle.epoch_follow.specs.Runs.{feed_limits};
ghost use Rattle.epoch_follow.specs.Takes.{TakesFeed, is_read};
ghost use Rattle.epoch_follow.specs.Text.{head_of};

use crate::FeedEnd;
use crate::due::Due;
use arc_graph::Graph;
use epoch_store::{Operator, Store};
use line_text::{LineLimits, Lines};
use route_io::Source;
use std::alloc::Global;
use std::sync::Wait;

/// Takes the epochs of a feed, each by one publication at the end of its message, and answers how the feed ended. No more than
/// one message's changes are held. It may wait for readers.
#[tactic(auto, using(crate::proofs::TakeLemmas::starved_at_first))]
pub fn take_feed<T: Store, R: Wait, S: Source>(
    rt: &R,
    alloc: Global,
    operator: &mut Operator<T>,
    graph: &Graph,
    source: &mut S,
    limits: LineLimits,
) -> FeedEnd
    requires weights { Match graph.now T.origin.base }
    requires nothing_pending { operator.old.pending ≡ [] }
    requires line { limits.line ≡ 1024 }
    // Where the source tells its bytes, the history and the end are those of the feed's run. Where the source failed or memory
    // ran out the history is that of the lines before. Nothing is taken behind the end.
    ensures takes { IfSome (S.state source.old).left
        (λ bytes. TakesFeed (head_of graph.now T.origin.first) limits.total
        operator.old.published bytes (S.state source.new).left result operator.new.published) }

    // After every end nothing is pending, and what was published before stays.
    ensures nothing_pending { operator.new.pending ≡ [] }
    ensures begins { IsPrefix operator.old.published operator.new.published }

    // The source's failures alone make a failed read.
    ensures source { ReadsFrom (S.state source.old) (S.state source.new) (is_read result) }
{
    let end = match Lines::new(alloc, limits) {
        Ok(lines) => match take_lines(rt, operator, graph, source, lines) {
            Ok(due) => due.end(),
            Err(end) => end,
        },
        Err(want) => FeedEnd::OutOfMemory(want),
    };
    operator.drop_pending();
    end
}

/// Takes the lines of a feed, and answers what is due behind them, or how the feed ended before.
fn take_lines<T: Store, R: Wait, S: Source>(
    rt: &R,
    operator: &mut Operator<T>,
    graph: &Graph,
    source: &mut S,
    lines: Lines,
) -> Result<Due, FeedEnd>
    requires weights { Match graph.now T.origin.base }
    requires nothing_pending { operator.old.pending ≡ [] }
    requires begun { lines ≡ begun_lines (feed_limits lines.limits.total) }
    requires fits { lines.limits.total < 2 ^ 64 }
    ensures takes { IfSome (S.state source.old).left
        (λ bytes. TakesFeed (head_of graph.now T.origin.first) lines.limits.total
        operator.old.published bytes (S.state source.new).left (end_of result)
        operator.new.published) }
    ensures begins { IsPrefix operator.old.published operator.new.published }
    ensures source { ReadsFrom (S.state source.old) (S.state source.new)
        (is_read (end_of result)) }
{
    let mut lines = lines;
    let mut due = Due::First;
    'lines: while next_line(source, &mut lines)? {
        due = due.take(rt, operator, graph, lines.text(), lines.number())?;
    }
    Ok(due)
}

/// Makes the next line current, and answers true, or false at the end of the input.
fn next_line<S: Source>(source: &mut S, lines: &mut Lines) -> Result<bool, FeedEnd>
    requires limits { lines.old.limits ≡ feed_limits lines.old.limits.total }
    requires fits { lines.old.limits.total < 2 ^ 64 }
    requires goes_on { lines.old.fault ≡ None }
    requires knows_end { KnowsEnd lines.old (S.state source.old) }
    ensures goes_on { OnOk result (lines.new.fault ≡ None) }
    ensures counts { IfOk result (λ more. MatchBool more
        (CountsLine lines.old lines.new) (Unit {0})) }
    ensures reads { ReadsOn lines.old lines.new
        (S.state source.old) (S.state source.new) result }
    ensures source { ReadsFrom (S.state source.old) (S.state source.new)
        (has_read_fault result) }
{
    match lines.next_line(source) {
        Ok(more) => Ok(more),
        Err(fault) => Err(FeedEnd::by_fault(fault, lines.number().saturating_add(1))),
    }
}
