//! One line of a feed after another.
ghost use Rattle.std.specs.Prelude.{◌≡◌, ◌+◌, ◌<◌, ◌≤◌, [], false, OnErr, OnOk};
ghost use mathlib.Core.List.{IsPrefix};
ghost use Rattle.line_text.specs.Fields.{fields_of};
ghost use Rattle.arc_graph.specs.Graph.{Match};
ghost use Rattle.arc_graph.specs.History.{IsChange, with_pending, with_published};
ghost use Rattle.epoch_store.specs.Origin.{arcs_of, criteria_of, last_number};
ghost use Rattle.epoch_store.specs.Faults.{MayPend, MayPublish};
ghost use Rattle.epoch_follow.specs.Reads.{Awaits, LineTells, end_due, has_read_fault};
ghost use Rattle.epoch_follow.specs.Text.{FeedHead, head_of};

use crate::FeedEnd;
use crate::fields::{change_in, is_end, is_head, message_in};
use arc_graph::{Change, Graph};
use epoch_store::{Operator, PublishFault, SetFault, ShutFault, Store};
use out_of_memory::OutOfMemory;
use std::sync::Wait;

/// What the next line of a feed is to be.
#[derive(Clone, Copy)]
pub(crate) enum Due {
    /// The first line.
    First,
    /// The first line of a message.
    Begin,
    /// A line of the message of this epoch, whose changes so far are pending, with so many still to come.
    Within { epoch: u32, left: u32 },
}

impl Due {
    /// How the feed ends where the input ends.
    pub(crate) fn end(self) -> FeedEnd
        ensures { result ≡ end_due self }
    {
        match self {
            Due::First | Due::Within { .. } => FeedEnd::Cut,
            Due::Begin => FeedEnd::Whole,
        }
    }

    /// Takes a line of this number, and answers what is due behind it, or how the feed ends.
    pub(crate) fn take<T: Store, R: Wait>(
        self,
        rt: &R,
        operator: &mut Operator<T>,
        graph: &Graph,
        text: &[u8],
        line: u64,
    ) -> Result<Due, FeedEnd>
        requires weights { Match graph.now T.origin.base }
        requires awaits { Awaits (head_of graph.now T.origin.first) operator.old self }
        ensures tells { LineTells (head_of graph.now T.origin.first) line operator.old self
            (fields_of text.now) operator.new result }
        ensures begins { IsPrefix operator.old.published operator.new.published }
        ensures reads_nothing { has_read_fault result ≡ false }
    {
        match self {
            Due::First => take_head(operator, graph, text, line),
            Due::Begin => begin_message(operator, text, line),
            Due::Within { epoch, left: 0 } => end_message(rt, operator, epoch, text, line),
            Due::Within { epoch, left } => { take_change(operator, graph, epoch, left, text, line) }
        }
    }
}

/// Takes the first line.
fn take_head<T: Store>(
    operator: &Operator<T>,
    graph: &Graph,
    text: &[u8],
    line: u64,
) -> Result<Due, FeedEnd>
    requires { operator.now.pending ≡ [] }
    ensures tells { LineTells (head_of graph.now T.origin.first) line operator.now Due.First
        (fields_of text.now) operator.now result }
    ensures reads_nothing { has_read_fault result ≡ false }
{
    if is_head(text, graph, operator.first()) {
        Ok(Due::Begin)
    } else {
        Err(FeedEnd::Bad { line })
    }
}

/// Takes the first line of a message.
fn begin_message<T: Store>(operator: &Operator<T>, text: &[u8], line: u64) -> Result<Due, FeedEnd>
    requires { operator.now.pending ≡ [] }
    ensures tells { (head : FeedHead) → head.first ≡ T.origin.first
        → LineTells head line operator.now Due.Begin (fields_of text.now) operator.now result }
    ensures reads_nothing { has_read_fault result ≡ false }
{
    let Some((epoch, left)) = message_in(text) else {
        return Err(FeedEnd::Bad { line });
    };
    if u64::from(epoch) > u64::from(operator.number()) + 1 {
        return Err(FeedEnd::Gap { line });
    }
    Ok(Due::Within { epoch, left })
}

/// Takes a change of a message.
fn take_change<T: Store>(
    operator: &mut Operator<T>,
    graph: &Graph,
    epoch: u32,
    left: u32,
    text: &[u8],
    line: u64,
) -> Result<Due, FeedEnd>
    requires weights { Match graph.now T.origin.base }
    requires awaits { Awaits (head_of graph.now T.origin.first) operator.old
        (Due.Within epoch left) }
    requires some { 0 < left }
    ensures tells { LineTells (head_of graph.now T.origin.first) line operator.old
        (Due.Within epoch left) (fields_of text.now) operator.new result }
    ensures stays { operator.new.published ≡ operator.old.published }
    ensures reads_nothing { has_read_fault result ≡ false }
{
    let Some(change) = change_in(text, graph) else {
        return Err(FeedEnd::Bad { line });
    };
    pend(operator, change)?;
    Ok(Due::Within {
        epoch,
        left: left - 1,
    })
}

/// Takes the last line of a message. Its changes are published where they are the next epoch's, and given up where it repeats
/// one.
fn end_message<T: Store, R: Wait>(
    rt: &R,
    operator: &mut Operator<T>,
    epoch: u32,
    text: &[u8],
    line: u64,
) -> Result<Due, FeedEnd>
    requires { epoch ≤ last_number T.origin operator.old.published + 1 }
    ensures tells { (head : FeedHead) → head.first ≡ T.origin.first
        → LineTells head line operator.old (Due.Within epoch 0) (fields_of text.now)
        operator.new result }
    ensures begins { IsPrefix operator.old.published operator.new.published }
    ensures reads_nothing { has_read_fault result ≡ false }
{
    if !is_end(text, epoch) {
        return Err(FeedEnd::Bad { line });
    }
    if epoch > operator.number() {
        publish(rt, operator)?;
    } else {
        operator.drop_pending();
    }
    Ok(Due::Begin)
}

/// Makes a change pending.
fn pend<T: Store>(operator: &mut Operator<T>, change: Change) -> Result<(), OutOfMemory>
    requires change { IsChange (arcs_of T.origin) (criteria_of T.origin) change }
    requires room { MayPend operator.old }
    ensures pending { OnOk result (operator.new ≡ with_pending operator.old change) }
    ensures unchanged { OnErr result (operator.new ≡ operator.old) }
{
    match change.weight {
        Some(weight) => match operator.set(change.arc.0, weight) {
            Ok(()) => Ok(()),
            Err(SetFault::OutOfMemory(want)) => Err(want),
            Err(_) => unreachable!(),
        },
        None => match operator.shut(change.arc.0) {
            Ok(()) => Ok(()),
            Err(ShutFault::OutOfMemory(want)) => Err(want),
            Err(_) => unreachable!(),
        },
    }
}

/// Publishes what is pending, where an epoch may follow.
fn publish<T: Store, R: Wait>(rt: &R, operator: &mut Operator<T>) -> Result<(), OutOfMemory>
    requires { MayPublish T.origin operator.old }
    ensures published { OnOk result (operator.new ≡ with_published operator.old) }
    ensures unchanged { OnErr result (operator.new ≡ operator.old) }
{
    match operator.publish(rt) {
        Ok(_) => Ok(()),
        Err(PublishFault::OutOfMemory(want)) => Err(want),
        Err(PublishFault::LastEpoch) => unreachable!(),
    }
}
