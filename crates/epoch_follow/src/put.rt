//! The feed of all that an operator has published.
ghost use Rattle.std.specs.Prelude.{◌≡◌, ◌+◌, ◌^◌, ◌<◌, length};
ghost use Rattle.std.specs.List.{flat_map};
ghost use Rattle.route_io.specs.Sinks.{Sends};
ghost use Rattle.arc_graph.specs.Graph.{Match};
ghost use Rattle.arc_graph.specs.History.{sets};
ghost use Rattle.epoch_follow.specs.Text.{begin_line, change_line, end_of_message, feed_text, head_line, head_of, message, messages};

use answer_writer::{Piece, put_line};
use arc_graph::{Change, Graph};
use cost_vector::{Cost, Weight};
use epoch_store::{ChangeSet, Operator, Store};
use route_io::{Sink, WriteFault};

/// Sends the feed of all sets that the operator has published, or a part of it from the front and answers the sink's fault. It
/// takes no memory.
pub fn put_feed<T: Store, K: Sink>(
    sink: &mut K,
    operator: &Operator<T>,
    graph: &Graph,
) -> Result<(), WriteFault>
    ensures { Sends (K.state sink.old) (K.state sink.new)
        (feed_text (head_of graph.now T.origin.first) operator.now.published
        1 (sets operator.now.published)) result }
{
    prove!(operator.number() >= operator.first());
    let first = operator.first();
    put_head(sink, graph, first)?;
    put_messages(sink, first, operator.sets())
}

/// Sends the first line.
fn put_head<K: Sink>(sink: &mut K, graph: &Graph, first: u32) -> Result<(), WriteFault>
    ensures { Sends (K.state sink.old) (K.state sink.new)
        (head_line (head_of graph.now first)) result }
{
    use Piece::{Number, Text};
    let arcs = u64::from(graph.arcs());
    let criteria = graph.criteria() as u64;
    let first = u64::from(first);
    put_line(
        sink,
        &[
            Text("feed"),
            Number(arcs),
            Number(criteria),
            Number(first),
            Text("\n"),
        ],
    )
}

/// Sends the messages of the epochs behind the first one.
fn put_messages<K: Sink>(sink: &mut K, first: u32, sets: &[ChangeSet]) -> Result<(), WriteFault>
    requires { first + length sets.now < 2 ^ 32 }
    ensures { Sends (K.state sink.old) (K.state sink.new) (messages (first + 1) sets.now) result }
{
    let mut epoch = first;
    for set in sets {
        epoch += 1;
        put_message(sink, epoch, set.changes())?;
    }
    Ok(())
}

/// Sends the message of an epoch.
fn put_message<K: Sink>(sink: &mut K, epoch: u32, changes: &[Change]) -> Result<(), WriteFault>
    ensures { Sends (K.state sink.old) (K.state sink.new) (message epoch changes.now) result }
{
    put_begin(sink, epoch, changes.len() as u64)?;
    put_changes(sink, changes)?;
    put_end(sink, epoch)
}

/// Sends the first line of a message.
fn put_begin<K: Sink>(sink: &mut K, epoch: u32, count: u64) -> Result<(), WriteFault>
    ensures { Sends (K.state sink.old) (K.state sink.new) (begin_line epoch count) result }
{
    use Piece::{Number, Text};
    let epoch = u64::from(epoch);
    put_line(sink, &[Text("g"), Number(epoch), Number(count), Text("\n")])
}

/// Sends the last line of a message.
fn put_end<K: Sink>(sink: &mut K, epoch: u32) -> Result<(), WriteFault>
    ensures { Sends (K.state sink.old) (K.state sink.new) (end_of_message epoch) result }
{
    use Piece::{Number, Text};
    let epoch = u64::from(epoch);
    put_line(sink, &[Text("end"), Number(epoch), Text("\n")])
}

/// Sends the line of each change.
fn put_changes<K: Sink>(sink: &mut K, changes: &[Change]) -> Result<(), WriteFault>
    ensures { Sends (K.state sink.old) (K.state sink.new)
        (flat_map change_line changes.now) result }
{
    for change in changes {
        put_change(sink, change)?;
    }
    Ok(())
}

/// Sends the line of a change.
fn put_change<K: Sink>(sink: &mut K, change: &Change) -> Result<(), WriteFault>
    ensures { Sends (K.state sink.old) (K.state sink.new) (change_line change.now) result }
{
    use Piece::{Number, Text};
    let arc = u64::from(change.arc.0);
    match &change.weight {
        Some(weight) => {
            let weight = as_cost(weight);
            put_line(
                sink,
                &[Text("s"), Number(arc), Piece::Cost(&weight), Text("\n")],
            )
        }
        None => put_line(sink, &[Text("x"), Number(arc), Text("\n")]),
    }
}

/// The cost of one arc.
fn as_cost(weight: &Weight) -> Cost
    ensures { result ≡ weight.now }
{
    Cost::zero(weight.count()).plus(weight)
}
