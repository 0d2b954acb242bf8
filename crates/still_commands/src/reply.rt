//! The replies of the commands.
ghost use Rattle.std.specs.Prelude.{◌≢◌, ◌↔◌, ◌≡◌, IsOk, IsTrue, Ok, Err};
ghost use Rattle.road_network.specs.Queries.{HaveNodes};
ghost use Rattle.answer_writer.specs.Replies.{refusal};
ghost use Rattle.route_io.specs.Sinks.{Sends};
ghost use Rattle.still_commands.specs.Outcome.{done, refused};
ghost use Rattle.still_commands.specs.Stops.{IsReply, Replies, reply_outcome, run_outcome};
ghost use Rattle.still_commands.specs.Texts.{check_reply};

use crate::stop::Stop;
use answer_writer::{Piece, put_line, put_refusal};
use arc_graph::{Network, NetworkSizes};
use out_of_memory::OutOfMemory;
use road_network::Query;
use route_io::{Sink, WriteFault, put_all};
use session_core::Reply;

/// The epoch of each reply, since nothing is published.
pub(crate) const EPOCH: u32 = 0;

/// How the run of one query ends once the reply was sent.
pub(crate) fn end_of<'a>(reply: Reply) -> Result<(), Stop<'a>>
    ensures { run_outcome result ≡ reply_outcome reply }
{
    match reply {
        Reply::Answer => Ok(()),
        Reply::Refusal => Err(Stop::Refused),
    }
}

/// Whether both ends of a query are nodes.
pub(crate) fn has_nodes(network: &Network<'_>, query: &Query) -> bool
    ensures { IsTrue result ↔ HaveNodes network.now query.now }
{
    network.has_node(query.from) && network.has_node(query.to)
}

/// Sends a refusal.
pub(crate) fn refuse<'a, K: Sink>(out: &mut K, query: &Query, why: &str) -> Result<(), Stop<'a>>
    ensures { Replies (IsReply refused (refusal 0 query.now.from query.now.to why.now))
        (K.state out.old) (K.state out.new) (run_outcome result) }
{
    put_refusal(out, EPOCH, query.from, query.to, why)?;
    Err(Stop::Refused)
}

/// Sends a reply that was made in memory.
pub(crate) fn send<'a, K: Sink>(out: &mut K, text: &[u8]) -> Result<(), Stop<'a>>
    ensures { Replies (IsReply done text.now) (K.state out.old) (K.state out.new)
        (run_outcome result) }
{
    put_all(out, text)?;
    Ok(())
}

/// The answer of a write to memory, which fails only for want of it.
pub(crate) fn kept(written: Result<(), WriteFault>) -> Result<(), OutOfMemory>
    requires { written ≢ Err WriteFault.Failed }
    ensures { IsOk result ↔ (written ≡ Ok tt) }
{
    match written {
        Ok(()) => Ok(()),
        Err(WriteFault::OutOfMemory(want)) => Err(want),
        Err(WriteFault::Failed) => unreachable!(),
    }
}

/// Sends the sizes of a network.
pub(crate) fn put_sizes<K: Sink>(sink: &mut K, sizes: NetworkSizes) -> Result<(), WriteFault>
    ensures { Sends (K.state sink.old) (K.state sink.new)
        (check_reply sizes.nodes sizes.arcs sizes.criteria) result }
{
    use Piece::{Number, Text};
    put_line(
        sink,
        &[
            Text("ok"),
            Number(u64::from(sizes.nodes)),
            Number(u64::from(sizes.arcs)),
            Number(sizes.criteria as u64),
            Text("\n"),
        ],
    )
}
