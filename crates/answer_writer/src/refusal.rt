//! The text of a refusal.
ghost use Rattle.route_io.specs.Sinks.{Sends};
ghost use Rattle.answer_writer.specs.Pages.{IsOneWrite};
ghost use Rattle.answer_writer.specs.Replies.{refusal};

use crate::line::put_line;
use crate::piece::Piece;
use route_io::{Sink, WriteFault};

/// Sends the reply that refuses a query at an epoch, or a part of it from the front and answers the sink's fault.
///
/// The ends are as the query has them, nodes or not; `why` begins with a space. A reply of at most 4,096 bytes is one write.
pub fn put_refusal<K: Sink>(
    sink: &mut K,
    epoch: u32,
    start: u32,
    target: u32,
    why: &str,
) -> Result<(), WriteFault>
    ensures sent { Sends (K.state sink.old) (K.state sink.new)
        (refusal epoch start target why.now) result }
    ensures one_write { IsOneWrite (K.state sink.old) (K.state sink.new)
        (refusal epoch start target why.now) }
{
    use Piece::{Number, Text};
    put_line(
        sink,
        &[
            Text("x"),
            Number(u64::from(epoch)),
            Number(u64::from(start)),
            Number(u64::from(target)),
            Text(why),
            Text("\n"),
        ],
    )
}
