//! The short lines of sessions.
ghost use Rattle.std.specs.Prelude.{◌≡◌};
ghost use Rattle.route_io.specs.Sinks.{Sends};
ghost use Rattle.session_core.specs.Answering.{RepliesOneOf};
ghost use Rattle.session_core.specs.Sessions.{closed_reply, epoch_reply, line_refusal};

use answer_writer::{Piece, put_line};
use crate::fault::ReplyFault;
use route_io::{Sink, WriteFault};

/// Sends the number of an epoch.
pub(crate) fn put_epoch<K: Sink>(out: &mut K, number: u32) -> Result<(), WriteFault>
    ensures { Sends (K.state out.old) (K.state out.new) (epoch_reply number) result }
{
    let number = Piece::Number(u64::from(number));
    put_line(out, &[Piece::Text("k"), number, Piece::Text("\n")])
}

/// Says that no epoch comes after that of this number.
pub(crate) fn put_closed<K: Sink>(out: &mut K, number: u32) -> Result<(), WriteFault>
    ensures { Sends (K.state out.old) (K.state out.new) (closed_reply number) result }
{
    let number = Piece::Number(u64::from(number));
    put_line(out, &[Piece::Text("x"), number, Piece::Text(" closed\n")])
}

/// Says that a line is no request.
pub(crate) fn refuse_line<K: Sink>(out: &mut K) -> Result<(), ReplyFault>
    ensures { RepliesOneOf (λ text. text ≡ line_refusal)
        (K.state out.old) (K.state out.new) result }
{
    put_line(out, &[Piece::Text("x line\n")])?;
    Ok(())
}
