//! What is replied to an operator.
ghost use Rattle.std.specs.Prelude.{◌≡◌};
ghost use Rattle.route_io.specs.Sinks.{Sends};
ghost use Rattle.session_core.specs.OperatorReplies.{refusal_text, refusal_word, reply_text};

use crate::short::put_epoch;
use answer_writer::{Piece, put_line};
use route_io::{Sink, WriteFault};

/// What a line of an operator comes to.
#[derive(Clone, Copy)]
pub(crate) enum Applied {
    /// It is blank, and gets no reply.
    Silent,
    Says(OperatorReply),
    /// It ends the session.
    Ends,
}

/// What is replied to a line of an operator.
#[derive(Clone, Copy)]
pub(crate) enum OperatorReply {
    /// The request was carried out.
    Done,
    /// The epoch of this number was published.
    Epoch(u32),
    /// Nothing changed.
    Refused(Refusal),
}

/// Why a line of an operator is refused.
#[derive(Clone, Copy)]
pub(crate) enum Refusal {
    /// It is no request.
    Line,
    /// There is no arc of this number.
    Arc,
    /// All weights are 0.
    Zero,
    /// As many changes are pending as may be.
    Full,
    /// The current epoch has the greatest number.
    Last,
}

impl Refusal {
    /// The word that says it.
    fn word(self) -> &'static str
        ensures { result.now ≡ refusal_word self }
    {
        match self {
            Refusal::Line => "line",
            Refusal::Arc => "arc",
            Refusal::Zero => "zero",
            Refusal::Full => "full",
            Refusal::Last => "last",
        }
    }
}

/// Sends a reply, in one write.
pub(crate) fn put_reply<K: Sink>(to: &mut K, reply: OperatorReply) -> Result<(), WriteFault>
    ensures { Sends (K.state to.old) (K.state to.new) (reply_text reply) result }
{
    match reply {
        OperatorReply::Done => put_line(to, &[Piece::Text("ok\n")]),
        OperatorReply::Epoch(number) => put_epoch(to, number),
        OperatorReply::Refused(why) => put_refusal(to, why),
    }
}

/// Sends `x` and why.
fn put_refusal<K: Sink>(to: &mut K, why: Refusal) -> Result<(), WriteFault>
    ensures { Sends (K.state to.old) (K.state to.new) (refusal_text why) result }
{
    let why = Piece::Text(why.word());
    put_line(to, &[Piece::Text("x "), why, Piece::Text("\n")])
}
