ghost use Rattle.std.specs.Prelude.{◌<◌, length};
ghost use Rattle.route_io.specs.Sinks.{OffersWhole, Sends, SinkState, Writes};

use crate::WriteFault;

/// What bytes are sent to.
pub trait Sink {
    /// What the sink was sent and offered, how often it has failed, and how often it wanted memory.
    ghost state: { Self → SinkState };

    /// Takes at least one byte from the front of the piece, and answers how many. At a fault nothing was sent.
    fn write(&mut self, piece: &[u8]) -> Result<usize, WriteFault>
        requires { 0 < length piece.now }
        ensures { Writes (state self.old) (state self.new) piece.now result };
}

/// Sends the whole text, or a part of it from the front and answers the sink's fault. The text is one write, and more follow
/// only where the sink took a part.
pub fn put_all<K: Sink>(sink: &mut K, text: &[u8]) -> Result<(), WriteFault>
    ensures sent { Sends (K.state sink.old) (K.state sink.new) text.now result }
    ensures whole { OffersWhole (K.state sink.old) (K.state sink.new) text.now }
{
    let mut rest = text;
    while !rest.is_empty() {
        let taken = sink.write(rest)?;
        rest = &rest[taken..];
    }
    Ok(())
}
