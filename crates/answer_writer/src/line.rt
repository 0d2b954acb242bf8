//! Lines by themselves.
ghost use Rattle.route_io.specs.Sinks.{Sends};
ghost use Rattle.answer_writer.specs.Pages.{IsOneWrite};
ghost use Rattle.answer_writer.specs.Pieces.{line_of};

use crate::page::Page;
use crate::piece::Piece;
use route_io::{Sink, WriteFault};

/// Sends a line that is made of pieces, or a part of it from the front and answers the sink's fault. It takes no memory,
/// and a line of at most 4,096 bytes is one write.
pub fn put_line<K: Sink>(sink: &mut K, pieces: &[Piece<'_>]) -> Result<(), WriteFault>
    ensures sent { Sends (K.state sink.old) (K.state sink.new) (line_of pieces.now) result }
    ensures one_write { IsOneWrite (K.state sink.old) (K.state sink.new) (line_of pieces.now) }
{
    let mut page = Page::new();
    page.put_pieces(sink, pieces)?;
    page.send(sink)
}
