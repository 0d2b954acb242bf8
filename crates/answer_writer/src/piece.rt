//! Lines that are made of pieces.
ghost use Rattle.std.specs.Prelude.{decimal};
ghost use Rattle.std.specs.List.{flat_map};
ghost use Rattle.answer_writer.specs.Pages.{Gathers};
ghost use Rattle.answer_writer.specs.Pieces.{line_of, text_of};
ghost use Rattle.answer_writer.specs.Replies.{and_arc, and_bound, and_number};

use crate::page::Page;
use cost_vector::{ArcNo, Cost, Limit};
use itoa::Buffer;
use route_io::{Sink, WriteFault};

/// A part of a line.
#[derive(Clone, Copy, Debug)]
pub enum Piece<'a> {
    /// A short text.
    Text(&'a str),
    /// A space and a number in decimal.
    Number(u64),
    /// Each component of a cost as such a number.
    Cost(&'a Cost),
    /// Each arc as such a number.
    Arcs(&'a [ArcNo]),
    /// A space and a bound, or `-`, for each place of a limit.
    Bounds(&'a Limit),
}

impl Page {
    /// Puts the pieces in order.
    pub fn put_pieces<K: Sink>(
        &mut self,
        sink: &mut K,
        pieces: &[Piece<'_>],
    ) -> Result<(), WriteFault>
        ensures { Gathers (K.state sink.old) (K.state sink.new) self.old self.new
            (line_of pieces.now) result }
    {
        for piece in pieces {
            self.put_piece(sink, piece)?;
        }
        Ok(())
    }

    /// Puts one piece.
    fn put_piece<K: Sink>(&mut self, sink: &mut K, piece: &Piece<'_>) -> Result<(), WriteFault>
        ensures { Gathers (K.state sink.old) (K.state sink.new) self.old self.new
            (text_of piece.now) result }
    {
        match piece {
            Piece::Text(text) => self.put(sink, text),
            Piece::Number(number) => self.put_number(sink, *number),
            Piece::Cost(cost) => self.put_components(sink, cost),
            Piece::Arcs(arcs) => self.put_arcs(sink, arcs),
            Piece::Bounds(limit) => self.put_bounds(sink, limit),
        }
    }

    /// Puts each component of a cost.
    fn put_components<K: Sink>(&mut self, sink: &mut K, cost: &Cost) -> Result<(), WriteFault>
        ensures { Gathers (K.state sink.old) (K.state sink.new) self.old self.new
            (flat_map and_number cost.now) result }
    {
        for place in 0..cost.count() {
            self.put_number(sink, cost.component(place))?;
        }
        Ok(())
    }

    /// Puts the number of each arc.
    fn put_arcs<K: Sink>(&mut self, sink: &mut K, arcs: &[ArcNo]) -> Result<(), WriteFault>
        ensures { Gathers (K.state sink.old) (K.state sink.new) self.old self.new
            (flat_map and_arc arcs.now) result }
    {
        for &arc in arcs {
            self.put_arc(sink, arc)?;
        }
        Ok(())
    }

    /// Puts a space and the number of an arc.
    fn put_arc<K: Sink>(&mut self, sink: &mut K, arc: ArcNo) -> Result<(), WriteFault>
        ensures { Gathers (K.state sink.old) (K.state sink.new) self.old self.new
            (and_arc arc) result }
    {
        self.put_number(sink, u64::from(arc.0))
    }

    /// Puts the bounds of a limit.
    fn put_bounds<K: Sink>(&mut self, sink: &mut K, limit: &Limit) -> Result<(), WriteFault>
        ensures { Gathers (K.state sink.old) (K.state sink.new) self.old self.new
            (flat_map and_bound limit.now) result }
    {
        for place in 0..limit.count() {
            self.put_bound(sink, limit.place(place))?;
        }
        Ok(())
    }

    /// Puts a space and a bound, or `-` where there is none.
    fn put_bound<K: Sink>(&mut self, sink: &mut K, bound: Option<u64>) -> Result<(), WriteFault>
        ensures { Gathers (K.state sink.old) (K.state sink.new) self.old self.new
            (and_bound bound) result }
    {
        match bound {
            Some(most) => self.put_number(sink, most),
            None => self.put(sink, " -"),
        }
    }

    /// Puts a space and a number in decimal.
    fn put_number<K: Sink>(&mut self, sink: &mut K, number: u64) -> Result<(), WriteFault>
        ensures { Gathers (K.state sink.old) (K.state sink.new) self.old self.new
            (and_number number) result }
    {
        self.put(sink, " ")?;
        self.put_digits(sink, number)
    }

    /// Puts a number in decimal.
    fn put_digits<K: Sink>(&mut self, sink: &mut K, number: u64) -> Result<(), WriteFault>
        ensures { Gathers (K.state sink.old) (K.state sink.new) self.old self.new
            (decimal number) result }
    {
        let mut buffer = Buffer::new();
        self.put(sink, buffer.format(number))
    }
}
