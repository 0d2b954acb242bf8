//! The text of an answer.
ghost use Rattle.std.specs.Prelude.{◌≤◌, List, length};
ghost use Rattle.std.specs.List.{between, flat_map};
ghost use Rattle.road_network.specs.Answers.{IsAnswer, Route};
ghost use Rattle.walk_readback.specs.Found.{IsOf, IsWellFound, longest_in};
ghost use Rattle.road_network.specs.Queries.{limit_of};
ghost use Rattle.route_io.specs.Sinks.{Sends};
ghost use Rattle.answer_writer.specs.Replies.{cost_line, first_line, lines_between, reply_of, walk_line};
ghost use Rattle.answer_writer.specs.Routes.{AreRoutes, TellsRoutes};
ghost use Rattle.answer_writer.specs.Pages.{Gathers, IsOneWrite};
ghost use Rattle.answer_writer.specs.Pieces.{walk_text};

use crate::page::Page;
use crate::piece::Piece;
use arc_graph::Network;
use cost_vector::{ArcNo, Cost};
use road_network::{AnswerKind, Query};
use route_io::{Sink, WriteFault};
use std::ops::Range;
use walk_readback::{FoundCosts, Room, walk};

/// Sends the reply of an answer at an epoch, or a part of it from the front and answers the sink's fault.
///
/// The room has to hold the longest walk; so nothing but a fault of the sink cuts a reply. A reply of at most 4,096 bytes is one
/// write.
pub fn put_answer<K: Sink, F: FoundCosts>(
    sink: &mut K,
    epoch: u32,
    kind: AnswerKind,
    query: &Query,
    network: &Network<'_>,
    found: &F,
    room: &mut Room,
) -> Result<(), WriteFault>
    requires of_query { IsOf network.now query.now (F.state found.now) }
    requires well_found { IsWellFound network.now (limit_of network.now.criteria query.now)
        (F.state found.now) }
    requires room { longest_in (F.state found.now) ≤ room.old.holds }
    ensures sent { (routes : List Route) → IsAnswer network.now query.now.from query.now.to
        (limit_of network.now.criteria query.now) routes
        → Sends (K.state sink.old) (K.state sink.new) (reply_of kind epoch query.now routes)
        result }
    ensures one_write { (routes : List Route) → IsAnswer network.now query.now.from query.now.to
        (limit_of network.now.criteria query.now) routes
        → IsOneWrite (K.state sink.old) (K.state sink.new) (reply_of kind epoch query.now routes) }
{
    let count = found.count();
    let mut page = Page::new();
    page.put_first_line(sink, epoch, query, count)?;
    page.put_lines(sink, kind, network, found, 0..count, room)?;
    page.send(sink)
}

/// Sends the first line of an answer that has so many costs, for who sends the lines of its routes by `put_routes`.
pub fn put_first_line<K: Sink>(
    sink: &mut K,
    epoch: u32,
    query: &Query,
    count: usize,
) -> Result<(), WriteFault>
    ensures sent { Sends (K.state sink.old) (K.state sink.new) (first_line epoch query.now count)
        result }
    ensures one_write { IsOneWrite (K.state sink.old) (K.state sink.new)
        (first_line epoch query.now count) }
{
    let mut page = Page::new();
    page.put_first_line(sink, epoch, query, count)?;
    page.send(sink)
}

/// Sends the lines of the routes at these places, from 0, of what was found, or a part of them from the front and answers the
/// sink's fault.
///
/// The room has to hold the longest walk, and still does so afterwards, for the lines at further places.
pub fn put_routes<K: Sink, F: FoundCosts>(
    sink: &mut K,
    kind: AnswerKind,
    network: &Network<'_>,
    found: &F,
    places: Range<usize>,
    room: &mut Room,
) -> Result<(), WriteFault>
    requires tells { TellsRoutes network.now (F.state found.now) }
    requires there { places.end ≤ length (F.state found.now).costs }
    requires room { longest_in (F.state found.now) ≤ room.old.holds }
    ensures lines { (routes : List Route) → AreRoutes network.now (F.state found.now) routes
        → Sends (K.state sink.old) (K.state sink.new)
        (lines_between kind routes places.start places.end) result }
    ensures one_write { (routes : List Route) → AreRoutes network.now (F.state found.now) routes
        → IsOneWrite (K.state sink.old) (K.state sink.new)
        (lines_between kind routes places.start places.end) }
    ensures room { room.old.holds ≤ room.new.holds }
{
    let mut page = Page::new();
    page.put_lines(sink, kind, network, found, places, room)?;
    page.send(sink)
}

impl Page {
    /// Puts the first line of an answer that has so many costs.
    fn put_first_line<K: Sink>(
        &mut self,
        sink: &mut K,
        epoch: u32,
        query: &Query,
        count: usize,
    ) -> Result<(), WriteFault>
        ensures { Gathers (K.state sink.old) (K.state sink.new) self.old self.new
            (first_line epoch query.now count) result }
    {
        use Piece::{Bounds, Number, Text};
        let epoch = u64::from(epoch);
        let from = u64::from(query.from);
        let to = u64::from(query.to);
        let count = count as u64;
        match &query.limit {
            None => self.put_pieces(
                sink,
                &[
                    Text("r"),
                    Number(epoch),
                    Number(from),
                    Number(to),
                    Number(count),
                    Text("\n"),
                ],
            ),
            Some(limit) => self.put_pieces(
                sink,
                &[
                    Text("l"),
                    Number(epoch),
                    Number(from),
                    Number(to),
                    Bounds(limit),
                    Number(count),
                    Text("\n"),
                ],
            ),
        }
    }

    /// Puts the lines of the routes at these places.
    fn put_lines<K: Sink, F: FoundCosts>(
        &mut self,
        sink: &mut K,
        kind: AnswerKind,
        network: &Network<'_>,
        found: &F,
        places: Range<usize>,
        room: &mut Room,
    ) -> Result<(), WriteFault>
        requires tells { TellsRoutes network.now (F.state found.now) }
        requires there { places.end ≤ length (F.state found.now).costs }
        requires room { longest_in (F.state found.now) ≤ room.old.holds }
        ensures lines { (routes : List Route) → AreRoutes network.now (F.state found.now) routes
            → Gathers (K.state sink.old) (K.state sink.new) self.old self.new
            (lines_between kind routes places.start places.end) result }
        ensures room { room.old.holds ≤ room.new.holds }
    {
        match kind {
            AnswerKind::Costs => self.put_costs(sink, found, places),
            AnswerKind::Walks => self.put_walks(sink, network, found, places, room),
        }
    }

    /// Puts the line of each cost at these places.
    fn put_costs<K: Sink, F: FoundCosts>(
        &mut self,
        sink: &mut K,
        found: &F,
        places: Range<usize>,
    ) -> Result<(), WriteFault>
        requires { places.end ≤ length (F.state found.now).costs }
        ensures { Gathers (K.state sink.old) (K.state sink.new) self.old self.new
            (flat_map cost_line (between places.start places.end (F.state found.now).costs)) result }
    {
        for i in places.start..places.end {
            self.put_cost(sink, &found.cost(i))?;
        }
        Ok(())
    }

    /// Puts the line of a cost.
    fn put_cost<K: Sink>(&mut self, sink: &mut K, cost: &Cost) -> Result<(), WriteFault>
        ensures { Gathers (K.state sink.old) (K.state sink.new) self.old self.new
            (cost_line cost.now) result }
    {
        self.put_pieces(
            sink,
            &[Piece::Text("v"), Piece::Cost(cost), Piece::Text("\n")],
        )
    }

    /// Puts the line of each cost at these places with its walk.
    fn put_walks<K: Sink, F: FoundCosts>(
        &mut self,
        sink: &mut K,
        network: &Network<'_>,
        found: &F,
        places: Range<usize>,
        room: &mut Room,
    ) -> Result<(), WriteFault>
        requires tells { TellsRoutes network.now (F.state found.now) }
        requires there { places.end ≤ length (F.state found.now).costs }
        requires room { longest_in (F.state found.now) ≤ room.old.holds }
        ensures lines { (routes : List Route) → AreRoutes network.now (F.state found.now) routes
            → Gathers (K.state sink.old) (K.state sink.new) self.old self.new
            (flat_map walk_line (between places.start places.end routes)) result }
        ensures room { room.old.holds ≤ room.new.holds }
    {
        for i in places.start..places.end {
            walk(network, found, i, room);
            let cost = found.cost(i);
            self.put_walk(sink, &cost, room.arcs())?;
        }
        Ok(())
    }

    /// Puts the line of a cost with its walk.
    fn put_walk<'x, K: Sink>(
        &mut self,
        sink: &mut K,
        cost: &'x Cost,
        arcs: &'x [ArcNo],
    ) -> Result<(), WriteFault>
        ensures { Gathers (K.state sink.old) (K.state sink.new) self.old self.new
            (walk_text cost.now arcs.now) result }
    {
        use Piece::{Arcs, Number, Text};
        let count = arcs.len() as u64;
        self.put_pieces(
            sink,
            &[
                Text("p"),
                Piece::Cost(cost),
                Number(count),
                Arcs(arcs),
                Text("\n"),
            ],
        )
    }
}
