//! The lines of an answer's routes, which workers make side by side.
ghost use Rattle.std.specs.Prelude.{◌≡◌, ℕ, ◌+◌, ◌*◌, ◌<◌, ◌≤◌, List, length, All, IfOk, IfSome, IsTrue, is_some};
ghost use Rattle.road_network.specs.Answers.{Route};
ghost use Rattle.route_io.specs.Sinks.{Sends};
ghost use Rattle.walk_readback.specs.Found.{longest_in};
ghost use Rattle.answer_writer.specs.Replies.{lines_between};
ghost use Rattle.answer_writer.specs.Routes.{AreRoutes, TellsRoutes};
ghost use Rattle.session_core.specs.Windows.{AreTexts, IsWindow, piece_size};

use crate::answerer::Answerer;
use answer_writer::put_routes;
use arc_graph::Network;
use out_of_memory::OutOfMemory;
use road_network::AnswerKind;
use route_io::sure::SureSink;
use route_io::{Sink, WriteFault, put_all};
use std::alloc::Global;
use std::thread::Threads;
use walk_readback::{FoundCosts, Room};
use work_claim::{Gate, Job, OpenGate, Phase, Workers, run_pieces};

/// How many costs a window has at most. All its texts are in memory before the first of them is sent.
const WINDOW_SIZE: usize = 4096;

/// How many costs of a window are a piece; the last piece may have fewer. So many that it takes little to share them, and so
/// few that who has made one early finds another.
const PIECE_SIZE: usize = 64;

/// The costs of an answer at the places from `from` on and below `to`, whose lines are made in memory, piece by piece.
#[derive(Drop)]
struct Window<'w, F> {
    alloc: Global,
    kind: AnswerKind,
    network: &'w Network<'w>,
    found: &'w F,
    from: usize,
    to: usize,
}

impl<F: FoundCosts + Sync> Job for Window<'_, F> {
    ghost use Rattle.std.specs.Prelude.{IfSome};
    ghost use Rattle.session_core.specs.Windows.{CanMake, IsPiece};

    /// The text, where there was memory for it.
    type Out = Option<SureSink>;

    ghost accepts = { λ w piece. CanMake w.network.now (F.state w.found.now) w.from w.to piece };

    ghost gives = { λ w piece made. IfSome made (λ text. IsPiece w.network.now
        (F.state w.found.now) w.kind w.from w.to piece text.sent) };

    fn run(&self, piece: usize) -> Result<Option<SureSink>, OutOfMemory> {
        let mut room = Room::with(self.alloc, self.found.longest())?;
        let mut text = SureSink::new(self.alloc);
        let out = &mut text;
        let start = self.from + piece * PIECE_SIZE;
        let places = start..start + PIECE_SIZE.min(self.to - start);
        match put_routes(out, self.kind, self.network, self.found, places, &mut room) {
            Ok(()) => Ok(Some(text)),
            Err(_) => Ok(None),
        }
    }
}

impl<F: FoundCosts + Sync> Window<'_, F> {
    /// How many pieces it has.
    fn pieces(&self) -> usize
        requires { self.now.from ≤ self.now.to }
        ensures each { (i : ℕ) → i < result → self.now.from + i * piece_size < self.now.to }
        ensures all { self.now.to ≤ self.now.from + result * piece_size }
    {
        (self.to - self.from).div_ceil(PIECE_SIZE)
    }

    /// Has the workers make the text of each piece. They don't pass their gate, since these are no pieces of a search.
    fn make_texts<R: Threads + Sync, G>(
        &self,
        workers: &Workers<'_, R, G>,
    ) -> Result<Vec<Option<SureSink>>, OutOfMemory>
        requires { IsWindow self.now.network.now (F.state self.now.found.now)
            self.now.from self.now.to }
        ensures { IfOk result (λ texts. AreTexts self.now.network.now (F.state self.now.found.now)
            self.now.kind self.now.from self.now.to texts.items) }
    {
        let pieces = self.pieces();
        let ungated = workers.with_gate(&OpenGate);
        run_pieces(&ungated, self.alloc, pieces, Phase::Query, self)
    }

    /// Sends the texts of its pieces in order, all of which were made.
    fn send_texts<K: Sink>(&self, texts: &[Option<SureSink>], out: &mut K) -> Result<(), WriteFault>
        requires window { IsWindow self.now.network.now (F.state self.now.found.now)
            self.now.from self.now.to }
        requires texts { AreTexts self.now.network.now (F.state self.now.found.now)
            self.now.kind self.now.from self.now.to texts.now }
        requires whole { All (λ made. IsTrue (is_some made)) texts.now }
        ensures { (routes : List Route)
            → AreRoutes self.now.network.now (F.state self.now.found.now) routes
            → Sends (K.state out.old) (K.state out.new)
            (lines_between self.now.kind routes self.now.from self.now.to) result }
    {
        for made in texts {
            put_all(out, text_of(made))?;
        }
        Ok(())
    }

    /// Sends its lines. Where memory runs out for its texts, nothing of them was sent, and the lines are made one after another
    /// in a room that is there.
    fn put<R: Threads + Sync, G, K: Sink>(
        &self,
        workers: &Workers<'_, R, G>,
        room: &mut Room,
        out: &mut K,
    ) -> Result<(), WriteFault>
        requires window { IsWindow self.now.network.now (F.state self.now.found.now)
            self.now.from self.now.to }
        requires room { longest_in (F.state self.now.found.now) ≤ room.old.holds }
        ensures lines { (routes : List Route)
            → AreRoutes self.now.network.now (F.state self.now.found.now) routes
            → Sends (K.state out.old) (K.state out.new)
            (lines_between self.now.kind routes self.now.from self.now.to) result }
        ensures room { room.old.holds ≤ room.new.holds }
    {
        match self.make_texts(workers) {
            Ok(texts) if texts.iter().all(|made| made.is_some()) => self.send_texts(&texts, out),
            _ => {
                let places = self.from..self.to;
                put_routes(out, self.kind, self.network, self.found, places, room)
            }
        }
    }
}

/// The text that was made, or nothing where it wasn't.
fn text_of(made: &Option<SureSink>) -> &[u8]
    ensures { IfSome made.now (λ text. result.now ≡ text.sent) }
{
    match made {
        Some(text) => text.sent(),
        None => &[],
    }
}

impl<R: Threads + Sync, G: Gate> Answerer<'_, R, G> {
    /// Sends the lines of all routes, window after window.
    pub(crate) fn put_windows<F: FoundCosts + Sync, K: Sink>(
        &self,
        kind: AnswerKind,
        found: &F,
        room: &mut Room,
        out: &mut K,
    ) -> Result<(), WriteFault>
        requires tells { TellsRoutes self.now.network.now (F.state found.now) }
        requires room { longest_in (F.state found.now) ≤ room.old.holds }
        ensures { (routes : List Route)
            → AreRoutes self.now.network.now (F.state found.now) routes
            → Sends (K.state out.old) (K.state out.new)
            (lines_between kind routes 0 (length (F.state found.now).costs)) result }
    {
        let count = found.count();
        let mut from = 0;
        'windows: while from < count {
            let window = Window {
                alloc: self.alloc,
                kind,
                network: self.network,
                found,
                from,
                to: from + WINDOW_SIZE.min(count - from),
            };
            window.put(self.workers, room, out)?;
            from = window.to;
        }
        Ok(())
    }
}
