//! The counter from which workers draw the numbers of pieces, and the five kinds of step that they make: it is made, one
//! worker leaves a seat, a number is drawn, two seats are joined, and it is closed.
ghost use Rattle.std.specs.Prelude.{◌≡◌, ◌^◌, ◌<◌, ◌≤◌, [], IfOk};
ghost use Rattle.work_claim.specs.Claims.{DrawsNext, HoldsEachPieceOnce, for_one, joined, past, without_one};

use crate::rule::{Claim, Claiming, Draws, OneLeaves, Plan, Together};
use atomic_table::{Seat, Table};
use out_of_memory::OutOfMemory;
use std::alloc::Global;
use std::marker::Model;

/// The counter.
#[derive(Drop)]
pub(crate) struct Counter {
    pieces: usize,
    table: Table<(), Draws, Plan, Claiming, Global>,
}

impl Model for Counter {
    ghost use Rattle.std.specs.Prelude.{◌≡◌, ◌^◌, ◌<◌};
    ghost use Rattle.work_claim.specs.Claims.{Counter};

    ghost Value = { Counter };

    ghost view = { λ c. record {
      table = c.table.shared.table_id;
      pieces = c.table.shared.key.pieces;
      workers = c.table.shared.key.workers;
    } };

    ghost invariant = { λ c. (c.table.shared.table_id.words ≡ 1)
        × (c.table.shared.table_id.slots ≡ 0)
        × (c.pieces ≡ c.table.shared.key.pieces)
        × (c.table.shared.key.pieces < 2 ^ 32)
        × (c.table.shared.key.workers < 2 ^ 32) };
}

/// A seat at the counter, for one worker or several.
#[derive(Drop)]
pub(crate) struct WorkerSeat {
    seat: Seat<(), Draws>,
}

impl Model for WorkerSeat {
    ghost use Rattle.std.specs.Prelude.{◌≡◌, []};
    ghost use Rattle.work_claim.specs.Claims.{WorkerSeat};

    ghost Value = { WorkerSeat };

    ghost view = { λ s. record { table = s.seat.table_id; draws = s.seat.me.0 } };

    ghost invariant = { λ s. s.seat.me.1 ≡ [] };
}

impl Counter {
    /// A counter that stands at 0, and a seat for all workers.
    pub(crate) fn new(
        alloc: Global,
        pieces: usize,
        workers: u32,
    ) -> Result<(Counter, WorkerSeat), OutOfMemory>
        requires { pieces < 2 ^ 32 }
        ensures pieces { IfOk result (λ r. r.0.pieces ≡ pieces) }
        ensures workers { IfOk result (λ r. r.0.workers ≡ workers) }
        ensures seat { IfOk result (λ r. r.1
            ≡ record { table = r.0.table; draws = record { numbers = []; workers = workers } }) }
    {
        let (table, seat) = Table::of_words(alloc, &[0], &Plan { pieces, workers })?;
        Ok((Counter { pieces, table }, WorkerSeat { seat }))
    }

    /// Gives one of a seat's workers, who haven't drawn yet, a seat of its own.
    pub(crate) fn seat_one(&self, seat: &mut WorkerSeat) -> WorkerSeat
        requires table { seat.old.table ≡ self.now.table }
        requires several { 2 ≤ seat.old.draws.workers }
        requires fresh { seat.old.draws.numbers ≡ [] }
        ensures left { seat.new ≡ record seat.old { draws = without_one seat.old.draws } }
        ensures right { result ≡ record seat.old { draws = for_one } }
    {
        WorkerSeat {
            seat: self.table.shared.split_seat::<OneLeaves>(&mut seat.seat),
        }
    }

    /// Draws a number, and answers the piece of this number, or `None` where there is none.
    pub(crate) fn draw(&self, seat: &mut WorkerSeat) -> Option<usize>
        requires table { seat.old.table ≡ self.now.table }
        requires may { past self.now.pieces seat.old.draws.numbers < seat.old.draws.workers }
        ensures { DrawsNext self.now.pieces seat.old seat.new result }
    {
        let number = self.table.shared.fetch_add::<Claim>(&mut seat.seat, 0, 1) as usize;
        if number < self.pieces {
            Some(number)
        } else {
            None
        }
    }

    /// Has a seat take in another.
    pub(crate) fn join(&self, seat: &mut WorkerSeat, other: WorkerSeat)
        requires table { seat.old.table ≡ self.now.table }
        requires other { other.table ≡ self.now.table }
        ensures { seat.new ≡ record seat.old { draws = joined seat.old.draws other.draws } }
    {
        let WorkerSeat { seat: other } = other;
        self.table
            .shared
            .join_seat::<Together>(&mut seat.seat, other);
    }

    /// Closes the counter, where all workers have come together and each has drawn a number past the pieces.
    pub(crate) fn close(self, seat: WorkerSeat)
        requires table { seat.table ≡ self.table }
        requires some { 1 ≤ self.workers }
        requires all { seat.draws.workers ≡ self.workers }
        requires done { past self.pieces seat.draws.numbers ≡ self.workers }
        ensures { HoldsEachPieceOnce self.pieces seat.draws.numbers }
    {
        let Counter { pieces: _, table } = self;
        let WorkerSeat { seat } = seat;
        table.close_with(seat).free();
    }
}
