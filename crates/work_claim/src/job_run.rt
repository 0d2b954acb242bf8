//! A job under way.
ghost use Rattle.std.specs.Prelude.{◌≡◌, ℕ, ◌+◌, ◌++◌, ◌<◌, [], ◌∷◌, List, IfOk};
ghost use Rattle.std.specs.Thread.{IsSend, IsSync};
ghost use Rattle.work_claim.specs.Claims.{IsFresh};
ghost use Rattle.work_claim.specs.Results.{AreDone, HaveEnded};

use crate::counter::{Counter, WorkerSeat};
use crate::done::{Done, DoneList, append};
use crate::gate::{Gate, Phase};
use crate::{Job, Workers};
use std::alloc::Global;
use std::thread::{Threads, join};

/// A job under way: who does it, and the counter from which its pieces are drawn.
#[derive(Drop)]
pub(crate) struct JobRun<'c, J, R, G> {
    pub workers: &'c Workers<'c, R, G>,
    pub alloc: Global,
    pub phase: Phase,
    pub job: &'c J,
    pub counter: Counter,
}

/// What workers hand in at their end: their seat, and what came of the pieces that they drew.
#[derive(Drop)]
pub(crate) struct Report<T> {
    pub seat: WorkerSeat,
    pub done: DoneList<T>,
}

impl<'c, J: Job, R: Threads + Sync, G: Gate> JobRun<'c, J, R, G> {
    /// Has so many workers draw pieces and do them, until none is left.
    #[cycle(run)]
    pub(crate) fn run(&self, mut seat: WorkerSeat, workers: u32) -> Report<J::Out>
        requires seat { IsFresh workers self.now.counter seat }
        requires accepted { (i : ℕ) → i < self.now.counter.pieces → J.accepts self.now.job.now i }
        ensures { HaveEnded (J.gives self.now.job.now) self.now.counter workers
            result.seat result.done }
    {
        if workers == 1 {
            return self.work(seat);
        }
        let one = self.counter.seat_one(&mut seat);
        self.run_both(one, seat, workers - 1)
    }

    /// Has one worker do so in a new thread, and beside it the others. All threads are started by who asks for the work: what a new
    /// thread starts is often put on its own processor.
    #[cycle(run)]
    fn run_both(&self, one: WorkerSeat, others: WorkerSeat, count: u32) -> Report<J::Out>
        requires one { IsFresh 1 self.now.counter one }
        requires others { IsFresh count self.now.counter others }
        requires accepted { (i : ℕ) → i < self.now.counter.pieces → J.accepts self.now.job.now i }
        ensures { HaveEnded (J.gives self.now.job.now) self.now.counter (1 + count)
            result.seat result.done }
    {
        let (first, second) = join(
            self.workers.rt(),
            || -> Report<J::Out>
                requires { IsSync R.row × IsSync G.row × IsSync J.row × IsSend J.Out.row
                    × IsFresh 1 self.now.counter one
                    × ((i : ℕ) → i < self.now.counter.pieces → J.accepts self.now.job.now i) }
                ensures { HaveEnded (J.gives self.entry.now.job.now) self.entry.now.counter 1
                    result.seat result.done }
            { self.help(one) },
            || -> Report<J::Out>
                requires { IsSync R.row × IsSync G.row × IsSync J.row × IsSend J.Out.row
                    × IsFresh count self.now.counter others
                    × ((i : ℕ) → i < self.now.counter.pieces → J.accepts self.now.job.now i) }
                ensures { HaveEnded (J.gives self.entry.now.job.now) self.entry.now.counter count
                    result.seat result.done }
            { self.run(others, count) },
        );
        self.together(first, second)
    }

    /// What two reports say together.
    fn together(&self, first: Report<J::Out>, second: Report<J::Out>) -> Report<J::Out>
        requires first { first.seat.table ≡ self.now.counter.table }
        requires second { second.seat.table ≡ self.now.counter.table }
        ensures { (few more : ℕ)
            → HaveEnded (J.gives self.now.job.now) self.now.counter few first.seat first.done
            → HaveEnded (J.gives self.now.job.now) self.now.counter more second.seat second.done
            → HaveEnded (J.gives self.now.job.now) self.now.counter (few + more)
            result.seat result.done }
    {
        let Report { mut seat, done } = first;
        self.counter.join(&mut seat, second.seat);
        Report {
            seat,
            done: append(done, second.done),
        }
    }

    /// Does so as a helper, and tells how many pieces it did.
    fn help(&self, seat: WorkerSeat) -> Report<J::Out>
        requires seat { IsFresh 1 self.now.counter seat }
        requires accepted { (i : ℕ) → i < self.now.counter.pieces → J.accepts self.now.job.now i }
        ensures { HaveEnded (J.gives self.now.job.now) self.now.counter 1 result.seat result.done }
    {
        let report = self.work(seat);
        if let Ok(done) = &report.done {
            self.workers.help(done.len() as u64);
        }
        report
    }

    /// Draws pieces and does them, until none is left.
    fn work(&self, mut seat: WorkerSeat) -> Report<J::Out>
        requires seat { IsFresh 1 self.now.counter seat }
        requires accepted { (i : ℕ) → i < self.now.counter.pieces → J.accepts self.now.job.now i }
        ensures { HaveEnded (J.gives self.now.job.now) self.now.counter 1 result.seat result.done }
    {
        let mut done = Ok(Vec::new(self.alloc));
        while let Some(piece) = self.counter.draw(&mut seat) {
            done = self.add(done, piece);
        }
        Report { seat, done }
    }

    /// Does a piece, and adds what comes of it.
    fn add(&self, done: DoneList<J::Out>, piece: usize) -> DoneList<J::Out>
        requires { J.accepts self.now.job.now piece }
        ensures { (pieces : ℕ) (numbers : List ℕ) → piece < pieces
            → IfOk done (λ d. AreDone (J.gives self.now.job.now) pieces numbers d.items)
            → IfOk result (λ d.
            AreDone (J.gives self.now.job.now) pieces (numbers ++ piece ∷ []) d.items) }
    {
        self.workers.gate().pass(self.phase, piece as u64);
        let out = self.job.run(piece);
        let mut done = done?;
        done.push(Done { piece, out: out? })?;
        Ok(done)
    }
}
