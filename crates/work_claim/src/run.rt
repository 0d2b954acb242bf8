ghost use Rattle.std.specs.Prelude.{ℕ, ◌^◌, ◌<◌, ◌≤◌, IfOk};
ghost use Rattle.work_claim.specs.Results.{GivesAll};

use crate::counter::Counter;
use crate::done::in_order;
use crate::gate::{Gate, Phase};
use crate::job_run::JobRun;
use crate::{Job, Workers};
use out_of_memory::OutOfMemory;
use std::alloc::Global;
use std::thread::Threads;

/// Has the workers do all pieces of a job. Each piece is done by whoever draws its number, so which worker does which
/// piece is open, and so is how many threads there are: where none can be started, who asks for it does the work.
pub fn run_pieces<J: Job, R: Threads + Sync, G: Gate>(
    workers: &Workers<'_, R, G>,
    alloc: Global,
    pieces: usize,
    phase: Phase,
    job: &J,
) -> Result<Vec<J::Out>, OutOfMemory>
    requires numbered { pieces < 2 ^ 32 }
    requires accepted { (piece : ℕ) → piece < pieces → J.accepts job.now piece }
    ensures { IfOk result (λ outs. GivesAll (J.gives job.now) pieces outs.items) }
{
    if workers.count() == 1 || pieces <= 1 {
        return run_alone(workers, alloc, pieces, phase, job);
    }
    run_together(workers, alloc, pieces, phase, job)
}

/// Does the pieces one after another.
fn run_alone<J: Job, R, G: Gate>(
    workers: &Workers<'_, R, G>,
    alloc: Global,
    pieces: usize,
    phase: Phase,
    job: &J,
) -> Result<Vec<J::Out>, OutOfMemory>
    requires accepted { (piece : ℕ) → piece < pieces → J.accepts job.now piece }
    ensures { IfOk result (λ outs. GivesAll (J.gives job.now) pieces outs.items) }
{
    let mut outs = Vec::with_capacity(alloc, pieces)?;
    for piece in 0..pieces {
        workers.gate().pass(phase, piece as u64);
        outs.push(job.run(piece)?)?;
    }
    Ok(outs)
}

/// Has the workers draw the pieces from a counter, and puts in order what comes of them.
fn run_together<J: Job, R: Threads + Sync, G: Gate>(
    workers: &Workers<'_, R, G>,
    alloc: Global,
    pieces: usize,
    phase: Phase,
    job: &J,
) -> Result<Vec<J::Out>, OutOfMemory>
    requires numbered { pieces < 2 ^ 32 }
    requires accepted { (piece : ℕ) → piece < pieces → J.accepts job.now piece }
    ensures { IfOk result (λ outs. GivesAll (J.gives job.now) pieces outs.items) }
{
    let (counter, seat) = Counter::new(alloc, pieces, workers.count())?;
    let job_run = JobRun {
        workers,
        alloc,
        phase,
        job,
        counter,
    };
    let report = job_run.run(seat, workers.count());
    workers.end_job(pieces as u64);
    job_run.counter.close(report.seat);
    in_order(alloc, report.done?)
}
