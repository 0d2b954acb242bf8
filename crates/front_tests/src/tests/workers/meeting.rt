ghost use Rattle.std.specs.Prelude.{◌≡◌};

use out_of_memory::OutOfMemory;
use std::alloc::Global;
use std::sync::atomic::{AtomicBool, Ordering};
use std::thread::Threads;
use work_claim::{Gate, Job, Phase, Workers, run_pieces};

/// The number of each piece.
#[derive(Drop)]
struct Numbers;

impl Job for Numbers {
    type Out = usize;

    ghost accepts = { λ _ piece. piece ≡ piece };

    ghost gives = { λ _ piece out. out ≡ piece };

    fn run(&self, piece: usize) -> Result<usize, OutOfMemory> {
        Ok(piece)
    }
}

/// Holds each of the pieces 0 and 1 until the other has come, for a limited time.
#[derive(Drop)]
struct Meeting {
    even_came: AtomicBool,
    odd_came: AtomicBool,
    gave_up: AtomicBool,
}

/// How often a piece looks for the other, a hundred times at each turn.
const TURNS: u32 = 1_000_000;

impl Gate for Meeting {
    const SHARED_FROM: usize = 0;

    ghost SHARED_FROM = { 0 };

    fn pass(&self, _phase: Phase, piece: u64) {
        let (own, other) = match piece {
            0 => (&self.even_came, &self.odd_came),
            _ => (&self.odd_came, &self.even_came),
        };
        own.store(true, Ordering::SeqCst);
        for _ in 0..TURNS {
            if came(other) {
                return;
            }
        }
        self.gave_up.store(true, Ordering::SeqCst);
    }
}

fn came(flag: &AtomicBool) -> bool {
    for _ in 0..100 {
        if flag.load(Ordering::SeqCst) {
            return true;
        }
    }
    false
}

/// Whether two workers do two pieces that wait for each other, in their order.
fn meet<R: Threads + Sync>(rt: &R, alloc: Global) -> Result<bool, OutOfMemory> {
    let gate = Meeting {
        even_came: AtomicBool::new(false),
        odd_came: AtomicBool::new(false),
        gave_up: AtomicBool::new(false),
    };
    let workers = Workers::new(rt, 2, &gate);
    let outs = run_pieces(&workers, alloc, 2, Phase::Relax, &Numbers)?;
    let gave_up = gate.gave_up.load(Ordering::SeqCst);
    Ok(outs.as_slice() == [0, 1].as_slice() && !gave_up)
}

#[test]
fn two_workers_do_two_pieces_at_once(rt: HostRuntime) {
    assert!(rt; meet(&rt, rt.alloc()) == Ok(true), "the pieces meet");
}
