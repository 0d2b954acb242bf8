use std::sync::atomic::{AtomicU64, Ordering};
use work_claim::{Gate, Phase};

/// Counts the pieces that pass, and adds up their numbers.
#[derive(Drop)]
pub(super) struct Counting {
    passed: AtomicU64,
    sum: AtomicU64,
}

impl Counting {
    pub(super) fn new() -> Counting {
        Counting {
            passed: AtomicU64::new(0),
            sum: AtomicU64::new(0),
        }
    }

    pub(super) fn passed(&self) -> u64 {
        self.passed.load(Ordering::SeqCst)
    }

    pub(super) fn sum(&self) -> u64 {
        self.sum.load(Ordering::SeqCst)
    }
}

impl Gate for Counting {
    const SHARED_FROM: usize = 0;

    ghost SHARED_FROM = { 0 };

    fn pass(&self, _phase: Phase, piece: u64) {
        self.passed.fetch_add(1, Ordering::SeqCst);
        self.sum.fetch_add(piece, Ordering::SeqCst);
    }
}
