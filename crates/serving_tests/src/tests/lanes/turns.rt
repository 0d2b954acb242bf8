use route_io::memory::{MemorySink, MemorySource};
use route_io::{Failed, Sink, Source, WriteFault};
use std::sync::atomic::{AtomicBool, Ordering};

/// How often a read looks for what it waits for, a hundred times at each turn.
const TURNS: u32 = 1_000_000;

/// A source, of which one read waits until the other lane has sent something, for a limited time.
#[derive(Drop)]
pub(super) struct TurnSource<'t> {
    pub from: MemorySource,
    /// How many reads come before the one that waits.
    pub before: u32,
    pub other_sent: &'t AtomicBool,
    pub gave_up: &'t AtomicBool,
}

impl Source for TurnSource<'_> {
    ghost use Rattle.route_io.specs.Forms.{memory_source_state};

    ghost state = { λ s. memory_source_state s.from };

    fn read(&mut self, buf: &mut [u8]) -> Result<usize, Failed> {
        if self.before == 0 {
            wait_for(self.other_sent, self.gave_up);
        }
        self.before = self.before.wrapping_sub(1);
        self.from.read(buf)
    }
}

/// A sink that tells that it was sent something.
#[derive(Drop)]
pub(super) struct TurnSink<'t> {
    pub to: MemorySink,
    pub sent: &'t AtomicBool,
}

impl Sink for TurnSink<'_> {
    ghost use Rattle.route_io.specs.Forms.{memory_sink_state};

    ghost state = { λ k. memory_sink_state k.to };

    fn write(&mut self, piece: &[u8]) -> Result<usize, WriteFault> {
        let taken = self.to.write(piece);
        self.sent.store(true, Ordering::SeqCst);
        taken
    }
}

fn wait_for(flag: &AtomicBool, gave_up: &AtomicBool) {
    for _ in 0..TURNS {
        if is_set(flag) {
            return;
        }
    }
    gave_up.store(true, Ordering::SeqCst);
}

fn is_set(flag: &AtomicBool) -> bool {
    for _ in 0..100 {
        if flag.load(Ordering::SeqCst) {
            return true;
        }
    }
    false
}
