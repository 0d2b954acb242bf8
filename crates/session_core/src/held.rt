use crate::made::MadeReply;
use std::sync::atomic::{AtomicU64, AtomicUsize, Ordering};

/// How many bytes of replies are enough, so that no further one is begun: 64 MiB.
const ENOUGH_BYTES: u64 = 1 << 26;

/// How far workers are who make replies side by side: how many bytes they hold, and the replies to how many of the first queries
/// there are, up to the last that was begun.
#[derive(Drop)]
pub(crate) struct Held {
    bytes: AtomicU64,
    begun: AtomicUsize,
}

impl Held {
    /// No reply was begun.
    pub(crate) fn new() -> Held {
        Held {
            bytes: AtomicU64::new(0),
            begun: AtomicUsize::new(0),
        }
    }

    /// Begins the reply to the query at this place, unless what is held is enough.
    pub(crate) fn begin(&self, place: usize) -> bool {
        let may = self.bytes.load(Ordering::Relaxed) < ENOUGH_BYTES;
        if may {
            self.begun
                .fetch_max(place.saturating_add(1), Ordering::Relaxed);
        }
        may
    }

    /// Holds a reply that was begun, if there was memory for it.
    pub(crate) fn end(&self, made: Option<&MadeReply>) {
        if let Some(made) = made {
            self.bytes
                .fetch_add(made.text.sent().len() as u64, Ordering::Relaxed);
        }
    }

    /// How many of the first queries there are, up to the last whose reply was begun.
    pub(crate) fn begun(&self) -> usize {
        self.begun.load(Ordering::Relaxed)
    }
}
