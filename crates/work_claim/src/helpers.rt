ghost use Rattle.std.specs.Prelude.{◌≤◌};

use std::sync::atomic::{AtomicU32, AtomicU64, Ordering};

/// After how many jobs in turn whose helpers came too late the next ones aren't shared.
const LATE_JOBS: u32 = 3;

/// The power of two up to which jobs aren't shared before it is tried again.
const MOST_ALONE: u32 = 12;

/// A helper is late that does less than this part of what would be its share.
const PART: u64 = 4;

/// Whether the threads that were started to share a search's work came in time of late. On a busy machine a thread may begin only
/// when who started it has done nearly all the work, and yet must be waited for. So where that goes on, most jobs aren't shared, and
/// some still are, which tells when helpers come in time again.
#[derive(Drop)]
pub struct Helpers {
    done: AtomicU64,
    late: AtomicU32,
    alone: AtomicU32,
}

impl Helpers {
    /// None was started yet.
    pub fn new() -> Helpers {
        Helpers {
            done: AtomicU64::new(0),
            late: AtomicU32::new(0),
            alone: AtomicU32::new(0),
        }
    }

    /// A helper did so many pieces.
    pub(crate) fn help(&self, pieces: u64) {
        self.done.fetch_add(pieces, Ordering::Relaxed);
    }

    /// So many workers have shared a job of so many pieces. Too few pieces tell of late helpers only where none found any.
    pub(crate) fn end_job(&self, pieces: u64, workers: u32)
        requires { 1 ≤ workers }
    {
        let done = self.done.swap(0, Ordering::Relaxed);
        let least = pieces / (PART * u64::from(workers));
        if done == 0 || done < least.saturating_mul(u64::from(workers - 1)) {
            self.be_late();
        } else if least > 0 {
            let late = self.late.load(Ordering::Relaxed);
            self.late.store(late.saturating_sub(1), Ordering::Relaxed);
        }
    }

    /// The helpers of a job were late.
    fn be_late(&self) {
        let late = self.late.load(Ordering::Relaxed);
        let late = late.saturating_add(1).min(MOST_ALONE);
        self.late.store(late, Ordering::Relaxed);
        if late >= LATE_JOBS {
            self.alone.store(1u32.wrapping_shl(late), Ordering::Relaxed);
        }
    }

    /// Whether the next jobs may be shared.
    pub(crate) fn may_share(&self) -> bool {
        let alone = self.alone.load(Ordering::Relaxed);
        self.alone.store(alone.saturating_sub(1), Ordering::Relaxed);
        alone == 0
    }
}
