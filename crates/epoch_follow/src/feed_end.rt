ghost use Rattle.std.specs.Prelude.{◌≡◌};
ghost use Rattle.epoch_follow.specs.Runs.{end_by};

use line_text::LineFault;
use out_of_memory::OutOfMemory;

/// How a feed ended.
#[derive(Clone, Copy, Debug, PartialEq, Eq)]
pub enum FeedEnd {
    /// The input ended behind a message, or behind the first line.
    Whole,
    /// The input ended within a message, or before the first line.
    Cut,
    /// This line has more than 1,024 bytes, or isn't the one that is due; lines are numbered from 1.
    Bad { line: u64 },
    /// This line begins the message of an epoch that isn't the next one and hasn't been published.
    Gap { line: u64 },
    /// The feed has more bytes than may be taken.
    Long,
    /// The source failed.
    Read,
    /// Memory ran out, before the first line or at a line whose message wasn't taken then.
    OutOfMemory(OutOfMemory),
}

impl FeedEnd {
    /// What a reader of lines found at this line.
    pub(crate) fn by_fault(fault: LineFault, line: u64) -> FeedEnd
        ensures { result ≡ end_by fault line }
    {
        match fault {
            LineFault::TooLong => FeedEnd::Bad { line },
            LineFault::Total => FeedEnd::Long,
            LineFault::Read => FeedEnd::Read,
        }
    }
}

impl From<OutOfMemory> for FeedEnd {
    ghost use Rattle.std.specs.Prelude.{◌≡◌};
    ghost use Rattle.epoch_follow.specs.declared.feed_end.FeedEnd.TheVariants as end;

    ghost from_gives = { λ want e. e ≡ end.OutOfMemory want };

    fn from(want: OutOfMemory) -> FeedEnd {
        FeedEnd::OutOfMemory(want)
    }
}
