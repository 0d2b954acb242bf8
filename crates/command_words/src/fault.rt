//! Why no command was read.
ghost use Rattle.std.specs.Prelude.{◌≡◌, ◌≢◌};

use clap::error::ErrorKind;
use std::alloc::AllocError;
use thiserror::Error;

/// Memory ran out while words were read. It is made of an error that says so alone, the allocator's or `clap`'s.
#[derive(Clone, Copy, Debug, PartialEq, Eq)]
pub struct WordsWant(());

/// Why no command was read.
#[derive(Clone, Copy, Debug, PartialEq, Eq, Error)]
pub enum WordsFault {
    /// The words are those of no command.
    #[error("the words are those of no command")]
    Refused,
    /// Memory ran out.
    #[error("out of memory")]
    OutOfMemory(WordsWant),
}

impl From<AllocError> for WordsFault {
    ghost use Rattle.std.specs.Prelude.{◌≡◌};
    ghost use Rattle.command_words.specs.declared.fault.WordsFault.TheVariants.{OutOfMemory};

    ghost from_gives = { λ _ fault. fault ≡ OutOfMemory (record { 0 = tt }) };

    fn from(_error: AllocError) -> WordsFault {
        WordsFault::OutOfMemory(WordsWant(()))
    }
}

impl From<clap::Error> for WordsFault {
    ghost use Rattle.std.specs.Prelude.{◌≡◌, ◌≢◌};
    ghost use Rattle.clap.specs.Words.{kind_of};
    ghost use Rattle.clap.specs.declared.error.kind.ErrorKind.TheVariants as kind;
    ghost use Rattle.command_words.specs.declared.fault.WordsFault.TheVariants.{Refused};

    ghost from_gives = { λ error fault. fault ≡ Refused → kind_of error ≢ kind.OutOfMemory };

    fn from(error: clap::Error) -> WordsFault {
        match error.kind() {
            ErrorKind::OutOfMemory => WordsFault::OutOfMemory(WordsWant(())),
            _ => WordsFault::Refused,
        }
    }
}
