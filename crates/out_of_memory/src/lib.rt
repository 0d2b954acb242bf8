//! Want of memory: the one error that every crate which takes memory may answer.
#![tactic(auto)]

ghost use Rattle.std.specs.Prelude.{Some, codes};

use std::alloc::{AllocError, AllocFailed};
use std::error::Error;
use std::fmt;

/// An allocation failed. It is made of the allocator's own errors alone, so whoever answers it saw one.
#[derive(Clone, Copy, Debug, PartialEq, Eq)]
pub struct OutOfMemory {
    error: AllocError,
}

impl fmt::Display for OutOfMemory {
    ghost output = { λ _. Some (codes "out of memory") };

    fn fmt<W: fmt::Write>(&self, f: &mut fmt::Formatter<W>) -> fmt::Result {
        f.write_str("out of memory")
    }
}

impl Error for OutOfMemory {}

impl From<AllocError> for OutOfMemory {
    fn from(error: AllocError) -> OutOfMemory {
        OutOfMemory { error }
    }
}

impl<T: Drop> From<AllocFailed<T>> for OutOfMemory {
    fn from(failed: AllocFailed<T>) -> OutOfMemory {
        OutOfMemory {
            error: failed.into(),
        }
    }
}
