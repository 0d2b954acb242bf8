use crate::memory::{MemorySink, MemorySource};
use crate::sure::{SureSink, SureSource};

/// A source to read from and a sink to write to, such as the two directions of a connection. Neither knows of the other.
#[derive(Drop)]
pub struct Link<S, K> {
    pub from: S,
    pub to: K,
}

/// A link in memory, whose reads and writes are numbered apart.
pub type MemoryLink = Link<MemorySource, MemorySink>;

/// A link in memory that never fails.
pub type SureLink = Link<SureSource, SureSink>;
