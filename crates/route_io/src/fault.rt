use out_of_memory::OutOfMemory;
use thiserror::Error;

/// The outside failed: a read, a write, or the choice of a file.
#[derive(Clone, Copy, Debug, PartialEq, Eq, Error)]
#[error("the outside failed")]
pub struct Failed;

/// Why a sink took nothing of a piece, and a text was sent in part.
#[derive(Clone, Copy, Debug, PartialEq, Eq, Error)]
pub enum WriteFault {
    #[error("the sink failed")]
    Failed,
    #[error("the sink is out of memory")]
    OutOfMemory(OutOfMemory),
}
