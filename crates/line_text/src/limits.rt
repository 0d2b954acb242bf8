use thiserror::Error;

/// How many bytes a line may have before its LF, and how many the whole input may have.
#[derive(Clone, Copy, Debug, PartialEq, Eq)]
pub struct LineLimits {
    pub line: u32,
    pub total: u64,
}

/// Why there is no next line.
#[derive(Clone, Copy, Debug, PartialEq, Eq, Error)]
pub enum LineFault {
    #[error("the source failed")]
    Read,
    #[error("the line is too long")]
    TooLong,
    #[error("the input is too long")]
    Total,
}

/// What the next line is as a request.
#[derive(Clone, Copy, Debug, PartialEq, Eq)]
pub enum Request {
    /// It is the current line.
    Whole,
    /// It has more bytes before its LF than the limit, and was skipped.
    Long,
}
