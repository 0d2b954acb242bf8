use out_of_memory::OutOfMemory;

/// How the serving of a link ended.
#[derive(Clone, Copy, Debug, PartialEq, Eq)]
pub enum SessionEnd {
    /// A line asked for it, or the input ended before the most bytes that are taken.
    Ended,
    /// The source failed.
    ReadFault,
    /// The sink failed, within the reply to the last line that was begun.
    WriteFault,
    /// As many bytes were taken as may be, and no line among them asked for the end.
    TooLong,
    /// Memory ran out before a reply, or the sink itself wanted memory within one.
    OutOfMemory(OutOfMemory),
}
