//! Links in memory, and what comes over them.
use route_io::MemoryLink;
use route_io::memory::{MemorySink, MemorySource};
use std::alloc::{AllocError, Global};

/// What comes over a link, and how.
#[derive(Clone, Copy)]
pub(super) struct Feed<'f> {
    pub text: &'f [u8],
    /// The most bytes of a read, and of a write.
    pub pieces: (usize, usize),
    /// The numbers of the reads that fail.
    pub fails: &'f [u64],
    /// How many bytes can be sent.
    pub room: u64,
}

/// A text of which each read takes what it can, and nothing fails.
pub(super) fn whole(text: &str) -> Feed<'_> {
    in_pieces(text, usize::MAX, usize::MAX)
}

pub(super) fn in_pieces(text: &str, read: usize, write: usize) -> Feed<'_> {
    Feed {
        text: text.as_bytes(),
        pieces: (read, write),
        fails: &[],
        room: u64::MAX,
    }
}

pub(super) fn link_of(alloc: Global, feed: &Feed<'_>) -> Result<MemoryLink, AllocError> {
    let (read, write) = feed.pieces;
    let (text, fails) = (feed.text.to_vec(alloc)?, feed.fails.to_vec(alloc)?);
    Ok(MemoryLink {
        from: MemorySource::new(text, fails).with_piece(read.max(1)),
        to: MemorySink::new(alloc, feed.room, Vec::new(alloc)).with_piece(write.max(1)),
    })
}

/// A line: a word, the byte that fills it up, its size without the end, and its end.
pub(super) type LongLine = (&'static str, u8, usize, &'static str);

pub(super) fn text_of(alloc: Global, lines: &[LongLine]) -> Result<Vec<u8>, AllocError> {
    let mut text = Vec::new(alloc);
    for line in lines {
        put_line(&mut text, line)?;
    }
    Ok(text)
}

fn put_line(text: &mut Vec<u8>, line: &LongLine) -> Result<(), AllocError> {
    let (word, filler, size, end) = *line;
    text.extend_from_slice(word.as_bytes())?;
    for _ in word.len()..size {
        text.push(filler)?;
    }
    text.extend_from_slice(end.as_bytes())
}
