//! Texts that come in pieces, over reads of which some fail.
use route_io::Source;
use route_io::memory::MemorySource;
use std::alloc::{AllocError, Global};

/// A text, the length of the pieces that it comes in, and the numbers of the reads that fail.
#[derive(Clone, Copy)]
pub(super) struct Feed<'a> {
    text: &'a [u8],
    length: usize,
    fails: &'a [u64],
}

pub(super) fn pieces(text: &[u8], length: usize) -> Feed<'_> {
    failing(text, length, &[])
}

pub(super) fn failing<'a>(text: &'a [u8], length: usize, fails: &'a [u64]) -> Feed<'a> {
    Feed {
        text,
        length,
        fails,
    }
}

pub(super) fn source_of(alloc: Global, pieces: Feed) -> Result<MemorySource, AllocError> {
    let fails = pieces.fails.to_vec(alloc)?;
    Ok(MemorySource::new(pieces.text.to_vec(alloc)?, fails).with_piece(pieces.length.max(1)))
}

/// How many bytes a source of a short text has left.
pub(super) fn left_in(source: &mut MemorySource) -> usize {
    let mut left = 0usize;
    let mut buf = [0; 8];
    for _ in 0..100 {
        match source.read(&mut buf) {
            Ok(taken) => left = left.saturating_add(taken),
            Err(_) => break,
        }
    }
    left
}
