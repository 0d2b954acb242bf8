//! How files of weights and files of pairs are read, and what is shown of them.
ghost use Rattle.std.specs.Prelude.{◌≤◌, ◌^◌};

use super::assert_text;
use super::feeds::{Feed, left_in, pieces, source_of};
use super::pairs::shown_pairs;
use super::weight_files::shown_weights;
use gr_reader::{FileFault, read_gr};
use line_text::LineLimits;
use query_reader::read_p2p;
use route_io::memory::MemorySource;
use std::alloc::{AllocError, Global};
use std::process::Abort;

/// As which of the two a file is read.
#[derive(Clone, Copy)]
pub(super) enum FileForm {
    Weights,
    Pairs,
}

/// The kind's number and the line of a fault, `m`, or `r` with how many bytes are left behind the read that failed.
fn shown_fault(
    alloc: Global,
    fault: FileFault,
    source: &mut MemorySource,
) -> Result<String, AllocError> {
    match fault {
        FileFault::Line { kind, line } => format!(in alloc; "{} at {line}", kind.number()),
        FileFault::Read => format!(in alloc; "r, {} left", left_in(source)),
        FileFault::OutOfMemory(_) => String::from_str(alloc, "m"),
    }
}

fn shown_weight_file(
    alloc: Global,
    source: &mut MemorySource,
    limits: LineLimits,
) -> Result<String, AllocError>
    requires some { 1 ≤ limits.line }
    requires line { limits.line ≤ 65536 }
    requires file { limits.total ≤ 2 ^ 63 }
{
    match read_gr(alloc, source, limits) {
        Ok(file) => shown_weights(alloc, &file),
        Err(fault) => shown_fault(alloc, fault, source),
    }
}

fn shown_pair_file(
    alloc: Global,
    source: &mut MemorySource,
    limits: LineLimits,
) -> Result<String, AllocError>
    requires some { 1 ≤ limits.line }
    requires line { limits.line ≤ 65536 }
    requires file { limits.total ≤ 2 ^ 63 }
{
    match read_p2p(alloc, source, limits) {
        Ok(pairs) => shown_pairs(alloc, &pairs),
        Err(fault) => shown_fault(alloc, fault, source),
    }
}

/// What a text says: what the file holds, or its fault.
pub(super) fn shown(
    alloc: Global,
    text: Feed,
    limits: LineLimits,
    form: FileForm,
) -> Result<String, AllocError>
    requires some { 1 ≤ limits.line }
    requires line { limits.line ≤ 65536 }
    requires file { limits.total ≤ 2 ^ 63 }
{
    let mut source = source_of(alloc, text)?;
    match form {
        FileForm::Weights => shown_weight_file(alloc, &mut source, limits),
        FileForm::Pairs => shown_pair_file(alloc, &mut source, limits),
    }
}

pub(super) const WIDE: LineLimits = LineLimits {
    line: 100,
    total: 1 << 29,
};

/// This is shown of a text, in whatever pieces it comes.
fn assert_shown(
    rt: &impl Abort,
    alloc: Global,
    text: &[u8],
    limits: LineLimits,
    form: FileForm,
    wanted: &str,
)
    requires some { 1 ≤ limits.line }
    requires line { limits.line ≤ 65536 }
    requires file { limits.total ≤ 2 ^ 63 }
{
    for length in [1, 2, 1000] {
        assert_text(rt, shown(alloc, pieces(text, length), limits, form), wanted);
    }
}

/// Of each text what stands beside it is shown.
pub(super) fn assert_rows(rt: &impl Abort, alloc: Global, rows: &[(&str, &str)], form: FileForm) {
    for (text, wanted) in rows {
        assert_shown(rt, alloc, text.as_bytes(), WIDE, form, wanted);
    }
}

/// So it is in files of the size beside each text, with lines of this length at most.
pub(super) fn assert_limited(
    rt: &impl Abort,
    alloc: Global,
    rows: &[(&str, u32, &str)],
    line: u32,
    form: FileForm,
)
    requires some { 1 ≤ line }
    requires line { line ≤ 65536 }
{
    for (text, file, wanted) in rows {
        let limits = LineLimits {
            line,
            total: u64::from(*file),
        };
        assert_shown(rt, alloc, text.as_bytes(), limits, form, wanted);
    }
}

/// Of a text that is cut to a length from the first to the last of a row, what stands there is shown.
pub(super) fn assert_cuts(
    rt: &impl Abort,
    alloc: Global,
    text: &[u8],
    rows: &[(usize, usize, &str)],
    form: FileForm,
) {
    for (first, last, wanted) in rows {
        for length in *first..=*last {
            let cut = &text[..length.min(text.len())];
            assert_shown(rt, alloc, cut, WIDE, form, wanted);
        }
    }
}
