//! Texts of weight files, each with its limits and the fault that it has.
ghost use Rattle.std.specs.Prelude.{◌≤◌, ◌^◌};

use super::folder_of;
use gr_reader::{FileFault, LineKind, read_gr};
use line_text::LineLimits;
use route_io::Folder;
use std::alloc::{AllocError, Global};
use std::process::Abort;

/// The limits of the program.
const WIDE: LineLimits = LineLimits {
    line: 65536,
    total: 1 << 29,
};

/// The fault of a text that comes in pieces of at most so many bytes, or None where it is a weight file.
fn fault_of(
    alloc: Global,
    text: &str,
    limits: LineLimits,
    size: usize,
) -> Result<Option<FileFault>, AllocError>
    requires some { 1 ≤ limits.line }
    requires line { limits.line ≤ 65536 }
    requires file { limits.total ≤ 2 ^ 63 }
{
    let folder = folder_of(alloc, &[("T", text)])?;
    let mut folder = folder.with_piece(size.max(1));
    if folder.select("T").is_err() {
        return Ok(Some(FileFault::Read));
    }
    match read_gr(alloc, &mut folder, limits) {
        Ok(_) => Ok(None),
        Err(fault) => Ok(Some(fault)),
    }
}

/// A text, and the kind and the line of its fault.
const FAULTS: &[(&str, LineKind, u64)] = &[
    ("p sp 2 0\na 1 2 1", LineKind::CountWrong, 2),
    ("a 1 2 1", LineKind::NoProblem, 1),
    ("p sp 2 1\np sp 2 1", LineKind::SecondProblem, 2),
    ("p sp 2 1\na 1 3 4294967296", LineKind::NodeRange, 2),
    ("p sp 0 1", LineKind::SizeRange, 1),
    ("", LineKind::NoProblem, 1),
];

/// The text has this fault, in whatever pieces it comes.
fn assert_fault(
    rt: &impl Abort,
    alloc: Global,
    text: &str,
    limits: LineLimits,
    wanted: Option<FileFault>,
)
    requires some { 1 ≤ limits.line }
    requires line { limits.line ≤ 65536 }
    requires file { limits.total ≤ 2 ^ 63 }
{
    for size in [1, usize::MAX] {
        assert!(rt;
            fault_of(alloc, text, limits, size) == Ok(wanted),
            "{text:?}"
        );
    }
}

/// A fault of this kind in this line.
fn fault(kind: LineKind, line: u64) -> Option<FileFault> {
    Some(FileFault::Line { kind, line })
}

#[test]
fn texts_have_their_faults(rt: HostRuntime) {
    for (text, kind, line) in FAULTS {
        assert_fault(&rt, rt.alloc(), text, WIDE, fault(*kind, *line));
    }
}

const SHORT_LINES: LineLimits = LineLimits {
    line: 8,
    total: 1 << 29,
};

const SHORT_FILE: LineLimits = LineLimits {
    line: 65536,
    total: 9,
};

#[test]
fn lines_have_a_limit(rt: HostRuntime) {
    let wanted = fault(LineKind::LineTooLong, 2);
    assert_fault(&rt, rt.alloc(), "p sp 1 0\nc 3456789", SHORT_LINES, wanted);
}

#[test]
fn files_have_a_limit(rt: HostRuntime) {
    let wanted = fault(LineKind::FileTooLong, 2);
    assert_fault(&rt, rt.alloc(), "p sp 1 0\n", SHORT_FILE, None);
    assert_fault(&rt, rt.alloc(), "p sp 1 0\n\n", SHORT_FILE, wanted);
}
