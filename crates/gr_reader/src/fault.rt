ghost use Rattle.std.specs.Prelude.{◌≡◌};
ghost use Rattle.gr_reader.specs.Kinds.{kind_number, known_as};

use line_text::LineFault;
use out_of_memory::OutOfMemory;
use std::fmt;
use thiserror::Error;

/// What is wrong with a line, or with the place behind the last line.
#[derive(Clone, Copy, Debug, PartialEq, Eq)]
pub enum LineKind {
    /// The line has none of the forms.
    BadLine = 1,
    /// No problem line stands before a record, or none in the whole file.
    NoProblem = 2,
    /// A problem line stands before this one.
    SecondProblem = 3,
    /// The problem line's numbers are out of range.
    SizeRange = 4,
    /// An end of the record isn't a node.
    NodeRange = 5,
    /// The arc's weight is too great.
    WeightRange = 6,
    /// There are more records, or at the end fewer, than the problem line says.
    CountWrong = 7,
    /// The line has more bytes than its limit.
    LineTooLong = 8,
    /// The byte behind the file's limit stands in the line, its LF counted.
    FileTooLong = 9,
}

impl LineKind {
    /// The number of the kind, 1 to 9.
    pub fn number(self) -> u8
        ensures { result ≡ kind_number self }
    {
        self as u8
    }
}

/// What is wrong, in a few words.
impl fmt::Display for LineKind {
    fn fmt<W: fmt::Write>(&self, f: &mut fmt::Formatter<W>) -> fmt::Result {
        f.write_str(match self {
            LineKind::BadLine => "none of the forms",
            LineKind::NoProblem => "no problem line before it",
            LineKind::SecondProblem => "a second problem line",
            LineKind::SizeRange => "size out of range",
            LineKind::NodeRange => "node out of range",
            LineKind::WeightRange => "weight out of range",
            LineKind::CountWrong => "not as many records as the problem line says",
            LineKind::LineTooLong => "line too long",
            LineKind::FileTooLong => "file too long",
        })
    }
}

/// Why a file can't be read to its end. Lines are numbered from 1.
#[derive(Clone, Copy, Debug, PartialEq, Eq, Error)]
pub enum FileFault {
    #[error("line {line}: {kind}")]
    Line { kind: LineKind, line: u64 },
    #[error("the source failed")]
    Read,
    #[error("out of memory")]
    OutOfMemory(OutOfMemory),
}

impl FileFault {
    /// What a reader of lines found at this line.
    pub fn at_line(fault: LineFault, line: u64) -> FileFault
        ensures { result ≡ known_as fault line }
    {
        let kind = match fault {
            LineFault::TooLong => LineKind::LineTooLong,
            LineFault::Total => LineKind::FileTooLong,
            LineFault::Read => return FileFault::Read,
        };
        FileFault::Line { kind, line }
    }
}

impl From<OutOfMemory> for FileFault {
    ghost use Rattle.std.specs.Prelude.{◌≡◌};
    ghost use Rattle.gr_reader.specs.declared.fault.FileFault.TheVariants as fault;

    ghost from_gives = { λ want e. e ≡ fault.OutOfMemory want };

    fn from(want: OutOfMemory) -> FileFault {
        FileFault::OutOfMemory(want)
    }
}
