ghost use Rattle.std.specs.Prelude.{◌≡◌, ◌+◌, ◌≤◌, ◌^◌, IfErr, IfSome};
ghost use Rattle.route_io.specs.Sources.{ReadsFrom};
ghost use Rattle.line_text.specs.Reading.{max_line};
ghost use Rattle.line_text.specs.Texts.{TakesAtMost};
ghost use Rattle.gr_reader.specs.Grammar.{IsGrFile, weights};
ghost use Rattle.gr_reader.specs.Reader.{IsComplete, IsSound, MayAnswer, ReadsWhole, file_failed};
ghost use Rattle.gr_reader.specs.Sinks.{ReadsInto};

use crate::arc_sink::OneFile;
use crate::fault::FileFault;
use crate::grammar::Grammar;
use crate::record_sink::RecordSink;
use crate::records::{end, take_line};
use crate::weights::WeightFiles;
use arc_graph::ArcFile;
use line_text::{LineLimits, Lines};
use route_io::Source;
use std::alloc::Global;

/// Reads a whole weight file.
pub fn read_gr<S: Source>(
    alloc: Global,
    source: &mut S,
    limits: LineLimits,
) -> Result<ArcFile, FileFault>
    requires some { 1 ≤ limits.line }
    requires line { limits.line ≤ max_line }
    requires file { limits.total ≤ 2 ^ 63 }

    // Where the source tells its bytes, a file is answered exactly for its text, and a fault of a line exactly
    // where it is the first, but for the source's failures and want of memory.
    ensures sound { IfSome (S.state source.old).left (λ bytes.
        IsSound weights (IsGrFile limits bytes) limits bytes result) }
    ensures complete { IfSome (S.state source.old).left (λ bytes.
        IsComplete weights (IsGrFile limits bytes) limits bytes result) }

    // Where the source tells its bytes, at most one byte past the limit is taken.
    ensures takes_at_most { TakesAtMost (limits.total + 1)
        (S.state source.old) (S.state source.new) }

    // The source's failures alone make a failed read.
    ensures source { ReadsFrom (S.state source.old) (S.state source.new) (file_failed result) }
{
    let mut file = OneFile::new(alloc);
    read_into(alloc, source, limits, &mut file)?;
    Ok(file.whole())
}

/// Reads a whole weight file, and hands its arcs to the sink as they come.
pub fn read_into<S: Source, K: RecordSink<WeightFiles>>(
    alloc: Global,
    source: &mut S,
    limits: LineLimits,
    sink: &mut K,
) -> Result<(), FileFault>
    requires some { 1 ≤ limits.line }
    requires line { limits.line ≤ max_line }
    requires file { limits.total ≤ 2 ^ 63 }
    requires ready { K.is_ready sink.old }

    // The sink has taken the file that is read. Where the source tells its bytes, that is the one of the text, and a
    // fault of a line is the first.
    ensures reads { ReadsInto limits (S.state source.old).left
        (λ arcs file. K.has_taken sink.old sink.new
        (record { nodes = file.nodes; arcs = arcs }) file.arcs) result }

    // Where the source tells its bytes, at most one byte past the limit is taken.
    ensures takes_at_most { TakesAtMost (limits.total + 1)
        (S.state source.old) (S.state source.new) }

    // The source's failures alone make a failed read.
    ensures source { ReadsFrom (S.state source.old) (S.state source.new) (file_failed result) }
{
    read_records::<WeightFiles, S, K>(alloc, source, limits, sink)
}

/// Reads a whole file, and hands its records to the sink as they come.
pub fn read_records<G: Grammar, S: Source, K: RecordSink<G>>(
    alloc: Global,
    source: &mut S,
    limits: LineLimits,
    sink: &mut K,
) -> Result<(), FileFault>
    requires some { 1 ≤ limits.line }
    requires line { limits.line ≤ max_line }
    requires file { limits.total ≤ 2 ^ 63 }
    requires ready { K.is_ready sink.old }

    // The sink has taken the file that is read. Where the source tells its bytes, that is the one of the text, and a
    // fault of a line is the first.
    ensures reads { ReadsWhole G.rules limits (S.state source.old).left
        (K.has_taken sink.old sink.new) result }

    // What holds over every source.
    ensures may { IfErr result (MayAnswer G.rules) }

    // Where the source tells its bytes, at most one byte past the limit is taken.
    ensures takes_at_most { TakesAtMost (limits.total + 1)
        (S.state source.old) (S.state source.new) }

    // The source's failures alone make a failed read.
    ensures source { ReadsFrom (S.state source.old) (S.state source.new) (file_failed result) }
{
    let mut lines = Lines::new(alloc, limits)?;
    let mut begun = None;
    'lines: loop {
        match lines.next_line(source) {
            Ok(true) => {}
            Ok(false) => return end::<G>(begun, lines.number() + 1),
            Err(fault) => return Err(FileFault::at_line(fault, lines.number() + 1)),
        }
        begun = take_line::<G, K>(lines.text(), lines.number(), begun, sink)?;
    }
}
