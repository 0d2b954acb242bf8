//! What a line of a file hands to a sink of records.
ghost use Rattle.std.specs.Prelude.{◌≡◌, ◌+◌, None, Some, IfErr};
ghost use Rattle.line_text.specs.Fields.{fields_of};
ghost use Rattle.gr_reader.specs.Reader.{MayAnswer};
ghost use Rattle.gr_reader.specs.Rules.{form_in, is_ignored};
ghost use Rattle.gr_reader.specs.Steps.{Awaits, AwaitsRecord, EndsFile, LineTaken, ProblemTaken, RecordTaken};

use crate::fault::{FileFault, LineKind};
use crate::grammar::Grammar;
use crate::record_sink::RecordSink;
use line_text::first_byte;

/// What the problem line of a file says, and how many records have come behind it.
#[derive(Clone, Copy)]
pub(crate) struct Begun<P> {
    problem: P,
    come: u32,
}

/// Hands to the sink what a line says, unless it is ignored.
pub(crate) fn take_line<G: Grammar, K: RecordSink<G>>(
    line: &[u8],
    number: u64,
    begun: Option<Begun<G::Problem>>,
    sink: &mut K,
) -> Result<Option<Begun<G::Problem>>, FileFault>
    requires { Awaits G.rules K.has_taken K.is_ready sink.old begun }
    ensures { LineTaken G.rules K.has_taken begun sink.old sink.new line.now number result }
{
    if is_ignored(line) {
        return Ok(begun);
    }
    let begun = match begun {
        None => take_problem::<G, K>(line, number, sink)?,
        Some(begun) => take_record::<G, K>(line, number, begun, sink)?,
    };
    Ok(Some(begun))
}

/// Begins a file with its problem line.
fn take_problem<G: Grammar, K: RecordSink<G>>(
    line: &[u8],
    number: u64,
    sink: &mut K,
) -> Result<Begun<G::Problem>, FileFault>
    requires { K.is_ready sink.old }
    ensures { ProblemTaken G.rules K.has_taken sink.old sink.new
        (form_in G.rules line.now) number result }
{
    let problem = match G::problem_in(line) {
        Ok(problem) => problem,
        Err(kind) => return Err(FileFault::Line { kind, line: number }),
    };
    sink.begin(problem)?;
    Ok(Begun { problem, come: 0 })
}

/// Takes the record of a line behind the problem line.
fn take_record<G: Grammar, K: RecordSink<G>>(
    line: &[u8],
    number: u64,
    begun: Begun<G::Problem>,
    sink: &mut K,
) -> Result<Begun<G::Problem>, FileFault>
    requires { AwaitsRecord G.rules K.has_taken sink.old begun }
    ensures { RecordTaken G.rules K.has_taken begun sink.old sink.new
        (form_in G.rules line.now) number result }
{
    let Begun { problem, come } = begun;
    let next = match G::record_in(line, &problem, come) {
        Ok(next) => next,
        Err(kind) => return Err(FileFault::Line { kind, line: number }),
    };
    prove!(come < G::count(&problem));
    sink.take(next)?;
    let come = come + 1;
    Ok(Begun { problem, come })
}

/// Whether a file is whole that ends where this has come, behind which the line of this number would follow.
pub(crate) fn end<G: Grammar>(
    begun: Option<Begun<G::Problem>>,
    number: u64,
) -> Result<(), FileFault>
    ensures { EndsFile G.rules begun number result }
{
    match begun {
        None => Err(FileFault::Line {
            kind: LineKind::NoProblem,
            line: number,
        }),
        Some(begun) if begun.come < G::count(&begun.problem) => Err(FileFault::Line {
            kind: LineKind::CountWrong,
            line: number,
        }),
        Some(_) => Ok(()),
    }
}

/// Whether a line is blank or a comment.
fn is_ignored(line: &[u8]) -> bool
    ensures { result ≡ is_ignored (fields_of line.now) }
{
    match first_byte(line) {
        None => true,
        Some(byte) => byte == b'c',
    }
}
