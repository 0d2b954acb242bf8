//! What tells one kind of files from another.
ghost use Rattle.std.specs.Prelude.{◌≡◌, true, None, Some, IfOk, IfErr};
ghost use Rattle.gr_reader.specs.Rules.{Rules, form_in};
ghost use Rattle.gr_reader.specs.Rules.LineForm.{Problem, Record};
ghost use Rattle.gr_reader.specs.Steps.{IsAccepted};
ghost use Rattle.gr_reader.specs.Table.{form_kind};

use crate::fault::LineKind;

/// What a line says that isn't ignored, or that it has none of the forms. The ranges of its numbers are tried later.
#[derive(Clone, Copy)]
pub enum LineForm<P, R> {
    Problem(P),
    Record(R),
    Malformed,
}

/// A kind of files: a problem line says how many records follow, and then they come, one a line.
///
/// Lines are read that aren't ignored, without a CR at their end. A line's first fault is told.
pub trait Grammar {
    /// What a problem line says.
    type Problem: Copy + Drop;

    /// What a line behind it says.
    type Record: Drop;

    ghost rules: { Rules Self.Problem Self.Record };

    /// How many records are to come.
    fn count(problem: &Self::Problem) -> u32
        ensures { result ≡ rules.count problem.now };

    /// Reads the first line of a file.
    fn problem_in(line: &[u8]) -> Result<Self::Problem, LineKind>
        ensures accepted { IfOk result (λ problem.
            IsAccepted rules None 0 (form_in rules line.now) (Problem problem)) }
        ensures refused { IfErr result (λ kind.
            form_kind rules None 0 (form_in rules line.now) ≡ Some kind) };

    /// Reads a line behind the problem line and so many records.
    fn record_in(line: &[u8], problem: &Self::Problem, come: u32) -> Result<Self::Record, LineKind>
        requires { rules.is_size problem.now ≡ true }
        ensures accepted { IfOk result (λ r.
            IsAccepted rules (Some problem.now) come (form_in rules line.now) (Record r)) }
        ensures refused { IfErr result (λ kind.
            form_kind rules (Some problem.now) come (form_in rules line.now) ≡ Some kind) };
}
