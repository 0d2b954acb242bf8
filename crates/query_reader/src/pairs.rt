ghost use Rattle.std.specs.Prelude.{◌≡◌, None, Some, IfOk, IfErr};
ghost use Rattle.std.specs.Result.{result_err};
ghost use Rattle.gr_reader.specs.Rules.LineForm.{Problem, Record};
ghost use Rattle.gr_reader.specs.Steps.{IsAccepted};
ghost use Rattle.gr_reader.specs.Table.{form_kind};
ghost use Rattle.query_reader.specs.Grammar.{may_be_node, pairs};
ghost use Rattle.query_reader.specs.PairForms.{as_form, range_kind, size_kind};

use crate::pair_form::{PairForm, form_of};
use gr_reader::{Grammar, LineForm, LineKind};

/// The most pairs of a file.
pub const MAX_PAIRS: u32 = 1_000_000;

/// Where a walk is to start and where it is to lead. Nodes are numbered from 1.
#[derive(Clone, Copy, Debug, PartialEq, Eq)]
pub struct Pair {
    pub from: u32,
    pub to: u32,
}

/// Files of pairs: the problem line says how many there are, and each record is a pair.
pub struct PairFiles;

impl Grammar for PairFiles {
    type Problem = u32;

    type Record = Pair;

    ghost rules = { pairs };

    fn count(problem: &u32) -> u32 {
        *problem
    }

    fn problem_in(line: &[u8]) -> Result<u32, LineKind> {
        count_in(form_of(line))
    }

    fn record_in(line: &[u8], problem: &u32, come: u32) -> Result<Pair, LineKind> {
        pair_in(form_of(line), *problem, come)
    }
}

/// The number of pairs in the first line.
fn count_in(form: PairForm) -> Result<u32, LineKind>
    ensures accepted { IfOk result
        (λ count. IsAccepted pairs None 0 (as_form form) (Problem count)) }
    ensures refused { IfErr result
        (λ kind. form_kind pairs None 0 (as_form form) ≡ Some kind) }
{
    match form {
        LineForm::Malformed => Err(LineKind::BadLine),
        LineForm::Record(_) => Err(LineKind::NoProblem),
        LineForm::Problem(count) => count_of(count),
    }
}

/// The pair in a line behind the problem line and so many pairs.
fn pair_in(form: PairForm, count: u32, come: u32) -> Result<Pair, LineKind>
    ensures accepted { IfOk result
        (λ pair. IsAccepted pairs (Some count) come (as_form form) (Record pair)) }
    ensures refused { IfErr result
        (λ kind. form_kind pairs (Some count) come (as_form form) ≡ Some kind) }
{
    match form {
        LineForm::Malformed => Err(LineKind::BadLine),
        LineForm::Problem(_) => Err(LineKind::SecondProblem),
        LineForm::Record(_) if count <= come => Err(LineKind::CountWrong),
        LineForm::Record((from, to)) => pair_of(from, to),
    }
}

/// How many pairs there are, if a file may have so many.
fn count_of(count: u64) -> Result<u32, LineKind>
    ensures value { IfOk result (λ kept. kept ≡ count) }
    ensures kind { result_err result ≡ size_kind count }
{
    if count > u64::from(MAX_PAIRS) {
        return Err(LineKind::SizeRange);
    }
    Ok(count as u32)
}

/// The pair of these ends, if they can be nodes.
fn pair_of(from: u64, to: u64) -> Result<Pair, LineKind>
    ensures value { IfOk result (λ pair. pair ≡ record { from = from; to = to }) }
    ensures kind { result_err result ≡ range_kind from to }
{
    if !may_be_node(from) || !may_be_node(to) {
        return Err(LineKind::NodeRange);
    }
    Ok(Pair {
        from: from as u32,
        to: to as u32,
    })
}

/// Whether a number can be that of a node.
fn may_be_node(number: u64) -> bool
    ensures { result ≡ may_be_node number }
{
    1 <= number && number <= u64::from(u32::MAX)
}
