//! The weight files of the shortest path challenge.
ghost use Rattle.std.specs.Prelude.{◌≡◌, None, Some, IfOk, IfErr};
ghost use Rattle.std.specs.Result.{result_err};
ghost use Rattle.gr_reader.specs.Grammar.{is_node, weights};
ghost use Rattle.gr_reader.specs.Rules.LineForm.{Problem, Record};
ghost use Rattle.gr_reader.specs.Steps.{IsAccepted};
ghost use Rattle.gr_reader.specs.Table.{form_kind};
ghost use Rattle.gr_reader.specs.WeightForms.{as_form, range_kind, size_kind};

use crate::fault::LineKind;
use crate::grammar::{Grammar, LineForm};
use crate::weight_form::{WeightForm, form_of};
use arc_graph::ArcLine;
use road_network::{MAX_ARCS, MAX_NODES};

/// How many nodes and arcs a weight file has.
#[derive(Clone, Copy, Debug, PartialEq, Eq)]
pub struct Sizes {
    pub nodes: u32,
    pub arcs: u32,
}

/// Weight files: the problem line says the sizes, and each record is an arc.
pub struct WeightFiles;

impl Grammar for WeightFiles {
    type Problem = Sizes;

    type Record = ArcLine;

    ghost rules = { weights };

    fn count(sizes: &Sizes) -> u32 {
        sizes.arcs
    }

    fn problem_in(line: &[u8]) -> Result<Sizes, LineKind> {
        sizes_in(form_of(line))
    }

    fn record_in(line: &[u8], sizes: &Sizes, come: u32) -> Result<ArcLine, LineKind> {
        arc_in(form_of(line), *sizes, come)
    }
}

/// The sizes in the first line.
fn sizes_in(form: WeightForm) -> Result<Sizes, LineKind>
    ensures accepted { IfOk result
        (λ sizes. IsAccepted weights None 0 (as_form form) (Problem sizes)) }
    ensures refused { IfErr result
        (λ kind. form_kind weights None 0 (as_form form) ≡ Some kind) }
{
    match form {
        LineForm::Malformed => Err(LineKind::BadLine),
        LineForm::Record(_) => Err(LineKind::NoProblem),
        LineForm::Problem((nodes, arcs)) => sizes_of(nodes, arcs),
    }
}

/// The arc in a line behind the problem line and so many arcs.
fn arc_in(form: WeightForm, sizes: Sizes, come: u32) -> Result<ArcLine, LineKind>
    ensures accepted { IfOk result
        (λ arc. IsAccepted weights (Some sizes) come (as_form form) (Record arc)) }
    ensures refused { IfErr result
        (λ kind. form_kind weights (Some sizes) come (as_form form) ≡ Some kind) }
{
    match form {
        LineForm::Malformed => Err(LineKind::BadLine),
        LineForm::Problem(_) => Err(LineKind::SecondProblem),
        LineForm::Record(_) if sizes.arcs <= come => Err(LineKind::CountWrong),
        LineForm::Record((tail, head, weight)) => arc_of(sizes.nodes, tail, head, weight),
    }
}

/// The sizes of a graph that may have so many nodes and arcs.
fn sizes_of(nodes: u64, arcs: u64) -> Result<Sizes, LineKind>
    ensures value { IfOk result (λ sizes. sizes ≡ record { nodes = nodes; arcs = arcs }) }
    ensures kind { result_err result ≡ size_kind nodes arcs }
{
    if nodes < 1 || nodes > u64::from(MAX_NODES) || arcs > u64::from(MAX_ARCS) {
        return Err(LineKind::SizeRange);
    }
    Ok(Sizes {
        nodes: nodes as u32,
        arcs: arcs as u32,
    })
}

/// The arc of these ends and this weight, if they are in range.
fn arc_of(nodes: u32, tail: u64, head: u64, weight: u64) -> Result<ArcLine, LineKind>
    ensures value { IfOk result
        (λ arc. arc ≡ record { tail = tail; head = head; weight = weight }) }
    ensures kind { result_err result ≡ range_kind nodes tail head weight }
{
    if !is_node(nodes, tail) || !is_node(nodes, head) {
        return Err(LineKind::NodeRange);
    }
    if weight > u64::from(u32::MAX) {
        return Err(LineKind::WeightRange);
    }
    Ok(ArcLine {
        tail: tail as u32,
        head: head as u32,
        weight: weight as u32,
    })
}

/// Whether a number is that of a node.
fn is_node(nodes: u32, number: u64) -> bool
    ensures { result ≡ is_node nodes number }
{
    1 <= number && number <= u64::from(nodes)
}
