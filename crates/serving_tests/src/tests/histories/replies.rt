//! What a session's lines are replied at the epochs that the replies name, by an enumeration of walks.
ghost use Rattle.std.specs.Prelude.{IfOk};
ghost use Rattle.arc_graph.specs.Graph.{Match};

use super::drawing::{Asked, AskedQuery, History, State};
use super::walks::{Sums, enumerate};
use arc_graph::{ArcFile, ArcLine, Graph, Weights, join_files};
use std::alloc::{AllocError, Global};
use std::process::Abort;
use std::test::Fail;

/// The network of an epoch, without its shut arcs.
pub(super) fn network(
    rt: &impl Abort,
    alloc: Global,
    history: &History,
    states: &[State],
) -> Result<(Graph, Weights), Fail>
    ensures { IfOk result (λ r. Match r.0 r.1) }
{
    let mut files = Vec::new(alloc);
    for criterion in 0..2usize {
        files.push(file(rt, alloc, history, states, criterion)?)?;
    }
    assert!(rt; files.len() == 2);
    Ok(join_files(alloc, files)?)
}

/// The weight file of one criterion.
fn file(
    rt: &impl Abort,
    alloc: Global,
    history: &History,
    states: &[State],
    criterion: usize,
) -> Result<ArcFile, Fail> {
    assert!(rt; criterion < 2 && 1 <= history.nodes && history.nodes <= 10);
    let mut file = ArcFile::new(alloc, history.nodes);
    for (arc, state) in history.arcs.iter().zip(states) {
        if let Some(weights) = state {
            let (nodes, tail, head) = (file.nodes(), arc.tail, arc.head);
            assert!(rt; 1 <= tail && tail <= nodes && 1 <= head && head <= nodes);
            assert!(rt; file.arcs().len() < 100);
            let weight = weights[criterion];
            file.push(ArcLine { tail, head, weight })?;
        }
    }
    Ok(file)
}

/// A line as it is sent.
pub(super) fn sent(alloc: Global, asked: &Asked) -> Result<String, AllocError> {
    match *asked {
        Asked::Query(query) => {
            let (word, from, to) = (query.word, query.from, query.to);
            let bounds = bounds(alloc, &query)?;
            format!(in alloc; "{word} {from} {to}{bounds}\n")
        }
        Asked::Wait { epoch } => format!(in alloc; "w {epoch}\n"),
        Asked::Epoch => format!(in alloc; "e\n"),
    }
}

/// The bounds of a line, which one of costs or of walks lacks.
fn bounds(alloc: Global, query: &AskedQuery) -> Result<String, AllocError> {
    let mut text = String::new(alloc);
    if query.word == "l" || query.word == "h" {
        for place in query.limit {
            match place {
                Some(most) => text.push_str(&format!(in alloc; " {most}")?)?,
                None => text.push_str(" -")?,
            }
        }
    }
    Ok(text)
}

/// An epoch of a history.
#[derive(Clone, Copy)]
pub(super) struct Epoch<'e> {
    pub number: u32,
    pub states: &'e [State],
}

/// Appends the lines of a reply at an epoch. Of a walk's line it is the front, which has its cost.
pub(super) fn put_reply(
    alloc: Global,
    history: &History,
    epoch: &Epoch<'_>,
    asked: &Asked,
    lines: &mut Vec<String>,
) -> Result<(), AllocError> {
    let number = epoch.number;
    let line = match *asked {
        Asked::Query(query) => return put_answer(alloc, history, epoch, &query, lines),
        Asked::Wait { epoch } if number < epoch => format!(in alloc; "x {number} closed")?,
        _ => format!(in alloc; "k {number}")?,
    };
    Ok(lines.push(line)?)
}

/// Appends the lines of an answer or of a refusal.
fn put_answer(
    alloc: Global,
    history: &History,
    epoch: &Epoch<'_>,
    query: &AskedQuery,
    lines: &mut Vec<String>,
) -> Result<(), AllocError> {
    let (number, from, to) = (epoch.number, query.from, query.to);
    let nodes = 1..=history.nodes;
    if !nodes.contains(&from) || !nodes.contains(&to) {
        return Ok(lines.push(format!(in alloc; "x {number} {from} {to} node")?)?);
    }
    let wanted = enumerate(alloc, history, epoch.states, query)?;
    if wanted.relevant > history.budget {
        return Ok(lines.push(format!(in alloc; "x {number} {from} {to} budget")?)?);
    }
    put_costs(alloc, number, query, &wanted.costs, lines)
}

/// Appends the lines of an answer of these costs.
fn put_costs(
    alloc: Global,
    number: u32,
    query: &AskedQuery,
    costs: &[Sums],
    lines: &mut Vec<String>,
) -> Result<(), AllocError> {
    let (from, to, count) = (query.from, query.to, costs.len());
    let bounds = bounds(alloc, query)?;
    let head = if bounds.is_empty() { "r" } else { "l" };
    lines.push(format!(in alloc; "{head} {number} {from} {to}{bounds} {count}")?)?;
    let (word, behind) = if query.word == "c" {
        ("v", "")
    } else {
        ("p", " ")
    };
    for cost in costs {
        let (one, two) = (cost[0], cost[1]);
        lines.push(format!(in alloc; "{word} {one} {two}{behind}")?)?;
    }
    Ok(())
}
