//! The answer to a query by an enumeration of all walks that come to no node twice.
use super::networks::Drawn;
use std::alloc::{AllocError, Global};

/// Components of a cost, of which those not in use are 0.
pub(super) type Sums = [u64; 4];

/// A walk from the first node of a query.
#[derive(Drop)]
pub(super) struct Walk {
    pub arcs: Vec<u32>,
    nodes: Vec<u32>,
    pub end: u32,
    pub cost: Sums,
}

impl Walk {
    /// The walk with one arc more, unless it comes to a node again.
    fn with_arc(&self, number: u32, arc: &[u32; 6]) -> Result<Option<Walk>, AllocError> {
        if arc[0] != self.end || self.nodes.contains(&arc[1]) {
            return Ok(None);
        }
        let mut arcs = self.arcs.clone()?;
        arcs.push(number)?;
        let mut nodes = self.nodes.clone()?;
        nodes.push(arc[1])?;
        let mut cost = self.cost;
        for (sum, weight) in cost.iter_mut().zip(&arc[2..]) {
            *sum = sum.saturating_add(u64::from(*weight));
        }
        Ok(Some(Walk {
            arcs,
            nodes,
            end: arc[1],
            cost,
        }))
    }

    /// Whether its last arcs come first where the two differ for the first time from their ends.
    fn is_before(&self, other: &Walk) -> bool {
        self.arcs.iter().rev().lt(other.arcs.iter().rev())
    }
}

pub(super) fn dominates(a: &Sums, b: &Sums) -> bool {
    a != b && a.iter().zip(b).all(|(x, y)| x <= y)
}

/// All walks from the query's first node that come to no node twice.
pub(super) fn all_walks(alloc: Global, drawn: &Drawn) -> Result<Vec<Walk>, AllocError> {
    let mut nodes = Vec::new(alloc);
    nodes.push(drawn.from)?;
    let mut last = Vec::new(alloc);
    last.push(Walk {
        arcs: Vec::new(alloc),
        nodes,
        end: drawn.from,
        cost: [0; 4],
    })?;
    let mut all = Vec::new(alloc);
    for _ in 0..drawn.nodes {
        let mut longer = Vec::new(alloc);
        for walk in &last {
            for (number, arc) in (1..).zip(&drawn.arcs) {
                if let Some(more) = walk.with_arc(number, arc)? {
                    longer.push(more)?;
                }
            }
        }
        for walk in last {
            all.push(walk)?;
        }
        last = longer;
    }
    Ok(all)
}

/// What a query is to answer: the best costs of its target within the limit, ascending, each with its backward-least
/// walk, and how many relevant pairs there are.
#[derive(Drop)]
pub(super) struct Wanted {
    pub walks: Vec<Walk>,
    pub relevant: u32,
}

/// Keeps the best walks: no walk to the same node costs less, or as much and comes before.
pub(super) fn best_walks(alloc: Global, all: Vec<Walk>) -> Result<Vec<Walk>, AllocError> {
    let mut kept = Vec::new(alloc);
    for walk in &all {
        let is_beaten = all.iter().any(|other| {
            other.end == walk.end
                && (dominates(&other.cost, &walk.cost)
                    || (other.cost == walk.cost && other.is_before(walk)))
        });
        kept.push(!is_beaten)?;
    }
    let mut best = Vec::new(alloc);
    for (walk, is_kept) in all.into_iter().zip(kept) {
        if is_kept {
            best.push(walk)?;
        }
    }
    Ok(best)
}

pub(super) fn is_within(limit: &[Option<u64>], cost: &Sums) -> bool {
    limit
        .iter()
        .zip(cost)
        .all(|(place, x)| place.is_none_or(|most| *x <= most))
}

pub(super) fn enumerate(alloc: Global, drawn: &Drawn) -> Result<Wanted, AllocError> {
    let best = best_walks(alloc, all_walks(alloc, drawn)?)?;
    let target = drawn.to;
    let mut relevant: u32 = 0;
    for walk in &best {
        let is_beaten = best.iter().any(|other| other.end == target
            && dominates(&other.cost, &walk.cost));
        if is_within(&drawn.limit, &walk.cost) && !is_beaten {
            relevant = relevant.saturating_add(1);
        }
    }
    let mut walks = Vec::new(alloc);
    for walk in best {
        if walk.end == target && is_within(&drawn.limit, &walk.cost) {
            walks.push(walk)?;
        }
    }
    walks.sort_by_key(|walk| walk.cost)?;
    Ok(Wanted { walks, relevant })
}

/// The reply to the query, its walks within its limit.
pub(super) fn wanted_reply(
    alloc: Global,
    drawn: &Drawn,
    wanted: &Wanted,
) -> Result<String, AllocError> {
    let head = if drawn.limit.is_empty() { "r" } else { "l" };
    let mut text = format!(in alloc; "{head} 0 {} {}", drawn.from, drawn.to)?;
    for place in &drawn.limit {
        match place {
            Some(most) => put_number(alloc, &mut text, *most)?,
            None => text.push_str(" -")?,
        }
    }
    put_number(alloc, &mut text, wanted.walks.len() as u64)?;
    text.push_str("\n")?;
    for walk in &wanted.walks {
        put_walk(alloc, &mut text, walk, drawn.criteria)?;
    }
    Ok(text)
}

/// Appends the line of a walk.
fn put_walk(
    alloc: Global,
    text: &mut String,
    walk: &Walk,
    criteria: usize,
) -> Result<(), AllocError> {
    text.push_str("p")?;
    for sum in walk.cost.iter().take(criteria) {
        put_number(alloc, text, *sum)?;
    }
    put_number(alloc, text, walk.arcs.len() as u64)?;
    for arc in &walk.arcs {
        put_number(alloc, text, u64::from(*arc))?;
    }
    text.push_str("\n")
}

/// Appends a space and a number.
fn put_number(alloc: Global, text: &mut String, number: u64) -> Result<(), AllocError> {
    let field = format!(in alloc; " {number}")?;
    text.push_str(&field)
}
