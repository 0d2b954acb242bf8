//! Which pairs are goal-relevant, by lower bounds that are lowered arc by arc.
use super::networks::{Drawn, DrawnArc};
use super::walks::{Sums, Walk, all_walks, best_walks, dominates, is_within};
use std::alloc::{AllocError, Global};

/// The sums with the weights of an arc added.
fn plus(sums: &Sums, arc: &DrawnArc) -> Sums {
    let mut more = *sums;
    for (sum, weight) in more.iter_mut().zip(&arc[2..]) {
        *sum = sum.saturating_add(u64::from(*weight));
    }
    more
}

/// Of each component the lesser.
fn lesser(a: &Sums, b: &Sums) -> Sums {
    let mut least = *a;
    for (sum, other) in least.iter_mut().zip(b) {
        *sum = (*sum).min(*other);
    }
    least
}

/// The bound of a node, if it has one.
fn bound_of(bounds: &[Option<Sums>], node: u32) -> Option<Sums> {
    *bounds.get(node as usize)?
}

/// Lowers the bound of an arc's tail to what leads on by the arc.
fn lower(bounds: &mut [Option<Sums>], arc: &DrawnArc) {
    let Some(onward) = bound_of(bounds, arc[1]) else {
        return;
    };
    let by_arc = plus(&onward, arc);
    if let Some(bound) = bounds.get_mut(arc[0] as usize) {
        *bound = Some(match bound {
            Some(own) => lesser(own, &by_arc),
            None => by_arc,
        });
    }
}

/// Of each node, by its number, the least sums of single weights along walks to the target, or none where no walk leads there.
fn all_bounds(alloc: Global, drawn: &Drawn) -> Result<Vec<Option<Sums>>, AllocError> {
    let mut bounds = Vec::new(alloc);
    for node in 0..=drawn.nodes {
        bounds.push(if node == drawn.to { Some([0; 4]) } else { None })?;
    }
    for _ in 0..drawn.nodes {
        for arc in &drawn.arcs {
            lower(&mut bounds, arc);
        }
    }
    Ok(bounds)
}

/// Whether the walk's cost with the bound of its node added is within the limit, and no best cost of the target dominates it.
fn is_goal_relevant(drawn: &Drawn, best: &[Walk], bounds: &[Option<Sums>], walk: &Walk) -> bool {
    let Some(bound) = bound_of(bounds, walk.end) else {
        return false;
    };
    let bounded = added(&walk.cost, &bound);
    is_within(&drawn.limit, &bounded)
        && !best.iter().any(|other| other.end == drawn.to && dominates(&other.cost, &bounded))
}

fn added(a: &Sums, b: &Sums) -> Sums {
    let mut sums = *a;
    for (sum, other) in sums.iter_mut().zip(b) {
        *sum = sum.saturating_add(*other);
    }
    sums
}

/// How many goal-relevant pairs the query has within its limit.
pub(super) fn count_goal_relevant(alloc: Global, drawn: &Drawn) -> Result<u32, AllocError> {
    let best = best_walks(alloc, all_walks(alloc, drawn)?)?;
    let bounds = all_bounds(alloc, drawn)?;
    let mut count: u32 = 0;
    for walk in &best {
        if is_goal_relevant(drawn, &best, &bounds, walk) {
            count = count.saturating_add(1);
        }
    }
    Ok(count)
}
