//! What a query is to be answered, by an enumeration of walks.
use super::drawing::{AskedQuery, History, State};
use std::alloc::{AllocError, Global};

pub(super) type Sums = [u64; 2];

/// The node to which a walk leads, and its cost.
type End = (u32, Sums);

/// The best costs of a query's target within its bounds, ascending, and how many relevant pairs the query has.
#[derive(Drop)]
pub(super) struct Wanted {
    pub costs: Vec<Sums>,
    pub relevant: u32,
}

fn plus(cost: &Sums, weights: &[u32; 2]) -> Sums {
    let (one, two) = (u64::from(weights[0]), u64::from(weights[1]));
    [cost[0].saturating_add(one), cost[1].saturating_add(two)]
}

/// The ends of the walks with one arc more.
fn longer(
    alloc: Global,
    history: &History,
    states: &[State],
    ends: &[End],
) -> Result<Vec<End>, AllocError> {
    let mut longer = Vec::new(alloc);
    for (node, cost) in ends {
        for (arc, state) in history.arcs.iter().zip(states) {
            if let Some(weights) = state
                && arc.tail == *node
            {
                longer.push((arc.head, plus(cost, weights)))?;
            }
        }
    }
    Ok(longer)
}

/// The ends, each once, of all walks from a node that have fewer arcs than the network has nodes. A walk of more comes to a node
/// again, and costs more than without that cycle.
fn all_ends(
    alloc: Global,
    history: &History,
    states: &[State],
    from: u32,
) -> Result<Vec<End>, AllocError> {
    let mut all = Vec::new(alloc);
    let mut last = Vec::new(alloc);
    last.push((from, [0; 2]))?;
    for _ in 0..history.nodes {
        let more = longer(alloc, history, states, &last)?;
        for end in last {
            if !all.contains(&end) {
                all.push(end)?;
            }
        }
        last = more;
    }
    Ok(all)
}

fn is_within(limit: &[Option<u64>; 2], cost: &Sums) -> bool {
    let mut places = limit.iter().zip(cost);
    places.all(|(place, sum)| place.is_none_or(|most| *sum <= most))
}

fn dominates(a: &Sums, b: &Sums) -> bool {
    a != b && a[0] <= b[0] && a[1] <= b[1]
}

fn added(a: &Sums, b: &Sums) -> Sums {
    [a[0].saturating_add(b[0]), a[1].saturating_add(b[1])]
}

/// The least of each component that walks from a node to the query's target cost, if one leads there.
fn bound_of(
    alloc: Global,
    history: &History,
    states: &[State],
    from: u32,
    to: u32,
) -> Result<Option<Sums>, AllocError> {
    let mut bound: Option<Sums> = None;
    for (node, cost) in all_ends(alloc, history, states, from)? {
        if node == to {
            bound = Some(match bound {
                Some(least) => [least[0].min(cost[0]), least[1].min(cost[1])],
                None => cost,
            });
        }
    }
    Ok(bound)
}

/// The cost that is compared with the bounds and with costs of the target: that of the walk, or, where the search is directed to
/// its target, with the bound of its node added.
fn compared(
    alloc: Global,
    history: &History,
    states: &[State],
    query: &AskedQuery,
    end: &End,
) -> Result<Option<Sums>, AllocError> {
    if query.word != "g" && query.word != "h" {
        return Ok(Some(end.1));
    }
    let bound = bound_of(alloc, history, states, end.0, query.to)?;
    Ok(bound.map(|bound| added(&end.1, &bound)))
}

/// Whether no cost of its node dominates it, and the compared cost is within the bounds and no cost of the target dominates that.
fn is_relevant(all: &[End], query: &AskedQuery, end: &End, compared: &Sums) -> bool {
    let is_beaten = all.iter().any(|(node, cost)| {
        (*node == end.0 && dominates(cost, &end.1))
            || (*node == query.to && dominates(cost, compared))
    });
    is_within(&query.limit, compared) && !is_beaten
}

pub(super) fn enumerate(
    alloc: Global,
    history: &History,
    states: &[State],
    query: &AskedQuery,
) -> Result<Wanted, AllocError> {
    let all = all_ends(alloc, history, states, query.from)?;
    let mut costs = Vec::new(alloc);
    let mut relevant: u32 = 0;
    for end in &all {
        let compared = compared(alloc, history, states, query, end)?;
        if compared.is_some_and(|compared| is_relevant(&all, query, end, &compared)) {
            relevant = relevant.saturating_add(1);
            if end.0 == query.to {
                costs.push(end.1)?;
            }
        }
    }
    costs.sort()?;
    Ok(Wanted { costs, relevant })
}
