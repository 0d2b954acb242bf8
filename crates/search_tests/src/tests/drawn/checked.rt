//! Searches of graphs whose best costs an independent program found.
use super::cases::{Case, tables};
use super::networks::Drawn;
use super::searches::Search;
use super::searching::difference;
use super::walks::{Sums, Wanted, enumerate};
use std::alloc::{AllocError, Global};
use std::process::Abort;
use std::test::Fail;
use std::thread::Threads;

/// The network and the query of a case.
fn drawn(alloc: Global, case: &Case) -> Result<Drawn, AllocError> {
    Ok(Drawn {
        nodes: case.nodes,
        criteria: case.limit.len(),
        arcs: Vec::from_slice(alloc, case.arcs)?,
        from: case.from,
        to: case.to,
        limit: Vec::from_slice(alloc, case.limit)?,
    })
}

fn is_cost(sums: &Sums, numbers: &[u64]) -> bool {
    sums.iter().zip(numbers).all(|(sum, number)| sum == number)
}

/// Whether an enumeration finds the costs and the relevant pairs of the case.
fn is_answer(wanted: &Wanted, case: &Case) -> bool {
    let mut same = wanted.relevant == case.relevant && wanted.walks.len() == case.costs.len();
    for (walk, numbers) in wanted.walks.iter().zip(case.costs) {
        same = same && is_cost(&walk.cost, numbers);
    }
    same
}

/// The enumeration of a case has the answer that stands in it, and the searches have it too.
fn check<R: Threads + Sync + Abort>(rt: &R, alloc: Global, case: &Case) -> Result<(), Fail> {
    let name = case.name;
    let drawn = drawn(alloc, case)?;
    let wanted = enumerate(alloc, &drawn)?;
    assert!(rt; is_answer(&wanted, case), "{name}: the enumeration");
    for search in [Search::Rounds(1), Search::Rounds(3), Search::Sweep] {
        let difference = difference(rt, alloc, &drawn, &wanted, search)?;
        assert!(rt; difference == "", "{name}: {difference} by {search:?}");
    }
    Ok(())
}

fn check_all<R: Threads + Sync + Abort>(rt: &R, alloc: Global) -> Result<(), Fail> {
    for cases in &tables() {
        for case in *cases {
            check(rt, alloc, case)?;
        }
    }
    Ok(())
}

#[test]
fn finds_what_an_independent_program_found(rt: HostRuntime) -> Result<(), Fail> {
    check_all(&rt, rt.alloc())
}
