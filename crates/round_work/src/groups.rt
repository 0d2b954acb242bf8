ghost use Rattle.std.specs.Prelude.{◌≡◌, ◌≢◌, ◌<◌, ◌≤◌, length, map, IfOk, IsPermutation};
ghost use Rattle.std.specs.List.{AllWithin, HoldsAt};
ghost use Rattle.round_work.specs.Groups.{AreGroups, AscendByNode, SplitsGroup, joined};

use cost_vector::NodeNo;
use out_of_memory::OutOfMemory;
use rayon::prelude::*;
use std::alloc::Global;
use std::thread::Threads;
use waiting_item::Item;
use work_claim::Workers;

/// Brings the candidates of each node together, by ascending node.
pub(crate) fn sort_by_node<C: Send, R: Threads + Sync, G>(
    workers: &Workers<'_, R, G>,
    candidates: &mut [Item<C>],
)
    ensures permutation { IsPermutation candidates.old candidates.new }
    ensures ascending { AscendByNode candidates.new }
{
    par_sort_unstable_by_key(workers.rt(), candidates, |item| item.node.0);
}

/// The groups of sorted candidates.
pub(crate) fn list_groups<'c, C>(
    alloc: Global,
    candidates: &'c [Item<C>],
) -> Result<Vec<&'c [Item<C>]>, OutOfMemory>
    requires { AscendByNode candidates.now }
    ensures whole { IfOk result (λ groups.
        candidates.now ≡ joined (map (λ g. g.now) groups.items)) }
    ensures groups { IfOk result (λ groups. AreGroups (map (λ g. g.now) groups.items)) }
{
    let mut groups = Vec::new(alloc);
    let mut rest = candidates;
    while !rest.is_empty() {
        let (group, others) = split_group(rest);
        groups.push(group)?;
        rest = others;
    }
    Ok(groups)
}

/// The first group of sorted candidates, and the others.
fn split_group<C>(candidates: &[Item<C>]) -> (&[Item<C>], &[Item<C>])
    requires some { 0 < length candidates.now }
    requires ascending { AscendByNode candidates.now }
    ensures { SplitsGroup candidates.now result.0.now result.1.now }
{
    candidates.split_at(leading(candidates, candidates[0].node))
}

/// How many candidates come first that are of this node.
fn leading<C>(candidates: &[Item<C>], node: NodeNo) -> usize
    ensures within { result ≤ length candidates.now }
    ensures at_node { AllWithin (λ l. l.node.0 ≡ node.0) candidates.now 0 result }
    ensures no_more { result < length candidates.now
        → HoldsAt (λ l. l.node.0 ≢ node.0) candidates.now result }
{
    for (i, item) in candidates.iter().enumerate() {
        if item.node != node {
            return i;
        }
    }
    candidates.len()
}
