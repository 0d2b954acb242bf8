ghost use Rattle.std.specs.Prelude.{◌≡◌, ◌^◌, ◌<◌, ◌≤◌, Err, IfOk, IsErrOf, OnOk};
ghost use Rattle.road_network.specs.Queries.{IsQuery, limit_of};
ghost use Rattle.sweep_core.specs.Potentials.{HasNoRoom};
ghost use Rattle.sweep_core.specs.declared.fault.SweepFault.TheVariants as fault;
ghost use Rattle.sweep_search.specs.Swept.{lists_at_width};
ghost use Rattle.sweep_search.specs.Finding.{HasAllBy, IsTooLargeBy};

use crate::SweptAtWidth;
use arc_graph::Network;
use cost_vector::NodeNo;
use least_queue::BucketQueue;
use node_lists::{FoundLists, NodeLists};
use road_network::{Query, SearchFault};
use settled_list::SettledList;
use std::alloc::Global;
use stored_cost::StoredCost;
use sweep_core::{Potential, Sweep, SweepFault};

/// All that a potential makes relevant to a query, with costs stored narrow, or wide where there is no room: then from the start.
/// The height of its node is in each cost.
pub(crate) fn find_by<const D: usize, N: SettledList<D>, W: SettledList<D>, P: Potential>(
    alloc: Global,
    network: &Network<'_>,
    query: &Query,
    potential: &mut P,
) -> Result<SweptAtWidth<D, N::Cost, W::Cost>, SearchFault>
    requires query { IsQuery network.now query.now }
    requires criteria { network.now.criteria ≡ D }
    requires room { 2 ^ 60 ≤ W.Cost.Part.bound }
    requires tells { P.tells potential.old network.now query.now.to }
    ensures tells { OnOk result (P.tells potential.new network.now query.now.to) }
    ensures all { IfOk result
        (λ f. HasAllBy network.now query.now (P.height network.now query.now.to) (lists_at_width f)) }
    ensures in_budget { OnOk result
        (¬ IsTooLargeBy network.now query.now (P.height network.now query.now.to)) }
    ensures budget { IsErrOf result SearchFault.Budget
        → IsTooLargeBy network.now query.now (P.height network.now query.now.to) }
{
    match find_at_width::<D, N, P>(alloc, network, query, potential) {
        Ok(found) => Ok(SweptAtWidth::Narrow(found)),
        Err(SweepFault::TooWide) => find_wide::<D, N::Cost, W, P>(alloc, network, query, potential),
        Err(SweepFault::Budget) => Err(SearchFault::Budget),
        Err(SweepFault::OutOfMemory(want)) => Err(SearchFault::OutOfMemory(want)),
    }
}

/// The same with costs stored wide: there is room for all of them.
fn find_wide<const D: usize, N: StoredCost<D>, W: SettledList<D>, P: Potential>(
    alloc: Global,
    network: &Network<'_>,
    query: &Query,
    potential: &mut P,
) -> Result<SweptAtWidth<D, N, W::Cost>, SearchFault>
    requires query { IsQuery network.now query.now }
    requires criteria { network.now.criteria ≡ D }
    requires room { 2 ^ 60 ≤ W.Cost.Part.bound }
    requires tells { P.tells potential.old network.now query.now.to }
    ensures tells { OnOk result (P.tells potential.new network.now query.now.to) }
    ensures all { IfOk result
        (λ f. HasAllBy network.now query.now (P.height network.now query.now.to) (lists_at_width f)) }
    ensures in_budget { OnOk result
        (¬ IsTooLargeBy network.now query.now (P.height network.now query.now.to)) }
    ensures budget { IsErrOf result SearchFault.Budget
        → IsTooLargeBy network.now query.now (P.height network.now query.now.to) }
{
    prove!(network.nodes() >= 1);
    match find_at_width::<D, W, P>(alloc, network, query, potential) {
        Ok(found) => Ok(SweptAtWidth::Wide(found)),
        Err(SweepFault::TooWide) => unreachable!(),
        Err(SweepFault::Budget) => Err(SearchFault::Budget),
        Err(SweepFault::OutOfMemory(want)) => Err(SearchFault::OutOfMemory(want)),
    }
}

/// All that a potential makes relevant to a query, with costs stored at one width. The height of its node is in each cost.
fn find_at_width<const D: usize, L: SettledList<D>, P: Potential>(
    alloc: Global,
    network: &Network<'_>,
    query: &Query,
    potential: &mut P,
) -> Result<FoundLists<D, L::Cost>, SweepFault>
    requires query { IsQuery network.now query.now }
    requires criteria { network.now.criteria ≡ D }
    requires tells { P.tells potential.old network.now query.now.to }
    ensures tells { OnOk result (P.tells potential.new network.now query.now.to) }
    ensures all { IfOk result
        (HasAllBy network.now query.now (P.height network.now query.now.to)) }
    ensures in_budget { OnOk result
        (¬ IsTooLargeBy network.now query.now (P.height network.now query.now.to)) }
    ensures budget { result ≡ Err fault.Budget
        → IsTooLargeBy network.now query.now (P.height network.now query.now.to) }
    ensures tells_still { result ≡ Err fault.TooWide
        → P.tells potential.new network.now query.now.to }
    ensures too_wide { result ≡ Err fault.TooWide → HasNoRoom network.now query.now.from
        query.now.to (limit_of network.now.criteria query.now)
        (P.height network.now query.now.to) L.Cost.Part.bound }
{
    prove!(network.nodes() >= 1);
    prove!(network.criteria() == D);
    let mut sweep = Sweep::<D, NodeLists<D, L>, BucketQueue<D, L::Cost>>::new::<P>(
        alloc, network, query, potential,
    )?;
    sweep.run(network, potential)?;
    let found = sweep
        .into_lists()
        .into_found(NodeNo(query.from), NodeNo(query.to))?;
    Ok(found)
}
