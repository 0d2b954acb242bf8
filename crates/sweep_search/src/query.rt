ghost use Rattle.std.specs.Prelude.{IfOk, IsErrOf, OnOk};
ghost use Rattle.road_network.specs.Queries.{IsQuery};
ghost use Rattle.walk_readback.specs.Answers.{Answers};
ghost use Rattle.sweep_search.specs.Answers.{AnswersToward};
ghost use Rattle.sweep_search.specs.Finding.{HasAllBy, IsTooLargeBy};
ghost use Rattle.sweep_search.specs.Swept.{found_of, lists_of};

use crate::Swept;
use crate::searching::find_by;
use arc_graph::Network;
use block_list::BlockList;
use cost_vector::NodeNo;
use goal_bounds::BoundSearch;
use road_network::{Query, SearchFault};
use settled_front::{BlockFront, NarrowBlock, WideBlock};
use settled_list::{SecondList, StairList};
use std::alloc::Global;
use stored_cost::{NarrowCost, WideCost};
use sweep_core::{Potential, ZeroPotential};
use walk_readback::FoundCosts;

/// The settled costs of a node in four components, each in 32 bits.
type NarrowBlocks = BlockList<BlockFront<3, NarrowBlock<3>>>;

/// The same in 64 bits.
type WideBlocks = BlockList<BlockFront<3, WideBlock<3>>>;

/// Answers a query: the settled costs of what was found are exactly its relevant pairs.
pub fn find(alloc: Global, network: &Network<'_>, query: &Query) -> Result<Swept, SearchFault>
    requires query { IsQuery network.now query.now }
    ensures { Answers found_of network.now query.now result }
{
    prove!(network.nodes() >= 1);
    let found = find_all(alloc, network, query, &mut ZeroPotential)?;
    let _count = found.count();
    Ok(found)
}

/// Answers a query: the settled costs of what was found are exactly its goal-relevant pairs within its limit. Lower bounds
/// are looked for as far as they are asked for.
pub fn search_toward(
    alloc: Global,
    network: &Network<'_>,
    query: &Query,
) -> Result<Swept, SearchFault>
    requires query { IsQuery network.now query.now }
    ensures { AnswersToward network.now query.now result }
{
    prove!(network.nodes() >= 1);
    let mut bounds = BoundSearch::new(alloc, network, NodeNo(query.to))?;
    let mut found = find_all(alloc, network, query, &mut bounds)?;
    found.lower(network, query, &mut bounds)?;
    let _count = found.count();
    Ok(found)
}

/// All that a potential makes relevant to a query, whatever the number of criteria. The height of its node is in each cost.
fn find_all<P: Potential>(
    alloc: Global,
    network: &Network<'_>,
    query: &Query,
    potential: &mut P,
) -> Result<Swept, SearchFault>
    requires query { IsQuery network.now query.now }
    requires tells { P.tells potential.old network.now query.now.to }
    ensures tells { OnOk result (P.tells potential.new network.now query.now.to) }
    ensures all { IfOk result (λ f. HasAllBy network.now query.now
        (P.height network.now query.now.to) (lists_of f)) }
    ensures in_budget { OnOk result
        (¬ IsTooLargeBy network.now query.now (P.height network.now query.now.to)) }
    ensures budget { IsErrOf result SearchFault.Budget
        → IsTooLargeBy network.now query.now (P.height network.now query.now.to) }
{
    match network.criteria() {
        2 => {
            let found = find_by::<2, SecondList<NarrowCost<2>>, SecondList<WideCost<2>>, P>(
                alloc, network, query, potential,
            )?;
            Ok(Swept::Two(found))
        }
        3 => {
            let found = find_by::<3, StairList<NarrowCost<3>>, StairList<WideCost<3>>, P>(
                alloc, network, query, potential,
            )?;
            Ok(Swept::Three(found))
        }
        _ => {
            let found = find_by::<4, NarrowBlocks, WideBlocks, P>(
                alloc, network, query, potential,
            )?;
            Ok(Swept::Four(found))
        }
    }
}
