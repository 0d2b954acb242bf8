ghost use Rattle.std.specs.Prelude.{◌≡◌, Err, IfOk, OnOk};
ghost use Rattle.std.specs.Option.{option_map};
ghost use Rattle.road_network.specs.Network.{IsNode};
ghost use Rattle.sweep_core.specs.Relaxing.{HasNoRoomFrom, IsGivenIfAny, IsSmallLifted};
ghost use Rattle.sweep_core.specs.Sweeps.{IsOutOf};
ghost use Rattle.sweep_core.specs.declared.fault.StoreFault.TheVariants as fault;
ghost use Rattle.waiting_item.specs.Waiting.{as_waiting, spot_in};

use crate::limit::CostLimit;
use crate::moving::{moved_on, stored};
use crate::{Potential, StoreFault};
use arc_graph::Network;
use cost_vector::{ArcNo, Cost, NodeNo};
use stored_cost::StoredCost;
use waiting_item::Item;

/// What follows an item along an arc, where the height of the item's node is known: the arc's head, at the cost with the arc's
/// vector and the head's height added. Nothing follows where the arc is shut or leads straight back, where its head has no height,
/// or beyond the limit.
pub(crate) fn relax_arc<const D: usize, C: StoredCost<D>, P: Potential>(
    network: &Network<'_>,
    potential: &mut P,
    target: NodeNo,
    limit: &CostLimit<D>,
    item: &Item<C>,
    own: &Cost,
    arc: ArcNo,
) -> Result<Option<Item<C>>, StoreFault>
    requires criteria { network.now.criteria ≡ D }
    requires arc { IsOutOf network.now.ends item.now.node.0 arc }
    requires target { IsNode network.now.nodes target.0 }
    requires tells { P.tells potential.old network.now target.0 }
    requires spot { IsSmallLifted network.now (P.height network.now target.0)
        (spot_in C.components item.now) }
    requires own { P.height network.now target.0 item.now.node.0 own.now }
    ensures tells { OnOk result (P.tells potential.new network.now target.0) }
    ensures given { IfOk result (λ next. IsGivenIfAny network.now (P.height network.now target.0)
        limit.now (as_waiting C.components item.now) arc.0 (option_map (as_waiting C.components) next)) }
    ensures tells_still { result ≡ Err fault.TooWide
        → P.tells potential.new network.now target.0 }
    ensures too_wide { result ≡ Err fault.TooWide → HasNoRoomFrom network.now
        (P.height network.now target.0) limit.now (spot_in C.components item.now) C.Part.bound }
{
    prove!(network.nodes() >= 1);
    prove!(network.criteria() == D);
    let head = network.head(arc);
    if head == item.from {
        return Ok(None);
    }
    let Some(weight) = network.weight(arc) else {
        return Ok(None);
    };
    let Some(height) = potential.at(network, target, head)? else {
        return Ok(None);
    };
    let moved = moved_on(&item.cost.to_compact(), own, &weight, &height);
    if !limit.allows(&moved) {
        return Ok(None);
    }
    let Some(cost) = stored(&moved) else {
        return Err(StoreFault::TooWide);
    };
    Ok(Some(Item {
        cost,
        node: head,
        from: item.node,
    }))
}
