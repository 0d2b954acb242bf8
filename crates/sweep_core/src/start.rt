ghost use Rattle.std.specs.Prelude.{◌≡◌, Err, IfOk, OnOk};
ghost use Rattle.std.specs.Option.{option_map};
ghost use Rattle.road_network.specs.Network.{IsNode};
ghost use Rattle.sweep_core.specs.Potentials.{HasNoRoom};
ghost use Rattle.sweep_core.specs.Sweeps.{IsStartIfAny};
ghost use Rattle.sweep_core.specs.declared.fault.StoreFault.TheVariants as fault;
ghost use Rattle.waiting_item.specs.Waiting.{as_waiting};

use crate::limit::CostLimit;
use crate::moving::stored;
use crate::{Potential, StoreFault};
use arc_graph::Network;
use cost_vector::{ArcNo, CompactCost, NodeNo};
use stored_cost::StoredCost;
use waiting_item::Item;

/// Of fewer arcs than this the weights are looked at.
const LOOKED_AT: u32 = 1024;

/// The item that stands for the start at its height, unless it has none or that is beyond the limit.
pub(crate) fn start_item<const D: usize, C: StoredCost<D>, P: Potential>(
    network: &Network<'_>,
    potential: &mut P,
    start: NodeNo,
    target: NodeNo,
    limit: &CostLimit<D>,
) -> Result<Option<Item<C>>, StoreFault>
    requires criteria { network.now.criteria ≡ D }
    requires start { IsNode network.now.nodes start.0 }
    requires target { IsNode network.now.nodes target.0 }
    requires tells { P.tells potential.old network.now target.0 }
    ensures tells { OnOk result (P.tells potential.new network.now target.0) }
    ensures start { IfOk result (λ o. IsStartIfAny (P.height network.now target.0) start.0 limit.now
        (option_map (as_waiting C.components) o)) }
    ensures tells_still { result ≡ Err fault.TooWide
        → P.tells potential.new network.now target.0 }
    ensures too_wide { result ≡ Err fault.TooWide
        → HasNoRoom network.now start.0 target.0 limit.now (P.height network.now target.0) C.Part.bound }
{
    prove!(network.nodes() >= 1);
    prove!(network.criteria() == D);
    let Some(height) = potential.at(network, target, start)? else {
        return Ok(None);
    };
    let height = CompactCost::<D>::of(&height);
    if !limit.allows(&height) {
        return Ok(None);
    }
    let Some(cost) = stored(&height) else {
        return Err(StoreFault::TooWide);
    };
    Ok(Some(Item {
        cost,
        node: start,
        from: NodeNo(0),
    }))
}

/// About how far one arc leads: twice the greatest first component of some arcs.
pub(crate) fn step_of(network: &Network<'_>) -> u64 {
    let every = network.arcs() / LOOKED_AT + 1;
    let mut most = 0;
    for place in 0..network.arcs() / every {
        if let Some(weight) = network.weight(ArcNo(place * every + 1)) {
            most = most.max(weight.component(0));
        }
    }
    u64::from(most).saturating_mul(2)
}
