ghost use Rattle.std.specs.Prelude.{◌≡◌, ◌+◌, ◌≢◌, ℕ, length, OnOk};
ghost use Rattle.road_network.specs.Network.{IsNode};
ghost use Rattle.sweep_parts.specs.Settled.{costs_of};
ghost use Rattle.sweep_search.specs.Finding.{AreLiftedAt, IsBareAt, IsSameFind};

use arc_graph::Network;
use cost_vector::NodeNo;
use node_lists::FoundLists;
use out_of_memory::OutOfMemory;
use stored_cost::StoredCost;
use sweep_core::Potential;

/// Takes the height of each node off its costs.
pub(crate) fn lower_all<const D: usize, C: StoredCost<D>, P: Potential>(
    network: &Network<'_>,
    target: NodeNo,
    potential: &mut P,
    found: &mut FoundLists<D, C>,
) -> Result<(), OutOfMemory>
    requires criteria { found.old.criteria ≡ network.now.criteria }
    requires target { IsNode network.now.nodes target.0 }
    requires tells { P.tells potential.old network.now target.0 }
    requires count { length found.old.lists ≡ network.now.nodes + 1 }
    requires lifted { (v : ℕ)
        → AreLiftedAt network.now (P.height network.now target.0) found.old.lists v }
    ensures same { OnOk result (IsSameFind found.old found.new) }
    ensures bare { OnOk result ((v : ℕ) → IsBareAt network.now (P.height network.now target.0)
        found.old.lists found.new.lists v) }
{
    prove!(network.nodes() >= 1);
    for place in 0..network.nodes() {
        lower(network, target, potential, NodeNo(place + 1), found)?;
    }
    Ok(())
}

/// Takes its height off the costs of a node.
fn lower<const D: usize, C: StoredCost<D>, P: Potential>(
    network: &Network<'_>,
    target: NodeNo,
    potential: &mut P,
    node: NodeNo,
    found: &mut FoundLists<D, C>,
) -> Result<(), OutOfMemory>
    requires criteria { found.old.criteria ≡ network.now.criteria }
    requires target { IsNode network.now.nodes target.0 }
    requires node { IsNode network.now.nodes node.0 }
    requires tells { P.tells potential.old network.now target.0 }
    requires count { length found.old.lists ≡ network.now.nodes + 1 }
    requires lifted { AreLiftedAt network.now (P.height network.now target.0)
        found.old.lists node.0 }
    ensures tells { OnOk result (P.tells potential.new network.now target.0) }
    ensures same { OnOk result (IsSameFind found.old found.new) }
    ensures others { OnOk result ((w : ℕ) → w ≢ node.0
        → costs_of found.new.lists w ≡ costs_of found.old.lists w) }
    ensures bare { OnOk result (IsBareAt network.now (P.height network.now target.0)
        found.old.lists found.new.lists node.0) }
{
    prove!(network.nodes() >= 1);
    if found.count_at(node) == 0 {
        return Ok(());
    }
    let Some(height) = potential.at(network, target, node)? else {
        return Ok(());
    };
    found.lower(node, &height);
    Ok(())
}
