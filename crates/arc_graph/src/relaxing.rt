ghost use Rattle.std.specs.Prelude.{◌≡◌, ◌≤◌, length, IfOk, IfSome};
ghost use Rattle.cost_vector.specs.Costs.{plus};
ghost use Rattle.road_network.specs.Network.{IsNode};
ghost use Rattle.arc_graph.specs.Graph.{Fits, SumsFit, label_by, relaxed, arc_state};

use crate::Network;
use cost_vector::{ArcNo, Label, Spot};
use out_of_memory::OutOfMemory;
use std::alloc::Global;

/// The labels that walks get by going on from a node along one arc more: for each arc that leads from the node and isn't
/// shut, in ascending order, its head and the cost with the arc's vector added.
pub fn relax(alloc: Global, network: &Network<'_>, spot: &Spot) -> Result<Vec<Label>, OutOfMemory>
    requires node { IsNode network.now.nodes spot.now.node.0 }
    requires criteria { length spot.now.cost ≡ network.now.criteria }
    requires fits { SumsFit network.now spot.now.node.0 spot.now.cost }
    ensures { IfOk result (λ labels. labels.items
        ≡ relaxed network.now spot.now.node.0 spot.now.cost) }
{
    let arcs = network.out_arcs(spot.node);
    let mut labels = Vec::with_capacity(alloc, arcs.len())?;
    for &arc in arcs {
        if let Some(label) = label_along(network, spot, arc) {
            labels.push(label)?;
        }
    }
    Ok(labels)
}

/// The label that a walk gets by going on along an arc, unless the arc is shut.
fn label_along(network: &Network<'_>, spot: &Spot, arc: ArcNo) -> Option<Label>
    requires counted { 1 ≤ arc.0 }
    requires there { arc.0 ≤ length network.now.ends }
    requires criteria { length spot.now.cost ≡ network.now.criteria }
    requires fits { IfSome (arc_state network.now.states arc) (λ by. Fits (plus spot.now.cost by)) }
    ensures { result ≡ label_by network.now spot.now.cost arc }
{
    let weight = network.weight(arc)?;
    Some(Label {
        node: network.head(arc),
        cost: spot.cost.plus(&weight),
        arc,
    })
}
