ghost use Rattle.std.specs.Prelude.{◌≡◌, ℕ, ◌<◌, ◌≤◌, List, Option, None, length, map, slice_get, IfSome};
ghost use Rattle.std.specs.Option.{option_map};
ghost use Rattle.list_laws.specs.Least.{IsLeastWith};
ghost use Rattle.arc_graph.specs.Graph.{head_of};
ghost use Rattle.road_network.specs.Best.{IsBackwardLeast};
ghost use Rattle.walk_readback.specs.Found.{HasAllRelevant, HasSettled, IsWellFound, longest_in};
ghost use Rattle.walk_readback.specs.GoingBack.{GoesBack, IsReadable, last_of};

use crate::{FoundCosts, Room};
use arc_graph::Network;
use cost_vector::{ArcNo, Cost, NodeNo};

/// An arc by which a walk is read back, and what the walk costs without it.
#[derive(Clone, Copy)]
struct Step {
    arc: ArcNo,
    before: Cost,
}

/// Leaves in the room the backward-least walk of the cost at the place `i`, from 0.
///
/// It goes back from the target, each time by the least arc whose tail has a settled cost that fits.
pub fn walk<F: FoundCosts>(network: &Network<'_>, found: &F, i: usize, room: &mut Room)
    requires there { i < length (F.state found.now).costs }
    requires nodes { (F.state found.now).nodes ≡ network.now.nodes }
    requires criteria { (F.state found.now).criteria ≡ network.now.criteria }
    requires well_found { (limit : List (Option ℕ))
        × IsWellFound network.now limit (F.state found.now) }
    requires room { longest_in (F.state found.now) ≤ room.old.holds }
    ensures least { IfSome (slice_get (F.state found.now).costs i) (λ c.
        IsBackwardLeast network.now (F.state found.now).start
        (F.state found.now).target c (map (λ a. a.0) room.new.arcs)) }
    ensures room { room.old.holds ≤ room.new.holds }
{
    prove!(network.nodes() >= 1);
    room.clear();
    let mut node = found.target();
    let mut cost = found.cost(i);
    'arcs: while let Some(step) = step_back(network, found, node, &cost) {
        room.push(step.arc);
        node = network.tail(step.arc);
        cost = step.before;
    }
    room.reverse();
}

/// The last arc of the backward-least walk to a node of a cost that is settled there, or `None` for the walk without arcs.
pub fn last_arc<F: FoundCosts>(
    network: &Network<'_>,
    found: &F,
    node: NodeNo,
    cost: &Cost,
) -> Option<ArcNo>
    requires settled { HasSettled (F.state found.now) node.0 cost.now }
    requires nodes { (F.state found.now).nodes ≡ network.now.nodes }
    requires criteria { (F.state found.now).criteria ≡ network.now.criteria }
    requires all_relevant { (limit : List (Option ℕ))
        × HasAllRelevant network.now limit (F.state found.now) }
    ensures { (p : List ℕ)
        → IsBackwardLeast network.now (F.state found.now).start node.0 cost.now p
        → option_map (λ a. a.0) result ≡ last_of p }
{
    prove!(network.nodes() >= 1);
    let step = step_back(network, found, node, cost)?;
    Some(step.arc)
}

/// The least arc into a node whose tail has what the arc leaves of this cost as a settled one.
fn step_back<F: FoundCosts>(
    network: &Network<'_>,
    found: &F,
    node: NodeNo,
    cost: &Cost,
) -> Option<Step>
    requires readable { IsReadable network.now (F.state found.now) node.0 cost.now }
    requires nodes { (F.state found.now).nodes ≡ network.now.nodes }
    requires criteria { (F.state found.now).criteria ≡ network.now.criteria }
    ensures some { IfSome result (λ s.
        (least : IsLeastWith (GoesBack network.now (F.state found.now) node.0 cost.now) s.arc.0)
        × (least.holds.before ≡ s.before)) }
    ensures none { result ≡ None → (k : ℕ)
        → ¬ GoesBack network.now (F.state found.now) node.0 cost.now k }
{
    let arcs = network.in_arcs(node);
    for &arc in arcs {
        if let Some(before) = cost_before(network, found, arc, cost) {
            return Some(Step { arc, before });
        }
    }
    None
}

/// What an arc leaves of the cost of a walk that ends by it, if that is settled at its tail.
fn cost_before<F: FoundCosts>(
    network: &Network<'_>,
    found: &F,
    arc: ArcNo,
    cost: &Cost,
) -> Option<Cost>
    requires counted { 1 ≤ arc.0 }
    requires there { arc.0 ≤ length network.now.ends }
    requires count { length cost.now ≡ network.now.criteria }
    requires readable { IsReadable network.now (F.state found.now)
        (head_of network.now.ends arc) cost.now }
    requires nodes { (F.state found.now).nodes ≡ network.now.nodes }
    requires criteria { (F.state found.now).criteria ≡ network.now.criteria }
    ensures some { IfSome result (λ b. (back : GoesBack network.now (F.state found.now)
        (head_of network.now.ends arc) cost.now arc.0) × (back.before ≡ b)) }
    ensures none { result ≡ None → ¬ GoesBack network.now (F.state found.now)
        (head_of network.now.ends arc) cost.now arc.0 }
{
    let by = network.weight(arc)?;
    let before = cost.minus(&by)?;
    if !found.has(network.tail(arc), &before) {
        return None;
    }
    Some(before)
}
