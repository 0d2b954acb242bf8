//! The labels of what a search has found, with the last arcs of their backward-least walks.
ghost use Rattle.std.specs.Prelude.{◌≡◌, ℕ, ◌≤◌, ◌-◌, List, None, IfOk, OnOk};
ghost use Rattle.road_network.specs.Best.{IsBackwardLeast};
ghost use Rattle.road_network.specs.Labels.{HasLeastArc, last_arc};
ghost use Rattle.road_network.specs.Network.{IsNode};
ghost use Rattle.road_network.specs.Queries.{IsTooLarge, limit_of};
ghost use Rattle.walk_readback.specs.Found.{HasAllRelevant, HasSettled, IsOf};
ghost use Rattle.cert_rules.specs.Certificates.{IsCertificate, max_labels};
ghost use Rattle.cert_rules.specs.Meaning.{ListsRelevant};
ghost use Rattle.front_cert.specs.Listing.{IsListingOf, line_of};
ghost use Rattle.cert_writer.specs.Labels.{IsWhole, ListsUpTo};

use arc_graph::Network;
use cost_vector::{ArcNo, Cost, Label, NodeNo};
use front_cert::Listing;
use out_of_memory::OutOfMemory;
use road_network::Query;
use std::alloc::Global;
use walk_readback::{FoundCosts, SettledCosts, last_arc};

/// The certificate of what a search has found for a query without limits: the relevant pairs, each with the last arc of its
/// backward-least walk.
pub fn list_labels<F: SettledCosts>(
    alloc: Global,
    network: &Network<'_>,
    query: &Query,
    found: &F,
) -> Result<Listing, OutOfMemory>
    requires of_query { IsOf network.now query.now (F.FoundCosts.state found.now) }
    requires unlimited { query.now.limit ≡ None }
    requires relevant { HasAllRelevant network.now (limit_of network.now.criteria query.now)
        (F.FoundCosts.state found.now) }
    requires budget { query.now.budget ≤ max_labels }
    requires in_budget { ¬ IsTooLarge network.now query.now }
    ensures of { IfOk result (IsListingOf network.now) }
    ensures ends { IfOk result (λ l.
        (l.cert.start ≡ query.now.from) × (l.cert.target ≡ query.now.to)) }
    ensures relevant { IfOk result (λ l. ListsRelevant network.now l.cert) }
    ensures certificate { IfOk result (λ l. IsCertificate network.now l.cert) }
{
    prove!(network.nodes() >= 1);
    let _count = found.count();
    let labels = settled_labels(alloc, network, found)?;
    Ok(Listing::of_labels(alloc, network, found.start(), found.target(), labels))
}

/// The labels of all settled pairs.
fn settled_labels<F: SettledCosts>(
    alloc: Global,
    network: &Network<'_>,
    found: &F,
) -> Result<Vec<Label>, OutOfMemory>
    requires whole { IsWhole network.now (F.FoundCosts.state found.now) }
    ensures { IfOk result (λ labels. ListsUpTo network.now (F.FoundCosts.state found.now)
        network.now.nodes labels.items) }
{
    let mut labels = Vec::with_capacity(alloc, found.settled())?;
    for lesser in 0..network.nodes() {
        push_labels(alloc, network, found, NodeNo(lesser + 1), &mut labels)?;
    }
    Ok(labels)
}

/// Puts the labels of a node behind those of lesser nodes.
fn push_labels<F: SettledCosts>(
    alloc: Global,
    network: &Network<'_>,
    found: &F,
    node: NodeNo,
    labels: &mut Vec<Label>,
) -> Result<(), OutOfMemory>
    requires whole { IsWhole network.now (F.FoundCosts.state found.now) }
    requires node { IsNode network.now.nodes node.0 }
    requires lesser { ListsUpTo network.now (F.FoundCosts.state found.now) (node.0 - 1)
        labels.old.items }
    ensures { OnOk result (ListsUpTo network.now (F.FoundCosts.state found.now) node.0
        labels.new.items) }
{
    let costs = found.costs_of(alloc, node)?;
    for cost in &costs {
        let label = label_of(network, found, node, cost);
        labels.push(label)?;
    }
    Ok(())
}

/// The label of a settled pair.
fn label_of<F: FoundCosts>(network: &Network<'_>, found: &F, node: NodeNo, cost: &Cost) -> Label
    requires whole { IsWhole network.now (F.state found.now) }
    requires settled { HasSettled (F.state found.now) node.0 cost.now }
    ensures node { result.node.0 ≡ node.0 }
    ensures cost { result.cost ≡ cost.now }
    ensures least { HasLeastArc network.now (F.state found.now).start (line_of result) }
{
    prove!(network.nodes() >= 1);
    Label {
        node,
        cost: *cost,
        arc: arc_of(network, found, node, cost),
    }
}

/// The last arc of the backward-least walk of a settled pair, or 0 for the walk without arcs.
fn arc_of<F: FoundCosts>(network: &Network<'_>, found: &F, node: NodeNo, cost: &Cost) -> ArcNo
    requires whole { IsWhole network.now (F.state found.now) }
    requires settled { HasSettled (F.state found.now) node.0 cost.now }
    ensures { (p : List ℕ)
        → IsBackwardLeast network.now (F.state found.now).start node.0 cost.now p
        → result.0 ≡ last_arc p }
{
    match last_arc(network, found, node, cost) {
        Some(arc) => arc,
        None => ArcNo(0),
    }
}
