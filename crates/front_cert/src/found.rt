//! A certificate as something that a search has found: its labels are the settled pairs.
ghost use Rattle.std.specs.Prelude.{◌≡◌, ◌<◌, ◌==◌, Some, length, map, slice_get, nat_eq, nat_lt, AllPairs};
ghost use Rattle.std.specs.List.{filter};
ghost use Rattle.front_cert.specs.Lookup.{Precedes};

use crate::Listing;
use cost_vector::{Cost, Label, NodeNo};
use walk_readback::FoundCosts;

impl FoundCosts for Listing {
    ghost use Rattle.front_cert.specs.Found.{found_of};

    ghost state = { found_of };

    fn start(&self) -> NodeNo {
        self.start
    }

    fn target(&self) -> NodeNo {
        self.target
    }

    fn count(&self) -> usize {
        labels_of(&self.labels, self.target).len()
    }

    fn cost(&self, i: usize) -> Cost {
        cost_at(labels_of(&self.labels, self.target), i)
    }

    fn has(&self, node: NodeNo, cost: &Cost) -> bool {
        self.find(node, cost).is_some()
    }

    fn longest(&self) -> u32 {
        let most = self.labels.len().min(self.nodes as usize);
        most.saturating_sub(1) as u32
    }
}

/// The labels of a node, which stand side by side.
fn labels_of(labels: &[Label], node: NodeNo) -> &[Label]
    requires { AllPairs Precedes labels.now }
    ensures { result.now ≡ filter (λ l. l.node.0 == node.0) labels.now }
{
    let first = labels.partition_point(
        |label| -> bool
            ensures { result ≡ nat_lt label.now.node.0 node.0 }
        { label.node.0 < node.0 },
    );
    let rest = &labels[first..];
    let count = rest.partition_point(
        |label| -> bool
            ensures { result ≡ nat_eq label.now.node.0 node.0 }
        { label.node == node },
    );
    &rest[..count]
}

/// The cost of the label at the place `i`, from 0.
fn cost_at(labels: &[Label], i: usize) -> Cost
    requires { i < length labels.now }
    ensures { slice_get (map (λ l. l.cost) labels.now) i ≡ Some result }
{
    labels[i].cost
}
