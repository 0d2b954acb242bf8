ghost use Rattle.std.specs.Prelude.{◌≡◌, ◌<◌, ◌≤◌, ◌↔◌, ℕ, None, Some, length, map, slice_get, slice_index, Contains, IsTrue, IfSome};
ghost use Rattle.cert_rules.specs.Certificates.{IsBeaten};
ghost use Rattle.road_network.specs.Network.{IsNode};
ghost use Rattle.front_cert.specs.Checks.{AreUnbeaten};
ghost use Rattle.front_cert.specs.Listing.{AreKept, IsListingOf, line_of};

use crate::corners::corners_of;
use crate::draft::MAX_LABELS;
use crate::hints::{Hint, in_32_bits};
use crate::lookup::{arc_at, is_beaten_at, is_beaten_by, place_by};
use crate::offsets::offsets_of;
use arc_graph::Network;
use cost_vector::{ArcNo, Cost, Label, NodeNo};
use out_of_memory::OutOfMemory;
use std::alloc::Global;
use std::marker::Model;

/// A certificate of a network: labels by ascending node and then by ascending cost.
#[derive(Drop)]
pub struct Listing {
    pub(crate) nodes: u32,
    pub(crate) criteria: usize,
    pub(crate) start: NodeNo,
    pub(crate) target: NodeNo,
    pub(crate) labels: Vec<Label>,
    /// Of each of the first blocks of labels, a cost that is at most each of theirs.
    pub(crate) corners: Vec<Cost>,
    /// The labels of node v stand from `offsets[v - 1]` to `offsets[v]`, where there are such offsets.
    pub(crate) offsets: Vec<u32>,
    /// Whether no listed cost dominates another of its node; false where that isn't known.
    pub(crate) unbeaten: bool,
}

impl Model for Listing {
    ghost use Rattle.std.specs.Prelude.{◌≡◌, map, true};
    ghost use Rattle.front_cert.specs.Checks.{AreUnbeaten};
    ghost use Rattle.front_cert.specs.Listing.{Listing, AreKeptWith, IsKept, line_of};

    ghost Value = { Listing };

    ghost view = { λ l. record {
      nodes = l.nodes;
      criteria = l.criteria;
      cert = record { start = l.start.0; target = l.target.0; labels = map line_of l.labels.items };
    } };

    ghost invariant = { λ l. IsKept (record {
      nodes = l.nodes;
      criteria = l.criteria;
      cert = record { start = l.start.0; target = l.target.0; labels = map line_of l.labels.items };
    }) × AreKeptWith l.criteria l.labels.items l.corners.items l.offsets.items
        × (l.unbeaten ≡ true → AreUnbeaten (map line_of l.labels.items)) };
}

impl Listing {
    /// The certificate of labels that ascend.
    pub fn of_labels(
        alloc: Global,
        network: &Network<'_>,
        start: NodeNo,
        target: NodeNo,
        labels: Vec<Label>,
    ) -> Listing
        requires start { IsNode network.now.nodes start.0 }
        requires target { IsNode network.now.nodes target.0 }
        requires kept { AreKept network.now.criteria labels.items }
        ensures of { IsListingOf network.now result }
        ensures says { result.cert ≡ record {
          start = start.0;
          target = target.0;
          labels = map line_of labels.items;
        } }
    {
        Listing {
            nodes: network.nodes(),
            criteria: network.criteria(),
            start,
            target,
            labels,
            corners: Vec::new(alloc),
            offsets: Vec::new(alloc),
            unbeaten: false,
        }
    }

    /// Lays the corners of all full blocks, by which costs that dominate others are found faster.
    pub(crate) fn lay_corners(&mut self, alloc: Global) -> Result<(), OutOfMemory>
        ensures { self.new ≡ self.old }
    {
        self.corners = corners_of(alloc, &self.labels, self.criteria)?;
        Ok(())
    }

    /// Lays the ends of each node's labels, by which a label is found among those of its node. What has more labels than a
    /// certificate may have goes without.
    pub(crate) fn lay_offsets(&mut self, alloc: Global) -> Result<(), OutOfMemory>
        ensures { self.new ≡ self.old }
    {
        if self.labels.len() <= MAX_LABELS as usize {
            self.offsets = offsets_of(alloc, &self.labels, self.nodes)?;
        }
        Ok(())
    }

    /// Takes down that no listed cost dominates another of its node, or that this isn't known.
    pub(crate) fn set_unbeaten(&mut self, unbeaten: bool)
        requires { IsTrue unbeaten → AreUnbeaten self.old.cert.labels }
        ensures { self.new ≡ self.old }
    {
        self.unbeaten = unbeaten;
    }

    /// The number of criteria.
    pub fn criteria(&self) -> usize
        ensures { result ≡ self.now.criteria }
    {
        self.criteria
    }

    /// The number of labels.
    pub fn len(&self) -> usize
        ensures { result ≡ length self.now.cert.labels }
    {
        self.labels.len()
    }

    /// The label at the place `i`, from 0.
    pub fn label(&self, i: usize) -> Label
        requires { i < length self.now.cert.labels }
        ensures { slice_get self.now.cert.labels i ≡ Some (line_of result) }
    {
        self.labels[i]
    }

    /// The arc of the label of this node and this cost, if there is one.
    pub(crate) fn find(&self, node: NodeNo, cost: &Cost) -> Option<ArcNo>
        ensures { (arc : ArcNo) → (result ≡ Some arc) ↔ Contains self.now.cert.labels
            (record { node = node.0; cost = cost.now; arc = arc.0 }) }
    {
        let mut hint = Hint::NONE;
        self.find_near(node, cost, &mut hint)
    }

    /// The same, found from the place of the hint on, which is where it would stand from then on.
    pub(crate) fn find_near(&self, node: NodeNo, cost: &Cost, hint: &mut Hint) -> Option<ArcNo>
        ensures { (arc : ArcNo) → (result ≡ Some arc) ↔ Contains self.now.cert.labels
            (record { node = node.0; cost = cost.now; arc = arc.0 }) }
    {
        let place = place_by(&self.labels, &self.offsets, hint.place, node, cost);
        hint.place = in_32_bits(place);
        arc_at(&self.labels, place, node, cost)
    }

    /// The same, and where there is none, whether a listed cost of the node dominates this one.
    pub(crate) fn look_near(
        &self,
        node: NodeNo,
        cost: &Cost,
        hint: &mut Hint,
    ) -> (Option<ArcNo>, bool)
        requires { length cost.now ≡ self.now.criteria }
        ensures found { (arc : ArcNo) → (result.0 ≡ Some arc) ↔ Contains self.now.cert.labels
            (record { node = node.0; cost = cost.now; arc = arc.0 }) }
        ensures beaten { result.0 ≡ None
            → (IsTrue result.1 ↔ IsBeaten self.now.cert.labels node.0 cost.now) }
    {
        let place = place_by(&self.labels, &self.offsets, hint.place, node, cost);
        hint.place = in_32_bits(place);
        match arc_at(&self.labels, place, node, cost) {
            Some(arc) => (Some(arc), false),
            None => (
                None,
                is_beaten_at(
                    &self.labels,
                    &self.corners,
                    place,
                    node,
                    cost,
                    &mut hint.better,
                ),
            ),
        }
    }

    /// Whether the label at a place is of the node and dominates this cost.
    pub(crate) fn is_beaten_by(&self, place: u32, node: NodeNo, cost: &Cost) -> bool
        requires { length cost.now ≡ self.now.criteria }
        ensures { IsTrue result → IsBeaten self.now.cert.labels node.0 cost.now }
    {
        is_beaten_by(&self.labels, place, node, cost)
    }

    /// Whether it is known that no listed cost dominates another of its node.
    pub(crate) fn is_unbeaten(&self) -> bool
        ensures { IsTrue result → AreUnbeaten self.now.cert.labels }
    {
        self.unbeaten
    }

    /// Whether a listed cost of the node dominates this one.
    pub(crate) fn is_beaten(&self, node: NodeNo, cost: &Cost) -> bool
        requires { length cost.now ≡ self.now.criteria }
        ensures { IsTrue result ↔ IsBeaten self.now.cert.labels node.0 cost.now }
    {
        let mut hint = Hint::NONE;
        let place = place_by(&self.labels, &self.offsets, hint.place, node, cost);
        is_beaten_at(
            &self.labels,
            &self.corners,
            place,
            node,
            cost,
            &mut hint.better,
        )
    }
}
