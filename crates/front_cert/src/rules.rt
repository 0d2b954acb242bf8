//! Which rule fails at a label.
ghost use Rattle.std.specs.Prelude.{◌≡◌, ◌≢◌, ◌⊎◌, ◌<◌, ◌≤◌, ◌↔◌, ◌+◌, ℕ, Some, None, length, Contains, IsTrue, IfOk, IfSome, slice_get};
ghost use Rattle.road_network.specs.Network.{Network as NetworkState};
ghost use Rattle.road_network.specs.Walks.{EndsBy};
ghost use Rattle.arc_graph.specs.Graph.{IsRoadNetwork, out_arcs_of, tail_of};
ghost use Rattle.cert_rules.specs.Certificates.{IsBeaten, IsCertificate, IsLine, IsListed, start_label};
ghost use Rattle.cert_rules.specs.Rules.{FailsAt, Fails};
ghost use Rattle.front_cert.specs.Listing.{Listing, IsListingOf, line_of};
ghost use Rattle.front_cert.specs.Checks.{Comes, ForArc, TellsArc, TellsArcs, TellsBeaten, TellsFirst, TellsLeast};

use crate::Listing;
use crate::hints::Hints;
use arc_graph::Network;
use cert_rules::Rule;
use cost_vector::{ArcNo, Cost, Label, NodeNo};
use out_of_memory::OutOfMemory;
use std::alloc::Global;

impl Listing {
    /// The first label at which a rule fails, numbered from 1, and the least such rule; the number is 0 where the list as a
    /// whole has no start. At which place the last rule fails first is known.
    pub(crate) fn first_failure(
        &self,
        alloc: Global,
        network: &Network<'_>,
        beaten: Option<usize>,
    ) -> Result<Option<(Rule, u32)>, OutOfMemory>
        requires network { IsRoadNetwork network.now }
        requires of { IsListingOf network.now self.now }
        requires certificate { IsCertificate network.now self.now.cert }
        requires beaten { TellsBeaten self.now.cert.labels beaten }
        ensures { IfOk result (TellsFirst network.now self.now.cert) }
    {
        if !self.lists_start() {
            return Ok(Some((Rule::Start, 0)));
        }
        let mut hints = Hints::new(alloc, network.arcs())?;
        for i in 0..self.len() {
            let label = self.label(i);
            let is_beaten = beaten == Some(i);
            if let Some(rule) = self.failing_rule(network, &label, is_beaten, &mut hints) {
                return Ok(Some((rule, i as u32 + 1)));
            }
        }
        Ok(None)
    }

    /// Whether the start at cost zero is listed without an arc.
    fn lists_start(&self) -> bool
        ensures { (net : NetworkState) → IsListingOf net self.now
            → (IsTrue result ↔ Contains self.now.cert.labels (start_label net self.now.cert)) }
    {
        let zero = Cost::zero(self.criteria);
        match self.find(self.start, &zero) {
            Some(arc) => arc.0 == 0,
            None => false,
        }
    }

    /// The least rule that fails at a label, of which is known whether the last one does.
    fn failing_rule(
        &self,
        network: &Network<'_>,
        label: &Label,
        is_beaten: bool,
        hints: &mut Hints,
    ) -> Option<Rule>
        requires known { IsTrue is_beaten
            ↔ IsBeaten self.now.cert.labels label.now.node.0 label.now.cost }
        requires network { IsRoadNetwork network.now }
        requires of { IsListingOf network.now self.now }
        requires certificate { IsCertificate network.now self.now.cert }
        requires line { IsLine network.now (line_of label.now) }
        ensures { TellsLeast network.now self.now.cert (line_of label.now) result }
    {
        if let Some(rule) = self.arrival_fault(network, label, hints) {
            return Some(rule);
        }
        if let Some(rule) = self.departure_fault(network, label, hints) {
            return Some(rule);
        }
        if is_beaten {
            return Some(Rule::Undominated);
        }
        None
    }

    /// Which of the first two rules fails at a label.
    fn arrival_fault(&self, network: &Network<'_>, label: &Label, hints: &mut Hints) -> Option<Rule>
        requires network { IsRoadNetwork network.now }
        requires of { IsListingOf network.now self.now }
        requires certificate { IsCertificate network.now self.now.cert }
        requires line { IsLine network.now (line_of label.now) }
        ensures start { (result ≡ Some Rule.Start)
            ↔ FailsAt network.now self.now.cert Rule.Start (line_of label.now) }
        ensures arrival { (result ≡ Some Rule.Arrival)
            ↔ FailsAt network.now self.now.cert Rule.Arrival (line_of label.now) }
        ensures only { IfSome result (λ rule. (rule ≡ Rule.Start) ⊎ (rule ≡ Rule.Arrival)) }
        ensures comes { result ≡ None → Comes network.now self.now.cert.labels (line_of label.now) }
    {
        if label.arc.0 == 0 {
            if self.is_start(label) {
                return None;
            }
            return Some(Rule::Start);
        }
        if self.comes_by_arc(network, label, hints) {
            None
        } else {
            Some(Rule::Arrival)
        }
    }

    /// Whether a label is of the start at cost zero.
    fn is_start(&self, label: &Label) -> bool
        ensures { (net : NetworkState) → IsListingOf net self.now → label.now.arc.0 ≡ 0
            → (IsTrue result ↔ (line_of label.now ≡ start_label net self.now.cert)) }
    {
        label.node == self.start && label.cost == Cost::zero(self.criteria)
    }

    /// Whether a label comes of a listed one by its arc.
    fn comes_by_arc(&self, network: &Network<'_>, label: &Label, hints: &mut Hints) -> bool
        requires network { IsRoadNetwork network.now }
        requires of { IsListingOf network.now self.now }
        requires certificate { IsCertificate network.now self.now.cert }
        requires line { IsLine network.now (line_of label.now) }
        requires some { 1 ≤ label.now.arc.0 }
        ensures { IsTrue result ↔ EndsBy network.now label.now.arc.0 label.now.node.0
            (IsListed self.now.cert.labels) label.now.cost }
    {
        if network.head(label.arc) != label.node {
            return false;
        }
        let Some(weight) = network.weight(label.arc) else {
            return false;
        };
        match label.cost.minus(&weight) {
            Some(before) => self.is_listed(network.tail(label.arc), &before, label.arc, hints),
            None => false,
        }
    }

    /// Whether this cost of the node is listed, as is found by the hint for an arc.
    fn is_listed(&self, node: NodeNo, cost: &Cost, arc: ArcNo, hints: &mut Hints) -> bool
        ensures { IsTrue result ↔ IsListed self.now.cert.labels node.0 cost.now }
    {
        let mut hint = hints.of(arc);
        let found = self.find_near(node, cost, &mut hint);
        hints.set(arc, hint);
        found.is_some()
    }

    /// Which of the third and the fourth rule fails at a label, the third first.
    fn departure_fault(
        &self,
        network: &Network<'_>,
        label: &Label,
        hints: &mut Hints,
    ) -> Option<Rule>
        requires network { IsRoadNetwork network.now }
        requires of { IsListingOf network.now self.now }
        requires certificate { IsCertificate network.now self.now.cert }
        requires line { IsLine network.now (line_of label.now) }
        requires comes { Comes network.now self.now.cert.labels (line_of label.now) }
        ensures { TellsArcs network.now self.now.cert (line_of label.now) result }
    {
        let mut later = false;
        let arcs = network.out_arcs(label.node);
        for &arc in arcs {
            let fault = self.arc_fault(network, label, arc, hints);
            if is_departure(fault) {
                return fault;
            }
            later |= fault.is_some();
        }
        if later { Some(Rule::LeastArc) } else { None }
    }

    /// Which of them fails at a label over one arc that leads on from it.
    fn arc_fault(
        &self,
        network: &Network<'_>,
        label: &Label,
        arc: ArcNo,
        hints: &mut Hints,
    ) -> Option<Rule>
        requires network { IsRoadNetwork network.now }
        requires of { IsListingOf network.now self.now }
        requires certificate { IsCertificate network.now self.now.cert }
        requires line { IsLine network.now (line_of label.now) }
        requires comes { Comes network.now self.now.cert.labels (line_of label.now) }
        requires leads { Contains (out_arcs_of network.now.ends label.now.node.0) arc }
        ensures { TellsArc network.now self.now.cert (line_of label.now) arc.0 result }
    {
        let weight = network.weight(arc)?;
        let head = network.head(arc);
        if self.is_unbeaten() && comes_from(network, label, head) {
            return None;
        }
        let sum = label.cost.plus(&weight);
        let mut hint = hints.of(arc);
        if self.is_unbeaten() && self.is_beaten_by(hint.better, head, &sum) {
            return None;
        }
        let (found, is_beaten) = self.look_near(head, &sum, &mut hint);
        hints.set(arc, hint);
        match found {
            Some(listed) if listed.0 > arc.0 => Some(Rule::LeastArc),
            Some(_) => None,
            None if self.is_useless(head, is_beaten, &sum) => None,
            None => Some(Rule::Departure),
        }
    }

    /// Whether a listed cost of the node or of the target dominates this one, of which is known whether one of the node does.
    fn is_useless(&self, node: NodeNo, is_beaten: bool, cost: &Cost) -> bool
        requires known { IsTrue is_beaten ↔ IsBeaten self.now.cert.labels node.0 cost.now }
        requires whole { length cost.now ≡ self.now.criteria }
        ensures { IsTrue result ↔ (IsBeaten self.now.cert.labels node.0 cost.now
            ⊎ IsBeaten self.now.cert.labels self.now.cert.target cost.now) }
    {
        is_beaten || self.is_beaten(self.target, cost)
    }
}

/// Whether a label has an arc, which leads from this node.
fn comes_from(network: &Network<'_>, label: &Label, node: NodeNo) -> bool
    requires { label.now.arc.0 ≤ length network.now.ends }
    ensures arc { IsTrue result → 1 ≤ label.now.arc.0 }
    ensures tail { IsTrue result → tail_of network.now.ends label.now.arc ≡ node.0 }
{
    label.arc.0 != 0 && network.tail(label.arc) == node
}

/// Whether the third rule fails.
fn is_departure(fault: Option<Rule>) -> bool
    ensures { IsTrue result ↔ (fault ≡ Some Rule.Departure) }
{
    matches!(fault, Some(Rule::Departure))
}
