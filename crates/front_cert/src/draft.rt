ghost use Rattle.std.specs.Prelude.{◌≡◌, ◌≤◌, [], ◌∷◌, Some, None, length, map, All, MatchBool, IfOk, IfSome};
ghost use Rattle.std.specs.Option.{option_map};
ghost use Rattle.line_text.specs.Fields.{fields_of};
ghost use Rattle.cost_vector.specs.Costs.{max_criteria, min_criteria};
ghost use Rattle.cert_rules.specs.Certificates.{IsCertificate, IsLine, max_component};
ghost use Rattle.front_cert.specs.Listing.{IsListingOf, line_of};
ghost use Rattle.front_cert.specs.Reads.{IsDraft, draft_of};
ghost use Rattle.front_cert.specs.Text.{components, follows, heading_from, label_from, last_label, with_label};

use crate::Listing;
use crate::lookup::is_before;
use arc_graph::Network;
use cost_vector::{ArcNo, Cost, Label, MAX_CRITERIA, NodeNo};
use line_text::{first_byte, next_field, next_in};
use out_of_memory::OutOfMemory;
use std::alloc::Global;

/// The most labels of a certificate.
pub const MAX_LABELS: u32 = 4_000_000;

/// The greatest component of a listed cost.
const MAX_COMPONENT: u64 = 1 << 58;

/// What the lines so far say.
#[derive(Drop)]
pub(crate) struct Draft {
    pub(crate) start: NodeNo,
    pub(crate) target: NodeNo,
    pub(crate) due: u32,
    pub(crate) labels: Vec<Label>,
}

impl Draft {
    /// What the first line says.
    pub(crate) fn begin(alloc: Global, line: &[u8], network: &Network<'_>) -> Option<Draft>
        ensures says { option_map draft_of result ≡ heading_from network.now (fields_of line.now) }
        ensures draft { IfSome result (IsDraft network.now) }
    {
        let (word, rest) = next_field(line)?;
        if word != b"z".as_slice() {
            return None;
        }
        let criteria = network.criteria() as u64;
        let nodes = u64::from(network.nodes());
        let (_, rest) = next_in(rest, criteria, criteria)?;
        let (start, rest) = next_in(rest, 1, nodes)?;
        let (target, rest) = next_in(rest, 1, nodes)?;
        let (due, rest) = next_in(rest, 0, u64::from(MAX_LABELS))?;
        if first_byte(rest).is_some() {
            return None;
        }
        Some(Draft {
            start: NodeNo(start as u32),
            target: NodeNo(target as u32),
            due: due as u32,
            labels: Vec::new(alloc),
        })
    }

    /// Takes what a further line says, and answers whether it was due.
    pub(crate) fn take(&mut self, line: &[u8], network: &Network<'_>) -> Result<bool, OutOfMemory>
        requires draft { IsDraft network.now self.old }
        ensures draft { IfOk result (λ due. IsDraft network.now self.new) }
        ensures says { IfOk result (λ due. MatchBool due
            (with_label (draft_of self.old) (label_from network.now (fields_of line.now)) ≡ Some (draft_of self.new))
            (with_label (draft_of self.old) (label_from network.now (fields_of line.now)) ≡ None)) }
    {
        let Some(label) = label_in(line, network) else {
            return Ok(false);
        };
        if self.labels.len() >= self.due as usize || !self.is_followed_by(&label) {
            return Ok(false);
        }
        self.labels.push(label)?;
        Ok(true)
    }
}

impl Draft {
    /// Whether a label is greater than the last one.
    fn is_followed_by(&self, label: &Label) -> bool
        ensures { result ≡ follows (last_label (map line_of self.now.labels.items)) (line_of label.now) }
    {
        follows(&self.labels, label)
    }
}

/// Whether a label is greater than the last of these, if there is one.
fn follows(labels: &[Label], label: &Label) -> bool
    ensures { result ≡ follows (last_label (map line_of labels.now)) (line_of label.now) }
{
    match labels.last() {
        None => true,
        Some(last) => is_before(last, label.node, &label.cost),
    }
}

/// The label that a line says.
fn label_in(line: &[u8], network: &Network<'_>) -> Option<Label>
    ensures says { option_map line_of result ≡ label_from network.now (fields_of line.now) }
    ensures line { IfSome result (λ l. IsLine network.now (line_of l)) }
{
    let (word, rest) = next_field(line)?;
    if word != b"b".as_slice() {
        return None;
    }
    let (node, rest) = next_in(rest, 1, u64::from(network.nodes()))?;
    let (arc, rest) = next_in(rest, 0, u64::from(network.arcs()))?;
    let cost = cost_in(rest, network.criteria())?;
    Some(Label {
        node: NodeNo(node as u32),
        cost,
        arc: ArcNo(arc as u32),
    })
}

/// The cost that so many numbers say.
fn cost_in(text: &[u8], criteria: usize) -> Option<Cost>
    requires two { min_criteria ≤ criteria }
    requires four { criteria ≤ max_criteria }
    ensures says { result ≡ components criteria (fields_of text.now) }
    ensures whole { IfSome result (λ cost. length cost ≡ criteria) }
    ensures small { IfSome result (All (λ x. x ≤ max_component)) }
{
    let mut places = [0; MAX_CRITERIA];
    let mut rest = text;
    for i in 0..criteria {
        let (number, behind) = next_in(rest, 0, MAX_COMPONENT)?;
        places[i] = number;
        rest = behind;
    }
    if first_byte(rest).is_some() {
        return None;
    }
    Some(Cost::of_numbers(&places[..criteria]))
}

impl Draft {
    /// The certificate, once all labels have come.
    pub(crate) fn into_listing(self, alloc: Global, network: &Network<'_>) -> Listing
        requires draft { IsDraft network.now self }
        ensures cert { result.cert ≡ (draft_of self).cert }
        ensures of { IsListingOf network.now result }
        ensures certificate { IsCertificate network.now result.cert }
    {
        Listing {
            nodes: network.nodes(),
            criteria: network.criteria(),
            start: self.start,
            target: self.target,
            labels: self.labels,
            corners: Vec::new(alloc),
            offsets: Vec::new(alloc),
            unbeaten: false,
        }
    }
}
