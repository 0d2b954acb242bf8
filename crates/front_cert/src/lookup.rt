//! Where a node and a cost stand among labels that ascend.
ghost use Rattle.std.specs.Prelude.{◌≡◌, ◌<◌, ◌≤◌, ◌-◌, ◌↔◌, ◌⊎◌, ℕ, Some, length, map, take, drop, All, AllPairs, Contains, IsTrue};
ghost use Rattle.cert_rules.specs.Certificates.{IsBeaten};
ghost use Rattle.front_cert.specs.Listing.{AreCorners, line_of};
ghost use Rattle.front_cert.specs.Lookup.{Encloses, IsPassed, IsPlace, Precedes, is_before};
ghost use Rattle.front_cert.specs.Offsets.{AreOffsets, IsSpan};

use crate::corners::BLOCK;
use crate::hints::in_32_bits;
use cost_vector::{ArcNo, Cost, Label, NodeNo};

/// How many labels stand before each of this node and this cost, as is found among those of the node alone, and from the place
/// of the hint on.
pub(crate) fn place_by(
    labels: &[Label],
    offsets: &[u32],
    hint: u32,
    node: NodeNo,
    cost: &Cost,
) -> usize
    requires ascending { AllPairs Precedes labels.now }
    requires offsets { AreOffsets labels.now offsets.now }
    ensures within { result ≤ length labels.now }
    ensures place { IsPlace labels.now node.0 cost.now result }
{
    let (least, greatest) = span_of(labels, offsets, node);
    let (first, end) = narrowed(labels, least, greatest, hint as usize, node, cost);
    first + place_of(span(labels, first, end), node, cost)
}

/// From where to where the labels of a node stand; all labels for a number that has no offset.
fn span_of(labels: &[Label], offsets: &[u32], node: NodeNo) -> (usize, usize)
    requires { AreOffsets labels.now offsets.now }
    ensures { IsSpan labels.now node.0 result.0 result.1 }
{
    let v = node.0 as usize;
    if v == 0 || v >= offsets.len() {
        return (0, labels.len());
    }
    (offsets[v - 1] as usize, offsets[v] as usize)
}

/// A part of the places from one to another in which the place of this node and this cost is still, near the hint where that is
/// one of them.
fn narrowed(
    labels: &[Label],
    first: usize,
    end: usize,
    hint: usize,
    node: NodeNo,
    cost: &Cost,
) -> (usize, usize)
    requires ascending { AllPairs Precedes labels.now }
    requires encloses { Encloses labels.now node.0 cost.now first end }
    ensures { Encloses labels.now node.0 cost.now result.0 result.1 }
{
    if hint < first || hint >= end {
        return (first, end);
    }
    if is_before(&labels[hint], node, cost) {
        return onward(labels, hint + 1, end, node, cost);
    }
    if hint == first {
        return (first, first);
    }
    if is_before(&labels[hint - 1], node, cost) {
        (hint, hint)
    } else {
        (first, hint - 1)
    }
}

/// A part of the places from one to another in which the place of this node and this cost is still, by steps that double.
fn onward(labels: &[Label], least: usize, end: usize, node: NodeNo, cost: &Cost) -> (usize, usize)
    requires ascending { AllPairs Precedes labels.now }
    requires encloses { Encloses labels.now node.0 cost.now least end }
    ensures { Encloses labels.now node.0 cost.now result.0 result.1 }
{
    let mut first = least;
    let mut step = 1;
    'steps: while step <= end - first {
        let last = first + step - 1;
        if !is_before(&labels[last], node, cost) {
            return (first, last);
        }
        first = last + 1;
        step = step.saturating_mul(2);
    }
    (first, end)
}

/// The labels from one place to another.
fn span(labels: &[Label], first: usize, end: usize) -> &[Label]
    requires order { first ≤ end }
    requires within { end ≤ length labels.now }
    ensures { result.now ≡ take (end - first) (drop first labels.now) }
{
    let left = &labels[first..];
    &left[..end - first]
}

/// How many labels stand before each of this node and this cost.
fn place_of(labels: &[Label], node: NodeNo, cost: &Cost) -> usize
    requires { AllPairs Precedes labels.now }
    ensures within { result ≤ length labels.now }
    ensures place { IsPlace labels.now node.0 cost.now result }
{
    labels.partition_point(
        |label| -> bool
            ensures { result ≡ is_before node.0 cost.entry.now label.now }
        { is_before(label, node, cost) },
    )
}

/// Whether a label stands before each of this node and this cost.
pub(crate) fn is_before(label: &Label, node: NodeNo, cost: &Cost) -> bool
    ensures { result ≡ is_before node.0 cost.now label.now }
{
    label.node.0 < node.0 || (label.node.0 == node.0 && label.cost.lex_cmp(cost).is_lt())
}

/// The arc of the label of this node and this cost, which would stand at this place.
pub(crate) fn arc_at(labels: &[Label], place: usize, node: NodeNo, cost: &Cost) -> Option<ArcNo>
    requires ascending { AllPairs Precedes labels.now }
    requires within { place ≤ length labels.now }
    requires place { IsPlace labels.now node.0 cost.now place }
    ensures { (arc : ArcNo) → (result ≡ Some arc) ↔ Contains (map line_of labels.now)
        (record { node = node.0; cost = cost.now; arc = arc.0 }) }
{
    if place == labels.len() {
        return None;
    }
    if is_of(&labels[place], node, cost) {
        Some(labels[place].arc)
    } else {
        None
    }
}

/// Whether a label is of this node and this cost.
fn is_of(label: &Label, node: NodeNo, cost: &Cost) -> bool
    ensures { IsTrue result ↔ ((label.now.node.0 ≡ node.0) × (label.now.cost ≡ cost.now)) }
{
    label.node == node && label.cost == *cost
}

/// Whether the label at a place is of the node and dominates this cost.
pub(crate) fn is_beaten_by(labels: &[Label], place: u32, node: NodeNo, cost: &Cost) -> bool
    requires { All (λ l. length l.cost ≡ length cost.now) labels.now }
    ensures { IsTrue result → IsBeaten (map line_of labels.now) node.0 cost.now }
{
    match labels.get(place as usize) {
        Some(label) => label.node == node && label.cost.dominates(cost),
        None => false,
    }
}

/// Whether a cost of the node dominates this one, which would stand at this place: what dominates stands before it. Where one
/// does, its place is `better` from then on.
pub(crate) fn is_beaten_at(
    labels: &[Label],
    corners: &[Cost],
    place: usize,
    node: NodeNo,
    cost: &Cost,
    better: &mut u32,
) -> bool
    requires ascending { AllPairs Precedes labels.now }
    requires within { place ≤ length labels.now }
    requires place { IsPlace labels.now node.0 cost.now place }
    requires whole { All (λ l. length l.cost ≡ length cost.now) labels.now }
    requires cornered { AreCorners (length cost.now) labels.now corners.now }
    ensures { IsTrue result ↔ IsBeaten (map line_of labels.now) node.0 cost.now }
{
    let mut left = place;
    'labels: while left > 0 {
        let label = &labels[left - 1];
        if label.node != node {
            return false;
        }
        if label.cost.at_most(cost) {
            *better = in_32_bits(left - 1);
            return true;
        }
        left -= passed_over(corners, left, cost);
    }
    false
}

/// How many labels before this place can be passed over, of which the last isn't at most the cost: a block where its corner
/// isn't.
fn passed_over(corners: &[Cost], end: usize, cost: &Cost) -> usize
    requires some { 0 < end }
    requires whole { All (λ c. length c ≡ length cost.now) corners.now }
    ensures some { 1 ≤ result }
    ensures within { result ≤ end }
    ensures block { result ≡ 1 ⊎ IsPassed corners.now end cost.now result }
{
    let block = (end - 1) / BLOCK;
    if end % BLOCK == 0 && block < corners.len() && !corners[block].at_most(cost) {
        return BLOCK;
    }
    1
}
