//! Corners of blocks of labels: a corner is at most each cost of its block.
ghost use Rattle.std.specs.Prelude.{◌≡◌, ◌<◌, ◌≤◌, length, All, IfOk};
ghost use Rattle.cost_vector.specs.Costs.{AtMost, max_criteria, min_criteria};
ghost use Rattle.front_cert.specs.Listing.{AreCorners};

use cost_vector::{Cost, Label, MAX_CRITERIA};
use out_of_memory::OutOfMemory;
use std::alloc::Global;

/// How many labels stand in a block.
pub(crate) const BLOCK: usize = 32;

/// The corners of all full blocks.
pub(crate) fn corners_of(
    alloc: Global,
    labels: &[Label],
    criteria: usize,
) -> Result<Vec<Cost>, OutOfMemory>
    requires two { min_criteria ≤ criteria }
    requires four { criteria ≤ max_criteria }
    requires whole { All (λ l. length l.cost ≡ criteria) labels.now }
    ensures { IfOk result (λ corners. AreCorners criteria labels.now corners.items) }
{
    let count = labels.len() / BLOCK;
    let mut corners = Vec::with_capacity(alloc, count)?;
    for block in 0..count {
        let first = block * BLOCK;
        corners.push(corner_of(&labels[first..first + BLOCK], criteria))?;
    }
    Ok(corners)
}

/// The least component of all costs at each place.
fn corner_of(labels: &[Label], criteria: usize) -> Cost
    requires two { min_criteria ≤ criteria }
    requires four { criteria ≤ max_criteria }
    requires whole { All (λ l. length l.cost ≡ criteria) labels.now }
    ensures whole { length result ≡ criteria }
    ensures at_most { All (λ l. AtMost result l.cost) labels.now }
{
    let mut corner = Cost::of_numbers(&[u64::MAX; MAX_CRITERIA][..criteria]);
    for label in labels {
        corner = meet(&corner, &label.cost);
    }
    corner
}

/// The lesser component of both at each place.
fn meet(a: &Cost, b: &Cost) -> Cost
    requires { length a.now ≡ length b.now }
    ensures whole { length result ≡ length a.now }
    ensures first { AtMost result a.now }
    ensures second { AtMost result b.now }
{
    let mut places = [0; MAX_CRITERIA];
    for i in 0..a.count() {
        places[i] = a.component(i).min(b.component(i));
    }
    Cost::of_numbers(&places[..a.count()])
}
