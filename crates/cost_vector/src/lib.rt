//! Vectors of 2 to 4 costs, compared componentwise and lexicographically, and what the search makes of them: spots
//! and labels.
//!
//! A cost, a weight and a limit lie in the value itself, so that no call here takes memory. A contract sees each of
//! them as the list of its components.
#![tactic(auto)]

mod compact_cost;
mod cost;
mod label;
mod limit;
mod weight;

pub use compact_cost::CompactCost;
pub use cost::Cost;
pub use label::{ArcNo, Label, NodeNo, Spot};
pub use limit::Limit;
pub use weight::Weight;

/// The fewest criteria.
pub const MIN_CRITERIA: usize = 2;

/// The most criteria; so many places each vector has.
pub const MAX_CRITERIA: usize = 4;
