//! Lower bounds of what walks from a node to a target cost: in each criterion the least that any walk costs, by one search
//! backwards from the target for each.
#![tactic(auto)]

mod laws;
mod reverse;
mod search;

pub use laws::bounds_are_small;
pub use search::BoundSearch;
