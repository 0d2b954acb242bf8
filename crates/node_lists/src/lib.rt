//! The settled costs of all nodes, each node's in ascending order, and what a search that settles
//! them so has found.
#![tactic(auto)]

mod found;
mod lists;
mod lowered;

pub use found::FoundLists;
pub use lists::NodeLists;
