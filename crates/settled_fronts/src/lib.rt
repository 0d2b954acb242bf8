//! The settled costs of all nodes that a search reaches, over any layout of the front of a node.
#![tactic(auto)]

mod fronts;
mod settling;
mod sharing;

pub use fronts::Fronts;
