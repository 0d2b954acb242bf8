//! What a search has found, in the fronts of all nodes: its costs, and what a walk is read back from.
#![tactic(auto)]

mod findings;
mod found;
mod list;
mod question;
mod questions;
mod width;

pub use findings::Findings;
pub use found::FoundFronts;
pub use width::FoundAtWidth;
