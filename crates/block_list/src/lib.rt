//! The settled costs of a node under 4 criteria in the order in which a sweep settles them, with blocks of what is behind their
//! first components, which tell fast whether one of them is at most a later cost.
#![tactic(auto)]

mod list;
mod rest;

pub use list::BlockList;
pub use rest::RestFront;
