//! What a search in the order of cost stands on, by contract alone: the settled costs of all nodes, and the queue of what waits.
#![tactic(auto)]

mod limits;
mod lists;
mod look;
mod queue;

pub use limits::{greatest_within, is_within};
pub use lists::SettledLists;
pub use look::Look;
pub use queue::LeastQueue;
