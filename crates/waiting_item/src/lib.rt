//! What waits in a search: nodes reached at costs, as a queue holds them.
#![tactic(auto)]

mod item;

pub use item::Item;
