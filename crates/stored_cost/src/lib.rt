//! Costs as a search stores them: in 32 bits a component, as long as each is below 2^31, or else in 64. What is generic
//! over the width is written once, for `StoredCost`.
#![tactic(auto)]

mod cost;
mod narrow;
mod part;
mod wide;

pub use cost::StoredCost;
pub use narrow::NarrowCost;
pub use part::Part;
pub use wide::WideCost;
