//! Which pairs of a node and a cost are relevant to a search that is directed to its target, and the laws on which such a
//! search rests.
//!
//! `specs/` has the bound of a node, goal-relevant pairs, and when a budget is too small for them. The functions here do
//! nothing: their contracts are laws of these definitions. How bounds are computed, and how a search goes, isn't known here.
#![tactic(auto)]

mod bounds;
mod found;
mod relevant;

pub use bounds::{bounds_are_consistent, bounds_are_unique};
pub use found::found_with_all_goal_relevant_is_well_found;
pub use relevant::{
    goal_relevant_pairs_are_counted, goal_relevant_pairs_are_relevant,
    goal_relevant_pairs_lead_to_answers,
};
