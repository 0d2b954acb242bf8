//! The search for all best costs as a machine over single events, and the laws of every list of these events.
//!
//! `specs/` has the states, the events, the rounds and their pieces. The functions here do nothing: their contracts are laws
//! of these definitions. No queue, no front, no thread and no vector in memory is known
//! here.
#![tactic(auto)]

mod finality;
mod orders;
mod pieces;
mod rounds;

pub use finality::{
    entries_below_settled_labels_stand, settled_labels_are_final, sums_are_bounded_by_the_settled,
    the_end_has_all_relevant_pairs,
};
pub use orders::{rounds_begin_in_any_order, rounds_end_in_any_order};
pub use pieces::pieces_complete_rounds;
pub use rounds::{rounds_are_counted, rounds_have_one_end, rounds_tell_the_budget};
