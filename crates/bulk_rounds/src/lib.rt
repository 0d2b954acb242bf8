//! The search by bulk rounds (Sanders and Mandow 2013), in which each label stands in one place: fronts hold settled costs alone,
//! and the queue what waits, of which some may be stale.
//!
//! `specs/` says by values alone what a round changes, and for which states of the event machine a core stands. The functions
//! here do nothing: their contracts are laws of these definitions. Of the queue only the words of its contracts are known, and no
//! front and no thread.
#![tactic(auto)]

mod begin;
mod laws;
mod rounds;

pub use begin::Begun;
pub use laws::{
    arrivals_spare_settled, passes_take_the_next_spots, put_items_are_kept,
    spent_candidates_may_be_left_out, taken_labels_are_relevant, taken_labels_have_small_costs,
    taken_spots_are_spared, ways_back_are_spent,
};
pub use rounds::{
    ended_searches_have_all, new_searches_stand_for_the_start, next_spots_are_next_labels,
    rounds_begin_by_values, rounds_end_by_values, spent_spots_need_nothing,
};
