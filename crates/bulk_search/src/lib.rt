//! One query, answered by bulk rounds (Sanders and Mandow 2013) whose work any number of workers share.
//!
//! Each round settles all open spots that no open one dominates. Their arcs are relaxed, and what comes of that, but for what
//! is spent, waits from then on. The answer is the same for every number of workers and whichever of them does which piece.
#![tactic(auto)]

mod choice;
mod pieces;
mod query;
mod rounds;
mod uncounted;

pub use choice::rounds_pay;
pub use pieces::{closed_counters_hold_all_pieces, rounds_end_alike_for_all_pieces};
pub use query::search;
pub use uncounted::find;
