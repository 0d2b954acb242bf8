//! One query, answered by one worker in the order of cost: plainly, or led to its target by lower bounds.
#![tactic(auto)]

mod ask;
mod lowering;
mod query;
mod searching;
mod swept;
mod width;

pub use query::{find, search_toward};
pub use swept::Swept;
pub use width::SweptAtWidth;
