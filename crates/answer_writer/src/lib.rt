//! The replies to queries as texts: answers of costs and of walks, and refusals.
#![tactic(auto)]

mod answer;
mod line;
mod page;
mod piece;
mod refusal;

pub use answer::{put_answer, put_first_line, put_routes};
pub use line::put_line;
pub use page::Page;
pub use piece::Piece;
pub use refusal::put_refusal;
