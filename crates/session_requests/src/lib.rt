//! The lines that a session and an operator send, read into values.
//!
//! A line comes without its LF and without one CR at its end. It is blank, or a request, or something else. A number of
//! a request has one or more digits and is at most 2^32 - 1; a limit's is at most 2^64 - 1.
#![tactic(auto)]

mod fields;
mod line;
mod operator;
mod session;

pub use line::Line;
pub use operator::{OperatorRequest, read_operator_request};
pub use session::{SessionRequest, read_session_request};
