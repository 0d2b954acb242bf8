//! Replies to queries over one network, and over these sessions and the operator of a store of epochs: line by line, what they
//! ask and what is replied.
//!
//! Each line that isn't blank gets its whole reply before more is read from the link. One loop serves both: a closure
//! answers one line.
#![tactic(auto)]

mod answerer;
mod context;
mod end;
mod fault;
mod handler;
mod held;
mod laws;
mod look;
mod made;
mod mode;
mod named;
mod obey;
mod operator;
mod operator_reply;
mod reply;
mod replying;
mod serve;
mod session;
mod short;
mod window;

pub use answerer::Answerer;
pub use context::{LinkPolicy, ServeContext};
pub use end::SessionEnd;
pub use fault::ReplyFault;
pub use laws::{goal_answers_wherever_plain_does, session_runs_stay};
pub use made::MadeReply;
pub use mode::SearchMode;
pub use named::Named;
pub use operator::serve_operator;
pub use reply::Reply;
pub use session::Session;
