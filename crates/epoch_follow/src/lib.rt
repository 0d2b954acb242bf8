//! Feeds of epochs: a leader's published change sets as a text, and a follower's store that takes its epochs from one.
//!
//! A feed may break anywhere and repeat what came before. What it does to a follower is one fold over its lines.
#![tactic(auto)]

mod due;
mod feed_end;
mod fields;
mod laws;
mod put;
mod take;

pub use feed_end::FeedEnd;
pub use laws::{followers_catch_up, followers_keep_to_their_leader};
pub use put::put_feed;
pub use take::take_feed;
