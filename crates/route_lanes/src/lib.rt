//! Lanes: an operator publishes epochs while sessions ask of them, each on a thread of its own.
#![tactic(auto)]

mod door_lanes;
mod feed_lane;
mod follow;
mod lanes;
mod laws;
mod leader;
mod operator_lane;
mod report;
mod run;
mod serve;
mod service;
mod session_lane;
mod visits;

pub use feed_lane::FeedReport;
pub use follow::{FollowReport, run_follow};
pub use laws::{runs_catch_up, runs_keep_to_their_leader};
pub use leader::write_feed;
pub use report::LaneReport;
pub use run::run_lanes;
pub use serve::{Served, serve_lanes};
