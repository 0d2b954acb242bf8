//! Numbered weight epochs, which one operator publishes while readers read.
#![tactic(auto)]

mod chronicle;
mod draft;
mod end_mark;
mod fault;
mod history;
mod laws;
mod making;
mod operator;
mod published;
mod reader;
mod register;
mod rule;
mod sight;
mod store;

pub use chronicle::Chronicle;
pub use draft::ChangeSet;
pub use fault::{PublishFault, SetFault, ShutFault};
pub use laws::closed_histories_go_no_further;
pub use making::make;
pub use operator::{Ended, Operator};
pub use reader::{EpochReader, Snapshot};
pub use register::StoreGone;
pub use store::Store;
