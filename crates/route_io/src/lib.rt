//! The outside as the program sees it: sources of bytes, sinks of bytes, and folders of named files.
//!
//! Each trait counts its faults, so that a caller's contract can say that a failure was the outside's and not
//! its own. The forms in memory tell their bytes to contracts; those of the host tell nothing.
#![tactic(auto)]

pub mod calls;
mod fault;
mod folder;
mod front;
pub mod host;
mod link;
pub mod memory;
mod selected;
mod shelf;
mod sink;
mod source;
pub mod sure;

pub use fault::{Failed, WriteFault};
pub use folder::Folder;
pub use link::{Link, MemoryLink, SureLink};
pub use sink::{Sink, put_all};
pub use source::Source;
