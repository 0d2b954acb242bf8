//! Where links come in: doors, which give links one after another, and towns, which listen and hand out doors; with forms of
//! each in memory, and over TCP and socket files.
//!
//! Like sources and sinks, doors and towns count their faults, so that a caller's contract can say that a failure was the
//! outside's. The forms in memory tell their links to contracts; those of the host tell nothing of them.
#![tactic(auto)]

mod door;
mod host_door;
mod host_town;
mod listener;
mod memory_door;
mod memory_town;
mod stream;
mod town;

pub use door::Door;
pub use host_door::HostDoor;
pub use host_town::HostTown;
pub use memory_door::MemoryDoor;
pub use memory_town::MemoryTown;
pub use stream::{HostLink, StreamSink, StreamSource};
pub use town::{Town, TownFault};
