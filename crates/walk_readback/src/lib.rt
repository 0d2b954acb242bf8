//! Walks, read back from what a search has found, arc by arc from the target to the start. A search keeps no arcs: the last
//! arc of the walk that is wanted to a node at a cost is the least arc into the node whose tail has a settled cost that
//! its vector makes up to the node's.
//!
//! `specs/` says when what was found has a whole answer, and which arcs lead back.
#![tactic(auto)]

mod found;
mod laws;
mod readback;
mod room;
mod settled;

pub use found::FoundCosts;
pub use laws::{
    found_with_all_relevant_is_well_found, least_arcs_back_are_last_arcs,
    least_relevant_arcs_back_are_last_arcs,
};
pub use readback::{last_arc, walk};
pub use room::Room;
pub use settled::SettledCosts;
