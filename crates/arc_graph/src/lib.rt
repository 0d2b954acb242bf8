//! The joined graph: the arcs that several weight files list alike, and for each arc the vector of its weights.
#![tactic(auto)]

mod change;
mod file;
mod graph;
mod histories;
mod join;
mod laws;
mod layout;
mod network;
mod relaxing;
mod weights;

pub use change::Change;
pub use file::{ArcFile, ArcLine};
pub use graph::Graph;
pub use histories::{
    epochs_are_weights, epochs_follow_their_history, histories_grow_by_entries,
    histories_have_well_formed_parts, operators_keep_their_limits, pages_change_by_sets_alone,
    pages_have_all_arcs,
};
pub use join::{Disagreement, JoinFault, Joiner, NetworkSizes, join_files};
pub use laws::{
    files_have_one_fault_at_most, matching_parts_are_a_network, relaxing_follows_arcs,
    sums_leave_room_to_relax,
};
pub use network::Network;
pub use relaxing::relax;
pub use weights::Weights;
