//! Road networks whose arcs have several weights each, the walks through them, what a query asks, and which costs and walks
//! are its answer.
//!
//! `specs/` has all that a reader has to believe about answers. The functions here do nothing: their contracts are laws of
//! these definitions. No graph in memory, no file and no way of searching is known here.
#![tactic(auto)]

mod laws;
mod limits;
mod query;

pub use laws::{
    arcs_add_to_costs, backward_least_walks_grow_by_arcs, best_costs_are_one_list,
    best_costs_exist, best_costs_lie_below_all, relevant_pairs_are_counted,
    walks_are_read_both_ways, walks_of_costs_are_one_list,
};
pub use limits::{MAX_ARCS, MAX_BUDGET, MAX_EPOCH, MAX_NODES};
pub use query::{AnswerKind, Query, SearchFault};
