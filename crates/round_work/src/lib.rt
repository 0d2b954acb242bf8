//! What workers do in a round of a bulk-synchronous Pareto search (Sanders and Mandow 2013): they relax what the round has
//! taken, and merge the candidates, node by node, into what is kept of them.
#![tactic(auto)]

mod fault;
mod groups;
mod merging;
mod pieces;
mod relaxing;
mod runs;

pub use fault::RelaxFault;
pub use merging::merge;
pub use relaxing::relax;
