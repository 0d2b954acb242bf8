//! The files of pairs of the shortest path challenge: a problem line, and then the pairs of nodes, one a line.
//!
//! They are read as weight files are, by a grammar of their own: the first faulty line of a file that isn't accepted is
//! told with its number, and with the first of its faults in a fixed order.
#![tactic(auto)]

pub mod laws;
mod pair_form;
mod pair_list;
mod pairs;
mod read;

pub use pairs::{MAX_PAIRS, Pair, PairFiles};
pub use read::read_p2p;
