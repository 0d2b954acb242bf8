//! The queue of what waits in a search: nodes reached at costs, of which the lexicographically least
//! leaves first.
#![tactic(auto)]

mod buckets;
mod opened;
mod ring;

pub use buckets::BucketQueue;
