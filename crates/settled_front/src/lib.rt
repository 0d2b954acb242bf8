//! The settled costs of one node, which only grow: a trait (`SettledFront`) and its layouts, a staircase for two criteria and
//! blocks for three and four, each at either width.
#![tactic(auto)]

mod block;
mod blocks;
mod cornered;
mod front;
mod lanes;
mod latest;
mod narrow_block;
mod sorting;
mod stair;
mod wide_block;

pub use block::CostBlock;
pub use blocks::BlockFront;
pub use front::{NarrowFront, SettledFront};
pub use lanes::Lanes;
pub use narrow_block::NarrowBlock;
pub use stair::StairFront;
pub use wide_block::WideBlock;
