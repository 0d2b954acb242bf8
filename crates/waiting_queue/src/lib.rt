//! What waits in a bulk-synchronous Pareto search (Sanders and Mandow 2013): nodes reached at costs, of which a call gives
//! out at once all that are open and whose cost no open one dominates.
#![tactic(auto)]

mod filling;
mod joining;
mod look;
mod marking;
mod order;
mod passing;
mod queue;
mod ranges;
mod shadow;
mod sharing;
mod steps;
mod widen;

pub use look::Look;
pub use queue::Queue;
pub use sharing::labels_of_spots;
pub use steps::Steps;
pub use widen::widen_items;
