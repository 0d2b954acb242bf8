//! Numbered pieces of work, which several workers draw from one counter and do side by side; and the gate that pieces pass, by which tests
//! see what runs side by side.
#![tactic(auto)]

mod calls;
mod counter;
mod done;
mod gate;
mod helpers;
mod job;
mod job_run;
mod laws;
mod rule;
mod run;
mod workers;

pub use calls::Calls;
pub use gate::{Gate, OpenGate, Phase};
pub use helpers::Helpers;
pub use job::Job;
pub use laws::{last_seats_hold_each_piece_once, seats_share_the_numbers};
pub use run::run_pieces;
pub use workers::Workers;
