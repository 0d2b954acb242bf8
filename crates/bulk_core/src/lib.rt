//! The search by bulk rounds over fronts of settled costs, at one width: what is settled, what waits, and how a round begins
//! and ends. Who drives it relaxes the arcs of what was taken and hands the candidates back.
#![tactic(auto)]

mod begin;
mod finish;
mod rounds;
mod settled;
mod widen;

pub use rounds::Core;
pub use settled::Settled;
