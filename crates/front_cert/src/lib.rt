//! Certificates as texts: a reader that tells the first faulty line, and a checker that tells the first rule that fails. Who
//! writes them is `cert_writer`.
//!
//! A certificate is checked against a network without a search. What it means that no rule fails is said in `cert_rules`.
#![tactic(auto)]

mod check;
mod corners;
mod draft;
mod fault;
mod found;
mod hints;
mod listing;
mod lookup;
mod offsets;
mod passed;
mod reader;
mod rules;

pub use check::check_cert;
pub use draft::MAX_LABELS;
pub use fault::CertFault;
pub use listing::Listing;
