//! Certificates: lists of labels that show the answer to a query, and the five rules by which they are checked.
//!
//! `specs/` has all that a reader has to believe about certificates. The functions here do nothing: their contracts are laws
//! of these definitions. No text and no way of checking is known here.
#![tactic(auto)]

mod laws;
mod rule;

pub use laws::{
    certificates_show_answers, first_failures_are_one, relevant_pairs_are_certificates,
};
pub use rule::Rule;
