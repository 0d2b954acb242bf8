//! Certificates of what a search has found: its labels as a list, and their text.
//!
//! Whoever reads the text back checks it by the rules alone (`front_cert`); what is written is accepted.
#![tactic(auto)]

mod label_list;
mod laws;
mod writing;

pub use label_list::list_labels;
pub use laws::written_certificates_are_accepted;
pub use writing::write_cert;
