//! The files of the shortest path challenge: a problem line, and then as many records as it says, one a line.
//!
//! A file is read record by record, from a source that may give its bytes in any pieces. The first faulty line of a
//! file that isn't accepted is told with its number, and with the first of its faults in a fixed order. What tells one
//! kind of files from another is a `Grammar`. That of the weight files stands here, with the arcs as records.
#![tactic(auto)]

mod arc_sink;
mod fault;
mod fields;
mod grammar;
pub mod laws;
mod read;
mod record_sink;
mod records;
mod weight_form;
mod weights;

pub use fault::{FileFault, LineKind};
pub use fields::{front_number, number, only_number, three_fields};
pub use grammar::{Grammar, LineForm};
pub use read::{read_gr, read_into, read_records};
pub use record_sink::RecordSink;
pub use weights::{Sizes, WeightFiles};
