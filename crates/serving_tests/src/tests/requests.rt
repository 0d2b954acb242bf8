use std::alloc::{AllocError, Global};
use std::process::Abort;

mod operator;
mod session;

/// Who sends a line.
#[derive(Clone, Copy)]
enum Sender {
    Operator,
    Session,
}

/// A line, and what it asks for, as text: `blank` is a blank line, and `other` one that asks for nothing.
type Reading = (&'static str, &'static str);

/// Each line asks for what stands beside it.
fn assert_readings(
    rt: &impl Abort,
    alloc: Global,
    sender: Sender,
    criteria: usize,
    rows: &[Reading],
) {
    assert!(rt; 2 <= criteria && criteria <= 4);
    for &(line, wanted) in rows {
        let shown = match sender {
            Sender::Operator => operator::shown(alloc, line.as_bytes(), criteria),
            Sender::Session => session::shown(alloc, line.as_bytes(), criteria),
        };
        assert!(rt; is_text(&shown, wanted), "{line:?} of {criteria} criteria");
    }
}

fn is_text(got: &Result<String, AllocError>, wanted: &str) -> bool {
    match got {
        Ok(got) => got.as_str() == wanted,
        Err(_) => false,
    }
}
