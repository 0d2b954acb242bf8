use std::alloc::AllocError;
use std::process::Abort;

mod feeds;
mod files;
mod joining;
mod pairs;
mod weight_files;

/// The text is the one that is wanted.
fn assert_text(rt: &impl Abort, got: Result<String, AllocError>, wanted: &str) {
    match got {
        Ok(got) => assert!(rt;
            got.as_str() == wanted,
            "{got:?} where {wanted:?} is wanted"
        ),
        Err(_) => panic!(rt; "no memory is left"),
    }
}
