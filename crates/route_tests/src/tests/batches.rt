//! The rows of batches, and each failing call of a batch.
use super::rows::{A, B, EXCHANGED};
use super::{Outside, Row, Wanted, assert_run, bounded, failing, files_of, outside_of};
use route_io::memory::{MemoryFolder, MemorySink};
use std::alloc::{AllocError, Global};

/// The words of a batch over the six arcs.
const WORDS: &str = "batch --pairs P A.gr B.gr";

/// Three pairs, of which the last has an end that is no node.
const PAIRS: &str = "p aux sp p2p 3\nq 1 4\nq 4 1\nq 9 1\n";

/// The six arcs and the three pairs.
const FILES: &[(&str, &str)] = &[("A.gr", A), ("B.gr", B), ("P", PAIRS)];

/// The replies to the three pairs.
const OUT: &str = "r 0 1 4 2\np 2 8 2 1 3\np 4 2 2 2 4\nr 0 4 1 0\nx 0 9 1 node\n";

/// Batches that are answered.
const REPLY: &[Row] = &[
    Row {
        words: WORDS,
        files: FILES,
        status: 0,
        out: OUT,
        err: "",
    },
    // A refused pair ends nothing: the first passes the budget.
    Row {
        words: "batch --pairs P --budget 4 A.gr B.gr",
        files: &[
            ("A.gr", A),
            ("B.gr", B),
            ("P", "p aux sp p2p 2\nq 1 4\nq 4 1\n"),
        ],
        status: 0,
        out: "x 0 1 4 budget\nr 0 4 1 0\n",
        err: "",
    },
    // A pair that comes twice, and no pair at all.
    Row {
        words: WORDS,
        files: &[
            ("A.gr", A),
            ("B.gr", B),
            ("P", "c two\np aux sp p2p 2\nq 2 2\n\nq 2 2"),
        ],
        status: 0,
        out: "r 0 2 2 1\np 0 0 0\nr 0 2 2 1\np 0 0 0\n",
        err: "",
    },
    Row {
        words: WORDS,
        files: &[("A.gr", A), ("B.gr", B), ("P", "p aux sp p2p 0\n")],
        status: 0,
        out: "",
        err: "",
    },
];

fn reply_rows() -> &'static [Row] {
    REPLY
}

/// Batches whose files are faulty.
const FAULT: &[Row] = &[
    // Faulty files of pairs: cut, a node that is none, and a file of weights.
    Row {
        words: WORDS,
        files: &[("A.gr", A), ("B.gr", B), ("P", "p aux sp p2p 2\nq 1 4\n")],
        status: 7,
        out: "",
        err: "route: pairs P line 3 kind 7\n",
    },
    Row {
        words: WORDS,
        files: &[
            ("A.gr", A),
            ("B.gr", B),
            ("P", "p aux sp p2p 2\nq 1 4\nq 0 1\n"),
        ],
        status: 7,
        out: "",
        err: "route: pairs P line 3 kind 5\n",
    },
    Row {
        words: "batch --pairs A.gr A.gr B.gr",
        files: FILES,
        status: 7,
        out: "",
        err: "route: pairs A.gr line 1 kind 1\n",
    },
    // The weight files come before the file of pairs, and so does that they agree.
    Row {
        words: "batch --pairs N A.gr P",
        files: FILES,
        status: 5,
        out: "",
        err: "route: file P line 1 kind 1\n",
    },
    Row {
        words: "batch --pairs N A.gr C.gr",
        files: &[("A.gr", A), ("C.gr", EXCHANGED)],
        status: 6,
        out: "",
        err: "route: files ends arc 2 file 2\n",
    },
    Row {
        words: "batch --pairs N A.gr B.gr",
        files: FILES,
        status: 3,
        out: "",
        err: "route: folder N\n",
    },
];

fn fault_rows() -> &'static [Row] {
    FAULT
}

/// The tables of these rows. The proof of a function takes in each table that it names, at a cost that grows with the
/// square of its rows: so a table is short, and one function alone names it.
pub(super) fn tables() -> [&'static [Row]; 2] {
    [reply_rows(), fault_rows()]
}

/// The batch over a folder whose call of this number fails.
fn failing_folder(alloc: Global, call: u64) -> Result<Outside, AllocError> {
    let folder = MemoryFolder::new(files_of(alloc, FILES)?, vec![in alloc; call]?);
    Ok(Outside::of_folder(alloc, folder))
}

/// What is wanted where the call of this number fails: each of three files is selected, read, and read to its end.
fn wanted_of_call(call: u64) -> Wanted<'static> {
    let note = match call {
        0..=2 => "route: folder A.gr\n",
        3..=5 => "route: folder B.gr\n",
        6..=8 => "route: folder P\n",
        _ => return wanted(0, OUT, ""),
    };
    wanted(3, "", note)
}

/// What is wanted of the batch.
fn wanted<'a>(status: u8, out: &'a str, err: &'a str) -> Wanted<'a> {
    Wanted {
        words: WORDS,
        status,
        out: out.as_bytes(),
        err: err.as_bytes(),
    }
}

#[test]
fn each_failing_call_of_the_folder_is_told(rt: HostRuntime) {
    for call in 0..20u64 {
        let outside = failing_folder(rt.alloc(), call);
        assert_run(
            &rt,
            rt.alloc(),
            &wanted_of_call(call),
            call as usize,
            outside,
        );
    }
}

/// The batch with this sink for its replies.
fn batch_to(alloc: Global, out: Result<MemorySink, AllocError>) -> Result<Outside, AllocError> {
    let mut outside = outside_of(alloc, FILES, usize::MAX)?;
    outside.out = out?;
    Ok(outside)
}

/// What is wanted where this was sent before `out` took no more.
fn cut_off(sent: &[u8]) -> Wanted<'_> {
    Wanted {
        words: WORDS,
        status: 4,
        out: sent,
        err: b"route: out\n",
    }
}

#[test]
fn a_full_out_has_the_front_of_the_replies(rt: HostRuntime) {
    for bound in 0..OUT.len() {
        let outside = batch_to(rt.alloc(), Ok(bounded(rt.alloc(), bound)));
        assert_run(
            &rt,
            rt.alloc(),
            &cut_off(&OUT.as_bytes()[..bound]),
            bound,
            outside,
        );
    }
}

/// What was sent before each call of `out`, which sends one reply.
const SENT: [&str; 3] = [
    "",
    "r 0 1 4 2\np 2 8 2 1 3\np 4 2 2 2 4\n",
    "r 0 1 4 2\np 2 8 2 1 3\np 4 2 2 2 4\nr 0 4 1 0\n",
];

#[test]
fn each_failing_call_of_out_is_told(rt: HostRuntime) {
    for (call, sent) in SENT.iter().enumerate() {
        let outside = batch_to(rt.alloc(), failing(rt.alloc(), call as u64));
        assert_run(&rt, rt.alloc(), &cut_off(sent.as_bytes()), call, outside);
    }
}
