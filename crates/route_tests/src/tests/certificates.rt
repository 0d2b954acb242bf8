//! Certificates that are written and checked: the rows of each rule, each prefix of a text, and each number changed by one.
use super::rows::{A, B, SIX_ARCS};
use super::{Outside, Row, Wanted, assert_run, bounded, files_of, outside_of};
use route_io::memory::MemoryFolder;
use std::alloc::{AllocError, Global};
use std::process::Abort;
use std::sync::Wait;
use std::thread::Threads;
use std::time::Clock;

/// The certificate of the answer from 1 to 4 over the six arcs.
const CERT: &str = "z 2 1 4 5\nb 1 0 0 0\nb 2 1 1 4\nb 3 2 2 1\nb 4 3 2 8\nb 4 4 4 2\n";

/// The answer that it shows.
const ANSWER: &str = "r 0 1 4 2\np 2 8 2 1 3\np 4 2 2 2 4\n";

const WORDS: &str = "verify --cert C A.gr B.gr";

const PROVE: &str = "prove --from 1 --to 4 A.gr B.gr";

/// Certificates that are written, and queries that are refused as for an answer.
const WRITTEN: &[Row] = &[
    Row {
        words: PROVE,
        files: SIX_ARCS,
        status: 0,
        out: CERT,
        err: "",
    },
    Row {
        words: "prove --from 1 --to 4 --budget 5 --workers 3 A.gr B.gr",
        files: SIX_ARCS,
        status: 0,
        out: CERT,
        err: "",
    },
    Row {
        words: "prove --from 1 --to 4 --budget 4 A.gr B.gr",
        files: SIX_ARCS,
        status: 8,
        out: "x 0 1 4 budget\n",
        err: "",
    },
    Row {
        words: "prove --from 9 --to 1 --budget 1 A.gr B.gr",
        files: SIX_ARCS,
        status: 8,
        out: "x 0 9 1 node\n",
        err: "",
    },
    // Node 2 is relevant, and not on the way.
    Row {
        words: "prove --from 1 --to 3 A.gr B.gr",
        files: SIX_ARCS,
        status: 0,
        out: "z 2 1 3 3\nb 1 0 0 0\nb 2 1 1 4\nb 3 2 2 1\n",
        err: "",
    },
    // No walk leads there, and both ends are one node.
    Row {
        words: "prove --from 4 --to 1 A.gr B.gr",
        files: SIX_ARCS,
        status: 0,
        out: "z 2 4 1 1\nb 4 0 0 0\n",
        err: "",
    },
    Row {
        words: "prove --from 4 --to 4 A.gr B.gr",
        files: SIX_ARCS,
        status: 0,
        out: "z 2 4 4 1\nb 4 0 0 0\n",
        err: "",
    },
];

fn written_rows() -> &'static [Row] {
    WRITTEN
}

/// Words, files and names that are at fault before a certificate is looked at.
const EARLIER: &[Row] = &[
    Row {
        words: "prove --from 1 --to 4 --budget 4000001 A.gr B.gr",
        files: SIX_ARCS,
        status: 2,
        out: "",
        err: "route: words\n",
    },
    Row {
        words: "verify A.gr B.gr",
        files: SIX_ARCS,
        status: 2,
        out: "",
        err: "route: words\n",
    },
    Row {
        words: "verify --cert C --budget 5 A.gr B.gr",
        files: SIX_ARCS,
        status: 2,
        out: "",
        err: "route: words\n",
    },
    Row {
        words: "prove --from 1 --to 4 A.gr N.gr",
        files: SIX_ARCS,
        status: 3,
        out: "",
        err: "route: folder N.gr\n",
    },
    // A missing certificate, and a file that is at fault before it.
    Row {
        words: WORDS,
        files: SIX_ARCS,
        status: 3,
        out: "",
        err: "route: folder C\n",
    },
    Row {
        words: "verify --cert C A.gr N.gr",
        files: SIX_ARCS,
        status: 3,
        out: "",
        err: "route: folder N.gr\n",
    },
    Row {
        words: "verify --cert C A.gr P.gr",
        files: &[("A.gr", A), ("P.gr", "p sp 4 0\n")],
        status: 6,
        out: "",
        err: "route: files sizes file 2\n",
    },
];

fn earlier_rows() -> &'static [Row] {
    EARLIER
}

/// Certificates over networks of three nodes, on which what equals a cost of the target has to be listed.
const EQUAL: &[Row] = &[
    Row {
        words: "verify --cert C F.gr F.gr",
        files: &[
            ("F.gr", "p sp 3 2\na 1 2 1\na 1 3 1\n"),
            ("C", "z 2 1 2 2\nb 1 0 0 0\nb 2 1 1 1\n"),
        ],
        status: 12,
        out: "",
        err: "route: cert C rule 3 label 1\n",
    },
    Row {
        words: "verify --cert C F.gr F.gr",
        files: &[
            ("F.gr", "p sp 3 2\na 1 2 1\na 1 3 1\n"),
            ("C", "z 2 1 2 3\nb 1 0 0 0\nb 2 1 1 1\nb 3 2 1 1\n"),
        ],
        status: 0,
        out: "r 0 1 2 1\np 1 1 1 1\n",
        err: "",
    },
    // The first arc fails the fourth rule, and a later one the third.
    Row {
        words: "verify --cert C X.gr Y.gr",
        files: &[
            ("X.gr", "p sp 3 3\na 1 2 1\na 1 2 1\na 1 3 0\n"),
            ("Y.gr", "p sp 3 3\na 1 2 1\na 1 2 1\na 1 3 1\n"),
            ("C", "z 2 1 2 2\nb 1 0 0 0\nb 2 2 1 1\n"),
        ],
        status: 12,
        out: "",
        err: "route: cert C rule 3 label 1\n",
    },
];

fn equal_rows() -> &'static [Row] {
    EQUAL
}

/// Six nodes, and from each to the next one arcs with (2^i, 0, 1) and (0, 2^i, 1): to node k lead 2^(k - 1) walks, and no cost of
/// these dominates another. So there are 63 labels, which make blocks.
const PAIRED: &[(&str, &str)] = &[
    ("X.gr", PAIRED_FIRST),
    ("Y.gr", PAIRED_SECOND),
    ("Z.gr", PAIRED_THIRD),
    ("C", PAIRED_CERT),
];

const PAIRED_FIRST: &str =
    "p sp 6 10\na 1 2 1\na 1 2 0\na 2 3 2\na 2 3 0\na 3 4 4\na 3 4 0\na 4 5 8\na 4 5 0\na 5 6 16\n\
a 5 6 0\n";

const PAIRED_SECOND: &str =
    "p sp 6 10\na 1 2 0\na 1 2 1\na 2 3 0\na 2 3 2\na 3 4 0\na 3 4 4\na 4 5 0\na 4 5 8\na 5 6 0\n\
a 5 6 16\n";

const PAIRED_THIRD: &str =
    "p sp 6 10\na 1 2 1\na 1 2 1\na 2 3 1\na 2 3 1\na 3 4 1\na 3 4 1\na 4 5 1\na 4 5 1\na 5 6 1\n\
a 5 6 1\n";

const PAIRED_CERT: &str =
    "z 3 1 6 63\nb 1 0 0 0 0\nb 2 2 0 1 1\nb 2 1 1 0 1\nb 3 4 0 3 2\nb 3 4 1 2 2\nb 3 3 2 1 2\n\
b 3 3 3 0 2\nb 4 6 0 7 3\nb 4 6 1 6 3\nb 4 6 2 5 3\nb 4 6 3 4 3\nb 4 5 4 3 3\nb 4 5 5 2 3\n\
b 4 5 6 1 3\nb 4 5 7 0 3\nb 5 8 0 15 4\nb 5 8 1 14 4\nb 5 8 2 13 4\nb 5 8 3 12 4\nb 5 8 4 11 4\n\
b 5 8 5 10 4\nb 5 8 6 9 4\nb 5 8 7 8 4\nb 5 7 8 7 4\nb 5 7 9 6 4\nb 5 7 10 5 4\nb 5 7 11 4 4\n\
b 5 7 12 3 4\nb 5 7 13 2 4\nb 5 7 14 1 4\nb 5 7 15 0 4\nb 6 10 0 31 5\nb 6 10 1 30 5\n\
b 6 10 2 29 5\nb 6 10 3 28 5\nb 6 10 4 27 5\nb 6 10 5 26 5\nb 6 10 6 25 5\nb 6 10 7 24 5\n\
b 6 10 8 23 5\nb 6 10 9 22 5\nb 6 10 10 21 5\nb 6 10 11 20 5\nb 6 10 12 19 5\nb 6 10 13 18 5\n\
b 6 10 14 17 5\nb 6 10 15 16 5\nb 6 9 16 15 5\nb 6 9 17 14 5\nb 6 9 18 13 5\nb 6 9 19 12 5\n\
b 6 9 20 11 5\nb 6 9 21 10 5\nb 6 9 22 9 5\nb 6 9 23 8 5\nb 6 9 24 7 5\nb 6 9 25 6 5\n\
b 6 9 26 5 5\nb 6 9 27 4 5\nb 6 9 28 3 5\nb 6 9 29 2 5\nb 6 9 30 1 5\nb 6 9 31 0 5\n";

const PAIRED_ANSWER: &str =
    "r 0 1 6 32\np 0 31 5 5 2 4 6 8 10\np 1 30 5 5 1 4 6 8 10\np 2 29 5 5 2 3 6 8 10\n\
p 3 28 5 5 1 3 6 8 10\np 4 27 5 5 2 4 5 8 10\np 5 26 5 5 1 4 5 8 10\np 6 25 5 5 2 3 5 8 10\n\
p 7 24 5 5 1 3 5 8 10\np 8 23 5 5 2 4 6 7 10\np 9 22 5 5 1 4 6 7 10\np 10 21 5 5 2 3 6 7 10\n\
p 11 20 5 5 1 3 6 7 10\np 12 19 5 5 2 4 5 7 10\np 13 18 5 5 1 4 5 7 10\np 14 17 5 5 2 3 5 7 10\n\
p 15 16 5 5 1 3 5 7 10\np 16 15 5 5 2 4 6 8 9\np 17 14 5 5 1 4 6 8 9\np 18 13 5 5 2 3 6 8 9\n\
p 19 12 5 5 1 3 6 8 9\np 20 11 5 5 2 4 5 8 9\np 21 10 5 5 1 4 5 8 9\np 22 9 5 5 2 3 5 8 9\n\
p 23 8 5 5 1 3 5 8 9\np 24 7 5 5 2 4 6 7 9\np 25 6 5 5 1 4 6 7 9\np 26 5 5 5 2 3 6 7 9\n\
p 27 4 5 5 1 3 6 7 9\np 28 3 5 5 2 4 5 7 9\np 29 2 5 5 1 4 5 7 9\np 30 1 5 5 2 3 5 7 9\n\
p 31 0 5 5 1 3 5 7 9\n";

/// Certificates of so many labels that they are looked at by blocks.
const LARGE: &[Row] = &[
    Row {
        words: "prove --from 1 --to 6 X.gr Y.gr Z.gr",
        files: PAIRED,
        status: 0,
        out: PAIRED_CERT,
        err: "",
    },
    Row {
        words: "verify --cert C X.gr Y.gr Z.gr",
        files: PAIRED,
        status: 0,
        out: PAIRED_ANSWER,
        err: "",
    },
];

fn large_rows() -> &'static [Row] {
    LARGE
}

/// The tables of these rows. The proof of a function takes in each table that it names, at a cost that grows with the
/// square of its rows: so a table is short, and one function alone names it.
pub(super) fn tables() -> [&'static [Row]; 4] {
    [written_rows(), earlier_rows(), equal_rows(), large_rows()]
}

/// Certificates over the six arcs at which a rule fails, and which at which label.
const FAILING: &[(&str, &str)] = &[
    ("z 2 1 4 0\n", "rule 1 label 0"),
    (
        "z 2 1 4 5\nb 1 6 0 0\nb 2 1 1 4\nb 3 2 2 1\nb 4 3 2 8\nb 4 4 4 2\n",
        "rule 1 label 0",
    ),
    (
        "z 2 1 4 6\nb 1 0 0 0\nb 2 1 1 4\nb 3 1 1 4\nb 3 2 2 1\nb 4 3 2 8\nb 4 4 4 2\n",
        "rule 2 label 3",
    ),
    (
        "z 2 1 4 6\nb 1 0 0 0\nb 2 1 1 4\nb 3 2 2 1\nb 4 3 2 8\nb 4 4 4 2\nb 4 4 5 7\n",
        "rule 2 label 6",
    ),
    (
        "z 2 1 4 6\nb 1 0 0 0\nb 2 1 1 4\nb 3 2 2 1\nb 3 5 2 5\nb 4 3 2 8\nb 4 4 4 2\n",
        "rule 5 label 4",
    ),
    (
        "z 2 1 4 5\nb 1 0 0 0\nb 2 1 1 4\nb 3 2 2 1\nb 4 3 2 8\nb 4 6 4 2\n",
        "rule 4 label 3",
    ),
    (
        "z 2 1 4 4\nb 1 0 0 0\nb 2 1 1 4\nb 3 2 2 1\nb 4 3 2 8\n",
        "rule 3 label 3",
    ),
    (
        "z 2 1 4 5\nb 1 0 0 0\nb 2 1 1 4\nb 3 2 2 1\nb 4 6 2 8\nb 4 4 4 2\n",
        "rule 4 label 2",
    ),
    ("z 2 1 3 2\nb 1 0 0 0\nb 3 2 2 1\n", "rule 3 label 1"),
    // A component of 2^58 may be listed.
    (
        "z 2 1 4 2\nb 1 0 0 0\nb 2 1 288230376151711744 4\n",
        "rule 3 label 1",
    ),
];

fn failing() -> &'static [(&'static str, &'static str)] {
    FAILING
}

/// Texts over the six arcs with a faulty line, and which.
const FAULTY: &[(&str, &str)] = &[
    ("", "line 1"),
    ("\n", "line 1"),
    (
        "z 2 1 4 5\nb 1 0 0 0\nb 2 1 1 4\nb 3 2 2 1\nb 4 3 2 8\nb 4 4 4 2\n\n",
        "line 7",
    ),
    (
        "z 2 1 4 6\nb 1 0 0 0\nb 2 1 1 4\nb 2 1 1 4\nb 3 2 2 1\nb 4 3 2 8\nb 4 4 4 2\n",
        "line 4",
    ),
    (
        "z 2 1 4 2\nb 1 0 0 0\nb 2 1 288230376151711745 4\n",
        "line 3",
    ),
    ("z 2 1 4 4000001\n", "line 1"),
    ("z 2 1 4 1 1\nb 1 0 0 0\n", "line 1"),
    ("z 2 1 4 1\nc\nb 1 0 0 0\n", "line 2"),
];

fn faulty() -> &'static [(&'static str, &'static str)] {
    FAULTY
}

/// Texts over the six arcs that are accepted, and the answer that each shows.
const ACCEPTED: &[(&str, &str)] = &[
    (CERT, ANSWER),
    (
        "z 2 1 4 5\r\nb\t1 0 0 0\n b 2 01 1 4 \nb 3 2 2 1\nb 4 3 2 8\nb 4 4 4 2",
        ANSWER,
    ),
    (
        "z 2 1 3 3\nb 1 0 0 0\nb 2 1 1 4\nb 3 2 2 1\n",
        "r 0 1 3 1\np 2 1 1 2\n",
    ),
    (
        "z 2 1 3 5\nb 1 0 0 0\nb 2 1 1 4\nb 3 2 2 1\nb 4 3 2 8\nb 4 4 4 2\n",
        "r 0 1 3 1\np 2 1 1 2\n",
    ),
    ("z 2 4 1 1\nb 4 0 0 0\n", "r 0 4 1 0\n"),
    ("z 2 4 4 1\nb 4 0 0 0\n", "r 0 4 4 1\np 0 0 0\n"),
];

fn accepted() -> &'static [(&'static str, &'static str)] {
    ACCEPTED
}

/// The six arcs and this certificate.
fn outside_with(alloc: Global, cert: &str, piece: usize) -> Result<Outside, AllocError> {
    outside_of(alloc, &[("A.gr", A), ("B.gr", B), ("C", cert)], piece)
}

/// The note on what is at fault.
fn note_on(alloc: Global, fault: &str) -> Result<String, AllocError> {
    format!(in alloc; "route: cert C {fault}\n")
}

fn assert_refused(
    rt: &(impl Abort + Threads + Wait + Clock + Sync),
    alloc: Global,
    cert: &str,
    fault: &str,
) {
    let status = if fault.starts_with("line") { 11 } else { 12 };
    match note_on(alloc, fault) {
        Ok(note) => {
            let wanted = wanted(WORDS, status, "", note.as_str());
            assert_run(rt, alloc, &wanted, 1, outside_with(alloc, cert, 1));
        }
        Err(_) => panic!(rt; "no memory is left"),
    }
}

fn assert_accepted(
    rt: &(impl Abort + Threads + Wait + Clock + Sync),
    alloc: Global,
    cert: &str,
    answer: &str,
) {
    for piece in [1, usize::MAX] {
        let wanted = wanted(WORDS, 0, answer, "");
        assert_run(rt, alloc, &wanted, piece, outside_with(alloc, cert, piece));
    }
}

/// What is wanted of these words.
fn wanted<'a>(words: &'a str, status: u8, out: &'a str, err: &'a str) -> Wanted<'a> {
    Wanted {
        words,
        status,
        out: out.as_bytes(),
        err: err.as_bytes(),
    }
}

#[test]
fn certificates_are_checked_by_each_rule(rt: HostRuntime) {
    for (cert, fault) in failing() {
        assert_refused(&rt, rt.alloc(), cert, fault);
    }
}

#[test]
fn faulty_lines_of_certificates_are_told(rt: HostRuntime) {
    for (cert, fault) in faulty() {
        assert_refused(&rt, rt.alloc(), cert, fault);
    }
}

#[test]
fn accepted_certificates_show_answers(rt: HostRuntime) {
    for (cert, answer) in accepted() {
        assert_accepted(&rt, rt.alloc(), cert, answer);
    }
}

/// The number of the faulty line where the certificate is cut to a length below 59. Each of its lines takes ten bytes.
fn cut_line(length: usize) -> usize {
    if length % 10 == 9 {
        length / 10 + 2
    } else {
        length / 10 + 1
    }
}

fn cut_fault(alloc: Global, length: usize) -> Result<String, AllocError> {
    let line = cut_line(length);
    format!(in alloc; "line {line}")
}

fn assert_cut(
    rt: &(impl Abort + Threads + Wait + Clock + Sync),
    alloc: Global,
    cert: &str,
    length: usize,
) {
    match cut_fault(alloc, length) {
        Ok(fault) => assert_refused(rt, alloc, cert, fault.as_str()),
        Err(_) => panic!(rt; "no memory is left"),
    }
}

#[test]
fn cut_certificates_are_told(rt: HostRuntime) {
    for length in 0..59 {
        match CERT.get(..length) {
            Some(cert) => assert_cut(&rt, rt.alloc(), cert, length),
            None => panic!(rt; "the certificate is short"),
        }
    }
}

/// Line 1 with one number changed by one, and what is at fault then.
const FIRST_LINE: &[(&str, &str)] = &[
    ("z 1 1 4 5", "line 1"),
    ("z 3 1 4 5", "line 1"),
    ("z 2 0 4 5", "line 1"),
    ("z 2 2 4 5", "rule 1 label 0"),
    ("z 2 1 5 5", "line 1"),
    ("z 2 1 4 4", "line 6"),
    ("z 2 1 4 6", "line 7"),
];

/// Line 2 with one number changed by one, and what is at fault then.
const START: &[(&str, &str)] = &[
    ("b 0 0 0 0", "line 2"),
    ("b 2 0 0 0", "rule 1 label 0"),
    ("b 1 1 0 0", "rule 1 label 0"),
    ("b 1 0 1 0", "rule 1 label 0"),
    ("b 1 0 0 1", "rule 1 label 0"),
];

/// Line 3 with one number changed by one, and what is at fault then.
const SECOND: &[(&str, &str)] = &[
    ("b 1 1 1 4", "rule 3 label 1"),
    ("b 3 1 1 4", "rule 3 label 1"),
    ("b 2 0 1 4", "rule 1 label 2"),
    ("b 2 2 1 4", "rule 4 label 1"),
    ("b 2 1 0 4", "rule 2 label 2"),
    ("b 2 1 2 4", "rule 3 label 1"),
    ("b 2 1 1 3", "rule 2 label 2"),
    ("b 2 1 1 5", "rule 3 label 1"),
];

/// Line 4 with one number changed by one, and what is at fault then.
const THIRD: &[(&str, &str)] = &[
    ("b 2 2 2 1", "rule 3 label 1"),
    ("b 4 2 2 1", "rule 3 label 1"),
    ("b 3 1 2 1", "rule 2 label 3"),
    ("b 3 3 2 1", "rule 4 label 1"),
    ("b 3 2 1 1", "rule 2 label 3"),
    ("b 3 2 3 1", "rule 3 label 1"),
    ("b 3 2 2 0", "rule 2 label 3"),
    ("b 3 2 2 2", "rule 3 label 1"),
];

/// Line 5 with one number changed by one, and what is at fault then.
const FOURTH: &[(&str, &str)] = &[
    ("b 3 3 2 8", "rule 3 label 2"),
    ("b 5 3 2 8", "line 5"),
    ("b 4 2 2 8", "rule 2 label 4"),
    ("b 4 4 2 8", "rule 4 label 2"),
    ("b 4 3 1 8", "rule 2 label 4"),
    ("b 4 3 3 8", "rule 3 label 2"),
    ("b 4 3 2 7", "rule 2 label 4"),
    ("b 4 3 2 9", "rule 3 label 2"),
];

/// Line 6 with one number changed by one, and what is at fault then.
const FIFTH: &[(&str, &str)] = &[
    ("b 3 4 4 2", "line 6"),
    ("b 5 4 4 2", "line 6"),
    ("b 4 3 4 2", "rule 2 label 5"),
    ("b 4 5 4 2", "rule 4 label 3"),
    ("b 4 4 3 2", "rule 2 label 5"),
    ("b 4 4 5 2", "rule 3 label 3"),
    ("b 4 4 4 1", "rule 2 label 5"),
    ("b 4 4 4 3", "rule 3 label 3"),
];

/// The lines of the certificate with each number changed by one, and what is at fault then.
fn changed() -> [&'static [(&'static str, &'static str)]; 6] {
    [FIRST_LINE, START, SECOND, THIRD, FOURTH, FIFTH]
}

/// The certificate with another line in place of the one at this place, from 0.
fn with_line(alloc: Global, place: usize, line: &str) -> Result<String, AllocError> {
    let mut text = String::new(alloc);
    let mut number = 0usize;
    for own in CERT.lines() {
        let line = if number == place { line } else { own };
        write!(text, "{line}\n")?;
        number = number.wrapping_add(1);
    }
    Ok(text)
}

fn assert_changed(
    rt: &(impl Abort + Threads + Wait + Clock + Sync),
    alloc: Global,
    place: usize,
    line: &str,
    fault: &str,
) {
    match with_line(alloc, place, line) {
        Ok(cert) => assert_refused(rt, alloc, cert.as_str(), fault),
        Err(_) => panic!(rt; "no memory is left"),
    }
}

/// Whether the certificate with each of these lines at a place is refused as it is to be.
fn assert_each_changed(
    rt: &(impl Abort + Threads + Wait + Clock + Sync),
    alloc: Global,
    place: usize,
    lines: &[(&str, &str)],
) {
    for (line, fault) in lines {
        assert_changed(rt, alloc, place, line, fault);
    }
}

#[test]
fn each_number_of_a_certificate_counts(rt: HostRuntime) {
    let tables = changed();
    for place in 0..tables.len() {
        assert_each_changed(&rt, rt.alloc(), place, tables[place]);
    }
}

/// The six arcs and the certificate in a folder whose call of this number fails.
fn failing_folder(alloc: Global, call: u64) -> Result<Outside, AllocError> {
    let files = files_of(alloc, &[("A.gr", A), ("B.gr", B), ("C", CERT)])?;
    let folder = MemoryFolder::new(files, vec![in alloc; call]?);
    Ok(Outside::of_folder(alloc, folder))
}

/// What is wanted where the call of this number fails: each of three files is selected, read, and read to its end.
fn wanted_of_call(call: u64) -> Wanted<'static> {
    let note = match call {
        0..=2 => "route: folder A.gr\n",
        3..=5 => "route: folder B.gr\n",
        6..=8 => "route: folder C\n",
        _ => return wanted(WORDS, 0, ANSWER, ""),
    };
    wanted(WORDS, 3, "", note)
}

#[test]
fn each_failing_call_of_a_check_is_told(rt: HostRuntime) {
    for call in 0..12u64 {
        let outside = failing_folder(rt.alloc(), call);
        assert_run(
            &rt,
            rt.alloc(),
            &wanted_of_call(call),
            call as usize,
            outside,
        );
    }
}

/// The run of these words with a sink that takes so many bytes.
fn to_full(alloc: Global, bound: usize) -> Result<Outside, AllocError> {
    let mut outside = outside_with(alloc, CERT, usize::MAX)?;
    outside.out = bounded(alloc, bound);
    Ok(outside)
}

fn assert_full(
    rt: &(impl Abort + Threads + Wait + Clock + Sync),
    alloc: Global,
    words: &str,
    whole: &str,
) {
    for bound in 0..whole.len() {
        let wanted = Wanted {
            words,
            status: 4,
            out: &whole.as_bytes()[..bound],
            err: b"route: out\n",
        };
        assert_run(rt, alloc, &wanted, bound, to_full(alloc, bound));
    }
}

#[test]
fn a_full_out_has_the_front_of_a_certificate(rt: HostRuntime) {
    assert_full(&rt, rt.alloc(), PROVE, CERT);
    assert_full(&rt, rt.alloc(), WORDS, ANSWER);
}
