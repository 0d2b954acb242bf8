use super::assert_text;
use super::feeds::failing;
use super::files::{FileForm, WIDE, assert_cuts, assert_limited, assert_rows, shown};
use query_reader::Pair;
use std::alloc::{AllocError, Global};

/// The pairs of a file, behind `ok`.
pub(super) fn shown_pairs(alloc: Global, pairs: &[Pair]) -> Result<String, AllocError> {
    let mut text = String::from_str(alloc, "ok")?;
    for pair in pairs {
        let (from, to) = (pair.from, pair.to);
        write!(text, " {from}>{to}")?;
    }
    Ok(text)
}

/// A text, and what is shown of it.
type Shown = (&'static str, &'static str);

const BEGINNINGS: &[Shown] = &[
    ("p aux sp p2p 3\nq 1 4\nq 4 1\nq 9 1\n", "ok 1>4 4>1 9>1"),
    ("p aux sp p2p 2\nq 1 4\n", "7 at 3"),
    ("p aux sp p2p 0", "ok"),
    ("", "2 at 1"),
    ("c only\n\n", "2 at 3"),
    ("q 1 4\n", "2 at 1"),
    ("q 0 4294967296\np aux sp p2p 1000001\n", "2 at 1"),
];

const SHAPES_OF_PROBLEMS: &[Shown] = &[
    ("q 1 x\n", "1 at 1"),
    ("p aux sp p2p\n", "1 at 1"),
    ("p aux sp p2p 1 2\n", "1 at 1"),
    ("p aux sp p2p x\n", "1 at 1"),
    ("p sp aux p2p 1\n", "1 at 1"),
    ("p aux sp p2pp 1\n", "1 at 1"),
    ("p sp 2 1\n", "1 at 1"),
    ("P aux sp p2p 1\n", "1 at 1"),
];

const SHAPES_OF_PAIRS: &[Shown] = &[
    ("p aux sp p2p 1\nq 1\n", "1 at 2"),
    ("p aux sp p2p 1\nq 1 2 3\n", "1 at 2"),
    ("p aux sp p2p 1\nq 1 +2\n", "1 at 2"),
    ("p aux sp p2p 1\na 1 2 3\n", "1 at 2"),
    ("p aux sp p2p 1\nq 0 -1\n", "1 at 2"),
];

const COUNTS: &[Shown] = &[
    ("p aux sp p2p 1\np aux sp p2p 1\n", "3 at 2"),
    ("p aux sp p2p 1\np aux sp p2p 1000001\n", "3 at 2"),
    ("p aux sp p2p 1000000\n", "7 at 2"),
    ("p aux sp p2p 1000001\n", "4 at 1"),
    ("p aux sp p2p 18446744073709551616\n", "4 at 1"),
    ("p aux sp p2p 0\nq 1 4\n", "7 at 2"),
    ("p aux sp p2p 1\nq 1 4\nq 0 0\n", "7 at 3"),
    ("p aux sp p2p 2\nq 1 4\n\nc last\n", "7 at 5"),
];

const ENDS: &[Shown] = &[
    ("p aux sp p2p 1\nq 0 1\n", "5 at 2"),
    ("p aux sp p2p 1\nq 1 0\n", "5 at 2"),
    ("p aux sp p2p 1\nq 1 4294967296\n", "5 at 2"),
    ("p aux sp p2p 1\nq 18446744073709551617 1\n", "5 at 2"),
    (
        "p aux sp p2p 1\nq 4294967295 4294967295\n",
        "ok 4294967295>4294967295",
    ),
    ("p aux sp p2p 1\nq 7 7", "ok 7>7"),
    ("p aux sp p2p 2\nq 1 4\nq 1 4\nc\n", "ok 1>4 1>4"),
    (
        "c head\r\n\r\n  \t\np\taux sp  p2p 02\r\ncomment\n\tq\t1  4 \r\n c\n q 004 0000000000000000000000001\r",
        "ok 1>4 4>1",
    ),
];

#[test]
fn forms_and_faults(rt: HostRuntime) {
    assert_rows(&rt, rt.alloc(), BEGINNINGS, FileForm::Pairs);
    assert_rows(&rt, rt.alloc(), SHAPES_OF_PROBLEMS, FileForm::Pairs);
    assert_rows(&rt, rt.alloc(), SHAPES_OF_PAIRS, FileForm::Pairs);
    assert_rows(&rt, rt.alloc(), COUNTS, FileForm::Pairs);
    assert_rows(&rt, rt.alloc(), ENDS, FileForm::Pairs);
}

/// A text, the greatest size of a file, and what is shown where a line has 14 bytes at most.
const LIMITED: &[(&str, u32, &str)] = &[
    ("p aux sp p2p 0", 14, "ok"),
    ("p aux sp p2p 0\n", 14, "9 at 1"),
    ("p aux sp p2p 0\n", 15, "ok"),
    ("p aux sp p2p 0\r\n", 100, "8 at 1"),
    ("p aux sp p2p 0\nx", 15, "9 at 2"),
    ("p aux sp p2p 0\nc 3456789012345", 28, "9 at 2"),
    ("p aux sp p2p 0\nc 3456789012345", 29, "8 at 2"),
    ("x\np aux sp p2p 0123456789", 100, "1 at 1"),
];

#[test]
fn limits_come_before_forms(rt: HostRuntime) {
    assert_limited(&rt, rt.alloc(), LIMITED, 14, FileForm::Pairs);
}

const THREE_PAIRS: &[u8] = b"p aux sp p2p 3\nq 1 4\nq 4 1\nq 9 1\n";

/// What is shown of the file of three pairs where it is cut to a length from the first to the second number. Its first
/// line has 15 bytes, and each pair 6.
const CUTS: &[(usize, usize, &str)] = &[
    (0, 0, "2 at 1"),
    (1, 13, "1 at 1"),
    (14, 15, "7 at 2"),
    (16, 19, "1 at 2"),
    (20, 21, "7 at 3"),
    (22, 25, "1 at 3"),
    (26, 27, "7 at 4"),
    (28, 31, "1 at 4"),
    (32, 33, "ok 1>4 4>1 9>1"),
];

#[test]
fn cut_files(rt: HostRuntime) {
    assert_cuts(&rt, rt.alloc(), THREE_PAIRS, CUTS, FileForm::Pairs);
}

#[test]
fn a_failed_read_is_told(rt: HostRuntime) {
    let text = failing(b"p aux sp p2p 1\nq 1 4\n", 1, &[19]);
    assert_text(
        &rt,
        shown(rt.alloc(), text, WIDE, FileForm::Pairs),
        "r, 2 left",
    );
}
