ghost use Rattle.std.specs.Prelude.{◌≡◌, ◌<◌, ◌+◌, OnOk};

use super::feeds::{pieces, source_of};
use super::files::{FileForm, WIDE, assert_cuts, assert_limited, assert_rows};
use arc_graph::{ArcFile, Joiner};
use gr_reader::{FileFault, read_into};
use std::alloc::{AllocError, Global};
use std::test::Fail;

/// The nodes and the arcs of a file.
pub(super) fn shown_weights(alloc: Global, file: &ArcFile) -> Result<String, AllocError> {
    let mut text = format!(in alloc; "{}:", file.nodes())?;
    for arc in file.arcs() {
        let (tail, head, weight) = (arc.tail, arc.head, arc.weight);
        write!(text, " {tail}>{head} {weight}")?;
    }
    Ok(text)
}

/// A text, and what is shown of it.
type Shown = (&'static str, &'static str);

const BEGINNINGS: &[Shown] = &[
    ("", "2 at 1"),
    ("p sp 2 0\na 1 2 1", "7 at 2"),
    ("a 1 2 1", "2 at 1"),
    ("p sp 2 1\np sp 2 1", "3 at 2"),
    ("p sp 2 1\na 1 3 4294967296", "5 at 2"),
    ("p sp 0 1", "4 at 1"),
];

const NUMBERS: &[Shown] = &[
    ("p sp 8388608 0", "8388608:"),
    ("p sp 8388609 0", "4 at 1"),
    ("p sp 1 16777217", "4 at 1"),
    ("p sp 1 16777216", "7 at 2"),
    ("p sp 1 1\na 1 1 4294967295\n", "1: 1>1 4294967295"),
    ("p sp 1 1\na 1 1 4294967296\n", "6 at 2"),
    ("p sp 1 1\na 1 1 1208925819614629174706175\n", "6 at 2"),
    ("p sp 1 1\na 0 1 1\n", "5 at 2"),
    ("p sp 1 1\na 1 1208925819614629174706177 1\n", "5 at 2"),
    (
        "p sp 0000000000000000000000002 1\na 01 002 0000000000000000000000003",
        "2: 1>2 3",
    ),
];

const WHOLE_AND_CUT: &[Shown] = &[
    (
        "c head\r\n\r\n  \t\np sp 2 2\r\ncomment\n\ta\t1  2 5 \r\n c\n a 2 1 6\r",
        "2: 1>2 5 2>1 6",
    ),
    ("p sp 2 1\na 1 2 5\n\nc last\n", "2: 1>2 5"),
    ("p sp 2 2\na 1 2 5\n\nc last\n", "7 at 5"),
    ("p sp 2 1\na 1 2 5\na 9 9 4294967296\n", "7 at 3"),
    ("p sp 2 1\na 1 2 5\na 1 2\n", "1 at 3"),
    ("p sp 2 1\na 1 9 x\n", "1 at 2"),
    ("p sp 2 1\na 1 2 3 4\n", "1 at 2"),
    ("p sp 2 1\na 1 2 +3\n", "1 at 2"),
];

const SHAPES: &[Shown] = &[
    ("p sp 2 1\np sp 0 1\n", "3 at 2"),
    ("p sp 0 x\n", "1 at 1"),
    ("p aux 2 1\n", "1 at 1"),
    ("p sp 2 1 c\n", "1 at 1"),
    ("P sp 2 1\n", "1 at 1"),
    ("a 9 9 9\np sp 0 0\n", "2 at 1"),
    ("c only\n\n", "2 at 3"),
];

#[test]
fn forms_and_faults(rt: HostRuntime) {
    assert_rows(&rt, rt.alloc(), BEGINNINGS, FileForm::Weights);
    assert_rows(&rt, rt.alloc(), NUMBERS, FileForm::Weights);
    assert_rows(&rt, rt.alloc(), WHOLE_AND_CUT, FileForm::Weights);
    assert_rows(&rt, rt.alloc(), SHAPES, FileForm::Weights);
}

/// A text, the greatest size of a file, and what is shown where a line has eight bytes at most.
const LIMITED: &[(&str, u32, &str)] = &[
    ("p sp 1 0", 8, "1:"),
    ("p sp 1 0\n", 8, "9 at 1"),
    ("p sp 1 0\r\n", 100, "8 at 1"),
    ("p sp 1 0\nx", 9, "9 at 2"),
    ("p sp 1 0\nc 3456789", 16, "9 at 2"),
    ("p sp 1 0\nc 3456789", 17, "8 at 2"),
    ("x\np sp 1 0123456789", 100, "1 at 1"),
];

#[test]
fn limits_come_before_forms(rt: HostRuntime) {
    assert_limited(&rt, rt.alloc(), LIMITED, 8, FileForm::Weights);
}

const SIX_ARCS: &[u8] = b"p sp 4 6\na 1 2 1\na 1 3 2\na 2 4 1\na 3 4 2\na 2 3 1\na 1 4 9\n";

/// What is shown of the six-arc file where it is cut to a length from the first to the second number. Its first line has
/// nine bytes, and each arc eight.
const CUTS: &[(usize, usize, &str)] = &[
    (0, 0, "2 at 1"),
    (1, 7, "1 at 1"),
    (8, 9, "7 at 2"),
    (10, 15, "1 at 2"),
    (16, 17, "7 at 3"),
    (18, 23, "1 at 3"),
    (24, 25, "7 at 4"),
    (26, 31, "1 at 4"),
    (32, 33, "7 at 5"),
    (34, 39, "1 at 5"),
    (40, 41, "7 at 6"),
    (42, 47, "1 at 6"),
    (48, 49, "7 at 7"),
    (50, 55, "1 at 7"),
    (56, 57, "4: 1>2 1 1>3 2 2>4 1 3>4 2 2>3 1 1>4 9"),
];

#[test]
fn cut_files(rt: HostRuntime) {
    assert_cuts(&rt, rt.alloc(), SIX_ARCS, CUTS, FileForm::Weights);
}

/// Hands the joiner the file of a text that comes in pieces of this length.
fn take(alloc: Global, joiner: &mut Joiner, text: &[u8], length: usize) -> Result<(), Fail>
    requires fewer_than_four { joiner.old.begun < 4 }
    requires whole { joiner.old.come ≡ joiner.old.due_arcs }
    ensures begun { OnOk result (joiner.new.begun ≡ joiner.old.begun + 1) }
    ensures whole { OnOk result (joiner.new.come ≡ joiner.new.due_arcs) }
{
    let mut source = source_of(alloc, pieces(text, length))?;
    read_into(alloc, &mut source, WIDE, joiner)?;
    Ok(())
}

#[test]
fn files_come_to_a_joiner(rt: HostRuntime) -> Result<(), Fail> {
    let alloc = rt.alloc();
    let mut joiner = Joiner::new(alloc);
    take(alloc, &mut joiner, b"p sp 2 1\na 1 2 5\n", 1)?;
    take(alloc, &mut joiner, b"c\np sp 2 1\na 1 2 7\n", 100)?;
    let (graph, _) = joiner.finish()?;
    let sizes = (graph.nodes(), graph.arcs(), graph.criteria());
    assert!(rt; sizes == (2, 1, 2), "nodes, arcs and criteria");
    Ok(())
}
