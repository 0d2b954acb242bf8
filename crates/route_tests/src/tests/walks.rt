//! The rows of answers with walks.
use super::Row;
use super::rows::{A, B, DRESSED, ONES, SIX_ARCS};

/// Four arcs of equal weights, by which two walks of two arcs lead from 1 to 4.
pub(super) const TIE: &str = "p sp 4 4\na 1 2 1\na 1 3 1\na 3 4 1\na 2 4 1\n";

/// Arcs of which each has one weight that is zero.
pub(super) const ZEROS: &[(&str, &str)] = &[
    ("X.gr", "p sp 3 4\na 1 2 0\na 1 2 3\na 2 3 0\na 2 3 3\n"),
    ("Y.gr", "p sp 3 4\na 1 2 3\na 1 2 0\na 2 3 3\na 2 3 0\n"),
];

/// Walks over the six arcs.
const WALK: &[Row] = &[
    Row {
        words: "one --from 1 --to 4 A.gr B.gr",
        files: SIX_ARCS,
        status: 0,
        out: "r 0 1 4 2\np 2 8 2 1 3\np 4 2 2 2 4\n",
        err: "",
    },
    // A walk of one arc is an answer where there is a third criterion.
    Row {
        words: "one --from 1 --to 4 A.gr B.gr C.gr",
        files: &[("A.gr", A), ("B.gr", B), ("C.gr", ONES)],
        status: 0,
        out: "r 0 1 4 3\np 2 8 2 2 1 3\np 4 2 2 2 2 4\np 9 9 1 1 6\n",
        err: "",
    },
    // Equal ends, an unreachable target, and a number that is no node.
    Row {
        words: "one --from 4 --to 4 A.gr B.gr",
        files: SIX_ARCS,
        status: 0,
        out: "r 0 4 4 1\np 0 0 0\n",
        err: "",
    },
    Row {
        words: "one --from 4 --to 1 A.gr B.gr",
        files: SIX_ARCS,
        status: 0,
        out: "r 0 4 1 0\n",
        err: "",
    },
    Row {
        words: "one --from 1 --to 5 A.gr B.gr",
        files: SIX_ARCS,
        status: 8,
        out: "x 0 1 5 node\n",
        err: "",
    },
    // The exact budget: five relevant pairs.
    Row {
        words: "one --from 1 --to 4 --budget 5 A.gr B.gr",
        files: SIX_ARCS,
        status: 0,
        out: "r 0 1 4 2\np 2 8 2 1 3\np 4 2 2 2 4\n",
        err: "",
    },
    Row {
        words: "one --from 1 --to 4 --budget 4 A.gr B.gr",
        files: SIX_ARCS,
        status: 8,
        out: "x 0 1 4 budget\n",
        err: "",
    },
];

fn walk_rows() -> &'static [Row] {
    WALK
}

/// Walks in networks of several shapes.
const SHAPE: &[Row] = &[
    // Of two walks of one cost the backward-least is told: arcs 2 and 3, and not 1 and 4.
    Row {
        words: "one --from 1 --to 4 T.gr T.gr",
        files: &[("T.gr", TIE)],
        status: 0,
        out: "r 0 1 4 1\np 2 2 2 2 3\n",
        err: "",
    },
    // Parallel arcs of equal weights, and a loop at a node.
    Row {
        words: "one --from 1 --to 2 P.gr P.gr",
        files: &[("P.gr", "p sp 2 2\na 1 2 5\na 1 2 5\n")],
        status: 0,
        out: "r 0 1 2 1\np 5 5 1 1\n",
        err: "",
    },
    Row {
        words: "one --from 1 --to 2 L.gr L.gr",
        files: &[("L.gr", "p sp 2 2\na 1 1 1\na 1 2 3\n")],
        status: 0,
        out: "r 0 1 2 1\np 3 3 1 2\n",
        err: "",
    },
    // Zero components.
    Row {
        words: "one --from 1 --to 3 X.gr Y.gr",
        files: ZEROS,
        status: 0,
        out: "r 0 1 3 3\np 0 6 2 1 3\np 3 3 2 2 3\np 6 0 2 2 4\n",
        err: "",
    },
    // No arc at all.
    Row {
        words: "one --from 1 --to 1 N.gr N.gr",
        files: &[("N.gr", "p sp 1 0\n")],
        status: 0,
        out: "r 0 1 1 1\np 0 0 0\n",
        err: "",
    },
    // A file as the challenge has them.
    Row {
        words: "one --from 1 --to 4 A.gr B.gr",
        files: &[("A.gr", DRESSED), ("B.gr", B)],
        status: 0,
        out: "r 0 1 4 2\np 2 8 2 1 3\np 4 2 2 2 4\n",
        err: "",
    },
];

fn shape_rows() -> &'static [Row] {
    SHAPE
}

/// Eight arcs in a row of five nodes, each pair of neighbours joined by two, whose costs pass 2^31 half way.
const WIDE: &[(&str, &str)] = &[
    (
        "X.gr",
        "p sp 5 8\na 1 2 1073741824\na 2 3 1073741824\na 3 4 1073741824\na 4 5 1073741824\na 1 2 1073741825\na 2 3 1073741825\na 3 4 1073741825\na 4 5 1073741825\n",
    ),
    (
        "Y.gr",
        "p sp 5 8\na 1 2 1\na 2 3 1\na 3 4 1\na 4 5 1\na 1 2 0\na 2 3 0\na 3 4 0\na 4 5 0\n",
    ),
];

/// What waits may be stale, and a cost may be wide.
const WAITING: &[Row] = &[
    // What a settled cost of its node is at most is neither taken nor dominates anything.
    Row {
        words: "one --from 1 --to 3 --budget 3 X.gr Y.gr",
        files: &[
            ("X.gr", "p sp 3 3\na 1 2 1\na 1 2 1\na 2 3 1\n"),
            ("Y.gr", "p sp 3 3\na 1 2 1\na 1 2 2\na 2 3 1\n"),
        ],
        status: 0,
        out: "r 0 1 3 1\np 2 2 2 1 3\n",
        err: "",
    },
    // Another settled cost than the latest one is at most it.
    Row {
        words: "one --from 1 --to 3 --budget 5 X.gr Y.gr",
        files: &[
            ("X.gr", "p sp 3 4\na 1 2 2\na 1 2 2\na 1 2 3\na 2 3 1\n"),
            ("Y.gr", "p sp 3 4\na 1 2 1\na 1 2 2\na 1 2 0\na 2 3 1\n"),
        ],
        status: 0,
        out: "r 0 1 3 2\np 3 2 2 1 4\np 4 1 2 3 4\n",
        err: "",
    },
    // What waits is dominated by a cost of the target that was settled since.
    Row {
        words: "one --from 1 --to 2 --budget 2 X.gr Y.gr",
        files: &[
            ("X.gr", "p sp 3 2\na 1 2 0\na 1 3 2\n"),
            ("Y.gr", "p sp 3 2\na 1 2 2\na 1 3 2\n"),
        ],
        status: 0,
        out: "r 0 1 2 1\np 0 2 1 1\n",
        err: "",
    },
    // A node that has a settled cost gets another.
    Row {
        words: "one --from 1 --to 3 X.gr Y.gr",
        files: &[
            ("X.gr", "p sp 3 3\na 1 2 1\na 2 3 2\na 1 3 6\n"),
            ("Y.gr", "p sp 3 3\na 1 2 2\na 2 3 5\na 1 3 0\n"),
        ],
        status: 0,
        out: "r 0 1 3 2\np 3 7 2 1 2\np 6 0 1 3\n",
        err: "",
    },
    // Costs that get no room in 32 bits half way, within the exact budget and beyond it.
    Row {
        words: "one --from 1 --to 5 --budget 15 X.gr Y.gr",
        files: WIDE,
        status: 0,
        out: "r 0 1 5 5\np 4294967296 4 4 1 2 3 4\np 4294967297 3 4 5 2 3 4\np 4294967298 2 4 5 6 3 4\np 4294967299 1 4 5 6 7 4\np 4294967300 0 4 5 6 7 8\n",
        err: "",
    },
    Row {
        words: "one --from 1 --to 5 --budget 14 X.gr Y.gr",
        files: WIDE,
        status: 8,
        out: "x 0 1 5 budget\n",
        err: "",
    },
];

fn waiting_rows() -> &'static [Row] {
    WAITING
}

/// The tables of these rows. The proof of a function takes in each table that it names, at a cost that grows with the
/// square of its rows: so a table is short, and one function alone names it.
pub(super) fn tables() -> [&'static [Row]; 3] {
    [walk_rows(), shape_rows(), waiting_rows()]
}
