//! The rows: each with its words, its files, and what is expected.
use super::Row;

/// The first and the second weights of the six arcs.
pub(super) const A: &str = "p sp 4 6\na 1 2 1\na 1 3 2\na 2 4 1\na 3 4 2\na 2 3 1\na 1 4 9\n";

pub(super) const B: &str = "p sp 4 6\na 1 2 4\na 1 3 1\na 2 4 4\na 3 4 1\na 2 3 1\na 1 4 9\n";

/// The same arcs, each of weight 1.
pub(super) const ONES: &str = "p sp 4 6\na 1 2 1\na 1 3 1\na 2 4 1\na 3 4 1\na 2 3 1\na 1 4 1\n";

/// `B` with two of its arcs exchanged.
pub(super) const EXCHANGED: &str =
    "p sp 4 6\na 1 2 4\na 2 4 4\na 1 3 1\na 3 4 1\na 2 3 1\na 1 4 9\n";

/// `A` as the challenge writes files: CRLF, comments, a blank line, tabs, blanks at a line's end and leading zeros.
pub(super) const DRESSED: &str = "\
c 9th DIMACS Implementation Challenge: Shortest Paths\r\n\
c\r\n\
\r\n\
p sp 4 6\r\n\
c six arcs\r\n\
a\t1\t2\t0001\r\n\
a 1 3 2 \r\n\
\x20 a 2  4 1\r\n\
a 3 4 2\r\n\
a 2 3 1\r\n\
a 1 4 9\r\n";

/// The two files of the six arcs.
pub(super) const SIX_ARCS: &[(&str, &str)] = &[("A.gr", A), ("B.gr", B)];

/// The words of the first run.
pub(super) const FIRST: &str = "costs --from 1 --to 4 A.gr B.gr";

/// The first run with words in other orders, and with more criteria.
const FIRST_RUN: &[Row] = &[
    // The first run, and its words in another order.
    Row {
        words: FIRST,
        files: SIX_ARCS,
        status: 0,
        out: "r 0 1 4 2\nv 2 8\nv 4 2\n",
        err: "",
    },
    Row {
        words: "costs --to=4 --from=01 A.gr B.gr",
        files: SIX_ARCS,
        status: 0,
        out: "r 0 1 4 2\nv 2 8\nv 4 2\n",
        err: "",
    },
    Row {
        words: "costs A.gr --to 4 B.gr --from 1",
        files: SIX_ARCS,
        status: 0,
        out: "r 0 1 4 2\nv 2 8\nv 4 2\n",
        err: "",
    },
    // Three and four criteria.
    Row {
        words: "costs --from 1 --to 4 A.gr B.gr C.gr",
        files: &[("A.gr", A), ("B.gr", B), ("C.gr", ONES)],
        status: 0,
        out: "r 0 1 4 3\nv 2 8 2\nv 4 2 2\nv 9 9 1\n",
        err: "",
    },
    Row {
        words: "costs --from 1 --to 4 A.gr B.gr C.gr D.gr",
        files: &[("A.gr", A), ("B.gr", B), ("C.gr", ONES), ("D.gr", A)],
        status: 0,
        out: "r 0 1 4 3\nv 2 8 2 2\nv 4 2 2 4\nv 9 9 1 9\n",
        err: "",
    },
];

pub(super) fn first_run_rows() -> &'static [Row] {
    FIRST_RUN
}

/// Ends that are equal, or are no nodes.
const NODE: &[Row] = &[
    // Equal ends, an unreachable target, and numbers that are no node.
    Row {
        words: "costs --from 4 --to 4 A.gr B.gr",
        files: SIX_ARCS,
        status: 0,
        out: "r 0 4 4 1\nv 0 0\n",
        err: "",
    },
    Row {
        words: "costs --from 4 --to 1 A.gr B.gr",
        files: SIX_ARCS,
        status: 0,
        out: "r 0 4 1 0\n",
        err: "",
    },
    Row {
        words: "costs --from 9 --to 1 A.gr B.gr",
        files: SIX_ARCS,
        status: 8,
        out: "x 0 9 1 node\n",
        err: "",
    },
    Row {
        words: "costs --from 1 --to 0 A.gr B.gr",
        files: SIX_ARCS,
        status: 8,
        out: "x 0 1 0 node\n",
        err: "",
    },
    Row {
        words: "costs --from 4294967295 --to 1 A.gr B.gr",
        files: SIX_ARCS,
        status: 8,
        out: "x 0 4294967295 1 node\n",
        err: "",
    },
];

fn node_rows() -> &'static [Row] {
    NODE
}

/// Budgets, exact and one less.
const BUDGET: &[Row] = &[
    // The exact budget: five relevant pairs.
    Row {
        words: "costs --from 1 --to 4 --budget 5 A.gr B.gr",
        files: SIX_ARCS,
        status: 0,
        out: "r 0 1 4 2\nv 2 8\nv 4 2\n",
        err: "",
    },
    Row {
        words: "costs --from 1 --to 4 --budget 4 A.gr B.gr",
        files: SIX_ARCS,
        status: 8,
        out: "x 0 1 4 budget\n",
        err: "",
    },
    Row {
        words: "costs --from 4 --to 1 --budget 1 A.gr B.gr",
        files: SIX_ARCS,
        status: 0,
        out: "r 0 4 1 0\n",
        err: "",
    },
    // That an end is no node is told before the budget.
    Row {
        words: "costs --from 9 --to 1 --budget 1 A.gr B.gr",
        files: SIX_ARCS,
        status: 8,
        out: "x 0 9 1 node\n",
        err: "",
    },
    // A pair whose cost equals a best cost of the target counts.
    Row {
        words: "costs --from 1 --to 2 --budget 3 F.gr F.gr",
        files: &[("F.gr", "p sp 3 2\na 1 2 1\na 1 3 1\n")],
        status: 0,
        out: "r 0 1 2 1\nv 1 1\n",
        err: "",
    },
    Row {
        words: "costs --from 1 --to 2 --budget 2 F.gr F.gr",
        files: &[("F.gr", "p sp 3 2\na 1 2 1\na 1 3 1\n")],
        status: 8,
        out: "x 0 1 2 budget\n",
        err: "",
    },
    // A pair that a best cost of the target dominates doesn't count.
    Row {
        words: "costs --from 1 --to 2 --budget 2 F.gr F.gr",
        files: &[("F.gr", "p sp 3 2\na 1 2 1\na 1 3 2\n")],
        status: 0,
        out: "r 0 1 2 1\nv 1 1\n",
        err: "",
    },
    Row {
        words: "costs --from 1 --to 2 --budget 1 F.gr F.gr",
        files: &[("F.gr", "p sp 3 2\na 1 2 1\na 1 3 2\n")],
        status: 8,
        out: "x 0 1 2 budget\n",
        err: "",
    },
];

fn budget_rows() -> &'static [Row] {
    BUDGET
}

/// Networks of several shapes.
const NETWORK: &[Row] = &[
    // Zero components, and walks of one cost.
    Row {
        words: "costs --from 1 --to 3 X.gr Y.gr",
        files: &[
            ("X.gr", "p sp 3 4\na 1 2 0\na 1 2 3\na 2 3 0\na 2 3 3\n"),
            ("Y.gr", "p sp 3 4\na 1 2 3\na 1 2 0\na 2 3 3\na 2 3 0\n"),
        ],
        status: 0,
        out: "r 0 1 3 3\nv 0 6\nv 3 3\nv 6 0\n",
        err: "",
    },
    // Parallel arcs of equal weights, and a loop at a node.
    Row {
        words: "costs --from 1 --to 2 P.gr P.gr",
        files: &[("P.gr", "p sp 2 2\na 1 2 5\na 1 2 5\n")],
        status: 0,
        out: "r 0 1 2 1\nv 5 5\n",
        err: "",
    },
    Row {
        words: "costs --from 1 --to 2 L.gr L.gr",
        files: &[("L.gr", "p sp 2 2\na 1 1 1\na 1 2 3\n")],
        status: 0,
        out: "r 0 1 2 1\nv 3 3\n",
        err: "",
    },
    // No arc at all.
    Row {
        words: "costs --from 1 --to 1 N.gr N.gr",
        files: &[("N.gr", "p sp 1 0\n")],
        status: 0,
        out: "r 0 1 1 1\nv 0 0\n",
        err: "",
    },
    // A file as the challenge has them.
    Row {
        words: FIRST,
        files: &[("A.gr", DRESSED), ("B.gr", B)],
        status: 0,
        out: "r 0 1 4 2\nv 2 8\nv 4 2\n",
        err: "",
    },
];

fn network_rows() -> &'static [Row] {
    NETWORK
}

/// Files that are cut, missing or no text.
const FAULT: &[Row] = &[
    // Cut files: within a line, before the last line, and before the last LF.
    Row {
        words: FIRST,
        files: &[
            (
                "A.gr",
                "p sp 4 6\na 1 2 1\na 1 3 2\na 2 4 1\na 3 4 2\na 2 3 1\na 1 4",
            ),
            ("B.gr", B),
        ],
        status: 5,
        out: "",
        err: "route: file A.gr line 7 kind 1\n",
    },
    Row {
        words: FIRST,
        files: &[
            (
                "A.gr",
                "p sp 4 6\na 1 2 1\na 1 3 2\na 2 4 1\na 3 4 2\na 2 3 1\n",
            ),
            ("B.gr", B),
        ],
        status: 5,
        out: "",
        err: "route: file A.gr line 7 kind 7\n",
    },
    Row {
        words: FIRST,
        files: &[
            (
                "A.gr",
                "p sp 4 6\na 1 2 1\na 1 3 2\na 2 4 1\na 3 4 2\na 2 3 1\na 1 4 9",
            ),
            ("B.gr", B),
        ],
        status: 0,
        out: "r 0 1 4 2\nv 2 8\nv 4 2\n",
        err: "",
    },
    Row {
        words: FIRST,
        files: &[("A.gr", ""), ("B.gr", B)],
        status: 5,
        out: "",
        err: "route: file A.gr line 1 kind 2\n",
    },
    // A missing file, and one that isn't text.
    Row {
        words: "costs --from 1 --to 4 A.gr N.gr",
        files: SIX_ARCS,
        status: 3,
        out: "",
        err: "route: folder N.gr\n",
    },
    Row {
        words: FIRST,
        files: &[("A.gr", "PK binary\n"), ("B.gr", B)],
        status: 5,
        out: "",
        err: "route: file A.gr line 1 kind 1\n",
    },
    // The second of two faulty files isn't looked at.
    Row {
        words: FIRST,
        files: &[("A.gr", "p sp 4 6\nq\n"), ("B.gr", "")],
        status: 5,
        out: "",
        err: "route: file A.gr line 2 kind 1\n",
    },
];

fn fault_rows() -> &'static [Row] {
    FAULT
}

/// Files that do not agree.
const DISAGREEMENT: &[Row] = &[
    // Files that don't agree: in their arcs, in their sizes, and in what is zero.
    Row {
        words: "costs --from 1 --to 4 A.gr C.gr",
        files: &[("A.gr", A), ("C.gr", EXCHANGED)],
        status: 6,
        out: "",
        err: "route: files ends arc 2 file 2\n",
    },
    Row {
        words: "costs --from 1 --to 4 A.gr P.gr",
        files: &[("A.gr", A), ("P.gr", "p sp 4 0\n")],
        status: 6,
        out: "",
        err: "route: files sizes file 2\n",
    },
    Row {
        words: "costs --from 1 --to 2 X.gr Y.gr",
        files: &[
            ("X.gr", "p sp 2 2\na 1 2 0\na 2 1 0\n"),
            ("Y.gr", "p sp 2 2\na 1 2 0\na 2 1 0\n"),
        ],
        status: 6,
        out: "",
        err: "route: files zero arc 1\n",
    },
    Row {
        words: "costs --from 1 --to 2 X.gr Y.gr Z.gr",
        files: &[
            ("X.gr", "p sp 2 2\na 1 2 0\na 2 1 0\n"),
            ("Y.gr", "p sp 2 2\na 1 2 0\na 2 1 0\n"),
            ("Z.gr", "p sp 2 2\na 1 2 5\na 2 1 0\n"),
        ],
        status: 6,
        out: "",
        err: "route: files zero arc 2\n",
    },
    // A fault of a later file comes before a disagreement of earlier ones.
    Row {
        words: "costs --from 1 --to 4 A.gr C.gr CUT",
        files: &[
            ("A.gr", A),
            ("C.gr", EXCHANGED),
            (
                "CUT",
                "p sp 4 6\na 1 2 1\na 1 3 2\na 2 4 1\na 3 4 2\na 2 3 1\na 1 4",
            ),
        ],
        status: 5,
        out: "",
        err: "route: file CUT line 7 kind 1\n",
    },
];

fn disagreement_rows() -> &'static [Row] {
    DISAGREEMENT
}

/// Files that are checked, and are well or missing.
const CHECK: &[Row] = &[
    // Whether files make up a network: its nodes, arcs and criteria, or the first thing that is wrong.
    Row {
        words: "check A.gr B.gr",
        files: SIX_ARCS,
        status: 0,
        out: "ok 4 6 2\n",
        err: "",
    },
    Row {
        words: "check A.gr B.gr C.gr A.gr",
        files: &[("A.gr", A), ("B.gr", B), ("C.gr", ONES)],
        status: 0,
        out: "ok 4 6 4\n",
        err: "",
    },
    Row {
        words: "check N.gr N.gr",
        files: &[("N.gr", "p sp 8388608 0\n")],
        status: 0,
        out: "ok 8388608 0 2\n",
        err: "",
    },
    Row {
        words: "check A.gr ''",
        files: SIX_ARCS,
        status: 3,
        out: "",
        err: "route: folder \n",
    },
    Row {
        words: "check A.gr N.gr",
        files: SIX_ARCS,
        status: 3,
        out: "",
        err: "route: folder N.gr\n",
    },
];

fn check_rows() -> &'static [Row] {
    CHECK
}

/// Files that are checked and do not agree, and words that are none of `check`.
const CHECK_FAULT: &[Row] = &[
    Row {
        words: "check A.gr C.gr",
        files: &[("A.gr", A), ("C.gr", EXCHANGED)],
        status: 6,
        out: "",
        err: "route: files ends arc 2 file 2\n",
    },
    Row {
        words: "check X.gr Y.gr",
        files: &[
            ("X.gr", "p sp 2 2\na 1 2 0\na 2 1 0\n"),
            ("Y.gr", "p sp 2 2\na 1 2 0\na 2 1 0\n"),
        ],
        status: 6,
        out: "",
        err: "route: files zero arc 1\n",
    },
    Row {
        words: "check X.gr Y.gr Z.gr",
        files: &[
            ("X.gr", "p sp 2 2\na 1 2 0\na 2 1 0\n"),
            ("Y.gr", "p sp 2 2\na 1 2 0\na 2 1 0\n"),
            ("Z.gr", "p sp 2 2\na 1 2 5\na 2 1 0\n"),
        ],
        status: 6,
        out: "",
        err: "route: files zero arc 2\n",
    },
    Row {
        words: "check A.gr C.gr CUT",
        files: &[
            ("A.gr", A),
            ("C.gr", EXCHANGED),
            (
                "CUT",
                "p sp 4 6\na 1 2 1\na 1 3 2\na 2 4 1\na 3 4 2\na 2 3 1\na 1 4",
            ),
        ],
        status: 5,
        out: "",
        err: "route: file CUT line 7 kind 1\n",
    },
    Row {
        words: "check A.gr",
        files: SIX_ARCS,
        status: 2,
        out: "",
        err: "route: words\n",
    },
    Row {
        words: "check --from 1 A.gr B.gr",
        files: SIX_ARCS,
        status: 2,
        out: "",
        err: "route: words\n",
    },
];

fn check_fault_rows() -> &'static [Row] {
    CHECK_FAULT
}

/// Words of no command.
const WORD: &[Row] = &[
    // Words of no command.
    Row {
        words: "",
        files: SIX_ARCS,
        status: 2,
        out: "",
        err: "route: words\n",
    },
    Row {
        words: "costs",
        files: SIX_ARCS,
        status: 2,
        out: "",
        err: "route: words\n",
    },
    Row {
        words: "costs --from 1 A.gr B.gr",
        files: SIX_ARCS,
        status: 2,
        out: "",
        err: "route: words\n",
    },
    Row {
        words: "costs --from 1 --to 4 A.gr",
        files: SIX_ARCS,
        status: 2,
        out: "",
        err: "route: words\n",
    },
    Row {
        words: "costs --from 1 --to 4 A.gr A.gr A.gr A.gr A.gr",
        files: SIX_ARCS,
        status: 2,
        out: "",
        err: "route: words\n",
    },
    Row {
        words: "costs --from +1 --to 4 A.gr B.gr",
        files: SIX_ARCS,
        status: 2,
        out: "",
        err: "route: words\n",
    },
];

fn word_rows() -> &'static [Row] {
    WORD
}

/// Options out of range or twice, and names of no command.
const OPTION: &[Row] = &[
    Row {
        words: "costs --from 1 --to 4 --budget 0 A.gr B.gr",
        files: SIX_ARCS,
        status: 2,
        out: "",
        err: "route: words\n",
    },
    Row {
        words: "costs --from 1 --to 4 --workers 65 A.gr B.gr",
        files: SIX_ARCS,
        status: 2,
        out: "",
        err: "route: words\n",
    },
    Row {
        words: "costs --from 1 --from 1 --to 4 A.gr B.gr",
        files: SIX_ARCS,
        status: 2,
        out: "",
        err: "route: words\n",
    },
    Row {
        words: "path A.gr B.gr",
        files: SIX_ARCS,
        status: 2,
        out: "",
        err: "route: words\n",
    },
    Row {
        words: "batch A.gr B.gr",
        files: SIX_ARCS,
        status: 2,
        out: "",
        err: "route: words\n",
    },
];

fn option_rows() -> &'static [Row] {
    OPTION
}

/// The tables of these rows. The proof of a function takes in each table that it names, at a cost that grows with the
/// square of its rows: so a table is short, and one function alone names it.
pub(super) fn tables() -> [&'static [Row]; 10] {
    [
        first_run_rows(),
        node_rows(),
        budget_rows(),
        network_rows(),
        fault_rows(),
        disagreement_rows(),
        check_rows(),
        check_fault_rows(),
        word_rows(),
        option_rows(),
    ]
}
