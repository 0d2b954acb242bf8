//! The rows of generated files, which an independent program made.
use super::Row;

/// The third weight file of a grid of three rows.
const THIRD: &str = "\
p sp 9 24\na 1 2 64\na 1 4 16\na 2 3 9\na 2 5 64\n\
a 2 1 83\na 3 6 94\na 3 2 47\na 4 5 46\na 4 7 34\n\
a 4 1 89\na 5 6 14\na 5 8 99\na 5 4 1\na 5 2 70\n\
a 6 9 21\na 6 5 76\na 6 3 26\na 7 8 14\na 7 4 69\n\
a 8 9 36\na 8 7 46\na 8 5 19\na 9 8 29\na 9 6 68\n";

const FILES: &[Row] = &[
    // All files of the smallest grid, and one that isn't there.
    Row {
        words: "gen --start 1 --side 2 --criteria 2 --pairs 1 --file 0",
        files: &[],
        status: 0,
        out: "p aux sp p2p 1\nq 1 4\n",
        err: "",
    },
    Row {
        words: "gen --start 1 --side 2 --criteria 2 --pairs 1 --file 1",
        files: &[],
        status: 0,
        out: "p sp 4 8\na 1 2 13\na 1 3 68\na 2 4 100\na 2 1 15\na 3 4 31\na 3 1 27\na 4 3 90\na 4 2 36\n",
        err: "",
    },
    Row {
        words: "gen --start 1 --side 2 --criteria 2 --pairs 1 --file 2",
        files: &[],
        status: 0,
        out: "p sp 4 8\na 1 2 76\na 1 3 23\na 2 4 31\na 2 1 48\na 3 4 78\na 3 1 97\na 4 3 16\na 4 2 45\n",
        err: "",
    },
    Row {
        words: "gen --start 1 --side 2 --criteria 2 --pairs 1 --file 3",
        files: &[],
        status: 2,
        out: "",
        err: "route: words\n",
    },
    // The greatest start, and budget and workers, which change nothing.
    Row {
        words: "gen --start 4294967295 --side 3 --criteria 3 --pairs 2 --file 3",
        files: &[],
        status: 0,
        out: THIRD,
        err: "",
    },
    Row {
        words: "gen --start 4294967295 --side 3 --criteria 3 --pairs 2 --file 3 --budget 1 --workers 64",
        files: &[],
        status: 0,
        out: THIRD,
        err: "",
    },
    // Pairs that start in different rows.
    Row {
        words: "gen --start 7 --side 7 --criteria 4 --pairs 5 --file 0",
        files: &[],
        status: 0,
        out: "p aux sp p2p 5\nq 1 33\nq 1 33\nq 1 33\nq 9 41\nq 9 41\n",
        err: "",
    },
    Row {
        words: "gen --start 7 --side 100 --criteria 2 --pairs 3 --file 0",
        files: &[],
        status: 0,
        out: "p aux sp p2p 3\nq 1 405\nq 3132 3536\nq 6364 6768\n",
        err: "",
    },
];

pub(super) fn file_rows() -> &'static [Row] {
    FILES
}

/// What all files of a plan come to.
const SUMMARIES: &[Row] = &[
    Row {
        words: "gen --start 1 --side 2 --criteria 2 --pairs 1",
        files: &[],
        status: 0,
        out: "gen 4 8 2 1 1 0 1 2 200\n",
        err: "",
    },
    Row {
        words: "gen --start 7 --side 7 --criteria 3 --pairs 5",
        files: &[],
        status: 0,
        out: "gen 49 168 3 5 5 0 80 690 89874\n",
        err: "",
    },
    Row {
        words: "gen --start 5 --side 3 --criteria 4 --pairs 1",
        files: &[],
        status: 0,
        out: "gen 9 24 4 1 1 0 6 24 4420\n",
        err: "",
    },
    // Budgets that all pairs pass, and that two of five do.
    Row {
        words: "gen --start 7 --side 7 --criteria 2 --pairs 5 --budget 60",
        files: &[],
        status: 0,
        out: "gen 49 168 2 5 0 5 0 0 0\n",
        err: "",
    },
    Row {
        words: "gen --start 7 --side 7 --criteria 2 --pairs 5 --budget 110",
        files: &[],
        status: 0,
        out: "gen 49 168 2 5 3 2 18 162 11016\n",
        err: "",
    },
    // A large grid.
    Row {
        words: "gen --start 1 --side 500 --criteria 2 --pairs 10",
        files: &[],
        status: 0,
        out: "gen 250000 998000 2 10 10 0 41 356 27236\n",
        err: "",
    },
];

pub(super) fn summary_rows() -> &'static [Row] {
    SUMMARIES
}
