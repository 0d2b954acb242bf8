//! The rows of lanes, and a script that is too long.
use super::rows::{A, B};
use super::{Outside, Row, Wanted, assert_run, file_of, files_of};
use route_io::memory::MemoryFolder;
use std::alloc::{AllocError, Global};

/// Epochs and sessions.
const LANE: &[Row] = &[
    // A published epoch is seen by the session that waits for it.
    Row {
        words: "lanes --operator op --sessions day A.gr B.gr",
        files: &[
            ("A.gr", A),
            ("B.gr", B),
            ("op", "s 2 5 5\npublish\n"),
            ("day1", "w 1\nq 1 4\nq 1 4\n"),
        ],
        status: 0,
        out: "operator\nok\nk 1\nlane 1\nk 1\nr 1 1 4 2\np 2 8 2 1 3\np 4 6 3 1 5 4\nr 1 1 4 2\np 2 8 2 1 3\np 4 6 3 1 5 4\n",
        err: "",
    },
    // A wait for an epoch that never comes.
    Row {
        words: "lanes --operator op --sessions day A.gr B.gr",
        files: &[
            ("A.gr", A),
            ("B.gr", B),
            ("op", "publish\n"),
            ("day1", "w 9\n"),
        ],
        status: 0,
        out: "operator\nk 1\nlane 1\nx 1 closed\n",
        err: "",
    },
    // Refused changes change nothing.
    Row {
        words: "lanes --operator op --sessions day A.gr B.gr",
        files: &[
            ("A.gr", A),
            ("B.gr", B),
            ("op", "s 7 1 1\ns 1 0 0\ns 1 1\npublish\n"),
            ("day1", "w 1\nc 1 4\n"),
        ],
        status: 0,
        out: "operator\nx arc\nx zero\nx line\nk 1\nlane 1\nk 1\nr 1 1 4 2\nv 2 8\nv 4 2\n",
        err: "",
    },
    // Dropped changes aren't published.
    Row {
        words: "lanes --operator op --sessions day A.gr B.gr",
        files: &[
            ("A.gr", A),
            ("B.gr", B),
            ("op", "s 2 5 5\ndrop\npublish\n"),
            ("day1", "w 1\nc 1 4\n"),
        ],
        status: 0,
        out: "operator\nok\nok\nk 1\nlane 1\nk 1\nr 1 1 4 2\nv 2 8\nv 4 2\n",
        err: "",
    },
    // No epoch follows the last.
    Row {
        words: "lanes --epoch 4294967295 --operator op --sessions day A.gr B.gr",
        files: &[
            ("A.gr", A),
            ("B.gr", B),
            ("op", "publish\n"),
            ("day1", "e\n"),
        ],
        status: 0,
        out: "operator\nx last\nlane 1\nk 4294967295\n",
        err: "",
    },
];

fn lane_rows() -> &'static [Row] {
    LANE
}

/// More sessions, and arcs that are shut.
const SHUT: &[Row] = &[
    // Two sessions, of which the second ends at once.
    Row {
        words: "lanes --lanes 2 --operator op --sessions day A.gr B.gr",
        files: &[
            ("A.gr", A),
            ("B.gr", B),
            ("op", "publish\n"),
            ("day1", "w 1\ne\n"),
            ("day2", "bye\ne\n"),
        ],
        status: 0,
        out: "operator\nk 1\nlane 1\nk 1\nk 1\nlane 2\n",
        err: "",
    },
    // A shut arc isn't passed.
    Row {
        words: "lanes --operator op --sessions day A.gr B.gr",
        files: &[
            ("A.gr", A),
            ("B.gr", B),
            ("op", "x 2\npublish\n"),
            ("day1", "w 1\nq 1 4\n"),
        ],
        status: 0,
        out: "operator\nok\nk 1\nlane 1\nk 1\nr 1 1 4 2\np 2 8 2 1 3\np 4 6 3 1 5 4\n",
        err: "",
    },
    // No walk is left.
    Row {
        words: "lanes --operator op --sessions day A.gr B.gr",
        files: &[
            ("A.gr", A),
            ("B.gr", B),
            ("op", "x 3\nx 4\nx 6\nx 7\nx 2 1\npublish\n"),
            ("day1", "w 1\nc 1 4\n"),
        ],
        status: 0,
        out: "operator\nok\nok\nok\nx arc\nx line\nk 1\nlane 1\nk 1\nr 1 1 4 0\n",
        err: "",
    },
    // A shut arc is opened again before it is published.
    Row {
        words: "lanes --operator op --sessions day A.gr B.gr",
        files: &[
            ("A.gr", A),
            ("B.gr", B),
            ("op", "x 2\ns 2 5 5\npublish\n"),
            ("day1", "w 1\nq 1 4\nq 1 4\n"),
        ],
        status: 0,
        out: "operator\nok\nok\nk 1\nlane 1\nk 1\nr 1 1 4 2\np 2 8 2 1 3\np 4 6 3 1 5 4\nr 1 1 4 2\np 2 8 2 1 3\np 4 6 3 1 5 4\n",
        err: "",
    },
    // A shut arc has got other weights behind the epoch in which it was shut; no epoch comes after that.
    Row {
        words: "lanes --operator op --sessions day A.gr B.gr",
        files: &[
            ("A.gr", A),
            ("B.gr", B),
            ("op", "x 2\npublish\ns 2 3 3\npublish\n"),
            ("day1", "w 2\nq 1 4\nl 1 4 - 7\nw 4294967295\n"),
        ],
        status: 0,
        out: "operator\nok\nk 1\nok\nk 2\nlane 1\nk 2\nr 2 1 4 3\np 2 8 2 1 3\np 4 6 3 1 5 4\np 5 4 2 2 4\nl 2 1 4 - 7 2\np 4 6 3 1 5 4\np 5 4 2 2 4\nx 2 closed\n",
        err: "",
    },
];

fn shut_rows() -> &'static [Row] {
    SHUT
}

/// Scripts that are missing, and words that ask for nothing.
const FAULT: &[Row] = &[
    // Scripts that aren't there: the operator's comes first.
    Row {
        words: "lanes --operator op --sessions day A.gr B.gr",
        files: &[("A.gr", A), ("B.gr", B), ("day1", "e\n")],
        status: 3,
        out: "",
        err: "route: folder op\n",
    },
    Row {
        words: "lanes --lanes 2 --operator op --sessions day A.gr B.gr",
        files: &[("A.gr", A), ("B.gr", B), ("op", ""), ("day1", "e\n")],
        status: 3,
        out: "",
        err: "route: folder day2\n",
    },
    // Words that ask for nothing: no session, too many, and no stem.
    Row {
        words: "lanes --lanes 0 --operator op --sessions day A.gr B.gr",
        files: &[],
        status: 2,
        out: "",
        err: "route: words\n",
    },
    Row {
        words: "lanes --lanes 17 --operator op --sessions day A.gr B.gr",
        files: &[],
        status: 2,
        out: "",
        err: "route: words\n",
    },
    Row {
        words: "lanes --operator op A.gr B.gr",
        files: &[],
        status: 2,
        out: "",
        err: "route: words\n",
    },
    // An empty stem.
    Row {
        words: "lanes --operator op --sessions= A.gr B.gr",
        files: &[("A.gr", A), ("B.gr", B), ("op", "")],
        status: 3,
        out: "",
        err: "route: folder 1\n",
    },
];

fn fault_rows() -> &'static [Row] {
    FAULT
}

/// The tables of these rows. The proof of a function takes in each table that it names, at a cost that grows with the
/// square of its rows: so a table is short, and one function alone names it.
pub(super) fn tables() -> [&'static [Row]; 3] {
    [lane_rows(), shut_rows(), fault_rows()]
}

/// Scripts of which that of the session is longer by a byte than it may be.
fn long_script(alloc: Global) -> Result<Outside, AllocError> {
    let mut list = files_of(alloc, &[("A.gr", A), ("B.gr", B), ("op", "")])?;
    let long = vec![in alloc; b'\n'; (1 << 24) + 1]?;
    list.push(file_of(alloc, "day1", &long)?)?;
    let folder = MemoryFolder::new(list, Vec::new(alloc));
    Ok(Outside::of_folder(alloc, folder))
}

const TOO_LONG: Wanted = Wanted {
    words: "lanes --operator op --sessions day A.gr B.gr",
    status: 7,
    out: b"",
    err: b"route: script day1 too long\n",
};

#[test]
fn a_script_of_one_byte_too_many_ends_the_run(rt: HostRuntime) {
    assert_run(&rt, rt.alloc(), &TOO_LONG, 0, long_script(rt.alloc()));
}
