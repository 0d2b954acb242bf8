//! The rows of `follow`: feeds that are written, and feeds that are taken beside sessions.
use super::rows::{A, B};
use super::{Outside, Row, Wanted, assert_run, file_of, files_of};
use route_io::memory::MemoryFolder;
use std::alloc::{AllocError, Global};

/// Two epochs, as a feed.
const TWO: &str = "feed 6 2 0\ng 1 1\ns 2 5 5\nend 1\ng 2 1\nx 1\nend 2\n";

/// Feeds of scripts.
const WRITTEN: &[Row] = &[
    Row {
        words: "follow --write op A.gr B.gr",
        files: &[
            ("A.gr", A),
            ("B.gr", B),
            ("op", "s 2 5 5\npublish\nx 1\npublish\n"),
        ],
        status: 0,
        out: TWO,
        err: "",
    },
    // What isn't published isn't written, and an epoch without changes is.
    Row {
        words: "follow --epoch 7 --write op A.gr B.gr",
        files: &[("A.gr", A), ("B.gr", B), ("op", "publish\nx 1\nhello\n")],
        status: 0,
        out: "feed 6 2 7\ng 8 0\nend 8\n",
        err: "",
    },
    Row {
        words: "follow --write op A.gr B.gr",
        files: &[("A.gr", A), ("B.gr", B)],
        status: 3,
        out: "",
        err: "route: folder op\n",
    },
    // Of the options of one form none goes with the other.
    Row {
        words: "follow --write op --feeds f --sessions day A.gr B.gr",
        files: &[],
        status: 2,
        out: "",
        err: "route: words\n",
    },
    Row {
        words: "follow --feeds f A.gr B.gr",
        files: &[],
        status: 2,
        out: "",
        err: "route: words\n",
    },
];

fn written_rows() -> &'static [Row] {
    WRITTEN
}

/// Feeds that are taken.
const TAKEN: &[Row] = &[
    // The first feed is cut within its second message, and the second repeats the first message.
    Row {
        words: "follow --feeds f --links 2 --sessions day A.gr B.gr",
        files: &[
            ("A.gr", A),
            ("B.gr", B),
            ("f1", "feed 6 2 0\ng 1 1\ns 2 5 5\nend 1\ng 2 1\n"),
            ("f2", TWO),
            ("day1", "w 2\nc 1 4\n"),
        ],
        status: 0,
        out: "feed 1 cut 1\nfeed 2 whole 2\nlane 1\nk 2\nr 2 1 4 1\nv 7 6\n",
        err: "",
    },
    // A message that comes again changes nothing, and each session has its replies.
    Row {
        words: "follow --epoch 5 --feeds f --sessions day --lanes 2 A.gr B.gr",
        files: &[
            ("A.gr", A),
            ("B.gr", B),
            ("f1", "feed 6 2 5\ng 6 0\nend 6\ng 6 1\nx 1\nend 6\n"),
            ("day1", "w 6\nc 1 4\n"),
            ("day2", "bye\ne\n"),
        ],
        status: 0,
        out: "feed 1 whole 6\nlane 1\nk 6\nr 6 1 4 2\nv 2 8\nv 4 2\nlane 2\n",
        err: "",
    },
    // An epoch is left out.
    Row {
        words: "follow --feeds f --sessions day A.gr B.gr",
        files: &[
            ("A.gr", A),
            ("B.gr", B),
            ("f1", "feed 6 2 0\ng 2 0\nend 2\n"),
            ("day1", "w 1\n"),
        ],
        status: 0,
        out: "feed 1 gap 2 0\nlane 1\nx 0 closed\n",
        err: "",
    },
    // The feed is of another network.
    Row {
        words: "follow --feeds f --sessions day A.gr B.gr",
        files: &[
            ("A.gr", A),
            ("B.gr", B),
            ("f1", "feed 7 2 0\n"),
            ("day1", "w 1\n"),
        ],
        status: 0,
        out: "feed 1 bad 1 0\nlane 1\nx 0 closed\n",
        err: "",
    },
    // Feeds are read before the scripts.
    Row {
        words: "follow --feeds f --sessions day A.gr B.gr",
        files: &[("A.gr", A), ("B.gr", B)],
        status: 3,
        out: "",
        err: "route: folder f1\n",
    },
    Row {
        words: "follow --feeds f --sessions day --lanes 2 A.gr B.gr",
        files: &[("A.gr", A), ("B.gr", B), ("f1", ""), ("day1", "")],
        status: 3,
        out: "",
        err: "route: folder day2\n",
    },
];

fn taken_rows() -> &'static [Row] {
    TAKEN
}

/// The tables of these rows.
pub(super) fn tables() -> [&'static [Row]; 2] {
    [written_rows(), taken_rows()]
}

/// A feed that is longer by a byte than it may be; there is no script.
fn long_feed(alloc: Global) -> Result<Outside, AllocError> {
    let mut list = files_of(alloc, &[("A.gr", A), ("B.gr", B)])?;
    let long = vec![in alloc; b'\n'; (1 << 24) + 1]?;
    list.push(file_of(alloc, "f1", &long)?)?;
    let folder = MemoryFolder::new(list, Vec::new(alloc));
    Ok(Outside::of_folder(alloc, folder))
}

const TOO_LONG: Wanted = Wanted {
    words: "follow --feeds f --sessions day A.gr B.gr",
    status: 7,
    out: b"",
    err: b"route: script f1 too long\n",
};

#[test]
fn a_feed_of_one_byte_too_many_ends_the_run(rt: HostRuntime) {
    assert_run(&rt, rt.alloc(), &TOO_LONG, 0, long_feed(rt.alloc()));
}
