//! Runs of `serve` over a town in memory.
ghost use Rattle.std.specs.Prelude.{◌≡◌, IfOk, false};
ghost use Rattle.link_doors.specs.Forms.{IsUnused};

use super::rows::{A, B};
use super::{ample, folder_of, words_of};
use link_doors::{MemoryDoor, MemoryTown};
use route_io::memory::{MemorySink, MemorySource};
use route_io::{Link, MemoryLink};
use route_top::route;
use std::alloc::{AllocError, Global};
use std::process::Abort;
use std::sync::Wait;
use std::thread::Threads;
use std::time::Clock;
use work_claim::OpenGate;

/// What fails at a call.
#[derive(Clone, Copy, PartialEq, Eq)]
enum Place {
    Nothing,
    Listening,
    OperatorDoor,
    OperatorRead,
    OperatorWrite,
    SessionDoor,
    SessionRead,
    SessionWrite,
}

/// A run: what comes over the links of the operator's door and of the session's, what fails, at the call of which number, the
/// status, and what is sent on each link that was given back, those of the operator first. What reads and writes is the first
/// link of its door.
struct ServeRow {
    operator: &'static [&'static str],
    session: &'static [&'static str],
    place: Place,
    call: u64,
    status: u8,
    replies: &'static [&'static str],
}

const ROWS: &[ServeRow] = &[
    // One link of a session, and none of the operator.
    ServeRow {
        operator: &[],
        session: &["e\nbye\n"],
        place: Place::Nothing,
        call: 0,
        status: 0,
        replies: &["k 0\n"],
    },
    // A lane goes on from one link to the next.
    ServeRow {
        operator: &["publish\n"],
        session: &["w 1\ne\n", "e\n"],
        place: Place::Nothing,
        call: 0,
        status: 0,
        replies: &["k 1\n", "k 1\nk 1\n", "k 1\n"],
    },
    // The operator's next link goes on from what was published, without what was pending.
    ServeRow {
        operator: &["publish\ns 2 5 5\n", "publish\n"],
        session: &["w 2\nc 1 4\n"],
        place: Place::Nothing,
        call: 0,
        status: 0,
        replies: &["k 1\nok\n", "k 2\n", "k 2\nr 2 1 4 2\nv 2 8\nv 4 2\n"],
    },
    // The town doesn't listen.
    ServeRow {
        operator: &[],
        session: &[],
        place: Place::Listening,
        call: 0,
        status: 10,
        replies: &[],
    },
];

fn rows() -> &'static [ServeRow] {
    ROWS
}

const FAULTS: &[ServeRow] = &[
    // The operator's door fails before its first link: the store is closed, and sessions are told so.
    ServeRow {
        operator: &["publish\n"],
        session: &["w 1\ne\n", "w 1\n"],
        place: Place::OperatorDoor,
        call: 0,
        status: 10,
        replies: &["x 0 closed\nk 0\n", "x 0 closed\n"],
    },
    // It fails behind its last link.
    ServeRow {
        operator: &["publish\n"],
        session: &["w 1\ne\n", "w 1\n"],
        place: Place::OperatorDoor,
        call: 1,
        status: 10,
        replies: &["k 1\n", "k 1\nk 1\n", "k 1\n"],
    },
    // The session's door fails at its second call: its first link is served whole.
    ServeRow {
        operator: &["publish\n"],
        session: &["w 1\ne\n", "w 1\n"],
        place: Place::SessionDoor,
        call: 1,
        status: 10,
        replies: &["k 1\n", "k 1\nk 1\n"],
    },
    // A link that fails ends alone: nothing was published, where it was the operator's and a read failed.
    ServeRow {
        operator: &["publish\n"],
        session: &["w 1\ne\n", "w 1\n"],
        place: Place::OperatorRead,
        call: 0,
        status: 0,
        replies: &["", "x 0 closed\nk 0\n", "x 0 closed\n"],
    },
    ServeRow {
        operator: &["publish\n"],
        session: &["w 1\ne\n", "w 1\n"],
        place: Place::OperatorWrite,
        call: 0,
        status: 0,
        replies: &["", "k 1\nk 1\n", "k 1\n"],
    },
    ServeRow {
        operator: &["publish\n"],
        session: &["w 1\ne\n", "w 1\n"],
        place: Place::SessionRead,
        call: 0,
        status: 0,
        replies: &["k 1\n", "", "k 1\n"],
    },
    ServeRow {
        operator: &["publish\n"],
        session: &["w 1\ne\n", "w 1\n"],
        place: Place::SessionWrite,
        call: 1,
        status: 0,
        replies: &["k 1\n", "k 1\n", "k 1\n"],
    },
];

fn faults() -> &'static [ServeRow] {
    FAULTS
}

/// The other calls of the same doors and links, up to the first that isn't made.
const FURTHER_FAULTS: &[ServeRow] = &[
    ServeRow {
        operator: &["publish\n"],
        session: &["w 1\ne\n", "w 1\n"],
        place: Place::SessionDoor,
        call: 0,
        status: 10,
        replies: &["k 1\n"],
    },
    ServeRow {
        operator: &["publish\n"],
        session: &["w 1\ne\n", "w 1\n"],
        place: Place::SessionDoor,
        call: 2,
        status: 10,
        replies: &["k 1\n", "k 1\nk 1\n", "k 1\n"],
    },
    // The read behind the last line fails: all replies were sent.
    ServeRow {
        operator: &["publish\n"],
        session: &["w 1\ne\n", "w 1\n"],
        place: Place::OperatorRead,
        call: 1,
        status: 0,
        replies: &["k 1\n", "k 1\nk 1\n", "k 1\n"],
    },
    ServeRow {
        operator: &["publish\n"],
        session: &["w 1\ne\n", "w 1\n"],
        place: Place::SessionRead,
        call: 1,
        status: 0,
        replies: &["k 1\n", "k 1\nk 1\n", "k 1\n"],
    },
    ServeRow {
        operator: &["publish\n"],
        session: &["w 1\ne\n", "w 1\n"],
        place: Place::SessionWrite,
        call: 0,
        status: 0,
        replies: &["k 1\n", "", "k 1\n"],
    },
    // No link writes so often, and no door is asked so often.
    ServeRow {
        operator: &["publish\n"],
        session: &["w 1\ne\n", "w 1\n"],
        place: Place::SessionWrite,
        call: 2,
        status: 0,
        replies: &["k 1\n", "k 1\nk 1\n", "k 1\n"],
    },
    ServeRow {
        operator: &["publish\n"],
        session: &["w 1\ne\n", "w 1\n"],
        place: Place::SessionDoor,
        call: 3,
        status: 0,
        replies: &["k 1\n", "k 1\nk 1\n", "k 1\n"],
    },
];

fn further_faults() -> &'static [ServeRow] {
    FURTHER_FAULTS
}

/// The numbers of the calls that fail at a place.
fn fails_at(alloc: Global, row: &ServeRow, place: Place) -> Result<Vec<u64>, AllocError> {
    if row.place == place {
        Ok(vec![in alloc; row.call]?)
    } else {
        Ok(Vec::new(alloc))
    }
}

/// A link over which a text comes, in pieces of this size, and whose reads and writes of these numbers fail.
fn link_of(
    alloc: Global,
    text: &str,
    piece: usize,
    reads: Vec<u64>,
    writes: Vec<u64>,
) -> Result<MemoryLink, AllocError> {
    let bytes = Vec::from_slice(alloc, text.as_bytes())?;
    Ok(Link {
        from: MemorySource::new(bytes, reads).with_piece(piece.max(1)),
        to: MemorySink::new(alloc, u64::MAX, writes).with_piece(piece.max(1)),
    })
}

/// Links over which these texts come, in pieces, of which the first fails where the row says so.
fn links_of(
    alloc: Global,
    row: &ServeRow,
    texts: &[&str],
    piece: usize,
    read: Place,
    write: Place,
) -> Result<Vec<MemoryLink>, AllocError> {
    let mut links = Vec::new(alloc);
    let mut reads = fails_at(alloc, row, read)?;
    let mut writes = fails_at(alloc, row, write)?;
    for text in texts {
        links.push(link_of(alloc, text, piece, reads, writes)?)?;
        reads = Vec::new(alloc);
        writes = Vec::new(alloc);
    }
    Ok(links)
}

/// The operator's door.
fn operator_door(alloc: Global, row: &ServeRow, piece: usize) -> Result<MemoryDoor, AllocError>
    ensures { IfOk result IsUnused }
{
    let links = links_of(
        alloc,
        row,
        row.operator,
        piece,
        Place::OperatorRead,
        Place::OperatorWrite,
    )?;
    MemoryDoor::new(alloc, links, fails_at(alloc, row, Place::OperatorDoor)?)
}

/// The session's door.
fn session_door(alloc: Global, row: &ServeRow, piece: usize) -> Result<MemoryDoor, AllocError>
    ensures { IfOk result IsUnused }
{
    let links = links_of(
        alloc,
        row,
        row.session,
        piece,
        Place::SessionRead,
        Place::SessionWrite,
    )?;
    MemoryDoor::new(alloc, links, fails_at(alloc, row, Place::SessionDoor)?)
}

/// A town of both doors.
fn town_of(alloc: Global, row: &ServeRow, piece: usize) -> Result<MemoryTown, AllocError>
    ensures { IfOk result (λ town. town.asked ≡ false) }
{
    let mut doors = Vec::with_capacity(alloc, 2)?;
    doors.push_reserved(operator_door(alloc, row, piece)?);
    doors.push_reserved(session_door(alloc, row, piece)?);
    Ok(MemoryTown::new(alloc, doors, fails_at(alloc, row, Place::Listening)?))
}

/// What a run sent, and its town afterwards.
#[derive(Drop)]
struct ServedTown {
    status: u8,
    town: MemoryTown,
    out: MemorySink,
    err: MemorySink,
}

/// Runs the server of a row, whose links give and take so many bytes at once.
fn serve_row<R: Threads + Wait + Clock + Sync>(
    rt: &R,
    alloc: Global,
    row: &ServeRow,
    piece: usize,
) -> Result<ServedTown, AllocError> {
    let words = words_of(alloc, "serve --listen here --operator there A.gr B.gr")?;
    let mut folder = folder_of(alloc, &[("A.gr", A), ("B.gr", B)])?;
    let mut town = town_of(alloc, row, piece)?;
    let (mut out, mut err) = (ample(alloc), ample(alloc));
    let status = route(
        rt,
        alloc,
        &words,
        &mut folder,
        &mut out,
        &mut err,
        &mut town,
        &OpenGate,
    );
    Ok(ServedTown {
        status,
        town,
        out,
        err,
    })
}

/// The links that were given back were sent these replies, in the order of doors and links.
fn assert_replies(rt: &impl Abort, town: &MemoryTown, replies: &[&str]) {
    let mut rest = replies.iter();
    for door in town.doors() {
        for link in door.given_back() {
            let wanted = rest.next();
            assert!(rt;
                wanted.is_some_and(|text| link.to.sent() == text.as_bytes()),
                "{wanted:?} is replied"
            );
        }
    }
    assert!(rt; rest.next().is_none(), "all links were given back");
}

/// What a run has to send to `out`, and to `err`.
fn texts_of(row: &ServeRow) -> (&'static str, &'static str) {
    match (row.place, row.status) {
        (Place::Listening, _) => ("", "route: town\n"),
        (_, 0) => ("ready 1\n", ""),
        _ => ("ready 1\n", "route: town\n"),
    }
}

/// The server ended as its row says.
fn assert_served(rt: &impl Abort, row: &ServeRow, served: Result<ServedTown, AllocError>) {
    match served {
        Ok(served) => {
            let (out, err) = texts_of(row);
            assert!(rt; served.status == row.status, "the status");
            assert!(rt; served.out.sent() == out.as_bytes(), "out");
            assert!(rt; served.err.sent() == err.as_bytes(), "err");
            assert_replies(rt, &served.town, row.replies);
        }
        Err(_) => panic!(rt; "no memory is left"),
    }
}

/// Each server ends as its row says, whose links give and take so many bytes at once.
fn assert_all_served(
    rt: &(impl Abort + Threads + Wait + Clock + Sync),
    alloc: Global,
    rows: &[ServeRow],
    piece: usize,
) {
    for row in rows {
        assert_served(rt, row, serve_row(rt, alloc, row, piece));
    }
}

#[test]
fn links_have_their_replies(rt: HostRuntime) {
    assert_all_served(&rt, rt.alloc(), rows(), usize::MAX);
    assert_all_served(&rt, rt.alloc(), rows(), 1);
}

#[test]
fn each_fault_ends_what_it_has_to(rt: HostRuntime) {
    assert_all_served(&rt, rt.alloc(), faults(), usize::MAX);
    assert_all_served(&rt, rt.alloc(), further_faults(), usize::MAX);
}
