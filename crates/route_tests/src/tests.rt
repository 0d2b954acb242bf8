use link_doors::MemoryTown;
use route_io::memory::{MemoryFolder, MemorySink, NamedFile};
use route_top::{route, run_still};
use std::alloc::{AllocError, Global};
use std::process::Abort;
use std::sync::Wait;
use std::thread::Threads;
use std::time::Clock;
use work_claim::{Gate, OpenGate};

mod batches;
mod certificates;
mod feeds;
mod generated;
mod goals;
mod lanes;
mod readers;
mod rows;
mod serving;
mod walks;
mod workers;

/// A run: its words, separated by spaces, its files, and what is expected of it.
struct Row {
    words: &'static str,
    files: &'static [(&'static str, &'static str)],
    status: u8,
    out: &'static str,
    err: &'static str,
}

impl Row {
    fn expected(&self) -> Wanted<'_> {
        self.expected_of(self.words)
    }

    /// What is expected of these words.
    fn expected_of<'a>(&'a self, words: &'a str) -> Wanted<'a> {
        Wanted {
            words,
            status: self.status,
            out: self.out.as_bytes(),
            err: self.err.as_bytes(),
        }
    }
}

/// How the run of some words has to end, and what it has to send.
#[derive(Clone, Copy)]
struct Wanted<'a> {
    words: &'a str,
    status: u8,
    out: &'a [u8],
    err: &'a [u8],
}

/// What a run reads from and sends to.
#[derive(Drop)]
struct Outside {
    folder: MemoryFolder,
    out: MemorySink,
    err: MemorySink,
}

impl Outside {
    /// A folder, and sinks that never fail.
    fn of_folder(alloc: Global, folder: MemoryFolder) -> Outside {
        Outside {
            folder,
            out: ample(alloc),
            err: ample(alloc),
        }
    }

    /// Runs the words, and gives the status.
    fn run(
        &mut self,
        rt: &(impl Threads + Wait + Clock + Sync),
        alloc: Global,
        words: &str,
    ) -> Result<u8, AllocError> {
        self.run_through(rt, alloc, words, &OpenGate)
    }

    /// Runs the words, with this gate before each piece of work, and gives the status. Those of lanes and of followers may wait
    /// for others; all other rows run by the call that waits for nobody.
    fn run_through(
        &mut self,
        rt: &(impl Threads + Wait + Clock + Sync),
        alloc: Global,
        words: &str,
        gate: &impl Gate,
    ) -> Result<u8, AllocError> {
        let may_wait = words.starts_with("lanes ") || words.starts_with("follow ");
        let words = words_of(alloc, words)?;
        let (folder, out, err) = (&mut self.folder, &mut self.out, &mut self.err);
        Ok(if may_wait {
            let mut town = MemoryTown::new(alloc, Vec::new(alloc), Vec::new(alloc));
            route(rt, alloc, &words, folder, out, err, &mut town, gate)
        } else {
            run_still(rt, alloc, &words, folder, out, err, gate)
        })
    }
}

/// The words between spaces, of which `''` is the empty one.
fn words_of(alloc: Global, words: &str) -> Result<Vec<String>, AllocError> {
    let mut list = Vec::new(alloc);
    for word in words.split_whitespace() {
        let word = if word == "''" { "" } else { word };
        list.push(String::from_str(alloc, word)?)?;
    }
    Ok(list)
}

fn file_of(alloc: Global, name: &str, bytes: &[u8]) -> Result<NamedFile, AllocError> {
    Ok(NamedFile {
        name: String::from_str(alloc, name)?,
        bytes: Vec::from_slice(alloc, bytes)?,
    })
}

fn files_of(alloc: Global, files: &[(&str, &str)]) -> Result<Vec<NamedFile>, AllocError> {
    let mut list = Vec::new(alloc);
    for (name, text) in files {
        list.push(file_of(alloc, name, text.as_bytes())?)?;
    }
    Ok(list)
}

/// A folder whose calls don't fail.
fn folder_of(alloc: Global, files: &[(&str, &str)]) -> Result<MemoryFolder, AllocError> {
    let list = files_of(alloc, files)?;
    Ok(MemoryFolder::new(list, Vec::new(alloc)))
}

/// A folder of a file and of `B.gr`.
fn folder_with(alloc: Global, name: &str, bytes: &[u8]) -> Result<MemoryFolder, AllocError> {
    let mut list = files_of(alloc, &[("B.gr", rows::B)])?;
    list.push(file_of(alloc, name, bytes)?)?;
    Ok(MemoryFolder::new(list, Vec::new(alloc)))
}

/// A sink that never fails.
fn ample(alloc: Global) -> MemorySink {
    MemorySink::new(alloc, u64::MAX, Vec::new(alloc))
}

/// A sink that takes so many bytes.
fn bounded(alloc: Global, bound: usize) -> MemorySink {
    MemorySink::new(alloc, bound as u64, Vec::new(alloc))
}

/// A sink that fails at the call of this number.
fn failing(alloc: Global, call: u64) -> Result<MemorySink, AllocError> {
    Ok(MemorySink::new(alloc, u64::MAX, vec![in alloc; call]?))
}

fn assert_bytes(rt: &impl Abort, got: &[u8], wanted: &[u8], words: &str, number: usize) {
    assert!(rt; got == wanted, "out or err of {words:?} at {number}");
}

fn assert_status(rt: &impl Abort, got: u8, wanted: u8, words: &str) {
    assert!(rt; got == wanted, "status {got} of {words:?}");
}

/// The status of the run, and what it read from and sent to.
fn ended(
    rt: &(impl Threads + Wait + Clock + Sync),
    alloc: Global,
    words: &str,
    outside: Result<Outside, AllocError>,
) -> Result<(u8, Outside), AllocError> {
    let mut outside = outside?;
    let status = outside.run(rt, alloc, words)?;
    Ok((status, outside))
}

/// The run ends as is wanted. The number tells it from other runs of the same words.
fn assert_ended(
    rt: &impl Abort,
    ended: Result<(u8, Outside), AllocError>,
    wanted: &Wanted,
    number: usize,
) {
    match ended {
        Ok((status, outside)) => {
            assert_bytes(rt, outside.out.sent(), wanted.out, wanted.words, number);
            assert_bytes(rt, outside.err.sent(), wanted.err, wanted.words, number);
            assert_status(rt, status, wanted.status, wanted.words);
        }
        Err(_) => panic!(rt; "no memory is left"),
    }
}

fn assert_run(
    rt: &(impl Abort + Threads + Wait + Clock + Sync),
    alloc: Global,
    wanted: &Wanted,
    number: usize,
    outside: Result<Outside, AllocError>,
) {
    let ended = ended(rt, alloc, wanted.words, outside);
    assert_ended(rt, ended, wanted, number);
}

/// A folder of these files, and sinks that never fail, all in pieces of this size.
fn outside_of(alloc: Global, files: &[(&str, &str)], piece: usize) -> Result<Outside, AllocError> {
    let size = piece.max(1);
    Ok(Outside {
        folder: folder_of(alloc, files)?.with_piece(size),
        out: ample(alloc).with_piece(size),
        err: ample(alloc).with_piece(size),
    })
}

fn assert_row(
    rt: &(impl Abort + Threads + Wait + Clock + Sync),
    alloc: Global,
    row: &Row,
    piece: usize,
) {
    let outside = outside_of(alloc, row.files, piece);
    assert_run(rt, alloc, &row.expected(), piece, outside);
}

/// Each run ends as its row says, over a folder and sinks that give and take one byte a call, and over such that do all at once.
fn assert_rows(rt: &(impl Abort + Threads + Wait + Clock + Sync), alloc: Global, rows: &[Row]) {
    for row in rows {
        assert_row(rt, alloc, row, 1);
        assert_row(rt, alloc, row, usize::MAX);
    }
}

fn assert_tables(
    rt: &(impl Abort + Threads + Wait + Clock + Sync),
    alloc: Global,
    tables: &[&[Row]],
) {
    for rows in tables {
        assert_rows(rt, alloc, rows);
    }
}

#[test]
fn rows_have_their_output(rt: HostRuntime) {
    assert_tables(&rt, rt.alloc(), &rows::tables());
    assert_tables(&rt, rt.alloc(), &walks::tables());
    assert_tables(&rt, rt.alloc(), &batches::tables());
    assert_tables(&rt, rt.alloc(), &certificates::tables());
    assert_tables(&rt, rt.alloc(), &goals::tables());
}

#[test]
fn lanes_have_their_output(rt: HostRuntime) {
    assert_tables(&rt, rt.alloc(), &lanes::tables());
}

#[test]
fn followers_have_their_output(rt: HostRuntime) {
    assert_tables(&rt, rt.alloc(), &feeds::tables());
}

#[test]
fn generated_files_have_their_bytes(rt: HostRuntime) {
    for row in generated::file_rows() {
        assert_row(&rt, rt.alloc(), row, 1);
    }
}

#[test]
fn summaries_have_their_counts(rt: HostRuntime) {
    for row in generated::summary_rows() {
        assert_row(&rt, rt.alloc(), row, 1);
    }
}

/// The line and the kind of the fault of the first file where it is cut to a length below 56.
fn cut_fault(length: usize) -> (usize, u8) {
    match length {
        0 => (1, 2),
        1..=7 => (1, 1),
        8 => (2, 7),
        _ => {
            let arc = (length - 1) / 8;
            match (length - 1) % 8 {
                0 => (arc + 1, 7),
                7 => (arc + 2, 7),
                _ => (arc + 1, 1),
            }
        }
    }
}

fn cut_note(alloc: Global, length: usize) -> Result<String, AllocError> {
    let (line, kind) = cut_fault(length);
    format!(in alloc; "route: file CUT line {line} kind {kind}\n")
}

/// The first file is cut to a length, and comes in pieces.
fn cut_file(alloc: Global, length: usize, piece: usize) -> Result<Outside, AllocError> {
    let text = rows::A.as_bytes();
    let folder = folder_with(alloc, "CUT", &text[..length.min(text.len())])?;
    Ok(Outside::of_folder(alloc, folder.with_piece(piece.max(1))))
}

/// What is wanted where the file is cut, with this note.
fn told_cut(note: &str) -> Wanted<'_> {
    Wanted {
        words: "check CUT B.gr",
        status: 5,
        out: b"",
        err: note.as_bytes(),
    }
}

/// What is wanted where nothing but the last LF is cut off.
const WHOLE: Wanted = Wanted {
    words: "check CUT B.gr",
    status: 0,
    out: b"ok 4 6 2\n",
    err: b"",
};

fn assert_cut(
    rt: &(impl Abort + Threads + Wait + Clock + Sync),
    alloc: Global,
    length: usize,
    piece: usize,
) {
    let outside = cut_file(alloc, length, piece);
    if length >= 56 {
        return assert_run(rt, alloc, &WHOLE, length, outside);
    }
    match cut_note(alloc, length) {
        Ok(note) => assert_run(rt, alloc, &told_cut(note.as_str()), length, outside),
        Err(_) => panic!(rt; "no memory is left"),
    }
}

#[test]
fn cut_files_are_told(rt: HostRuntime) {
    for length in 0..=rows::A.len() {
        assert_cut(&rt, rt.alloc(), length, 1);
        assert_cut(&rt, rt.alloc(), length, usize::MAX);
    }
}

/// An arc with the greatest weight.
fn put_arc(text: &mut String, tail: u32, head: u32) -> Result<(), AllocError> {
    write!(text, "a {tail} {head} 4294967295\n")?;
    Ok(())
}

/// A path of 1,001 nodes, each of its arcs with the greatest weight.
fn greatest_path(alloc: Global) -> Result<String, AllocError> {
    let mut text = String::from_str(alloc, "p sp 1001 1000\n")?;
    for head in 2..1002 {
        put_arc(&mut text, head - 1, head)?;
    }
    Ok(text)
}

/// The path in a folder.
fn path_outside(alloc: Global) -> Result<Outside, AllocError> {
    let text = greatest_path(alloc)?;
    outside_of(alloc, &[("P.gr", text.as_str())], usize::MAX)
}

/// The sum of the path's weights.
const SUM: Wanted = Wanted {
    words: "costs --from 1 --to 1001 P.gr P.gr",
    status: 0,
    out: b"r 0 1 1001 1\nv 4294967295000 4294967295000\n",
    err: b"",
};

#[test]
fn greatest_weights_add_up(rt: HostRuntime) {
    assert_run(&rt, rt.alloc(), &SUM, 0, path_outside(rt.alloc()));
}

/// The line of the walk over the path, which names each arc.
fn walk_over_path(alloc: Global) -> Result<String, AllocError> {
    let head = "r 0 1 1001 1\np 4294967295000 4294967295000 1000";
    let mut text = String::from_str(alloc, head)?;
    for arc in 1..1001 {
        write!(text, " {arc}")?;
    }
    text.push('\n')?;
    Ok(text)
}

/// What is wanted of the walk over the path, with this line.
fn told_walk(line: &str) -> Wanted<'_> {
    Wanted {
        words: "one --from 1 --to 1001 P.gr P.gr",
        status: 0,
        out: line.as_bytes(),
        err: b"",
    }
}

#[test]
fn a_long_walk_is_told(rt: HostRuntime) {
    let outside = path_outside(rt.alloc());
    match walk_over_path(rt.alloc()) {
        Ok(line) => assert_run(&rt, rt.alloc(), &told_walk(line.as_str()), 0, outside),
        Err(_) => panic!(rt; "no memory is left"),
    }
}

/// The six arcs in a folder whose call of this number fails.
fn failing_folder(alloc: Global, call: u64) -> Result<Outside, AllocError> {
    let files = files_of(alloc, rows::SIX_ARCS)?;
    let folder = MemoryFolder::new(files, vec![in alloc; call]?);
    Ok(Outside::of_folder(alloc, folder))
}

/// What is wanted where the call of this number fails: each of two files is selected, read, and read to its end.
fn wanted_of_call(call: u64) -> Wanted<'static> {
    let note = match call {
        0..=2 => "route: folder A.gr\n",
        3..=5 => "route: folder B.gr\n",
        _ => return FIRST,
    };
    Wanted {
        words: rows::FIRST,
        status: 3,
        out: b"",
        err: note.as_bytes(),
    }
}

/// What the first run has to send.
const FIRST: Wanted = Wanted {
    words: rows::FIRST,
    status: 0,
    out: b"r 0 1 4 2\nv 2 8\nv 4 2\n",
    err: b"",
};

#[test]
fn each_failing_call_of_the_folder_is_told(rt: HostRuntime) {
    for call in 0..20u64 {
        let outside = failing_folder(rt.alloc(), call);
        assert_run(
            &rt,
            rt.alloc(),
            &wanted_of_call(call),
            call as usize,
            outside,
        );
    }
}

/// The six arcs, with this sink for the reply.
fn first_to(alloc: Global, out: Result<MemorySink, AllocError>) -> Result<Outside, AllocError> {
    let mut outside = outside_of(alloc, rows::SIX_ARCS, usize::MAX)?;
    outside.out = out?;
    Ok(outside)
}

#[test]
fn a_failing_out_is_told(rt: HostRuntime) {
    let outside = first_to(rt.alloc(), failing(rt.alloc(), 0));
    assert_run(&rt, rt.alloc(), &told_out(b""), 0, outside);
}

/// The same with walks.
const WALKS: Wanted = Wanted {
    words: "one --from 1 --to 4 A.gr B.gr",
    status: 0,
    out: b"r 0 1 4 2\np 2 8 2 1 3\np 4 2 2 2 4\n",
    err: b"",
};

/// The run with walks, whose reply goes out byte by byte, of which that of this number isn't taken.
fn walks_but_a_byte(alloc: Global, call: u64) -> Result<Outside, AllocError> {
    first_to(alloc, Ok(failing(alloc, call)?.with_piece(1)))
}

/// What is wanted where this byte of the reply with walks isn't taken.
fn wanted_but_a_byte(call: usize) -> Wanted<'static> {
    if call >= WALKS.out.len() {
        return WALKS;
    }
    Wanted {
        status: 4,
        out: &WALKS.out[..call],
        err: b"route: out\n",
        ..WALKS
    }
}

#[test]
fn a_byte_that_out_does_not_take_is_told(rt: HostRuntime) {
    for call in 0..36usize {
        let outside = walks_but_a_byte(rt.alloc(), call as u64);
        assert_run(&rt, rt.alloc(), &wanted_but_a_byte(call), call, outside);
    }
}

/// What is wanted where a part of the first reply was sent.
fn told_out(part: &[u8]) -> Wanted<'_> {
    Wanted {
        words: rows::FIRST,
        status: 4,
        out: part,
        err: b"route: out\n",
    }
}

#[test]
fn a_full_out_has_the_front_of_the_reply(rt: HostRuntime) {
    for bound in 0..FIRST.out.len() {
        let outside = first_to(rt.alloc(), Ok(bounded(rt.alloc(), bound)));
        assert_run(
            &rt,
            rt.alloc(),
            &told_out(&FIRST.out[..bound]),
            bound,
            outside,
        );
    }
}

/// A file whose first line has this length.
fn long_line(alloc: Global, length: usize) -> Result<Outside, AllocError> {
    let mut text = vec![in alloc; b'c'; length]?;
    text.push(b'\n')?;
    text.extend_from_slice(rows::A.as_bytes())?;
    let folder = folder_with(alloc, "LONG", &text)?;
    Ok(Outside::of_folder(alloc, folder))
}

/// The status of a run over the file with a long line.
fn status_of_long_line(
    rt: &(impl Threads + Wait + Clock + Sync),
    alloc: Global,
    length: usize,
) -> Result<u8, AllocError> {
    long_line(alloc, length)?.run(rt, alloc, "check LONG B.gr")
}

#[test]
fn a_line_has_65536_bytes_at_most(rt: HostRuntime) {
    let alloc = rt.alloc();
    assert!(rt;
        status_of_long_line(&rt, alloc, 65_536) == Ok(0),
        "as long as may be"
    );
    assert!(rt;
        status_of_long_line(&rt, alloc, 65_537) == Ok(5),
        "longer by a byte"
    );
}

/// The run of a row, with this sink for its note.
fn row_noting_to(
    alloc: Global,
    row: &Row,
    err: Result<MemorySink, AllocError>,
) -> Result<Outside, AllocError> {
    let mut outside = outside_of(alloc, row.files, usize::MAX)?;
    outside.err = err?;
    Ok(outside)
}

fn assert_cut_note(
    rt: &(impl Abort + Threads + Wait + Clock + Sync),
    alloc: Global,
    row: &Row,
    bound: usize,
) {
    let outside = row_noting_to(alloc, row, Ok(bounded(alloc, bound)));
    let mut wanted = row.expected();
    wanted.err = &wanted.err[..bound.min(wanted.err.len())];
    assert_run(rt, alloc, &wanted, bound, outside);
}

fn assert_cut_notes(
    rt: &(impl Abort + Threads + Wait + Clock + Sync),
    alloc: Global,
    rows: &[Row],
) {
    for row in rows {
        assert_cut_note(rt, alloc, row, 0);
        assert_cut_note(rt, alloc, row, 9);
        assert_cut_note(rt, alloc, row, 16);
    }
}

#[test]
fn a_full_err_cuts_the_note_alone(rt: HostRuntime) {
    for rows in &rows::tables() {
        assert_cut_notes(&rt, rt.alloc(), rows);
    }
}

/// The run of a missing file, whose note comes in pieces of 14 bytes, of which that of this number fails.
fn noting_in_pieces(alloc: Global, call: u64) -> Result<Outside, AllocError> {
    let mut outside = outside_of(alloc, rows::SIX_ARCS, usize::MAX)?;
    outside.err = failing(alloc, call)?.with_piece(14);
    Ok(outside)
}

/// What is wanted of the run of a missing file, where so much of the note is sent.
fn told_missing(note: &str) -> Wanted<'_> {
    Wanted {
        words: "check A.gr N.gr",
        status: 3,
        out: b"",
        err: note.as_bytes(),
    }
}

fn assert_noted(
    rt: &(impl Abort + Threads + Wait + Clock + Sync),
    alloc: Global,
    call: u64,
    note: &str,
) {
    let outside = noting_in_pieces(alloc, call);
    assert_run(rt, alloc, &told_missing(note), call as usize, outside);
}

#[test]
fn a_failing_err_cuts_the_note_alone(rt: HostRuntime) {
    assert_noted(&rt, rt.alloc(), 0, "");
    assert_noted(&rt, rt.alloc(), 1, "route: folder ");
    assert_noted(&rt, rt.alloc(), 2, "route: folder N.gr\n");
}

fn assert_noted_at_once(
    rt: &(impl Abort + Threads + Wait + Clock + Sync),
    alloc: Global,
    rows: &[Row],
) {
    for row in rows {
        let outside = row_noting_to(alloc, row, failing(alloc, 1));
        assert_run(rt, alloc, &row.expected(), 1, outside);
    }
}

#[test]
fn a_note_is_sent_at_once(rt: HostRuntime) {
    for rows in &rows::tables() {
        assert_noted_at_once(&rt, rt.alloc(), rows);
    }
}
