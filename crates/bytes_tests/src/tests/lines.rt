use line_text::{LineFault, LineLimits, Lines, MAX_LINE, Request};
use route_io::Source;
use route_io::memory::MemorySource;
use std::alloc::{AllocError, Global};
use std::process::Abort;

/// A text, the length of the pieces that it comes in, and the numbers of the reads that fail.
#[derive(Clone, Copy)]
struct Feed<'a> {
    text: &'a [u8],
    length: usize,
    fails: &'a [u64],
}

fn pieces(text: &[u8], length: usize) -> Feed<'_> {
    failing(text, length, &[])
}

fn failing<'a>(text: &'a [u8], length: usize, fails: &'a [u64]) -> Feed<'a> {
    Feed {
        text,
        length,
        fails,
    }
}

fn source_of(alloc: Global, pieces: Feed) -> Result<MemorySource, AllocError> {
    let fails = pieces.fails.to_vec(alloc)?;
    Ok(MemorySource::new(pieces.text.to_vec(alloc)?, fails).with_piece(pieces.length.max(1)))
}

/// How many bytes a source of a short text has left.
fn left_in(source: &mut MemorySource) -> usize {
    let mut left = 0usize;
    let mut buf = [0; 8];
    for _ in 0..100 {
        match source.read(&mut buf) {
            Ok(taken) => left = left.saturating_add(taken),
            Err(_) => break,
        }
    }
    left
}

/// Which call takes the lines.
#[derive(Clone, Copy)]
enum Takes {
    Lines,
    Requests,
}

/// `/` for a line, `.` for the end of input, and `l`, `t`, `r` or `m` for a fault.
fn mark_of_line(answer: Result<bool, LineFault>) -> u8 {
    match answer {
        Ok(true) => b'/',
        Ok(false) => b'.',
        Err(fault) => mark_of_fault(fault),
    }
}

/// As for a line, and `~` for one that is too long.
fn mark_of_request(answer: Result<Option<Request>, LineFault>) -> u8 {
    match answer {
        Ok(Some(Request::Whole)) => b'/',
        Ok(Some(Request::Long)) => b'~',
        Ok(None) => b'.',
        Err(fault) => mark_of_fault(fault),
    }
}

fn mark_of_fault(fault: LineFault) -> u8 {
    match fault {
        LineFault::TooLong => b'l',
        LineFault::Total => b't',
        LineFault::Read => b'r',
    }
}

/// The mark of what the next call answers.
fn next_mark(lines: &mut Lines, source: &mut MemorySource, takes: Takes) -> u8 {
    match takes {
        Takes::Lines => mark_of_line(lines.next_line(source)),
        Takes::Requests => mark_of_request(lines.next_request(source)),
    }
}

/// The next mark, and `!` in place of that of a fault which isn't answered again by either call.
fn next_kept_mark(lines: &mut Lines, source: &mut MemorySource, takes: Takes) -> u8 {
    let mark = next_mark(lines, source, takes);
    if matches!(mark, b'/' | b'~' | b'.') {
        return mark;
    }
    let by_request = next_mark(lines, source, Takes::Requests);
    let by_line = next_mark(lines, source, Takes::Lines);
    if by_request == mark && by_line == mark {
        mark
    } else {
        b'!'
    }
}

/// Each line with its mark behind it, up to the mark of the end.
fn shown(
    alloc: Global,
    lines: &mut Lines,
    source: &mut MemorySource,
    takes: Takes,
) -> Result<Vec<u8>, AllocError> {
    let mut shown = Vec::new(alloc);
    for _ in 0..100 {
        let mark = next_kept_mark(lines, source, takes);
        shown.extend_from_slice(lines.text())?;
        shown.push(mark)?;
        if !matches!(mark, b'/' | b'~') {
            break;
        }
    }
    Ok(shown)
}

/// What came of a text: its lines as they are shown, the last one's number, and how many bytes are left.
#[derive(Drop)]
struct Reading {
    shown: Vec<u8>,
    number: u64,
    left: usize,
}

/// The limits of a line and of the whole input.
fn limits(line: u32, total: u64) -> LineLimits {
    LineLimits { line, total }
}

fn lines_in(alloc: Global, limits: LineLimits) -> Result<Lines, AllocError> {
    if limits.line == 0 || limits.line > MAX_LINE {
        return Err(AllocError);
    }
    match Lines::new(alloc, limits) {
        Ok(lines) => Ok(lines),
        Err(_) => Err(AllocError),
    }
}

fn outcome(
    alloc: Global,
    pieces: Feed,
    limits: LineLimits,
    takes: Takes,
) -> Result<Reading, AllocError> {
    let mut source = source_of(alloc, pieces)?;
    let mut lines = lines_in(alloc, limits)?;
    let shown = shown(alloc, &mut lines, &mut source, takes)?;
    Ok(Reading {
        shown,
        number: lines.number(),
        left: left_in(&mut source),
    })
}

/// Whether a text's lines are shown so.
fn is_shown(outcome: Result<Reading, AllocError>, shown: &str) -> bool {
    match outcome {
        Ok(outcome) => outcome.shown.as_slice() == shown.as_bytes(),
        Err(_) => false,
    }
}

/// A text, the greatest line and the greatest total, and what is shown of it.
type Row = (&'static str, u32, u64, &'static str);

/// This is shown of each text, in whatever pieces it comes.
fn assert_rows(rt: &impl Abort, alloc: Global, rows: &[Row], takes: Takes) {
    for (text, line, total, wanted) in rows {
        for length in [1, 2, 3, 64, 100] {
            let outcome = outcome(
                alloc,
                pieces(text.as_bytes(), length),
                limits(*line, *total),
                takes,
            );
            assert!(rt; is_shown(outcome, wanted), "{text:?} in pieces of {length}");
        }
    }
}

const LINES: &[Row] = &[
    ("", 100, u64::MAX, "."),
    ("\n", 100, u64::MAX, "/."),
    ("a\r\nb\r\r\n\r\n\nc", 100, u64::MAX, "a/b\r///c/."),
    ("a\nb\r", 100, u64::MAX, "a/b/."),
    ("12345678\n12345678", 8, 17, "12345678/12345678/."),
    ("12345678\n123456789", 8, 100, "12345678/l"),
    ("1234567\r\n", 7, 100, "l"),
    ("p sp 1 0\nc 3456789", 8, 9, "p sp 1 0/t"),
    ("p sp 1 0\nc 3456789", 8, 16, "p sp 1 0/t"),
    ("p sp 1 0\nc 3456789", 8, 17, "p sp 1 0/l"),
    ("p sp 1 0\n", 8, 8, "t"),
    ("p sp 1 0", 8, 8, "p sp 1 0/."),
];

#[test]
fn lines_come_in_any_pieces(rt: HostRuntime) {
    assert_rows(&rt, rt.alloc(), LINES, Takes::Lines);
}

const REQUESTS: &[Row] = &[
    ("", 8, 100, "."),
    ("", 8, 0, "t"),
    ("\n", 8, 100, "/."),
    ("12345678\n123456789\nc", 8, 100, "12345678/~c/."),
    ("1234567\r\n12345678\r\nc\r", 8, 100, "1234567/~c/."),
    ("123456789", 8, 100, "~."),
    ("12345678901234567890\n\nb\n", 1, 100, "~/b/."),
    // The total is reached in mid-line, at the end of input that no LF ends, or not at all.
    ("12345678\n1234", 8, 12, "12345678/t"),
    ("12345678\n1234", 8, 13, "12345678/t"),
    ("12345678\n1234", 8, 14, "12345678/1234/."),
    // It is reached at an LF, with and without more behind it.
    ("12345678\nabc\n", 8, 9, "12345678/t"),
    ("12345678\nabc\n", 8, 13, "12345678/abc/t"),
    ("12345678\nabc\n", 8, 14, "12345678/abc/."),
    // It is reached in a long line, before its LF and at it.
    ("123456789012\nab\n", 8, 10, "t"),
    ("123456789012\nab\n", 8, 12, "t"),
    ("123456789012\nab\n", 8, 13, "~t"),
    ("123456789012\nab\n", 8, 16, "~ab/t"),
    ("123456789012\nab\n", 8, 17, "~ab/."),
];

#[test]
fn requests_come_in_any_pieces(rt: HostRuntime) {
    assert_rows(&rt, rt.alloc(), REQUESTS, Takes::Requests);
}

/// Whether this is what came of a text.
fn is_told(outcome: Result<Reading, AllocError>, shown: &[u8], number: u64, left: usize) -> bool {
    match outcome {
        Ok(outcome) => outcome.shown.as_slice() == shown
            && outcome.number == number
            && outcome.left == left,
        Err(_) => false,
    }
}

/// For each of five letters a line of it that is as long as a line may be, and this byte behind each.
fn long_lines(alloc: Global, end: u8) -> Result<Vec<u8>, AllocError> {
    let mut text = Vec::new(alloc);
    for byte in *b"abcde" {
        text.extend_from_slice(&vec![in alloc; byte; 65_536]?)?;
        text.push(end)?;
    }
    Ok(text)
}

/// Whether the long lines come, and then the end.
fn tells_long_lines(alloc: Global, length: usize) -> Result<bool, AllocError> {
    let text = long_lines(alloc, b'\n')?;
    let mut wanted = long_lines(alloc, b'/')?;
    wanted.push(b'.')?;
    let limits = limits(65_536, u64::MAX);
    let outcome = outcome(alloc, pieces(&text, length), limits, Takes::Lines);
    Ok(is_told(outcome, &wanted, 5, 0))
}

#[test]
fn lines_cross_the_buffers_end(rt: HostRuntime) {
    for length in [1, 7, 131_072] {
        assert!(rt;
            tells_long_lines(rt.alloc(), length) == Ok(true),
            "pieces of {length}"
        );
    }
}

/// Whether a line that is longer than the buffer is a long request, with the next one behind it.
fn skips_long_line(alloc: Global, length: usize) -> Result<bool, AllocError> {
    let mut text = vec![in alloc; b'a'; 300_000]?;
    text.extend_from_slice(b"\nb\n")?;
    let limits = limits(65_536, 400_000);
    let outcome = outcome(alloc, pieces(&text, length), limits, Takes::Requests);
    Ok(is_told(outcome, b"~b/.", 2, 0))
}

#[test]
fn a_line_longer_than_the_buffer_is_skipped(rt: HostRuntime) {
    for length in [64, 100_000, 400_000] {
        assert!(rt;
            skips_long_line(rt.alloc(), length) == Ok(true),
            "pieces of {length}"
        );
    }
}

/// Where the greatest total is the first number, as many bytes as the second are left.
fn assert_left(rt: &impl Abort, alloc: Global, text: &[u8], rows: &[(u64, usize)], takes: Takes) {
    for (total, left) in rows {
        for length in [1, 3, 4, 64, 100] {
            let got = match outcome(alloc, pieces(text, length), limits(8, *total), takes) {
                Ok(outcome) => outcome.left,
                Err(_) => usize::MAX,
            };
            assert!(rt; got == *left, "{got} left of {total} in pieces of {length}");
        }
    }
}

#[test]
fn at_most_one_byte_past_the_total_is_taken(rt: HostRuntime) {
    let text = b"12345678\n12345678\n12345678\n";
    let rows = &[(0, 26), (8, 18), (9, 17), (26, 0), (27, 0), (u64::MAX, 0)];
    assert_left(&rt, rt.alloc(), text, rows, Takes::Lines);
}

#[test]
fn no_byte_past_the_total_is_taken(rt: HostRuntime) {
    let text = b"12345678\n1234567890123\n12\n";
    let rows = &[(0, 26), (8, 18), (9, 17), (20, 6), (26, 0), (27, 0)];
    assert_left(&rt, rt.alloc(), text, rows, Takes::Requests);
}

#[test]
fn a_failed_read_is_kept(rt: HostRuntime) {
    let text = failing(b"a\nb\nc", 2, &[2]);
    let outcome = outcome(rt.alloc(), text, limits(8, 100), Takes::Lines);
    assert!(rt;
        is_told(outcome, b"a/b/r", 2, 1),
        "a line that isn't whole is read on"
    );
}

#[test]
fn a_failed_read_in_mid_line_is_kept(rt: HostRuntime) {
    for line in [4, 100] {
        let text = failing(b"a\n3456789012\nb\n", 3, &[3]);
        let outcome = outcome(rt.alloc(), text, limits(line, 100), Takes::Requests);
        assert!(rt; is_told(outcome, b"a/r", 1, 6), "a line of {line} at most");
    }
}

#[test]
fn nothing_is_read_while_a_line_is_held(rt: HostRuntime) {
    let text = failing(b"a\n234\nc\nd\n", 7, &[1]);
    let outcome = outcome(rt.alloc(), text, limits(2, 100), Takes::Requests);
    assert!(rt;
        is_told(outcome, b"a/~r", 2, 3),
        "the read that fails is that of the third line"
    );
}

#[test]
fn a_byte_past_the_total_is_in_no_request(rt: HostRuntime) {
    let text = pieces(b"ab\ncd\nef\n", 64);
    let outcome = outcome(rt.alloc(), text, limits(8, 5), Takes::Lines);
    assert!(rt;
        is_told(outcome, b"ab/t", 1, 3),
        "the byte past the total is taken and dropped"
    );
}
