ghost use Rattle.std.specs.Prelude.{◌≤◌};

use super::{Reading, Sender, assert_readings};
use cost_vector::Limit;
use session_requests::{Line, SessionRequest, read_session_request};
use std::alloc::{AllocError, Global};

/// What a line of a session asks for.
pub(super) fn shown(alloc: Global, line: &[u8], criteria: usize) -> Result<String, AllocError>
    requires at_least_two { 2 ≤ criteria }
    requires at_most_four { criteria ≤ 4 }
{
    match read_session_request(line, criteria) {
        Line::Blank => String::from_str(alloc, "blank"),
        Line::Other => String::from_str(alloc, "other"),
        Line::Request(request) => shown_request(alloc, &request),
    }
}

fn shown_request(alloc: Global, request: &SessionRequest) -> Result<String, AllocError> {
    match request {
        SessionRequest::Costs { from, to } => format!(in alloc; "costs {from} {to}"),
        SessionRequest::Walks { from, to } => format!(in alloc; "walks {from} {to}"),
        SessionRequest::Goal { from, to } => format!(in alloc; "goal {from} {to}"),
        SessionRequest::Within { from, to, limit } => {
            shown_within(alloc, "within", *from, *to, limit)
        }
        SessionRequest::GoalWithin { from, to, limit } => {
            shown_within(alloc, "goal within", *from, *to, limit)
        }
        SessionRequest::Wait { epoch } => format!(in alloc; "wait {epoch}"),
        SessionRequest::Epoch => String::from_str(alloc, "epoch"),
        SessionRequest::Bye => String::from_str(alloc, "bye"),
    }
}

fn shown_within(
    alloc: Global,
    word: &str,
    from: u32,
    to: u32,
    limit: &Limit,
) -> Result<String, AllocError> {
    let mut text = format!(in alloc; "{word} {from} {to}:")?;
    for place in 0..limit.count() {
        match limit.place(place) {
            Some(most) => write!(text, " {most}")?,
            None => text.push_str(" -")?,
        }
    }
    Ok(text)
}

const QUERIES: &[Reading] = &[
    ("q 1 4", "walks 1 4"),
    ("c 1 4", "costs 1 4"),
    ("c 4 1", "costs 4 1"),
    (" \tq\t1  4 ", "walks 1 4"),
    ("q 0001 04", "walks 1 4"),
    ("q 0 0", "walks 0 0"),
    ("q 4294967295 1", "walks 4294967295 1"),
    ("g 1 4", "goal 1 4"),
    ("  g 4\t01", "goal 4 1"),
    ("q 00004294967295 1", "walks 4294967295 1"),
];

const NO_QUERIES: &[Reading] = &[
    ("q 4294967296 1", "other"),
    ("q 1 4294967296", "other"),
    ("q 18446744073709551617 1", "other"),
    ("q +1 4", "other"),
    ("q -1 4", "other"),
    ("q 1 4x", "other"),
    ("q 1 -", "other"),
    ("q 1", "other"),
    ("q", "other"),
    ("q 1 4 1", "other"),
    ("Q 1 4", "other"),
    ("g 1", "other"),
    ("g 1 4 1", "other"),
    ("g 1 4294967296", "other"),
    ("G 1 4", "other"),
    ("q1 4", "other"),
    ("q 1 4\r", "other"),
];

const EPOCHS: &[Reading] = &[
    ("w 0", "wait 0"),
    ("w 4294967295", "wait 4294967295"),
    ("w 4294967296", "other"),
    ("w", "other"),
    ("w 1 2", "other"),
    ("e", "epoch"),
    ("\te ", "epoch"),
    ("e 1", "other"),
];

const WORDS: &[Reading] = &[
    ("", "blank"),
    (" ", "blank"),
    ("\t \t", "blank"),
    ("bye", "bye"),
    ("  bye", "bye"),
    ("bye bye", "other"),
    ("BYE", "other"),
    ("by", "other"),
    ("hello", "other"),
    ("publish", "other"),
    ("s 2 5 5", "other"),
];

#[test]
fn lines_of_a_session(rt: HostRuntime) {
    assert_readings(&rt, rt.alloc(), Sender::Session, 2, QUERIES);
    assert_readings(&rt, rt.alloc(), Sender::Session, 2, NO_QUERIES);
    assert_readings(&rt, rt.alloc(), Sender::Session, 2, EPOCHS);
    assert_readings(&rt, rt.alloc(), Sender::Session, 2, WORDS);
}

const LIMITS: &[Reading] = &[
    ("l 1 4 3 -", "within 1 4: 3 -"),
    ("l 1 4 3 3", "within 1 4: 3 3"),
    ("l 1 4 - -", "within 1 4: - -"),
    ("h 1 4 - 3", "goal within 1 4: - 3"),
    (" l\t1 4 - 007", "within 1 4: - 7"),
    ("l 1 4 0 4294967296", "within 1 4: 0 4294967296"),
    (
        "l 1 4 18446744073709551615 -",
        "within 1 4: 18446744073709551615 -",
    ),
];

const NO_LIMITS: &[Reading] = &[
    ("l 1 4 18446744073709551616 -", "other"),
    ("l 1 4 3", "other"),
    ("h 1 4 3", "other"),
    ("h 1 4 3 - -", "other"),
    ("h 1 4", "other"),
    ("l 1 4", "other"),
    ("l 1", "other"),
    ("l", "other"),
    ("l 1 4 3 - 3", "other"),
    ("l 1 4 3 --", "other"),
    ("l 1 4 3 -1", "other"),
    ("l 1 4 3-", "other"),
    ("l 1 - 3 -", "other"),
    ("l 4294967296 4 - -", "other"),
];

#[test]
fn lines_with_two_limits(rt: HostRuntime) {
    assert_readings(&rt, rt.alloc(), Sender::Session, 2, LIMITS);
    assert_readings(&rt, rt.alloc(), Sender::Session, 2, NO_LIMITS);
}

const OF_TWO: &[Reading] = &[("l 1 4 - 2 3", "other")];

const OF_THREE: &[Reading] = &[
    ("l 1 4 - 2 3", "within 1 4: - 2 3"),
    ("l 1 4 - 2 3 -", "other"),
];

const OF_FOUR: &[Reading] = &[
    ("l 1 4 - 2 3", "other"),
    ("l 1 4 - 2 3 -", "within 1 4: - 2 3 -"),
    ("l 1 4 - 2 3 - -", "other"),
];

#[test]
fn as_many_limits_as_criteria(rt: HostRuntime) {
    assert_readings(&rt, rt.alloc(), Sender::Session, 2, OF_TWO);
    assert_readings(&rt, rt.alloc(), Sender::Session, 3, OF_THREE);
    assert_readings(&rt, rt.alloc(), Sender::Session, 4, OF_FOUR);
}
