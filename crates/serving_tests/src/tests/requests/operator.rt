ghost use Rattle.std.specs.Prelude.{◌≤◌};

use super::{Reading, Sender, assert_readings};
use cost_vector::Weight;
use session_requests::{Line, OperatorRequest, read_operator_request};
use std::alloc::{AllocError, Global};

/// What a line of an operator asks for.
pub(super) fn shown(alloc: Global, line: &[u8], criteria: usize) -> Result<String, AllocError>
    requires at_least_two { 2 ≤ criteria }
    requires at_most_four { criteria ≤ 4 }
{
    match read_operator_request(line, criteria) {
        Line::Blank => String::from_str(alloc, "blank"),
        Line::Other => String::from_str(alloc, "other"),
        Line::Request(request) => shown_request(alloc, &request),
    }
}

fn shown_request(alloc: Global, request: &OperatorRequest) -> Result<String, AllocError> {
    match request {
        OperatorRequest::Set { arc, weight } => shown_set(alloc, *arc, weight),
        OperatorRequest::Shut { arc } => format!(in alloc; "shut {arc}"),
        OperatorRequest::Drop => String::from_str(alloc, "drop"),
        OperatorRequest::Publish => String::from_str(alloc, "publish"),
        OperatorRequest::Bye => String::from_str(alloc, "bye"),
    }
}

fn shown_set(alloc: Global, arc: u32, weight: &Weight) -> Result<String, AllocError> {
    let mut text = format!(in alloc; "set {arc}:")?;
    for place in 0..weight.count() {
        let component = weight.component(place);
        write!(text, " {component}")?;
    }
    Ok(text)
}

const SETS: &[Reading] = &[
    ("s 2 5 5", "set 2: 5 5"),
    ("\ts 02\t005  5 ", "set 2: 5 5"),
    ("s 1 0 0", "set 1: 0 0"),
    ("s 0 4294967295 1", "set 0: 4294967295 1"),
    ("s 1 4294967296 1", "other"),
    ("s 4294967296 1 1", "other"),
    ("s 1 1", "other"),
    ("s 1", "other"),
    ("s", "other"),
    ("s 1 1 1 1", "other"),
    ("s 1 - 1", "other"),
    ("s 1 +1 1", "other"),
];

const SHUTS: &[Reading] = &[
    ("x 2", "shut 2"),
    ("x 0", "shut 0"),
    ("x 4294967295", "shut 4294967295"),
    ("x 4294967296", "other"),
    ("x 2 1", "other"),
    ("x", "other"),
];

const WORDS: &[Reading] = &[
    ("", "blank"),
    ("  \t", "blank"),
    ("drop", "drop"),
    ("drop 1", "other"),
    ("publish", "publish"),
    (" publish\t", "publish"),
    ("publish publish", "other"),
    ("bye", "bye"),
    ("bye 0", "other"),
    ("hello", "other"),
    ("q 1 4", "other"),
    ("e", "other"),
];

#[test]
fn lines_of_an_operator(rt: HostRuntime) {
    assert_readings(&rt, rt.alloc(), Sender::Operator, 2, SETS);
    assert_readings(&rt, rt.alloc(), Sender::Operator, 2, SHUTS);
    assert_readings(&rt, rt.alloc(), Sender::Operator, 2, WORDS);
}

const OF_TWO: &[Reading] = &[("s 9 1 2 3", "other")];

const OF_THREE: &[Reading] = &[("s 9 1 2 3", "set 9: 1 2 3"), ("s 9 1 2 3 4", "other")];

const OF_FOUR: &[Reading] = &[
    ("s 9 1 2 3", "other"),
    ("s 9 1 2 3 4", "set 9: 1 2 3 4"),
    ("s 9 1 2 3 4 5", "other"),
];

#[test]
fn as_many_components_as_criteria(rt: HostRuntime) {
    assert_readings(&rt, rt.alloc(), Sender::Operator, 2, OF_TWO);
    assert_readings(&rt, rt.alloc(), Sender::Operator, 3, OF_THREE);
    assert_readings(&rt, rt.alloc(), Sender::Operator, 4, OF_FOUR);
}
