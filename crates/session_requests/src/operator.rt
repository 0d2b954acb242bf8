ghost use Rattle.std.specs.Prelude.{◌≡◌, ◌↔◌, ◌≤◌, [], ◌∷◌, length};
ghost use Rattle.cost_vector.specs.Costs.{max_criteria, min_criteria};
ghost use Rattle.line_text.specs.Fields.{fields_of};
ghost use Rattle.session_requests.specs.Readings.{operator_alone, operator_behind, set_from};
ghost use Rattle.session_requests.specs.Requests.{AsksOfOperator};

use crate::Line;
use crate::fields::{number, one_number, weight};
use cost_vector::Weight;
use line_text::next_field;

/// What an operator asks for.
#[derive(Clone, Copy, Debug, PartialEq, Eq)]
pub enum OperatorRequest {
    /// To give an arc a weight, which may be all zero here.
    Set { arc: u32, weight: Weight },
    /// To shut an arc.
    Shut { arc: u32 },
    /// To drop what is pending.
    Drop,
    /// To publish what is pending.
    Publish,
    /// To end the operator's session.
    Bye,
}

/// Reads a line of an operator, without its LF and without one CR at its end.
///
/// At most one request is asked, so that the line is `Other` where it has a field and nothing is asked.
pub fn read_operator_request(text: &[u8], criteria: usize) -> Line<OperatorRequest>
    requires at_least_two { min_criteria ≤ criteria }
    requires at_most_four { criteria ≤ max_criteria }
    ensures blank { (result ≡ Line.Blank) ↔ (fields_of text.now ≡ []) }
    ensures request { (r : OperatorRequest) →
        (result ≡ Line.Request r) ↔ AsksOfOperator criteria text.now r }
{
    let Some((word, rest)) = next_field(text) else {
        return Line::Blank;
    };
    match request_behind(word, rest, criteria) {
        Some(request) => Line::Request(request),
        None => Line::Other,
    }
}

/// The request whose line has this word first.
fn request_behind(word: &[u8], rest: &[u8], criteria: usize) -> Option<OperatorRequest>
    requires at_least_two { min_criteria ≤ criteria }
    requires at_most_four { criteria ≤ max_criteria }
    ensures { result ≡ operator_behind criteria word.now (fields_of rest.now) }
{
    if word == b"s".as_slice() {
        set(rest, criteria)
    } else if word == b"x".as_slice() {
        let arc = one_number(rest)?;
        Some(OperatorRequest::Shut { arc })
    } else {
        request_alone(word, rest)
    }
}

/// The request of the word, if no field stands behind it.
fn request_alone(word: &[u8], rest: &[u8]) -> Option<OperatorRequest>
    ensures { result ≡ operator_alone word.now (fields_of rest.now) }
{
    if next_field(rest).is_some() {
        None
    } else if word == b"drop".as_slice() {
        Some(OperatorRequest::Drop)
    } else if word == b"publish".as_slice() {
        Some(OperatorRequest::Publish)
    } else if word == b"bye".as_slice() {
        Some(OperatorRequest::Bye)
    } else {
        None
    }
}

/// The change that an arc's number and as many components as criteria say.
fn set(text: &[u8], criteria: usize) -> Option<OperatorRequest>
    requires at_least_two { min_criteria ≤ criteria }
    requires at_most_four { criteria ≤ max_criteria }
    ensures { result ≡ set_from criteria (fields_of text.now) }
{
    let (arc, rest) = next_field(text)?;
    let arc = number(arc)?;
    let weight = weight(rest, criteria)?;
    Some(OperatorRequest::Set { arc, weight })
}
