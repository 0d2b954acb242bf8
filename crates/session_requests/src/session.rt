ghost use Rattle.std.specs.Prelude.{◌≡◌, ◌↔◌, ◌≤◌, [], ◌∷◌, length};
ghost use Rattle.cost_vector.specs.Costs.{max_criteria, min_criteria};
ghost use Rattle.line_text.specs.Fields.{fields_of};
ghost use Rattle.session_requests.specs.Readings.{session_alone, session_behind, session_other, within_from};
ghost use Rattle.session_requests.specs.Requests.{AsksOfSession};

use crate::Line;
use crate::fields::{limit, number, one_number, two_numbers};
use cost_vector::Limit;
use line_text::next_field;

/// What a session asks for.
#[derive(Clone, Copy, Debug, PartialEq, Eq)]
pub enum SessionRequest {
    /// The best costs from one node to another.
    Costs { from: u32, to: u32 },
    /// The best costs, each with its walk.
    Walks { from: u32, to: u32 },
    /// The best costs within a limit, each with its walk.
    Within { from: u32, to: u32, limit: Limit },
    /// The best costs, each with its walk, by a search that is directed to the target.
    Goal { from: u32, to: u32 },
    /// The same within a limit.
    GoalWithin { from: u32, to: u32, limit: Limit },
    /// To wait for an epoch of at least this number.
    Wait { epoch: u32 },
    /// The number of the epoch.
    Epoch,
    /// To end the session.
    Bye,
}

/// Reads a line of a session, without its LF and without one CR at its end.
///
/// At most one request is asked, so that the line is `Other` where it has a field and nothing is asked.
pub fn read_session_request(text: &[u8], criteria: usize) -> Line<SessionRequest>
    requires at_least_two { min_criteria ≤ criteria }
    requires at_most_four { criteria ≤ max_criteria }
    ensures blank { (result ≡ Line.Blank) ↔ (fields_of text.now ≡ []) }
    ensures request { (r : SessionRequest) →
        (result ≡ Line.Request r) ↔ AsksOfSession criteria text.now r }
{
    let Some((word, rest)) = next_field(text) else {
        return Line::Blank;
    };
    match request_behind(word, rest, criteria) {
        Some(request) => Line::Request(request),
        None => Line::Other,
    }
}

/// The request whose line has this word first.
fn request_behind(word: &[u8], rest: &[u8], criteria: usize) -> Option<SessionRequest>
    requires at_least_two { min_criteria ≤ criteria }
    requires at_most_four { criteria ≤ max_criteria }
    ensures { result ≡ session_behind criteria word.now (fields_of rest.now) }
{
    if word == b"q".as_slice() {
        let (from, to) = two_numbers(rest)?;
        Some(SessionRequest::Walks { from, to })
    } else if word == b"c".as_slice() {
        let (from, to) = two_numbers(rest)?;
        Some(SessionRequest::Costs { from, to })
    } else if word == b"g".as_slice() {
        let (from, to) = two_numbers(rest)?;
        Some(SessionRequest::Goal { from, to })
    } else {
        other_behind(word, rest, criteria)
    }
}

/// The request whose line has this word first, where it is none of a query without a limit.
fn other_behind(word: &[u8], rest: &[u8], criteria: usize) -> Option<SessionRequest>
    requires at_least_two { min_criteria ≤ criteria }
    requires at_most_four { criteria ≤ max_criteria }
    ensures { result ≡ session_other criteria word.now (fields_of rest.now) }
{
    if word == b"l".as_slice() {
        let (from, to, limit) = within(rest, criteria)?;
        Some(SessionRequest::Within { from, to, limit })
    } else if word == b"h".as_slice() {
        let (from, to, limit) = within(rest, criteria)?;
        Some(SessionRequest::GoalWithin { from, to, limit })
    } else if word == b"w".as_slice() {
        let epoch = one_number(rest)?;
        Some(SessionRequest::Wait { epoch })
    } else {
        request_alone(word, rest)
    }
}

/// The request of the word, if no field stands behind it.
fn request_alone(word: &[u8], rest: &[u8]) -> Option<SessionRequest>
    ensures { result ≡ session_alone word.now (fields_of rest.now) }
{
    if next_field(rest).is_some() {
        None
    } else if word == b"e".as_slice() {
        Some(SessionRequest::Epoch)
    } else if word == b"bye".as_slice() {
        Some(SessionRequest::Bye)
    } else {
        None
    }
}

/// The ends and the limit that two numbers and as many places as criteria say.
fn within(text: &[u8], criteria: usize) -> Option<(u32, u32, Limit)>
    requires at_least_two { min_criteria ≤ criteria }
    requires at_most_four { criteria ≤ max_criteria }
    ensures { result ≡ within_from criteria (fields_of text.now) }
{
    let (from, rest) = next_field(text)?;
    let (to, rest) = next_field(rest)?;
    let from = number(from)?;
    let to = number(to)?;
    let limit = limit(rest, criteria)?;
    Some((from, to, limit))
}
