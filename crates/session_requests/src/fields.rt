//! The numbers, limits and weights that fields write.
ghost use Rattle.std.specs.Prelude.{◌≡◌, ◌≤◌, [], ◌∷◌, length};
ghost use Rattle.cost_vector.specs.Costs.{max_criteria, min_criteria};
ghost use Rattle.line_text.specs.Fields.{fields_of};
ghost use Rattle.session_requests.specs.Readings.{each_of, number_of, one_from, place_of, two_from};

use cost_vector::{Limit, MAX_CRITERIA, Weight};
use line_text::{Numeral, decimal, next_field};

/// The number that a text of one field says.
pub(crate) fn one_number(text: &[u8]) -> Option<u32>
    ensures { result ≡ one_from (fields_of text.now) }
{
    let (field, rest) = next_field(text)?;
    match next_field(rest) {
        None => number(field),
        Some(_) => None,
    }
}

/// The numbers that a text of two fields says.
pub(crate) fn two_numbers(text: &[u8]) -> Option<(u32, u32)>
    ensures { result ≡ two_from (fields_of text.now) }
{
    let (first, rest) = next_field(text)?;
    let first = number(first)?;
    let second = one_number(rest)?;
    Some((first, second))
}

/// The limit whose places the fields of a text write, as many as criteria.
pub(crate) fn limit(text: &[u8], criteria: usize) -> Option<Limit>
    requires at_least_two { min_criteria ≤ criteria }
    requires at_most_four { criteria ≤ max_criteria }
    ensures { result ≡ each_of place_of criteria (fields_of text.now) }
{
    let mut places = [None; MAX_CRITERIA];
    let mut rest = text;
    for i in 0..criteria {
        let (bound, behind) = next_field(rest)?;
        places[i] = place(bound)?;
        rest = behind;
    }
    match next_field(rest) {
        None => Some(Limit::of_places(&places[..criteria])),
        Some(_) => None,
    }
}

/// The weight whose components the fields of a text write, as many as criteria.
pub(crate) fn weight(text: &[u8], criteria: usize) -> Option<Weight>
    requires at_least_two { min_criteria ≤ criteria }
    requires at_most_four { criteria ≤ max_criteria }
    ensures { result ≡ each_of number_of criteria (fields_of text.now) }
{
    let mut components = [0; MAX_CRITERIA];
    let mut rest = text;
    for i in 0..criteria {
        let (component, behind) = next_field(rest)?;
        components[i] = number(component)?;
        rest = behind;
    }
    match next_field(rest) {
        None => Some(Weight::of_numbers(&components[..criteria])),
        Some(_) => None,
    }
}

/// The number of at most 2^32 - 1 that a field writes.
pub(crate) fn number(field: &[u8]) -> Option<u32>
    ensures { result ≡ number_of field.now }
{
    match decimal(field, u64::from(u32::MAX)) {
        Numeral::Value(value) => Some(value as u32),
        _ => None,
    }
}

/// The place of a limit that a field writes.
fn place(field: &[u8]) -> Option<Option<u64>>
    ensures { result ≡ place_of field.now }
{
    if field == b"-".as_slice() {
        return Some(None);
    }
    match decimal(field, u64::MAX) {
        Numeral::Value(value) => Some(Some(value)),
        _ => None,
    }
}
