//! Fields of lines, and the numbers that they write. One of more than 32 bits is told as 2^32.
ghost use Rattle.std.specs.Prelude.{◌≡◌, ◌≢◌, None, [], ◌∷◌, MatchOption, length};
ghost use Rattle.std.specs.Option.{option_map};
ghost use Rattle.line_text.specs.Fields.{fields_of};
ghost use Rattle.gr_reader.specs.Capped.{FirstCapped, capped_number, front_number, only_number};
ghost use Rattle.gr_reader.specs.Rules.{number_of};

use line_text::{Numeral, decimal, first_byte, next_field, next_number};

/// The least number of more than 32 bits. It stands for each of them.
const PAST: u64 = 1 << 32;

/// The fields of a text that has exactly three.
pub fn three_fields(text: &[u8]) -> Option<(&[u8], &[u8], &[u8])>
    ensures { MatchOption result (length (fields_of text.now) ≢ 3)
        (λ found. fields_of text.now ≡ found.0.now ∷ found.1.now ∷ found.2.now ∷ []) }
{
    let (first, rest) = next_field(text)?;
    let (second, rest) = next_field(rest)?;
    let (third, rest) = next_field(rest)?;
    match next_field(rest) {
        None => Some((first, second, third)),
        Some(_) => None,
    }
}

/// The number that a field writes.
pub fn number(field: &[u8]) -> Option<u64>
    ensures { result ≡ option_map capped_number (number_of field.now) }
{
    match decimal(field, PAST - 1) {
        Numeral::NotDigits => None,
        Numeral::Above => Some(PAST),
        Numeral::Value(value) => Some(value),
    }
}

/// The number that the first field of a text writes, and what stands behind the field.
#[inline(always)]
pub fn front_number(text: &[u8]) -> Option<(u64, &[u8])>
    ensures { MatchOption result (front_number (fields_of text.now) ≡ None)
        (λ found. FirstCapped (fields_of text.now) found.0 (fields_of found.1.now)) }
{
    match next_number(text, PAST - 1)? {
        (Numeral::NotDigits, _) => None,
        (Numeral::Above, rest) => Some((PAST, rest)),
        (Numeral::Value(value), rest) => Some((value, rest)),
    }
}

/// The number that a text's only field writes.
#[inline(always)]
pub fn only_number(text: &[u8]) -> Option<u64>
    ensures { result ≡ option_map capped_number (only_number (fields_of text.now)) }
{
    let (value, rest) = front_number(text)?;
    match first_byte(rest) {
        None => Some(value),
        Some(_) => None,
    }
}
