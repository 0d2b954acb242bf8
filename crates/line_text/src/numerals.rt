ghost use Rattle.std.specs.Prelude.{◌≡◌, ◌<◌, ◌≤◌, ◌+◌, ◌-◌, ◌*◌, [], false, length, take, true, decimal as decimal_text};
ghost use Rattle.std.specs.Prelude.{IfSome, MatchOption, None, min};
ghost use Rattle.std.specs.Char.{is_ascii_digit};
ghost use Rattle.std.specs.List.{prefix_len};
ghost use Rattle.route_io.specs.Sinks.{Sends};
ghost use Rattle.line_text.specs.Fields.{fields_of};
ghost use Rattle.line_text.specs.Numerals.{FirstIn, FirstNumeral, at_most, front_in, numeral_of, numeral_or_above};
ghost use Rattle.line_text.specs.Numerals.{value_of};

use crate::fields::{begins_blank, behind_blanks, filled_len, is_blank};
use itoa::Buffer;
use route_io::{Sink, WriteFault, put_all};

/// As many digits write a number of at most 63 bits.
const FEW: usize = 18;

/// How a text reads as a number.
#[derive(Clone, Copy, Debug, PartialEq, Eq)]
pub enum Numeral {
    /// It is empty, or not all of it is ASCII digits.
    NotDigits,
    /// The digits write more than the greatest number that was asked for.
    Above,
    /// The number that the digits write.
    Value(u64),
}

/// The number that a text of one or more ASCII digits writes, if it is at most `greatest`. Leading zeros count for
/// nothing.
pub fn decimal(text: &[u8], greatest: u64) -> Numeral
    ensures { result ≡ numeral_of text.now greatest }
{
    let (size, value) = digits(text, greatest);
    if size == 0 || size < text.len() {
        return Numeral::NotDigits;
    }
    number_or_above(value)
}

/// What the first field of a text reads as, like `decimal`, and what stands behind the field.
#[inline(always)]
pub fn next_number(text: &[u8], greatest: u64) -> Option<(Numeral, &[u8])>
    ensures { MatchOption result (fields_of text.now ≡ [])
        (λ found. FirstNumeral text.now greatest found.0 found.1.now) }
{
    match short_number(text, greatest) {
        Some(found) => Some(found),
        None => any_number(text, greatest),
    }
}

/// The number that the first field of a text writes, where it is in range, and what stands behind the field.
pub fn next_in(text: &[u8], least: u64, greatest: u64) -> Option<(u64, &[u8])>
    ensures { MatchOption result (front_in least greatest (fields_of text.now) ≡ None)
        (λ found. FirstIn least greatest (fields_of text.now) found.0 (fields_of found.1.now)) }
{
    match next_number(text, greatest)? {
        (Numeral::Value(number), rest) if least <= number => Some((number, rest)),
        _ => None,
    }
}

/// The same as `next_number`, where it is a number of fewer than `FEW` digits behind one blank, as nearly all are.
#[inline(always)]
fn short_number(text: &[u8], greatest: u64) -> Option<(Numeral, &[u8])>
    ensures { IfSome result (λ found. FirstNumeral text.now greatest found.0 found.1.now) }
{
    let (first, filled) = text.split_first()?;
    let (size, value) = few_digits(filled);
    let rest = &filled[size..];
    if is_blank(*first) && 0 < size && size < FEW && begins_blank(rest) {
        return Some((number_or_above(at_most(greatest, value)), rest));
    }
    None
}

/// The same, whatever it is.
#[inline(never)]
fn any_number(text: &[u8], greatest: u64) -> Option<(Numeral, &[u8])>
    ensures { MatchOption result (fields_of text.now ≡ [])
        (λ found. FirstNumeral text.now greatest found.0 found.1.now) }
{
    let text = behind_blanks(text);
    if text.is_empty() {
        return None;
    }
    let (size, value) = digits(text, greatest);
    let rest = &text[size..];
    if begins_blank(rest) {
        return Some((number_or_above(value), rest));
    }
    Some((Numeral::NotDigits, &text[filled_len(text)..]))
}

/// How many digits a text begins with, and the number that they write, if it is at most `greatest`.
#[inline(always)]
fn digits(text: &[u8], greatest: u64) -> (usize, Option<u64>)
    ensures count { result.0 ≡ prefix_len is_ascii_digit text.now }
    ensures within { result.0 ≤ length text.now }
    ensures number { result.1 ≡ at_most greatest (value_of (take result.0 text.now)) }
{
    let (size, value) = few_digits(text);
    if size < FEW {
        return (size, at_most(greatest, value));
    }
    all_digits(text, greatest)
}

/// How many digits a text begins with, but for those behind `FEW`, and the number that they write.
#[inline(always)]
fn few_digits(text: &[u8]) -> (usize, u64)
    ensures count { result.0 ≡ min FEW (prefix_len is_ascii_digit text.now) }
    ensures within { result.0 ≤ length text.now }
    ensures number { result.1 ≡ value_of (take result.0 text.now) }
{
    let mut value = 0;
    for size in 0..text.len().min(FEW) {
        let digit = digit_of(text[size]);
        if digit > 9 {
            return (size, value);
        }
        value = value * 10 + digit;
    }
    (text.len().min(FEW), value)
}

/// The number that an ASCII digit writes. Of any other byte it is more than 9.
#[inline(always)]
fn digit_of(byte: u8) -> u64
    ensures digit { result ≤ 9 → (is_ascii_digit byte ≡ true) × (result ≡ byte - 48) }
    ensures other { 9 < result → is_ascii_digit byte ≡ false }
{
    u64::from(byte).wrapping_sub(u64::from(b'0'))
}

/// The same as `digits`, of any number of digits.
#[inline(never)]
fn all_digits(text: &[u8], greatest: u64) -> (usize, Option<u64>)
    ensures count { result.0 ≡ prefix_len is_ascii_digit text.now }
    ensures within { result.0 ≤ length text.now }
    ensures number { result.1 ≡ at_most greatest (value_of (take result.0 text.now)) }
{
    let mut size = 0;
    let mut value = Some(0);
    for byte in text {
        if !byte.is_ascii_digit() {
            return (size, value);
        }
        value = match value {
            Some(value) => with_digit(value, *byte - b'0', greatest),
            None => None,
        };
        size += 1;
    }
    (size, value)
}

/// The number that digits write, or that it is too great.
fn number_or_above(value: Option<u64>) -> Numeral
    ensures { result ≡ numeral_or_above value }
{
    match value {
        Some(value) => Numeral::Value(value),
        None => Numeral::Above,
    }
}

/// The number with one more digit behind it, if that is at most `greatest`.
fn with_digit(value: u64, digit: u8, greatest: u64) -> Option<u64>
    ensures { result ≡ at_most greatest (value * 10 + digit) }
{
    let more = value.checked_mul(10)?.checked_add(u64::from(digit))?;
    at_most(greatest, more)
}

/// The number, if it is at most the greatest.
#[inline(always)]
fn at_most(greatest: u64, value: u64) -> Option<u64>
    ensures { result ≡ at_most greatest value }
{
    if value <= greatest { Some(value) } else { None }
}

/// Sends the number in base ten, or a part of that text from the front and answers the sink's fault.
pub fn put_decimal<K: Sink>(sink: &mut K, value: u64) -> Result<(), WriteFault>
    ensures { Sends (K.state sink.old) (K.state sink.new) (decimal_text value) result }
{
    let mut buffer = Buffer::new();
    put_all(sink, buffer.format(value).as_bytes())
}
