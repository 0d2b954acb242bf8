use line_text::{Numeral, decimal, field, next_field, next_number, put_decimal};
use route_io::sure::SureSink;

#[test]
fn fields_stand_between_blanks(rt: HostRuntime) {
    let line = b" p\tsp  1 0 ";
    assert!(rt; field(line, 0) == Some((1, 2)), "the first field");
    assert!(rt; field(line, 1) == Some((3, 5)), "the second field");
    assert!(rt; field(line, 3) == Some((9, 10)), "the fourth field");
    assert!(rt; field(line, 4).is_none(), "there is no fifth field");
}

/// Whether the first field of a line is this one, with this behind it.
fn is_split(line: &[u8], field: &[u8], rest: &[u8]) -> bool {
    match next_field(line) {
        Some((got, behind)) => got == field && behind == rest,
        None => false,
    }
}

#[test]
fn the_first_field_is_split_off(rt: HostRuntime) {
    assert!(rt; is_split(b"\ta b", b"a", b" b"), "a field and its rest");
    assert!(rt; next_field(b" \t ").is_none(), "blanks alone");
}

/// Whether the first field of a line reads as this number of at most 12, with this behind it.
fn is_number(line: &[u8], number: Numeral, rest: &[u8]) -> bool {
    match next_number(line, 12) {
        Some((got, behind)) => got == number && behind == rest,
        None => false,
    }
}

#[test]
fn the_first_field_is_read_as_a_number(rt: HostRuntime) {
    assert!(rt;
        is_number(b" 12\t3", Numeral::Value(12), b"\t3"),
        "the greatest"
    );
    assert!(rt; is_number(b"13\t3", Numeral::Above, b"\t3"), "one more");
    assert!(rt; is_number(b"1x\t3", Numeral::NotDigits, b"\t3"), "a letter");
    assert!(rt; next_number(b" ", 12).is_none(), "blanks alone");
}

/// A text, the greatest number, and the number that it writes.
const NUMERALS: &[(&str, u64, Numeral)] = &[
    ("", 9, Numeral::NotDigits),
    ("+1", 9, Numeral::NotDigits),
    ("99999999999999999999x", 9, Numeral::NotDigits),
    ("007", 7, Numeral::Value(7)),
    ("8", 7, Numeral::Above),
    ("0000000000000000000000000000009", 9, Numeral::Value(9)),
    ("4294967296", 4_294_967_295, Numeral::Above),
    ("18446744073709551615", u64::MAX, Numeral::Value(u64::MAX)),
    ("18446744073709551616", u64::MAX, Numeral::Above),
];

#[test]
fn digits_write_numbers(rt: HostRuntime) {
    for (text, greatest, wanted) in NUMERALS {
        assert!(rt; decimal(text.as_bytes(), *greatest) == *wanted, "{text:?}");
    }
}

#[test]
fn decimals_are_sent(rt: HostRuntime) {
    let mut sink = SureSink::new(rt.alloc());
    assert!(rt; put_decimal(&mut sink, 0) == Ok(()), "0");
    assert!(rt;
        put_decimal(&mut sink, u64::MAX) == Ok(()),
        "the greatest number"
    );
    assert!(rt; sink.sent() == b"018446744073709551615".as_slice(), "both");
}
