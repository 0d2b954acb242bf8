ghost use Rattle.std.specs.Prelude.{◌≡◌, ◌≤◌, ◌↔◌, [], ◌∷◌, drop, false, length, IfSome, IsTrue, MatchOption};
ghost use Rattle.std.specs.List.{prefix_len};
ghost use Rattle.line_text.specs.Fields.{BeginsBlank, FieldAt, FirstByte, FirstField, fields_of};
ghost use Rattle.line_text.specs.Fields.{is_blank, is_filled};

/// The first field of a text, and what stands behind it.
pub fn next_field(text: &[u8]) -> Option<(&[u8], &[u8])>
    ensures { MatchOption result (fields_of text.now ≡ [])
        (λ found. FirstField text.now found.0.now found.1.now) }
{
    let text = behind_blanks(text);
    if text.is_empty() {
        return None;
    }
    Some(text.split_at(filled_len(text)))
}

/// The first byte of a text that isn't a blank.
pub fn first_byte(text: &[u8]) -> Option<u8>
    ensures { MatchOption result (fields_of text.now ≡ []) (FirstByte text.now) }
{
    match behind_blanks(text) {
        [] => None,
        [byte, ..] => Some(*byte),
    }
}

/// What stands behind the first field of a text, where that is this byte alone and stands at the front.
#[inline(always)]
pub fn behind_byte(text: &[u8], byte: u8) -> Option<&[u8]>
    requires { is_blank byte ≡ false }
    ensures { IfSome result (λ rest. fields_of text.now ≡ (byte ∷ []) ∷ fields_of rest.now) }
{
    match text {
        [first, rest @ ..] if *first == byte && begins_blank(rest) => Some(rest),
        _ => None,
    }
}

/// Where the field number `i`, from 0, starts and where it ends.
pub fn field(text: &[u8], i: usize) -> Option<(usize, usize)>
    ensures { MatchOption result (length (fields_of text.now) ≤ i)
        (λ place. FieldAt text.now i place.0 place.1) }
{
    let mut rest = text;
    for _ in 0..i {
        (_, rest) = next_field(rest)?;
    }
    let (found, rest) = next_field(rest)?;
    let end = text.len() - rest.len();
    Some((end - found.len(), end))
}

/// What stands behind the blanks that a text begins with.
pub(crate) fn behind_blanks(text: &[u8]) -> &[u8]
    ensures { result.now ≡ drop (prefix_len is_blank text.now) text.now }
{
    &text[blank_len(text)..]
}

/// How many blanks a text begins with.
fn blank_len(text: &[u8]) -> usize
    ensures value { result ≡ prefix_len is_blank text.now }
    ensures within { result ≤ length text.now }
{
    text.iter().take_while(|byte| is_blank(**byte)).count()
}

/// How many bytes other than blanks a text begins with.
pub(crate) fn filled_len(text: &[u8]) -> usize
    ensures value { result ≡ prefix_len is_filled text.now }
    ensures within { result ≤ length text.now }
{
    text.iter().take_while(|byte| !is_blank(**byte)).count()
}

/// Whether no field goes on at the front of a text.
pub(crate) fn begins_blank(text: &[u8]) -> bool
    ensures { IsTrue result ↔ BeginsBlank text.now }
{
    match text {
        [] => true,
        [byte, ..] => is_blank(*byte),
    }
}

/// Whether a byte is a space or a tab.
pub(crate) fn is_blank(byte: u8) -> bool
    ensures { result ≡ is_blank byte }
{
    byte == b' ' || byte == b'\t'
}
