ghost use Rattle.std.specs.Prelude.{◌≡◌, ◌∷◌};
ghost use Rattle.line_text.specs.Fields.{fields_of};
ghost use Rattle.gr_reader.specs.Grammar.{arc_from, problem_from, weights_form};
ghost use Rattle.gr_reader.specs.WeightForms.{as_form, capped, or_malformed};

use crate::fields::{front_number, number, only_number, three_fields};
use crate::grammar::LineForm;
use line_text::{behind_byte, next_field};

/// What a line of a weight file says: the numbers of nodes and of arcs, or a tail, a head and a weight.
pub(crate) type WeightForm = LineForm<(u64, u64), (u64, u64, u64)>;

/// What a line says. Nearly all are arcs, whose word stands at the front.
pub(crate) fn form_of(line: &[u8]) -> WeightForm
    ensures { as_form result ≡ capped (weights_form (fields_of line.now)) }
{
    match behind_byte(line, b'a') {
        Some(rest) => arc_behind(rest).unwrap_or(LineForm::Malformed),
        None => any_form(line),
    }
}

/// The same, whatever stands at the front.
#[inline(never)]
fn any_form(line: &[u8]) -> WeightForm
    ensures { as_form result ≡ capped (weights_form (fields_of line.now)) }
{
    match next_field(line) {
        None => LineForm::Malformed,
        Some((word, rest)) => form_behind(word, rest).unwrap_or(LineForm::Malformed),
    }
}

/// What a line says whose first field is this word.
fn form_behind(word: &[u8], rest: &[u8]) -> Option<WeightForm>
    ensures { or_malformed result ≡ capped (weights_form (word.now ∷ fields_of rest.now)) }
{
    match word {
        [b'a'] => arc_behind(rest),
        [b'p'] => problem_behind(rest),
        _ => None,
    }
}

/// The arc that three numbers say.
#[inline(always)]
fn arc_behind(text: &[u8]) -> Option<WeightForm>
    ensures { or_malformed result ≡ capped (arc_from (fields_of text.now)) }
{
    let (tail, rest) = front_number(text)?;
    let (head, rest) = front_number(rest)?;
    let weight = only_number(rest)?;
    Some(LineForm::Record((tail, head, weight)))
}

/// What the word `sp` and two numbers say of the file's size.
fn problem_behind(text: &[u8]) -> Option<WeightForm>
    ensures { or_malformed result ≡ capped (problem_from (fields_of text.now)) }
{
    let (word, nodes, arcs) = three_fields(text)?;
    if word != b"sp".as_slice() {
        return None;
    }
    let nodes = number(nodes)?;
    let arcs = number(arcs)?;
    Some(LineForm::Problem((nodes, arcs)))
}
