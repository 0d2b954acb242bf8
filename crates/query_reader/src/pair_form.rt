ghost use Rattle.std.specs.Prelude.{◌≡◌, ◌∷◌};
ghost use Rattle.line_text.specs.Fields.{fields_of};
ghost use Rattle.query_reader.specs.Grammar.{are_words, pair_from, pairs_form, problem_from};
ghost use Rattle.query_reader.specs.PairForms.{as_form, capped, or_malformed};

use gr_reader::{LineForm, front_number, only_number};
use line_text::next_field;

/// What a line of a file of pairs says: the number of pairs, or where a pair starts and where it leads.
pub(crate) type PairForm = LineForm<u64, (u64, u64)>;

/// What a line says.
pub(crate) fn form_of(line: &[u8]) -> PairForm
    ensures { as_form result ≡ capped (pairs_form (fields_of line.now)) }
{
    match next_field(line) {
        None => LineForm::Malformed,
        Some((word, rest)) => form_behind(word, rest).unwrap_or(LineForm::Malformed),
    }
}

/// What a line says whose first field is this word.
fn form_behind(word: &[u8], rest: &[u8]) -> Option<PairForm>
    ensures { or_malformed result ≡ capped (pairs_form (word.now ∷ fields_of rest.now)) }
{
    if word == b"q".as_slice() {
        pair_behind(rest)
    } else if word == b"p".as_slice() {
        problem_behind(rest)
    } else {
        None
    }
}

/// The pair that two numbers say.
fn pair_behind(text: &[u8]) -> Option<PairForm>
    ensures { or_malformed result ≡ capped (pair_from (fields_of text.now)) }
{
    let (from, rest) = front_number(text)?;
    let to = only_number(rest)?;
    Some(LineForm::Record((from, to)))
}

/// What the words `aux`, `sp` and `p2p` and a number say of the file's size.
fn problem_behind(text: &[u8]) -> Option<PairForm>
    ensures { or_malformed result ≡ capped (problem_from (fields_of text.now)) }
{
    let (aux, rest) = next_field(text)?;
    let (sp, rest) = next_field(rest)?;
    let (p2p, rest) = next_field(rest)?;
    if !are_words(aux, sp, p2p) {
        return None;
    }
    let count = only_number(rest)?;
    Some(LineForm::Problem(count))
}

/// Whether three fields are the words of a problem line.
fn are_words(aux: &[u8], sp: &[u8], p2p: &[u8]) -> bool
    ensures { result ≡ are_words aux.now sp.now p2p.now }
{
    aux == b"aux".as_slice() && sp == b"sp".as_slice() && p2p == b"p2p".as_slice()
}
