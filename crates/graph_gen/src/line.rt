//! Lines of a word and of numbers.
ghost use Rattle.std.specs.Prelude.{◌≡◌, ◌++◌, OnOk};
ghost use Rattle.graph_gen.specs.Texts.{and_number, line_of};

use itoa::Buffer;
use out_of_memory::OutOfMemory;

/// Puts a line behind a text: a word, and numbers in decimal, each behind a space.
pub(crate) fn put_line(text: &mut Vec<u8>, word: &[u8], numbers: &[u32]) -> Result<(), OutOfMemory>
    ensures { OnOk result (text.new.items ≡ text.old.items ++ line_of word.now numbers.now) }
{
    text.extend_from_slice(word)?;
    for &number in numbers {
        put_number(text, number)?;
    }
    text.push(b'\n')?;
    Ok(())
}

/// Puts a space and a number behind a text.
fn put_number(text: &mut Vec<u8>, number: u32) -> Result<(), OutOfMemory>
    ensures { OnOk result (text.new.items ≡ text.old.items ++ and_number number) }
{
    let mut digits = Buffer::new();
    text.push(b' ')?;
    text.extend_from_slice(digits.format(number).as_bytes())?;
    Ok(())
}
