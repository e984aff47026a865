// Writing the key, the words and the numbers of a line behind the bytes that are there.
ghost use Rattle.std.specs.Prelude.{ℕ, List, [], ◌∷◌, map};
ghost use Rattle.keys.specs.Keys.{line_with};
ghost use Rattle.writing.specs.Appending.{Appended};
ghost use Rattle.writing.specs.Written.{each_spaced, spaced, written_number};

use keys::Key;
use std::alloc::AllocError;

// A key's word and its equals sign.
pub fn write_key(out: &mut Vec<u8>, key: Key) -> Result<(), AllocError>
    ensures the_key_and_its_equals_sign { Appended result out.old.items (line_with key []) out.new.items }
{
    out.extend_from_slice(key.word().as_bytes())?;
    out.push(b'=')?;
    Ok(())
}

// A word or a number of a line.
pub(crate) trait Piece: Copy {
    // Its bytes.
    ghost text: { Self → List ℕ };

    // Writes it, as the first of a line.
    fn write(self, out: &mut Vec<u8>) -> Result<(), AllocError>
        ensures its_bytes { Appended result out.old.items (text self) out.new.items };
}

impl Piece for &[u8] {
    ghost text = { λ word. word.now };

    fn write(self, out: &mut Vec<u8>) -> Result<(), AllocError> {
        write_word(out, self)
    }
}

impl Piece for u16 {
    ghost text = { written_number };

    fn write(self, out: &mut Vec<u8>) -> Result<(), AllocError> {
        write_number(out, self)
    }
}

// A further word or number, with a space in front of it.
fn write_next<P: Piece>(out: &mut Vec<u8>, piece: P) -> Result<(), AllocError>
    ensures a_space_and_its_bytes { Appended result out.old.items (each_spaced (P.text piece ∷ [])) out.new.items }
{
    out.push(b' ')?;
    piece.write(out)
}

// A word, and words or numbers behind it, each with a space in front of it.
pub(crate) fn write_with<P: Piece>(
    out: &mut Vec<u8>,
    word: &[u8],
    others: &[P],
) -> Result<(), AllocError>
    ensures the_word_and_the_others { Appended result out.old.items (spaced (word.now ∷ map P.text others.now)) out.new.items }
{
    write_word(out, word)?;
    for other in others {
        write_next(out, *other)?;
    }
    Ok(())
}

// The first word of a line.
pub fn write_word(out: &mut Vec<u8>, word: &[u8]) -> Result<(), AllocError>
    ensures the_word { Appended result out.old.items word.now out.new.items }
{
    out.extend_from_slice(word)
}

// A further word of a line, with a space in front of it.
pub fn write_next_word(out: &mut Vec<u8>, word: &[u8]) -> Result<(), AllocError>
    ensures a_space_and_the_word { Appended result out.old.items (each_spaced (word.now ∷ [])) out.new.items }
{
    write_next(out, word)
}

// A number as the first word of a line. Digit by digit: `format!` asks for memory of its own for each number, though `out` may have
// room for it.
pub fn write_number(out: &mut Vec<u8>, n: u16) -> Result<(), AllocError>
    ensures the_digits_of_the_number { Appended result out.old.items (written_number n) out.new.items }
{
    if n >= 10 {
        write_number(out, n / 10)?;
    }
    out.push(b'0' + (n % 10) as u8)?;
    Ok(())
}

// A number as a further word.
pub fn write_next_number(out: &mut Vec<u8>, n: u16) -> Result<(), AllocError>
    ensures a_space_and_the_number { Appended result out.old.items (each_spaced (written_number n ∷ [])) out.new.items }
{
    write_next(out, n)
}
