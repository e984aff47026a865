// Cutting a line off a text.
ghost use Rattle.std.specs.Prelude.{◌≡◌, ℕ, ◌+◌, ◌∷◌, ◌++◌, ◌≤◌, length, IfOk};
ghost use Rattle.std.specs.List.{prefix_len};
ghost use Rattle.text.specs.Lines.{printable, cut, parts};

use crate::faults::{LineFault, Wrong};

// Whether the byte may stand in a line.
fn is_printable(byte: u8) -> bool
    ensures the_byte_may_stand_in_a_line { result ≡ printable byte }
{
    (b' '..=b'~').contains(&byte)
}

// How many bytes in front of the text may stand in a line.
fn printable_run(text: &[u8]) -> usize
    ensures the_printable_bytes_in_front { result ≡ prefix_len printable text.now }
    ensures within_the_text { result ≤ length text.now }
{
    text.iter().take_while(|&&byte| is_printable(byte)).count()
}

// The line in front of a text, and what follows its line feed: both are parts of the text.
pub fn cut_line(text: &[u8]) -> Result<(&[u8], &[u8]), LineFault>
    ensures the_line_and_the_rest_or_the_fault { parts result ≡ cut text.now }
    ensures put_together_they_are_the_text { IfOk result (λ p. p.0.now ++ 10 ∷ p.1.now ≡ text.now) }
{
    let n = printable_run(text);
    if n > 255 {
        return Err(Wrong::Byte.at(256));
    }
    let (line, left) = text.split_at(n);
    match left {
        [] => Err(Wrong::NoLineFeed.at(1)),
        [b'\n', rest @ ..] => Ok((line, rest)),
        _ => Err(Wrong::Byte.at(n + 1)),
    }
}
