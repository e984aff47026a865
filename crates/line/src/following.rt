// The next line of a file.
ghost use Rattle.std.specs.Prelude.{◌≡◌};
ghost use Rattle.line.specs.Following.{following, following_answer};

use crate::lines::{File, Line};
use crate::reading::{read_line, recognise};
use crate::rows::{can_follow, row_number};
use text::faults::{LineFault, Wrong};

// The line that stands behind one of row `last`, or begins the file if `last` is 0: its row, and what it says. A line that may
// not stand here is refused before its words are looked at.
pub fn next_line<'a>(file: File, last: u8, line: &'a [u8]) -> Result<(u8, Line<'a>), LineFault>
    ensures the_row_and_the_line_or_the_fault { following_answer result ≡ following file last line.now }
{
    let (key, rest) = recognise(file, line)?;
    if !can_follow(file, last, key) {
        return Err(Wrong::Key.at(1));
    }
    let line = read_line(file, key, rest)?;
    Ok((row_number(file, key), line))
}
