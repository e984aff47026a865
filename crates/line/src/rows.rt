// The order of the lines of a file.
ghost use Rattle.std.specs.Prelude.{◌≡◌, ◌==◌};
ghost use Rattle.line.specs.Rows.{row_of, last_row, last_needed, in_order, is_below_its_rule, may_follow};

use crate::lines::File;
use keys::Key;

// The row of a key; 0 for a key of the other file.
// A row is a number, since the order asks which of two is further down and whether one is just below the other.
pub fn row_number(file: File, key: Key) -> u8
    ensures the_row_of_the_key { result ≡ row_of file key }
{
    match (file, key) {
        (File::Protocol, Key::Protocol) | (File::Proposal, Key::Proposal) => 1,
        (File::Protocol, Key::Type) | (File::Proposal, Key::Term) => 2,
        (File::Protocol, Key::Var) | (File::Proposal, Key::Inv) => 3,
        (File::Protocol, Key::Term) | (File::Proposal, Key::Cause) => 4,
        (File::Protocol, Key::Init) | (File::Proposal, Key::End) => 5,
        (File::Protocol, Key::Rule | Key::Set) => 6,
        (File::Protocol, Key::End) => 7,
        _ => 0,
    }
}

// Whether this is the row of the line that ends the file.
pub fn is_last(file: File, row: u8) -> bool
    ensures whether_the_file_ends_there { result ≡ (row == last_row file) }
{
    row == row_number(file, Key::End)
}

// The last row that needs a line, but for the end.
fn needed_row(file: File) -> u8
    ensures the_last_row_that_needs_a_line { result ≡ last_needed file }
{
    match file {
        File::Protocol => row_number(file, Key::Init),
        File::Proposal => row_number(file, Key::Proposal),
    }
}

// Whether a line of this row may follow a line of row `last`.
fn is_in_order(file: File, last: u8, row: u8) -> bool
    ensures whether_the_rows_are_in_order { result ≡ in_order file last row }
{
    last == row || (last < row && (last + 1 == row || needed_row(file) <= last))
}

// Whether this is no `set` line, or one below a rule or another `set` line.
fn has_its_rule(file: File, last: u8, key: Key) -> bool
    ensures whether_a_set_line_is_below_a_rule { result ≡ is_below_its_rule file last key }
{
    key != Key::Set || last == row_number(file, key)
}

// Whether a line of this key may follow a line of row `last`, or begin the file if `last` is 0.
pub fn can_follow(file: File, last: u8, key: Key) -> bool
    ensures whether_it_may_stand_here { result ≡ may_follow file last key }
{
    file.has(key)
        && !is_last(file, last)
        && is_in_order(file, last, row_number(file, key))
        && has_its_rule(file, last, key)
}
