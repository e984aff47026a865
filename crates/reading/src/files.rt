// Reading a file line by line, whatever is made of its lines.
ghost use Rattle.std.specs.Prelude.{◌≡◌, ℕ, ◌+◌, ◌≤◌, Bool, true, ◌&&◌, List, length, Result, OnErr, ◌==◌};
ghost use Rattle.text.specs.Lines.{split};
ghost use Rattle.reading.specs.Walk.{walk_through};
ghost use Rattle.text.specs.declared.faults.LineFault.{LineFault};
ghost use Rattle.reading.specs.Files.{in_line, whole, read_through, left_by, Went, Left};

use crate::faults::Fault;
use text::faults::{FileFault, at_line};
use text::lines::cut_line;

// A file has at most this many bytes.
const MOST_BYTES: usize = 65_536;

// What is made of a file's lines, one after the other.
pub trait Reader {
    // Why a file is not read.
    type Fault: Fault;

    // What it stands for.
    ghost State: { Type 0 };

    ghost seen: { Self → State };

    // What is made of the line of a number.
    ghost step: { State → ℕ → List ℕ → Result State LineFault };

    // Whether the line that ends the file was read.
    ghost ended: { State → Bool };

    // Whether it is steady: a line at fault leaves it as it was.
    ghost steady: { Bool };

    // The line of this number is taken, or is at fault.
    fn take(&mut self, number: usize, line: &[u8]) -> Result<(), Self::Fault>
        ensures what_is_made_of_the_line { Went Self.Fault.file_fault result (seen self.new) (in_line number (step (seen self.old) number line.now)) }
        ensures a_fault_leaves_a_steady_reader_as_it_was { steady ≡ true → OnErr result (seen self.new ≡ seen self.old) };

    fn is_ended(&self) -> bool
        ensures whether_the_file_has_ended { result ≡ ended (seen self.now) };
}

// Whether the file's `end` line was read and nothing follows it.
fn is_done<R: Reader>(reader: &R, rest: &[u8]) -> bool
    ensures ended_and_nothing_left { result ≡ (R.ended (R.seen reader.now) && length rest.now == 0) }
{
    reader.is_ended() && rest.is_empty()
}

// Line by line to the end of the file, or to its first fault.
#[tactic(auto, using(crate::proofs::Walks::walk_more, text::proofs::Cuts::cut_shorter))]
fn walk<R: Reader>(reader: &mut R, bytes: &[u8]) -> Result<(), R::Fault>
    requires few_bytes { length bytes.now ≤ 65536 }
    ensures every_line_in_turn { Went R.Fault.file_fault result (R.seen reader.new) (whole (walk_through R.step R.ended (R.seen reader.old) 1 (split bytes.now))) }
    ensures a_fault_leaves_a_steady_reader_with_the_lines_before { R.steady ≡ true → Left R.Fault.file_fault result (R.seen reader.new) ((walk_through R.step R.ended (R.seen reader.old) 1 (split bytes.now)).state) }
{
    let mut rest = bytes;
    // Counted by hand: where the next line begins, and whether there is one, is known only once this line is taken.
    let mut number = 1;
    while !is_done(reader, rest) {
        let (line, after) = at_line(number, cut_line(rest)).map_err(FileFault::from)?;
        reader.take(number, line)?;
        rest = after;
        number += 1;
    }
    Ok(())
}

// Reads a whole file.
pub fn read_file<R: Reader>(reader: &mut R, bytes: &[u8]) -> Result<(), R::Fault>
    ensures all_its_lines_or_its_first_fault { Went R.Fault.file_fault result (R.seen reader.new) (read_through R.step R.ended (R.seen reader.old) bytes.now) }
    ensures a_fault_leaves_a_steady_reader_with_the_lines_before { R.steady ≡ true → Left R.Fault.file_fault result (R.seen reader.new) (left_by R.step R.ended (R.seen reader.old) bytes.now) }
{
    if bytes.len() > MOST_BYTES {
        return Err(R::Fault::from(FileFault::TooLong));
    }
    walk(reader, bytes)
}
