// What can be wrong with a line, and with a file.
ghost use Rattle.std.specs.Prelude.{◌≡◌, Some};
ghost use Rattle.text.specs.Faults.{fault as fault_of, number as number_of, file_number, file_line, file_column, placed_at, printed};
ghost use Rattle.text.specs.declared.faults.FileFault.TheVariants.{Line};

use failures::Reason;
use std::fmt;

#[derive(Clone, Copy, Debug, PartialEq, Eq)]
pub enum Wrong {
    // A byte outside 32 to 126, or a line of more than 255 bytes.
    Byte = 2,
    // The text ends before a line feed, or before the line that ends the file.
    NoLineFeed = 3,
    // The key is absent, not known in this file, or out of place.
    Key = 4,
    // A word is missing, extra, empty or misformed.
    Word = 5,
    // A name that is used already.
    Used = 6,
    // A name of nothing that is declared.
    Unknown = 7,
    // A number of nothing that exists.
    NoSuch = 8,
    // A term of the wrong sort.
    WrongSort = 9,
    // More lines or values than allowed.
    TooMany = 10,
    // More than 2^40 states.
    TooManyStates = 11,
    // A variable that the rule sets already.
    SetTwice = 12,
    // The name of another protocol.
    AnotherProtocol = 13,
    // A cause that does not come after the one above it.
    NotAscending = 14,
}

impl Wrong {
    // The number under which a report shows it.
    pub fn number(self) -> u8
        ensures the_number_of_the_kind { result ≡ number_of self }
    {
        self as u8
    }

    // The fault of this kind at a column; columns count from 1.
    pub fn at(self, column: usize) -> LineFault
        ensures the_fault_at_the_column { result ≡ fault_of self column }
    {
        LineFault {
            wrong: self,
            column,
        }
    }
}

// What is wrong with a line, and the column where.
#[derive(Clone, Copy, Debug, PartialEq, Eq)]
pub struct LineFault {
    pub wrong: Wrong,
    pub column: usize,
}

impl Reason for LineFault {}

// A line's own fault with the number of the line.
#[derive(Clone, Copy, Debug, PartialEq, Eq)]
pub struct Placed {
    pub line: usize,
    pub fault: LineFault,
}

// What is wrong with a file.
#[derive(Clone, Copy, Debug, PartialEq, Eq)]
pub enum FileFault {
    // It has more than 65,536 bytes.
    TooLong,
    // A line is at fault.
    Line(Placed),
}

impl FileFault {
    // The number under which a report shows it.
    pub fn number(self) -> u8
        ensures the_number_of_the_fault { result ≡ file_number self }
    {
        match self {
            FileFault::TooLong => 1,
            FileFault::Line(placed) => placed.fault.wrong.number(),
        }
    }

    // The line that a report shows; 0 for the whole file.
    pub fn line(self) -> usize
        ensures the_line_of_the_fault { result ≡ file_line self }
    {
        match self {
            FileFault::TooLong => 0,
            FileFault::Line(placed) => placed.line,
        }
    }

    // The column that a report shows; 0 for the whole file.
    pub fn column(self) -> usize
        ensures the_column_of_the_fault { result ≡ file_column self }
    {
        match self {
            FileFault::TooLong => 0,
            FileFault::Line(placed) => placed.fault.column,
        }
    }
}

impl Reason for FileFault {}

impl From<Placed> for FileFault {
    ghost from_gives = { λ placed r. r ≡ Line placed };

    fn from(value: Placed) -> FileFault {
        FileFault::Line(value)
    }
}

// A fault as it is printed: `refused number=N line=L column=C`.
impl fmt::Display for FileFault {
    ghost output = { λ fault. Some (printed fault) };

    fn fmt<W: fmt::Write>(&self, f: &mut fmt::Formatter<W>) -> fmt::Result {
        let number = self.number();
        let line = self.line();
        let column = self.column();
        write!(f, "refused number={number} line={line} column={column}")
    }
}

// An answer about a line, with the number of that line at its fault.
pub fn at_line<T>(line: usize, answer: Result<T, LineFault>) -> Result<T, Placed>
    ensures the_answer_or_its_fault_with_the_line { result ≡ placed_at line answer }
{
    answer.map_err(|fault| Placed { line, fault })
}
