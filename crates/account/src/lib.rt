// The account of a file: its bytes, its lines by their kinds, and where it is at fault.

#![tactic(auto)]

ghost use Rattle.std.specs.Prelude.{◌≡◌, true, None, OnErr, slice_index};
ghost use Rattle.account.specs.Accounts.{nothing, taken_by, answered, account as the_account, Whole, SameLines};
ghost use Rattle.account.specs.Counters.{counted_up, counter_step};
ghost use Rattle.account.specs.declared.Counter.{Counter};
ghost use Rattle.keys.specs.Keys.{key_number};

use keys::Key;
use line::lines::File;
use line::reading::{read_line, recognise};
use reading::files::{Reader, read_file};
use text::faults::{FileFault, LineFault, Wrong, at_line};

// How many keys there are.
const KEYS: usize = 11;

// The lines that were read, and how many of each key; whether the `end` line was among them, which is asked before each line. The
// keys are numbered from 0, so that
// an array of counts by their numbers is the map from keys to counts.
#[derive(Clone, Copy, Drop)]
pub struct Tally {
    pub lines: usize,
    pub kinds: [usize; KEYS],
    pub ended: bool,
}

// The account of a file: its length, the lines up to its end or its first fault, and that fault.
#[derive(Clone, Copy, Drop)]
pub struct Account {
    pub bytes: usize,
    pub tally: Tally,
    pub fault: Option<FileFault>,
}

impl Tally {
    fn new() -> Tally
        ensures nothing_is_counted { result ≡ nothing }
    {
        Tally {
            lines: 0,
            kinds: [0; KEYS],
            ended: false,
        }
    }

    // One line more of this key. The sums stop at the last number, which no file comes to, so that nothing is asked of the tally.
    fn count(&mut self, key: Key)
        ensures one_line_more { self.new ≡ counted_up key self.old }
    {
        let i = key.number() as usize;
        self.kinds[i] = self.kinds[i].saturating_add(1);
        self.lines = self.lines.saturating_add(1);
        self.ended = key == Key::End;
    }

    // A line of the file is counted, or is at fault and changes nothing.
    fn take(&mut self, file: File, line: &[u8]) -> Result<(), LineFault>
        ensures what_is_made_of_the_line { answered result self.new ≡ taken_by counted_up file self.old line.now }
        ensures a_fault_changes_nothing { OnErr result (self.new ≡ self.old) }
    {
        let (key, rest) = recognise(file, line)?;
        if self.ended {
            return Err(Wrong::Key.at(1));
        }
        let read = read_line(file, key, rest)?;
        self.count(read.key());
        Ok(())
    }
}

// A file of this kind, and what is counted of it so far.
#[derive(Drop)]
struct Counter {
    file: File,
    tally: Tally,
}

impl Reader for Counter {
    type Fault = FileFault;

    ghost State = { Counter };

    ghost seen = { λ counter. counter };

    ghost step = { counter_step };

    ghost ended = { λ counter. counter.tally.ended };

    ghost steady = { true };

    fn take(&mut self, number: usize, line: &[u8]) -> Result<(), FileFault> {
        at_line(number, self.tally.take(self.file, line)).map_err(FileFault::from)
    }

    fn is_ended(&self) -> bool {
        self.tally.ended
    }
}

// The account of a file.
#[tactic(auto, using(crate::proofs::Walks::account_read, crate::proofs::Wholes::account_whole, crate::proofs::Wholes::cut_up_lines))]
pub fn survey(file: File, bytes: &[u8]) -> Account
    ensures the_account_of_the_file { result ≡ the_account file bytes.now }
    ensures read_to_its_end_it_is_its_lines_all_counted { result.fault ≡ None → Whole bytes.now result.tally }
    ensures cut_one_by_one_it_has_the_same_lines { SameLines bytes.now }
{
    let mut counter = Counter {
        file,
        tally: Tally::new(),
    };
    let fault = read_file(&mut counter, bytes).err();
    Account {
        bytes: bytes.len(),
        tally: counter.tally,
        fault,
    }
}

impl Account {
    // How many lines of this key were read.
    pub fn lines_of(&self, key: Key) -> usize
        ensures as_many_as_were_counted { result ≡ slice_index self.now.tally.kinds (key_number key) }
    {
        self.tally.kinds[key.number() as usize]
    }
}
