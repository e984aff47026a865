// Taking the lines of a protocol file, one by one. Beside the reader of proposals, which holds a protocol and hands on the number of
// the line.
ghost use Rattle.std.specs.Prelude.{false};
ghost use Rattle.protocol.specs.Reading.{Draft, ended, taken};
ghost use Rattle.protocol.specs.Views.{draft_seen};
ghost use Rattle.reading.specs.Taking.{Came};

use crate::reader::ProtocolReader;
use line::following::next_line;
use line::lines::File;
use line::rows::is_last;
use reading::faults::{ReadFault, TakeFault, in_file};
use reading::files::Reader;

impl ProtocolReader {
    // One line more, or its fault.
    fn take_line(&mut self, line: &[u8]) -> Result<(), TakeFault>
        ensures what_is_made_of_the_line { Came result (draft_seen self.new) (taken (draft_seen self.old) line.now) }
    {
        let (row, line) = next_line(File::Protocol, self.row, line)?;
        self.parts.take_line(self.heap, line)?;
        self.row = row;
        Ok(())
    }
}

impl Reader for ProtocolReader {
    type Fault = ReadFault;

    ghost State = { Draft };

    ghost seen = { draft_seen };

    ghost step = { λ draft number line. taken draft line };

    ghost ended = { ended };

    ghost steady = { false };

    fn take(&mut self, number: usize, line: &[u8]) -> Result<(), ReadFault> {
        self.take_line(line).map_err(|why| in_file(number, why))
    }

    fn is_ended(&self) -> bool {
        is_last(File::Protocol, self.row)
    }
}
