// Reading a protocol file.
ghost use Rattle.std.specs.Prelude.{◌≡◌, OnOk};
ghost use Rattle.protocol.specs.Answers.{protocol_seen, Parsed, Told};
ghost use Rattle.protocol.specs.Lawful.{Lawful};
ghost use Rattle.protocol.specs.Laws.{EveryProtocolCanBeKept};
ghost use Rattle.protocol.specs.Reading.{protocol_of};
ghost use Rattle.protocol.specs.Records.{empty};
ghost use Rattle.protocol.specs.Written.{written};

use crate::parts::Parts;
use crate::reader::ProtocolReader;
use crate::record::Protocol;
use reading::faults::ReadFault;
use reading::files::read_file;
use std::alloc::Global;

impl Protocol {
    // The empty protocol: no name and no lines.
    pub fn empty(heap: Global) -> Protocol
        ensures no_name_and_no_lines { protocol_seen result ≡ empty }
    {
        Protocol {
            parts: Parts::empty(heap),
        }
    }
}

fn parse(heap: Global, bytes: &[u8]) -> Result<Protocol, ReadFault>
    ensures the_protocol_that_the_file_says_or_its_fault { Parsed result (protocol_of bytes.now) }
{
    let mut reader = ProtocolReader {
        heap,
        row: 0,
        parts: Parts::empty(heap),
    };
    read_file(&mut reader, bytes)?;
    let ProtocolReader { parts, .. } = reader;
    Ok(Protocol { parts })
}

// Reads a protocol file into the caller's place. After a refusal, or for want of memory, the empty protocol stands there.
pub fn read(heap: Global, bytes: &[u8], into: &mut Protocol) -> Result<(), ReadFault>
    ensures the_protocol_that_the_file_says_or_the_empty_one { Told result (protocol_seen into.new) (protocol_of bytes.now) }
    ensures what_is_read_obeys_all_limits_and_sorts { OnOk result (Lawful (protocol_seen into.new)) }
    ensures what_is_read_is_its_written_form { OnOk result (written (protocol_seen into.new) ≡ bytes.now) }
    ensures every_protocol_can_be_kept { EveryProtocolCanBeKept }
{
    *into = Protocol::empty(heap);
    *into = parse(heap, bytes)?;
    Ok(())
}
