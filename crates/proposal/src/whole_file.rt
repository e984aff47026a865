// Reading a proposal file.
ghost use Rattle.std.specs.Prelude.{◌≡◌, false, IfOk, OnOk};
ghost use Rattle.protocol.specs.Answers.{protocol_seen};
ghost use Rattle.proposal.specs.Answers.{proposal_seen, Parsed, Told};
ghost use Rattle.proposal.specs.Drafts.{draft_seen};
ghost use Rattle.proposal.specs.Lawful.{LawfulWith};
ghost use Rattle.proposal.specs.Laws.{NothingIsLost, EveryProposalCanBeKept};
ghost use Rattle.proposal.specs.Reading.{Draft, begun, taken, ended, finished, proposal_of};
ghost use Rattle.proposal.specs.Records.{empty};
ghost use Rattle.proposal.specs.Views.{parts_seen};
ghost use Rattle.proposal.specs.Written.{written};
ghost use Rattle.reading.specs.Taking.{Came};

use crate::invariants::InvariantTable;
use crate::parts::Parts;
use crate::reader::ProposalReader;
use crate::record::Proposal;
use line::following::next_line;
use line::lines::File;
use line::rows::is_last;
use names::Name;
use protocol::record::Protocol;
use reading::faults::{ReadFault, TakeFault, in_file};
use reading::files::{Reader, read_file};
use std::alloc::{AllocError, Global};
use tables::term_table::TermTable;

impl Parts {
    fn empty(heap: Global) -> Parts
        ensures no_name_and_no_lines { parts_seen result ≡ empty }
    {
        Parts {
            name: Name::empty(heap),
            terms: TermTable::empty(heap),
            invariants: InvariantTable {
                rows: Vec::new(heap),
            },
            claims: Vec::new(heap),
        }
    }
}

impl Proposal {
    // The empty proposal: no name and no lines.
    pub fn empty(heap: Global) -> Proposal
        ensures no_name_and_no_lines { proposal_seen result ≡ empty }
    {
        Proposal {
            parts: Parts::empty(heap),
        }
    }
}

// Before the first line.
fn begin<'p>(heap: Global, protocol: &'p Protocol) -> Result<ProposalReader<'p>, AllocError>
    ensures nothing_is_read { IfOk result (λ reader. draft_seen reader ≡ begun (protocol_seen protocol.now)) }
{
    let mut parts = Parts::empty(heap);
    parts.terms = protocol.term_table().copy(heap)?;
    Ok(ProposalReader {
        heap,
        protocol,
        row: 0,
        parts,
    })
}

impl ProposalReader<'_> {
    // One line more, the line of this number, or its fault.
    fn take_line(&mut self, number: usize, line: &[u8]) -> Result<(), TakeFault>
        ensures what_is_made_of_the_line { Came result (draft_seen self.new) (taken (draft_seen self.old) number line.now) }
    {
        let (row, line) = next_line(File::Proposal, self.row, line)?;
        self.parts
            .take_line(self.heap, self.protocol, number, line)?;
        self.row = row;
        Ok(())
    }
}

impl Reader for ProposalReader<'_> {
    type Fault = ReadFault;

    ghost State = { Draft };

    ghost seen = { draft_seen };

    ghost step = { taken };

    ghost ended = { ended };

    ghost steady = { false };

    fn take(&mut self, number: usize, line: &[u8]) -> Result<(), ReadFault> {
        self.take_line(number, line)
            .map_err(|why| in_file(number, why))
    }

    fn is_ended(&self) -> bool {
        is_last(File::Proposal, self.row)
    }
}

// The proposal that is left at the end: its terms are those behind the protocol's.
fn finish(heap: Global, reader: ProposalReader<'_>) -> Result<Parts, AllocError>
    ensures the_terms_behind_those_of_the_protocol { IfOk result (λ parts. parts_seen parts ≡ finished (draft_seen reader.entry).protocol (draft_seen reader.entry).made) }
{
    let ProposalReader {
        protocol,
        parts,
        ..
    } = reader;
    let Parts {
        name,
        terms,
        invariants,
        claims,
    } = parts;
    let terms = terms.behind(heap, protocol.terms().len())?;
    Ok(Parts {
        name,
        terms,
        invariants,
        claims,
    })
}

fn parse(heap: Global, protocol: &Protocol, bytes: &[u8]) -> Result<Proposal, ReadFault>
    ensures the_proposal_that_the_file_says_or_its_fault { Parsed result (proposal_of (protocol_seen protocol.now) bytes.now) }
    ensures what_is_read_obeys_all_limits_and_sorts { IfOk result (λ q. ∥ LawfulWith (protocol_seen protocol.now) (proposal_seen q) ∥₁) }
    ensures what_is_read_is_its_written_form { IfOk result (λ q. written (protocol_seen protocol.now) (proposal_seen q) ≡ bytes.now) }
{
    let mut reader = begin(heap, protocol)?;
    read_file(&mut reader, bytes)?;
    let parts = finish(heap, reader)?;
    Ok(Proposal { parts })
}

// Reads a proposal file with its protocol into the caller's place. After a refusal, or for want of memory, the empty
// proposal stands there. A file that is read has just the bytes that are written from the proposal, and every proposal
// that obeys all limits and sorts can be written and read again.
pub fn read(
    heap: Global,
    protocol: &Protocol,
    bytes: &[u8],
    into: &mut Proposal,
) -> Result<(), ReadFault>
    ensures the_proposal_that_the_file_says_or_the_empty_one { Told result (proposal_seen into.new) (proposal_of (protocol_seen protocol.now) bytes.now) }
    ensures what_is_read_obeys_all_limits_and_sorts { OnOk result (∥ LawfulWith (protocol_seen protocol.now) (proposal_seen into.new) ∥₁) }
    ensures what_is_read_is_its_written_form { OnOk result (written (protocol_seen protocol.now) (proposal_seen into.new) ≡ bytes.now) }
    ensures nothing_is_lost_and_nothing_is_invented { NothingIsLost }
    ensures every_proposal_can_be_kept { EveryProposalCanBeKept }
{
    *into = Proposal::empty(heap);
    *into = parse(heap, protocol, bytes)?;
    Ok(())
}
