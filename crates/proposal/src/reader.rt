// Half a proposal file.
use crate::parts::Parts;
use protocol::record::Protocol;
use std::alloc::Global;

// The protocol that the file is read with, the row of the last line that was read, and what the lines made so far: the
// terms are the protocol's and then the proposal's. `heap` gives memory for more.
#[derive(Drop)]
pub struct ProposalReader<'p> {
    pub heap: Global,
    pub protocol: &'p Protocol,
    pub row: u8,
    pub parts: Parts,
}
