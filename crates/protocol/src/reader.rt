// Half a protocol file.
use crate::parts::Parts;
use std::alloc::Global;

// The row of the last line that was read, and what the lines made so far; `heap` gives memory for more.
#[derive(Drop)]
pub struct ProtocolReader {
    pub heap: Global,
    pub row: u8,
    pub parts: Parts,
}
