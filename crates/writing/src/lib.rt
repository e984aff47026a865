// Writing a line: its words, and the whole line; and what ties that to reading.

#![tactic(auto)]

pub mod laws;
pub mod lines;
pub mod pieces;
