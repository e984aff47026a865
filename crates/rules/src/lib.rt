// The rules of a protocol, and what the lines of its rules add.

#![tactic(auto)]

pub mod comparing;
pub mod copying;
pub mod table;
pub mod taking;
