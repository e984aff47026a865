// A text into lines, and what can be wrong with a line and with a file.

#![tactic(auto)]

pub mod faults;
pub mod lines;
