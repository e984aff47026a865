// Reading a file line by line, whatever is made of its lines.

#![tactic(auto)]

pub mod faults;
pub mod files;
