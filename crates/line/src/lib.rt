// One line of a protocol or proposal file, read: its key, its words, what it says; and the order of the lines.

#![tactic(auto)]

pub mod following;
pub mod lines;
pub mod operators;
pub mod reading;
pub mod rows;
