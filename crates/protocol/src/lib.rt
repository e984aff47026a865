// A protocol, read from its file.

#![tactic(auto)]

mod adding;
mod comparing;
mod copying;
mod firing;
mod initial;
mod looking;
mod parts;
mod reader;
pub mod record;
mod taking;
mod types;
mod variables;
pub mod whole_file;
