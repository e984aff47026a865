// A proposal, read from its file with its protocol.

#![tactic(auto)]

pub mod claims;
pub mod invariants;
mod looking;
mod naming;
mod parts;
mod reader;
pub mod record;
mod taking;
mod taking_claims;
pub mod whole_file;
