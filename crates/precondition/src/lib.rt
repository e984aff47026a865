// The precondition of a formula under a rule, written into a scratch of new terms.

#![tactic(auto)]

pub mod answers;
pub mod copies;
pub mod faults;
pub mod laws;
pub mod making;
mod marks;
pub mod scratch;
mod search;
