// The tables that protocol and proposal files speak of: types, variables and terms.

#![tactic(auto)]

pub mod comparing;
pub mod copying;
pub mod looking;
pub mod taking;
pub mod term_table;
pub mod types;
pub mod variables;
