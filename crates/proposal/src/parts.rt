// The parts of a proposal.
use crate::claims::Claim;
use crate::invariants::InvariantTable;
use names::Name;
use tables::term_table::TermTable;

#[derive(Drop)]
pub struct Parts {
    pub name: Name,
    pub terms: TermTable,
    pub invariants: InvariantTable,
    pub claims: Vec<Claim>,
}
