// What a proposal says, part by part.
ghost use Rattle.std.specs.Prelude.{◌≡◌, map};
ghost use Rattle.tables.specs.Views.{terms_seen};
ghost use Rattle.proposal.specs.Answers.{proposal_seen};
ghost use Rattle.proposal.specs.Views.{invariant_seen};

use crate::claims::Claim;
use crate::invariants::Invariant;
use crate::record::Proposal;
use tables::term_table::TermTable;

impl Proposal {
    // The name of its protocol; no bytes for the empty proposal.
    pub fn name(&self) -> &[u8]
        ensures the_name_of_the_proposal { result.now ≡ (proposal_seen self.now).name }
    {
        self.parts.name.as_bytes()
    }

    // Its terms, which are numbered on from the protocol's.
    pub fn terms(&self) -> &TermTable
        ensures the_terms_of_the_proposal { terms_seen result.now ≡ (proposal_seen self.now).terms }
    {
        &self.parts.terms
    }

    // Its invariants.
    pub fn invariants(&self) -> &[Invariant]
        ensures the_invariants_in_order { map invariant_seen result.now ≡ (proposal_seen self.now).invariants }
    {
        self.parts.invariants.rows.as_slice()
    }

    // Its claims.
    pub fn claims(&self) -> &[Claim]
        ensures the_claims_in_order { result.now ≡ (proposal_seen self.now).claims }
    {
        self.parts.claims.as_slice()
    }
}
