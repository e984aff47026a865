// The record of a proposal.
ghost use Rattle.std.specs.Prelude.{◌≡◌, ◌⊎◌};
ghost use Rattle.protocol.specs.Records.{ProtocolV};
ghost use Rattle.proposal.specs.Lawful.{LawfulWith};
ghost use Rattle.proposal.specs.Records.{empty};
ghost use Rattle.proposal.specs.Views.{parts_seen};

use crate::parts::Parts;

// A proposal that was read from a file with its protocol, and then obeys all limits and sorts with it; or the empty one.
#[derive(Drop)]
pub struct Proposal {
    pub(crate) parts: Parts,
    ghost lawful_or_empty: { ∥ ((p : ProtocolV) × LawfulWith p (parts_seen parts)) ⊎ (parts_seen parts ≡ empty) ∥₁ },
}
