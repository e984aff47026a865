// Finding invariants and rules by their names.
ghost use Rattle.std.specs.Prelude.{◌≡◌, map};
ghost use Rattle.names.specs.Names.{spelled, place_in};
ghost use Rattle.protocol.specs.Answers.{protocol_seen};
ghost use Rattle.proposal.specs.Taking.{invariant_names};
ghost use Rattle.proposal.specs.Views.{invariants_seen};

use crate::invariants::{Invariant, InvariantTable};
use names::{Named, find};
use protocol::record::Protocol;

impl Named for Invariant {
    ghost named = { λ i. spelled i.name };

    fn name(&self) -> &[u8] {
        self.name.as_bytes()
    }
}

impl InvariantTable {
    // The number of the invariant with this name.
    pub(crate) fn number(&self, name: &[u8]) -> Option<u16>
        ensures its_number_among_the_invariants { result ≡ place_in (invariant_names (invariants_seen self.now)) name.now }
    {
        find(&self.rows, name).map(|number| number as u16)
    }
}

// The number of the protocol's rule with this name.
pub(crate) fn rule_number(protocol: &Protocol, name: &[u8]) -> Option<u16>
    ensures its_number_among_the_rules { result ≡ place_in (map (λ rule. rule.name) (protocol_seen protocol.now).rules) name.now }
{
    find(protocol.rules(), name).map(|number| number as u16)
}
