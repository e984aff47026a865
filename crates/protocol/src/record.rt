// The record of a protocol.
ghost use Rattle.std.specs.Prelude.{◌≡◌, ◌⊎◌};
ghost use Rattle.protocol.specs.Lawful.{Lawful};
ghost use Rattle.protocol.specs.Records.{empty};
ghost use Rattle.protocol.specs.Views.{parts_seen};

use crate::parts::Parts;

// A protocol that was read from a file, and then obeys all limits and sorts; or the empty one.
#[derive(Drop, PartialEq)]
pub struct Protocol {
    pub(crate) parts: Parts,
    ghost lawful_or_empty: { ∥ Lawful (parts_seen parts) ⊎ (parts_seen parts ≡ empty) ∥₁ },
}
