// Whether two protocols say the same.
ghost use Rattle.std.specs.Prelude.{◌≡◌, Decides};
ghost use Rattle.protocol.specs.Answers.{protocol_seen};

use crate::record::Protocol;

impl Protocol {
    // Whether the two say the same. Beside `==`, since it promises just that.
    #[tactic(auto, using(crate::proofs::Equals::protocols_decide))]
    pub fn equals(&self, other: &Protocol) -> bool
        ensures equal_exactly_if_they_say_the_same { Decides result (protocol_seen self.now ≡ protocol_seen other.now) }
    {
        self == other
    }
}
