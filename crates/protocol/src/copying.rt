// A protocol once more, in a heap that the caller gives: a `clone` takes memory from the heap that the value has.
ghost use Rattle.std.specs.Prelude.{◌≡◌, IfOk};
ghost use Rattle.protocol.specs.Answers.{protocol_seen};
ghost use Rattle.protocol.specs.Views.{parts_seen};

use crate::parts::Parts;
use crate::record::Protocol;
use std::alloc::{AllocError, Global};

impl Parts {
    // The same parts once more.
    pub(crate) fn copy(&self, heap: Global) -> Result<Parts, AllocError>
        ensures parts_that_say_the_same { IfOk result (λ p. parts_seen p ≡ parts_seen self.now) }
    {
        let name = self.name.copy(heap)?;
        let types = self.types.copy(heap)?;
        let variables = self.variables.copy(heap)?;
        let terms = self.terms.copy(heap)?;
        let initial = self.initial.as_slice().to_vec(heap)?;
        let rules = self.rules.copy(heap)?;
        Ok(Parts {
            name,
            types,
            variables,
            terms,
            initial,
            rules,
        })
    }
}

impl Protocol {
    // The same protocol once more.
    pub fn copy(&self, heap: Global) -> Result<Protocol, AllocError>
        ensures a_copy_says_the_same { IfOk result (λ p. protocol_seen p ≡ protocol_seen self.now) }
    {
        let parts = self.parts.copy(heap)?;
        Ok(Protocol { parts })
    }
}
