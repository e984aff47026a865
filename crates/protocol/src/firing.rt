// Firing a rule of a protocol.
ghost use Rattle.std.specs.Prelude.{◌≡◌, IfOk, vec_items};
ghost use Rattle.std.specs.Option.{option_map};
ghost use Rattle.protocol.specs.Answers.{protocol_seen};
ghost use Rattle.protocol.specs.Firing.{fired};

use crate::record::Protocol;
use std::alloc::{AllocError, Global};
use terms::firing;

impl Protocol {
    // The state after the rule of this number; none if there is no such rule, or if its guard is not true in the state.
    pub fn fire(
        &self,
        heap: Global,
        number: usize,
        state: &[u16],
    ) -> Result<Option<Vec<u16>>, AllocError>
        ensures the_state_after_the_rule_if_it_fires { IfOk result (λ next. option_map vec_items next ≡ fired (protocol_seen self.now) number state.now) }
    {
        let Some(rule) = self.rules().get(number) else {
            return Ok(None);
        };
        firing::fire(heap, self.terms(), rule.guard, &rule.sets, state)
    }
}
