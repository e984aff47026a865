// The state after a rule.
ghost use Rattle.std.specs.Prelude.{◌≡◌, map, length, IfOk, vec_items};
ghost use Rattle.std.specs.List.{range_with_len};
ghost use Rattle.std.specs.Option.{option_map};
ghost use Rattle.terms.specs.Rules.{rule, after, set_value};

use crate::values::{counts_as_true, evaluate, value_of_number};
use crate::{Assignment, Term};
use std::alloc::{AllocError, Global};

// The state with all the assignments made at once, from the values that the terms have in the state before. The last
// assignment is made first, so that of several to one variable the first counts.
fn assign(
    heap: Global,
    values: &[u16],
    sets: &[Assignment],
    state: &[u16],
) -> Result<Vec<u16>, AllocError>
    ensures each_variable_has_its_next_value { IfOk result (λ next. next.items ≡ map (set_value values.now state.now sets.now) (range_with_len 0 (length state.now))) }
{
    let mut next = Vec::from_slice(heap, state)?;
    for set in sets.iter().rev() {
        if let Some(value) = next.get_mut(set.variable as usize) {
            *value = value_of_number(values, set.term);
        }
    }
    Ok(next)
}

// The state after the rule with this guard and these assignments, or none if the guard is not true in the state.
pub fn fire(
    heap: Global,
    terms: &[Term],
    guard: u16,
    sets: &[Assignment],
    state: &[u16],
) -> Result<Option<Vec<u16>>, AllocError>
    ensures the_state_after_the_rule_if_its_guard_is_true { IfOk result (λ next. option_map vec_items next ≡ after (rule terms.now guard sets.now) state.now) }
{
    let values = evaluate(heap, terms, state)?;
    if counts_as_true(value_of_number(values.as_slice(), guard)) {
        Ok(Some(assign(heap, values.as_slice(), sets, state)?))
    } else {
        Ok(None)
    }
}
