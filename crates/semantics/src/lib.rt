// The meaning of protocols is defined in specs/. Each function here stands for a law about it: the contract is the law, and
// no call does anything.

#![tactic(auto)]

ghost use Rattle.semantics.specs.Laws.{TruthLaw, SortLaw, DeclarationLaw, OccurrenceLaw, AssignmentLaw, FiringLaw, StateLaw, ReplacementLaw, PreconditionLaw, PreconditionSortLaw, UntouchedLaw, ReachableLaw, ConsistencyLaw};

#[tactic(auto, using(crate::proofs::Truth::truth_law))]
pub fn truth_law() -> u8
    ensures each_operator_means_what_logic_says_of_it { TruthLaw }
{
    0
}

#[tactic(auto, using(crate::proofs::Sorts::sort_law))]
pub fn sort_law() -> u8
    ensures a_tree_has_a_value_of_its_sort_in_every_state { SortLaw }
{
    0
}

#[tactic(auto, using(crate::proofs::Sorts::declaration_law))]
pub fn declaration_law() -> u8
    ensures every_variable_of_a_tree_with_a_sort_is_declared { DeclarationLaw }
{
    0
}

#[tactic(auto, using(crate::proofs::Replacing::occurrence_law))]
pub fn occurrence_law() -> u8
    ensures a_value_depends_only_on_the_variables_that_occur { OccurrenceLaw }
{
    0
}

#[tactic(auto, using(crate::proofs::Firings::assignment_law))]
pub fn assignment_law() -> u8
    ensures a_variable_is_set_to_the_tree_of_one_of_its_assignments { AssignmentLaw }
{
    0
}

pub fn firing_law() -> u8
    ensures the_state_after_is_the_one_in_which_each_variable_has_its_next_value { FiringLaw }
{
    0
}

pub fn state_law() -> u8
    ensures a_well_sorted_rule_leads_from_a_state_to_a_state { StateLaw }
{
    0
}

#[tactic(auto, using(crate::proofs::Firings::replacement_law))]
pub fn replacement_law() -> u8
    ensures the_precondition_has_before_the_value_that_the_tree_has_after { ReplacementLaw }
{
    0
}

#[tactic(auto, using(crate::proofs::Firings::precondition_law))]
pub fn precondition_law() -> u8
    ensures the_precondition_is_true_before_exactly_if_the_formula_is_true_after { PreconditionLaw }
{
    0
}

#[tactic(auto, using(crate::proofs::Replacing::precondition_sort_law))]
pub fn precondition_sort_law() -> u8
    ensures the_precondition_has_the_sort_of_the_tree { PreconditionSortLaw }
{
    0
}

#[tactic(auto, using(crate::proofs::Replacing::untouched_law))]
pub fn untouched_law() -> u8
    ensures a_tree_none_of_whose_variables_is_set_is_its_own_precondition { UntouchedLaw }
{
    0
}

#[tactic(auto, using(crate::proofs::Invariants::reachable_law))]
pub fn reachable_law() -> u8
    ensures every_reachable_state_is_a_state_of_what_is_declared { ReachableLaw }
{
    0
}

#[tactic(auto, using(crate::proofs::Invariants::consistency_law))]
pub fn consistency_law() -> u8
    ensures invariants_kept_by_every_rule_are_true_in_every_reachable_state { ConsistencyLaw }
{
    0
}
