// What a protocol says, part by part.
ghost use Rattle.std.specs.Prelude.{◌≡◌, ◌≤◌, [], map, length, slice_index_or};
ghost use Rattle.std.specs.List.{slice_get};
ghost use Rattle.std.specs.Option.{option_map};
ghost use Rattle.names.specs.Names.{spelled};
ghost use Rattle.rules.specs.Views.{rule_seen};
ghost use Rattle.tables.specs.Views.{terms_seen, types_seen, variables_seen};
ghost use Rattle.protocol.specs.Answers.{protocol_seen};
ghost use Rattle.protocol.specs.Looking.{name_of_rule, guard_of_rule, sets_of_rule};

use crate::record::Protocol;
use names::Name;
use rules::table::Rule;
use tables::term_table::TermTable;
use tables::types::TypeTable;
use tables::variables::VariableTable;
use terms::{Assignment, Sort, Term};

// The name of this number.
fn name_at(names: &[Name], i: usize) -> Option<&[u8]>
    ensures the_name_of_this_number { option_map (λ x. x.now) result ≡ slice_get (map spelled names.now) i }
{
    names.get(i).map(|name| name.as_bytes())
}

impl Protocol {
    // Its name; no bytes for the empty protocol.
    pub fn name(&self) -> &[u8]
        ensures the_name_of_the_protocol { result.now ≡ (protocol_seen self.now).name }
    {
        self.parts.name.as_bytes()
    }

    // Its types.
    pub fn types(&self) -> &TypeTable
        ensures the_types_of_the_protocol { types_seen result.now ≡ (protocol_seen self.now).types }
    {
        &self.parts.types
    }

    // How many types it has.
    pub fn type_count(&self) -> usize
        ensures how_many_types { result ≡ length (protocol_seen self.now).types.names }
    {
        self.parts.types.names.len()
    }

    // The name of a type.
    pub fn type_name(&self, i: usize) -> Option<&[u8]>
        ensures the_name_of_the_type { option_map (λ x. x.now) result ≡ slice_get (protocol_seen self.now).types.names i }
    {
        name_at(&self.parts.types.names, i)
    }

    // The name of a value of a type.
    pub fn value_name(&self, of: usize, i: usize) -> Option<&[u8]>
        ensures the_name_of_the_value { option_map (λ x. x.now) result ≡ slice_get (slice_index_or (protocol_seen self.now).types.values of []) i }
    {
        name_at(self.parts.types.values.get(of)?, i)
    }

    // How many values each type has.
    pub fn sizes(&self) -> &[u16]
        ensures the_size_of_each_type { result.now ≡ (protocol_seen self.now).types.sizes }
    {
        &self.parts.types.sizes
    }

    // Its variables.
    pub fn variables(&self) -> &VariableTable
        ensures the_variables_of_the_protocol { variables_seen result.now ≡ (protocol_seen self.now).variables }
    {
        &self.parts.variables
    }

    // How many variables it has.
    pub fn variable_count(&self) -> usize
        ensures how_many_variables { result ≡ length (protocol_seen self.now).variables.names }
    {
        self.parts.variables.names.len()
    }

    // The name of a variable.
    pub fn variable_name(&self, i: usize) -> Option<&[u8]>
        ensures the_name_of_the_variable { option_map (λ x. x.now) result ≡ slice_get (protocol_seen self.now).variables.names i }
    {
        name_at(&self.parts.variables.names, i)
    }

    // The type of each variable.
    pub fn variable_types(&self) -> &[u16]
        ensures the_type_of_each_variable { result.now ≡ (protocol_seen self.now).variables.kinds }
    {
        &self.parts.variables.kinds
    }

    // How many states its variables have.
    pub fn state_count(&self) -> u64
        ensures how_many_states { result ≡ (protocol_seen self.now).variables.states }
    {
        self.parts.variables.states
    }

    // Its terms with their sorts.
    pub fn term_table(&self) -> &TermTable
        ensures the_terms_of_the_protocol { terms_seen result.now ≡ (protocol_seen self.now).terms }
    {
        &self.parts.terms
    }

    // Its terms.
    pub fn terms(&self) -> &[Term]
        ensures the_terms_in_order { result.now ≡ (protocol_seen self.now).terms.terms }
    {
        &self.parts.terms.terms
    }

    // The sort of each term.
    pub fn sorts(&self) -> &[Sort]
        ensures the_sort_of_each_term { result.now ≡ (protocol_seen self.now).terms.sorts }
    {
        &self.parts.terms.sorts
    }

    // Its initial formulas.
    pub fn initial(&self) -> &[u16]
        ensures the_initial_formulas_in_order { result.now ≡ (protocol_seen self.now).initial }
    {
        &self.parts.initial
    }

    // Its rules.
    pub fn rules(&self) -> &[Rule]
        ensures the_rules_in_order { map rule_seen result.now ≡ (protocol_seen self.now).rules }
        ensures at_most_64 { length result.now ≤ 64 }
    {
        &self.parts.rules.rules
    }

    // How many rules it has.
    pub fn rule_count(&self) -> usize
        ensures how_many_rules { result ≡ length (protocol_seen self.now).rules }
    {
        self.parts.rules.rules.len()
    }

    // The name of a rule.
    pub fn rule_name(&self, i: usize) -> Option<&[u8]>
        ensures the_name_of_the_rule { option_map (λ x. x.now) result ≡ slice_get (map name_of_rule (protocol_seen self.now).rules) i }
    {
        self.parts
            .rules
            .rules
            .get(i)
            .map(|rule| rule.name.as_bytes())
    }

    // The guard of a rule.
    pub fn guard(&self, i: usize) -> Option<u16>
        ensures the_guard_of_the_rule { result ≡ slice_get (map guard_of_rule (protocol_seen self.now).rules) i }
    {
        self.parts.rules.rules.get(i).map(|rule| rule.guard)
    }

    // The assignments of a rule.
    pub fn sets(&self, i: usize) -> Option<&[Assignment]>
        ensures the_assignments_of_the_rule { option_map (λ s. s.now) result ≡ slice_get (map sets_of_rule (protocol_seen self.now).rules) i }
    {
        self.parts
            .rules
            .rules
            .get(i)
            .map(|rule| rule.sets.as_slice())
    }
}
