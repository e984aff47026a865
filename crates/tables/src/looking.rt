// The empty tables, and finding types, values, variables and formulas.
ghost use Rattle.std.specs.Prelude.{◌≡◌, ◌<◌, ◌≤◌, [], ◌∷◌, map, length, IfSome, vec_len, slice_index_or};
ghost use Rattle.names.specs.Names.{place_in, spelled};
ghost use Rattle.tables.specs.Records.{no_types, no_variables, no_terms};
ghost use Rattle.tables.specs.Taking.{unless, no_such, formula_tests};
ghost use Rattle.tables.specs.Views.{types_seen, variables_seen, terms_seen};
ghost use Rattle.terms.specs.Sorts.{sort_of_number};

use crate::term_table::TermTable;
use crate::types::TypeTable;
use crate::variables::VariableTable;
use names::{Name, find};
use std::alloc::Global;
use terms::Sort;
use text::faults::{LineFault, Wrong};
use words::Number;

// The number of the first of these names that is this one.
fn number_in(names: &Vec<Name>, name: &[u8]) -> Option<u16>
    requires few { vec_len names.now ≤ 32 }
    ensures its_number_among_the_names { result ≡ place_in (map spelled names.now.items) name.now }
    ensures it_is_one_of_them { IfSome result (λ i. i < vec_len names.now) }
{
    find(names, name).map(|i| i as u16)
}

impl TypeTable {
    // No types.
    pub fn empty(heap: Global) -> TypeTable
        ensures no_types { types_seen result ≡ no_types }
    {
        TypeTable {
            names: Vec::new(heap),
            values: Vec::new(heap),
            sizes: Vec::new(heap),
        }
    }

    // The number of the type with this name.
    pub fn number(&self, name: &[u8]) -> Option<u16>
        ensures its_number_among_the_types { result ≡ place_in (types_seen self.now).names name.now }
        ensures it_is_one_of_them { IfSome result (λ i. i < vec_len self.now.names) }
    {
        number_in(&self.names, name)
    }

    // The number of a type's value; none if there is no such type.
    pub fn value_number(&self, kind: u16, value: &[u8]) -> Option<u16>
        ensures its_number_among_the_values { result ≡ place_in (slice_index_or (types_seen self.now).values kind []) value.now }
    {
        // By a test and an index, so that a must-fail edit can turn the test.
        if kind as usize >= self.values.len() {
            return None;
        }
        number_in(&self.values[kind as usize], value)
    }
}

impl VariableTable {
    // No variables, and so one state.
    pub fn empty(heap: Global) -> VariableTable
        ensures no_variables_and_one_state { variables_seen result ≡ no_variables }
    {
        VariableTable {
            names: Vec::new(heap),
            kinds: Vec::new(heap),
            states: 1,
        }
    }

    // The number of the variable with this name.
    pub fn number(&self, name: &[u8]) -> Option<u16>
        ensures its_number_among_the_variables { result ≡ place_in (variables_seen self.now).names name.now }
        ensures it_is_one_of_them { IfSome result (λ i. i < vec_len self.now.names) }
    {
        number_in(&self.names, name)
    }
}

impl TermTable {
    // No terms.
    pub fn empty(heap: Global) -> TermTable
        ensures no_terms { terms_seen result ≡ no_terms }
    {
        TermTable {
            terms: Vec::new(heap),
            sorts: Vec::new(heap),
        }
    }

    // The sort of the term of this number, or the fault that there is none.
    pub fn sort(&self, n: Number) -> Result<Sort, LineFault>
        ensures the_sort_or_the_fault { result ≡ unless (no_such (terms_seen self.now).sorts n ∷ []) (sort_of_number (terms_seen self.now).sorts n.value) }
    {
        self.sorts
            .get(n.value as usize)
            .copied()
            .ok_or(Wrong::NoSuch.at(n.column))
    }

    // The number of a term that is a formula, or the fault that it is none.
    pub fn formula(&self, n: Number) -> Result<u16, LineFault>
        ensures a_formula_or_the_fault { result ≡ unless (formula_tests (terms_seen self.now).sorts n) n.value }
    {
        match self.sort(n)? {
            Sort::Formula => Ok(n.value),
            Sort::Value(_) => Err(Wrong::WrongSort.at(n.column)),
        }
    }
}
