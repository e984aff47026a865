// The values of terms in a state.
ghost use Rattle.std.specs.Prelude.{◌≡◌, map, IfOk};
ghost use Rattle.semantics.specs.Trees.{bit, is_true, value};
ghost use Rattle.terms.specs.Reading.{value_at, value_of};
ghost use Rattle.terms.specs.Trees.{trees};

use crate::Term;
use crate::meanings::{Meaning, at_or, meanings};
use std::alloc::{AllocError, Global};

// The value of a formula.
fn number(truth: bool) -> u16
    ensures one_if_true_else_zero { result ≡ bit truth }
{
    u16::from(truth)
}

// Whether a value counts as true.
pub(crate) fn counts_as_true(n: u16) -> bool
    ensures not_zero { result ≡ is_true n }
{
    n != 0
}

// The value of the term of a number.
pub(crate) fn value_of_number(values: &[u16], n: u16) -> u16
    ensures its_value_or_that_of_no_term { result ≡ value_at values.now n }
{
    at_or(values, n, 0)
}

// Whether the term of a number is true.
fn is_true(values: &[u16], n: u16) -> bool
    ensures whether_its_value_is_not_zero { result ≡ is_true (value_at values.now n) }
{
    counts_as_true(value_of_number(values, n))
}

// The value of a term in a state, given the values of the terms before it.
fn value_of_term(state: &[u16], values: &[u16], term: Term) -> u16
    ensures its_value { result ≡ value_of state.now values.now term }
{
    match term {
        Term::Var(v) => value_of_number(state, v),
        Term::Val(_, k) => k,
        Term::True => 1,
        Term::False => 0,
        Term::Eq(a, b) => number(value_of_number(values, a) == value_of_number(values, b)),
        Term::Not(a) => number(!is_true(values, a)),
        Term::And(a, b) => number(is_true(values, a) && is_true(values, b)),
        Term::Or(a, b) => number(is_true(values, a) || is_true(values, b)),
        Term::Imp(a, b) => number(!is_true(values, a) || is_true(values, b)),
        Term::Ite(f, a, b) => value_of_number(values, if is_true(values, f) { a } else { b }),
    }
}

// Trees read as their values in a state.
#[derive(Drop)]
struct Evaluation<'a> {
    state: &'a [u16],
}

impl Meaning for Evaluation<'_> {
    type Item = u16;

    ghost meaning = { λ m tree. value tree m.state.now };

    fn read(&self, before: &[u16], term: Term) -> u16 {
        value_of_term(self.state, before, term)
    }
}

// The value of every term in a state.
pub fn evaluate(heap: Global, terms: &[Term], state: &[u16]) -> Result<Vec<u16>, AllocError>
    ensures the_values_of_the_trees { IfOk result (λ values. values.items ≡ map (λ tree. value tree state.now) (trees terms.now)) }
{
    meanings(heap, &Evaluation { state }, terms)
}
