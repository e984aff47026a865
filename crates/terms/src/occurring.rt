// The variables of terms.
ghost use Rattle.std.specs.Prelude.{◌≡◌, map, IfOk};
ghost use Rattle.std.specs.List.{range_with_len};
ghost use Rattle.semantics.specs.Trees.{occurs};
ghost use Rattle.terms.specs.Reading.{occurs_at, occurs_in};
ghost use Rattle.terms.specs.Trees.{tree_at, trees};

use crate::Term;
use crate::meanings::{Meaning, at_or, meanings};
use std::alloc::{AllocError, Global};

// Whether the variable occurs in the term of a number.
fn occurs_in_number(flags: &[bool], n: u16) -> bool
    ensures in_that_term { result ≡ occurs_at flags.now n }
{
    at_or(flags, n, false)
}

// Whether a variable occurs in a term, given in which of the terms before it it occurs. By a match on each form: going over
// `Term::arguments` takes up to twice the instructions.
fn occurs_in_term(variable: u16, flags: &[bool], term: Term) -> bool
    ensures in_that_term { result ≡ occurs_in variable flags.now term }
{
    match term {
        Term::Var(v) => variable == v,
        Term::Val(_, _) | Term::True | Term::False => false,
        Term::Not(a) => occurs_in_number(flags, a),
        Term::Eq(a, b) | Term::And(a, b) | Term::Or(a, b) | Term::Imp(a, b) => {
            occurs_in_number(flags, a) || occurs_in_number(flags, b)
        }
        Term::Ite(f, a, b) => {
            occurs_in_number(flags, f) || occurs_in_number(flags, a) || occurs_in_number(flags, b)
        }
    }
}

// Trees read as whether a variable occurs in them.
#[derive(Drop)]
struct Occurrence {
    variable: u16,
}

impl Meaning for Occurrence {
    type Item = bool;

    ghost meaning = { λ m tree. occurs m.variable tree };

    fn read(&self, before: &[bool], term: Term) -> bool {
        occurs_in_term(self.variable, before, term)
    }
}

// Of each of the first `count` variables, whether it occurs in the term of a number.
pub fn occurring(
    heap: Global,
    terms: &[Term],
    term: u16,
    count: u16,
) -> Result<Vec<bool>, AllocError>
    ensures whether_each_variable_occurs_in_the_tree { IfOk result (λ found. found.items ≡ map (λ v. occurs v (tree_at (trees terms.now) term)) (range_with_len 0 count)) }
{
    let mut found = Vec::new(heap);
    for variable in 0..count {
        let flags = meanings(heap, &Occurrence { variable }, terms)?;
        found.push(occurs_in_number(flags.as_slice(), term))?;
    }
    Ok(found)
}
