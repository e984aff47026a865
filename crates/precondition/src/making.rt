// The lowest copies of the terms of a table.
ghost use Rattle.std.specs.Prelude.{◌≡◌, true, length};
ghost use Rattle.precondition.specs.Tables.{accepted, all_below, formed, arguments};
ghost use Rattle.precondition.specs.Writing.{Came};

use crate::copies::Copies;
use crate::faults::{Fault, Refusal};
use crate::search::{find, rename};
use std::alloc::Global;
use terms::{MOST_TERMS, Term};

// Whether each argument of a term is below a number. By a match on each form: going over `Term::arguments` takes up to twice the time
// where a table is refused.
fn has_arguments_below(term: Term, n: usize) -> bool
    ensures each_argument_is_below { result ≡ all_below n (arguments term) }
{
    match term {
        Term::Var(_) | Term::Val(_, _) | Term::True | Term::False => true,
        Term::Not(a) => (a as usize) < n,
        Term::Eq(a, b) | Term::And(a, b) | Term::Or(a, b) | Term::Imp(a, b) => {
            (a as usize) < n && (b as usize) < n
        }
        Term::Ite(f, a, b) => (f as usize) < n && (a as usize) < n && (b as usize) < n,
    }
}

// Whether each argument of each term is the number of an earlier one.
fn is_formed(terms: &[Term]) -> bool
    ensures each_argument_is_earlier { result ≡ formed terms.now }
{
    terms
        .iter()
        .enumerate()
        .all(|(n, term)| has_arguments_below(*term, n))
}

impl<'a> Copies<'a> {
    // The table with the lowest copies of its terms, or why the table is refused.
    pub fn new(heap: Global, terms: &'a [Term]) -> Result<Copies<'a>, Fault>
        ensures the_table_or_the_refusal { Came (λ c. c.terms.now) result (accepted terms.now) }
    {
        if terms.len() > MOST_TERMS {
            return Err(Fault::Refused(Refusal::TooManyTerms));
        }
        if !is_formed(terms) {
            return Err(Fault::Refused(Refusal::ArgumentNotEarlier));
        }
        let mut lowest = Vec::new(heap);
        let mut named = Vec::new(heap);
        for term in terms {
            let next = rename(lowest.as_slice(), *term);
            let place = find(named.as_slice(), next);
            lowest.push(place as u16)?;
            named.push(next)?;
        }
        Ok(Copies {
            terms,
            lowest,
            named,
        })
    }
}
