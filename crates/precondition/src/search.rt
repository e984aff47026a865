// Looking for a term among terms.
ghost use Rattle.std.specs.Prelude.{◌≡◌, ◌≤◌, ◌++◌, length, slice_index};
ghost use Rattle.precondition.specs.Steps.{First, assigned_term, replaced_by};
ghost use Rattle.precondition.specs.Tables.{renamed};

use terms::meanings::at_or;
use terms::{Assignment, Term};

// The first place of a term among terms. A term that is new has the place at their end, which is the one that it takes.
pub(crate) fn find(among: &[Term], term: Term) -> usize
    ensures its_first_place { First among.now term result }
{
    among
        .iter()
        .position(|other| *other == term)
        .unwrap_or(among.len())
}

// The first place of a term among terms and further terms. Each slice is searched by itself: a search through the chain of
// the two takes twice the instructions.
pub(crate) fn find_in_both(among: &[Term], further: &[Term], term: Term) -> u16
    requires few { length among.now ≤ 512 }
    requires few_further { length further.now ≤ 512 }
    ensures its_first_place { First (among.now ++ further.now) term result }
{
    let place = find(among, term);
    if place < among.len() {
        place as u16
    } else {
        (place + find(further, term)) as u16
    }
}

// A term with each of its arguments by its result.
pub(crate) fn rename(results: &[u16], term: Term) -> Term
    ensures each_argument_by_its_result { result ≡ renamed (λ a. slice_index results.now a) term }
{
    let result = |a: u16| at_or(results, a, 0);
    match term {
        Term::Var(_) | Term::Val(_, _) | Term::True | Term::False => term,
        Term::Eq(a, b) => Term::Eq(result(a), result(b)),
        Term::Not(a) => Term::Not(result(a)),
        Term::And(a, b) => Term::And(result(a), result(b)),
        Term::Or(a, b) => Term::Or(result(a), result(b)),
        Term::Imp(a, b) => Term::Imp(result(a), result(b)),
        Term::Ite(f, a, b) => Term::Ite(result(f), result(a), result(b)),
    }
}

// The term that a variable is set to: of several assignments, the first counts.
fn assigned(sets: &[Assignment], variable: u16) -> Option<u16>
    ensures the_term_of_the_first_assignment { result ≡ assigned_term sets.now variable }
{
    sets.iter()
        .find(|set| set.variable == variable)
        .map(|set| set.term)
}

// The term that a term is replaced by, if it is a variable that is set.
pub(crate) fn replacement(sets: &[Assignment], term: Term) -> Option<u16>
    ensures what_it_is_replaced_by { result ≡ replaced_by sets.now term }
{
    match term {
        Term::Var(v) => assigned(sets, v),
        _ => None,
    }
}
