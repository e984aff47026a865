// A table with the lowest copy of each of its terms.
ghost use Rattle.std.specs.Prelude.{◌≡◌, ◌≤◌, true, length};
ghost use Rattle.precondition.specs.Tables.{formed, lowest as lowest_of, named as named_of};

use terms::Term;

// A table of at most 512 terms, each argument the number of an earlier one. Of each term it holds the lowest copy, and the
// term with each argument by the number of its lowest copy.
#[derive(Drop)]
pub struct Copies<'a> {
    pub(crate) terms: &'a [Term],
    pub(crate) lowest: Vec<u16>,
    pub(crate) named: Vec<Term>,
    ghost few: { length terms.now ≤ 512 },
    ghost well_formed: { formed terms.now ≡ true },
    ghost right: { lowest.items ≡ lowest_of terms.now },
    ghost rightly_named: { named.items ≡ named_of terms.now },
}
