// Terms by numbers, their sorts, and what the trees that they stand for mean.

#![tactic(auto)]

pub mod firing;
pub mod meanings;
pub mod occurring;
pub mod values;

ghost use Rattle.std.specs.Prelude.{◌≡◌, false, length, [], ◌∷◌, nat_le, slice_index_or};
ghost use Rattle.std.specs.List.{flat_map};
ghost use Rattle.std.specs.Option.{option_to_list};
ghost use Rattle.terms.specs.Laws.{PrefixLaw, SortsLaw};
ghost use Rattle.terms.specs.Sorts.{number as number_of, argument as argument_of, declared, undeclared, first_fault, unless, sort_is_formula, sort_is_value, differ, sort};
ghost use Rattle.terms.specs.Trees.{arguments as arguments_of};
ghost use Rattle.terms.specs.declared.TermFault.TheVariants.{NoSuch, WrongSort};

// A table has at most this many terms.
pub const MOST_TERMS: usize = 512;

// A term. Its numbers are those of a variable, of a type and one of its values, or of earlier terms.
#[derive(Clone, Copy, Debug, PartialEq, Eq)]
pub enum Term {
    Var(u16),
    Val(u16, u16),
    True,
    False,
    Eq(u16, u16),
    Not(u16),
    And(u16, u16),
    Or(u16, u16),
    Imp(u16, u16),
    Ite(u16, u16, u16),
}

// The sort of a term: a formula, or a value of the type of this number.
#[derive(Clone, Copy, Debug, PartialEq, Eq)]
pub enum Sort {
    Formula,
    Value(u16),
}

// An assignment: the variable that is set, and the term whose value it takes.
#[derive(Clone, Copy, PartialEq, Eq)]
pub struct Assignment {
    pub variable: u16,
    pub term: u16,
}

// What is declared: of each type the number of its values, and of each variable its type.
#[derive(Clone, Copy)]
pub struct Declarations<'a> {
    pub types: &'a [u16],
    pub variables: &'a [u16],
}

// Why a term has no sort, and which of its arguments is at fault; they count from 0.
#[derive(Clone, Copy, Debug, PartialEq, Eq)]
pub enum TermFault {
    // A number of nothing that is declared, or of no earlier term.
    NoSuch(u8),
    // A term of the wrong sort.
    WrongSort(u8),
}

impl TermFault {
    // The number under which a report shows it.
    pub fn number(self) -> u8
        ensures the_number_of_the_fault { result ≡ number_of self }
    {
        match self {
            TermFault::NoSuch(_) => 8,
            TermFault::WrongSort(_) => 9,
        }
    }

    // The argument at fault.
    pub fn argument(self) -> u8
        ensures the_argument_at_fault { result ≡ argument_of self }
    {
        match self {
            TermFault::NoSuch(argument) | TermFault::WrongSort(argument) => argument,
        }
    }
}

impl Term {
    // The numbers of its arguments, from the left.
    pub fn arguments(self) -> [Option<u16>; 3]
        ensures its_arguments { flat_map option_to_list result ≡ arguments_of self }
    {
        match self {
            Term::Var(_) | Term::Val(_, _) | Term::True | Term::False => [None; 3],
            Term::Not(a) => [Some(a), None, None],
            Term::Eq(a, b) | Term::And(a, b) | Term::Or(a, b) | Term::Imp(a, b) => {
                [Some(a), Some(b), None]
            }
            Term::Ite(f, a, b) => [Some(f), Some(a), Some(b)],
        }
    }
}

impl Sort {
    // A formula is wanted at this argument.
    fn must_be_formula(self, argument: u8) -> Result<(), TermFault>
        ensures unless_it_is_a_value { result ≡ unless (first_fault ((sort_is_value self, WrongSort argument) ∷ [])) tt }
    {
        match self {
            Sort::Formula => Ok(()),
            Sort::Value(_) => Err(TermFault::WrongSort(argument)),
        }
    }

    // A value is wanted at this argument.
    fn must_be_value(self, argument: u8) -> Result<(), TermFault>
        ensures unless_it_is_a_formula { result ≡ unless (first_fault ((sort_is_formula self, WrongSort argument) ∷ [])) tt }
    {
        match self {
            Sort::Formula => Err(TermFault::WrongSort(argument)),
            Sort::Value(_) => Ok(()),
        }
    }

    // A value of the same type as this value is wanted at this argument.
    fn must_match(self, other: Sort, argument: u8) -> Result<(), TermFault>
        ensures unless_they_differ { sort_is_formula self ≡ false → result ≡ unless (first_fault ((differ self other, WrongSort argument) ∷ [])) tt }
    {
        if self == other {
            Ok(())
        } else {
            Err(TermFault::WrongSort(argument))
        }
    }
}

// What stands at the number that is this argument.
fn at<T: Copy>(items: &[T], n: u16, argument: u8) -> Result<T, TermFault>
    ensures the_item_or_that_there_is_none { (default : T) → result ≡ unless (first_fault ((nat_le (length items.now) n, NoSuch argument) ∷ [])) (slice_index_or items.now n default) }
{
    items
        .get(n as usize)
        .copied()
        .ok_or(TermFault::NoSuch(argument))
}

fn variable_sort(declarations: Declarations<'_>, v: u16) -> Result<Sort, TermFault>
    ensures the_type_of_the_variable { result ≡ sort (declared declarations.entry) [] (Term.Var v) }
{
    Ok(Sort::Value(at(declarations.variables, v, 0)?))
}

fn value_sort(declarations: Declarations<'_>, of: u16, value: u16) -> Result<Sort, TermFault>
    ensures the_type_of_the_value { result ≡ sort (declared declarations.entry) [] (Term.Val of value) }
{
    if value < at(declarations.types, of, 0)? {
        Ok(Sort::Value(of))
    } else {
        Err(TermFault::NoSuch(1))
    }
}

fn equality_sort(sorts: &[Sort], a: u16, b: u16) -> Result<Sort, TermFault>
    ensures two_values_of_one_type { result ≡ sort undeclared sorts.now (Term.Eq a b) }
{
    let left = at(sorts, a, 0)?;
    let right = at(sorts, b, 1)?;
    left.must_be_value(0)?;
    left.must_match(right, 1)?;
    Ok(Sort::Formula)
}

fn negation_sort(sorts: &[Sort], a: u16) -> Result<Sort, TermFault>
    ensures one_formula { result ≡ sort undeclared sorts.now (Term.Not a) }
{
    at(sorts, a, 0)?.must_be_formula(0)?;
    Ok(Sort::Formula)
}

fn connective_sort(sorts: &[Sort], a: u16, b: u16) -> Result<Sort, TermFault>
    ensures two_formulas { result ≡ sort undeclared sorts.now (Term.And a b) }
{
    let left = at(sorts, a, 0)?;
    let right = at(sorts, b, 1)?;
    left.must_be_formula(0)?;
    right.must_be_formula(1)?;
    Ok(Sort::Formula)
}

fn choice_sort(sorts: &[Sort], f: u16, a: u16, b: u16) -> Result<Sort, TermFault>
    ensures a_formula_and_two_values_of_one_type { result ≡ sort undeclared sorts.now (Term.Ite f a b) }
{
    let test = at(sorts, f, 0)?;
    let left = at(sorts, a, 1)?;
    let right = at(sorts, b, 2)?;
    test.must_be_formula(0)?;
    left.must_be_value(1)?;
    left.must_match(right, 2)?;
    Ok(left)
}

// The sort of a term among the declarations and the sorts of the terms before it, or its fault.
pub fn sort_of(
    declarations: Declarations<'_>,
    sorts: &[Sort],
    term: Term,
) -> Result<Sort, TermFault>
    ensures the_sort_or_the_fault { result ≡ sort (declared declarations.entry) sorts.now term }
{
    match term {
        Term::Var(v) => variable_sort(declarations, v),
        Term::Val(of, value) => value_sort(declarations, of, value),
        Term::True | Term::False => Ok(Sort::Formula),
        Term::Eq(a, b) => equality_sort(sorts, a, b),
        Term::Not(a) => negation_sort(sorts, a),
        Term::And(a, b) | Term::Or(a, b) | Term::Imp(a, b) => connective_sort(sorts, a, b),
        Term::Ite(f, a, b) => choice_sort(sorts, f, a, b),
    }
}

// The two functions below stand for laws about the trees of a table: the contract is the law, and no call does anything.

#[tactic(auto, using(crate::proofs::Tables::prefix_law))]
pub fn prefix_law() -> u8
    ensures terms_added_at_the_end_change_no_tree { PrefixLaw }
{
    0
}

#[tactic(auto, using(crate::proofs::SortLaws::sorts_law))]
pub fn sorts_law() -> u8
    ensures the_tree_of_a_term_with_a_sort_has_that_sort { SortsLaw }
{
    0
}
