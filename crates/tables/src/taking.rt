// Taking a `term` line.
ghost use Rattle.std.specs.Prelude.{◌≡◌, [], ◌∷◌, slice_index};
ghost use Rattle.line.specs.Forms.{form_seen};
ghost use Rattle.terms.specs.Sorts.{declared, sort};
ghost use Rattle.words.specs.Words.{word_seen};
ghost use Rattle.line.specs.Forms.{Val as val_form, Var as var_form};
ghost use Rattle.tables.specs.Records.{no_types, no_variables};
ghost use Rattle.tables.specs.Taking.{unless, full, named_term, columns, at_argument, new_term, term_taken};
ghost use Rattle.tables.specs.Views.{types_seen, variables_seen, terms_seen};
ghost use Rattle.reading.specs.Taking.{Came};

use crate::term_table::TermTable;
use crate::types::TypeTable;
use crate::variables::VariableTable;
use line::lines::Form;
use reading::faults::TakeFault;
use terms::{Declarations, MOST_TERMS, Sort, Term, TermFault, sort_of};
use text::faults::{LineFault, Wrong};
use words::Word;

// That one more may stand beside these, or the fault that there are as many as allowed.
pub fn check_room<T>(rows: &[T], most: usize) -> Result<(), LineFault>
    ensures room_or_the_fault { result ≡ unless (full most rows.now ∷ []) tt }
{
    if rows.len() >= most {
        return Err(Wrong::TooMany.at(1));
    }
    Ok(())
}

fn value_term(types: &TypeTable, of: Word<'_>, value: Word<'_>) -> Result<Term, LineFault>
    ensures the_value_by_numbers_or_the_unknown_name { result ≡ named_term (types_seen types.now) no_variables (val_form (word_seen of.entry) (word_seen value.entry)) }
{
    let kind = types.number(of.bytes).ok_or(Wrong::Unknown.at(of.column))?;
    let number = types
        .value_number(kind, value.bytes)
        .ok_or(Wrong::Unknown.at(value.column))?;
    Ok(Term::Val(kind, number))
}

fn variable_term(variables: &VariableTable, name: Word<'_>) -> Result<Term, LineFault>
    ensures the_variable_by_number_or_the_unknown_name { result ≡ named_term no_types (variables_seen variables.now) (var_form (word_seen name.entry)) }
{
    let number = variables
        .number(name.bytes)
        .ok_or(Wrong::Unknown.at(name.column))?;
    Ok(Term::Var(number))
}

// The term that a form is, by numbers. The two tables come apart, as `take` is given them: a struct of both would only be
// made there to be taken apart here.
fn term_of(types: &TypeTable, variables: &VariableTable, form: Form<'_>) -> Result<Term, LineFault>
    ensures the_term_by_numbers_or_the_unknown_name { result ≡ named_term (types_seen types.now) (variables_seen variables.now) (form_seen form.entry) }
{
    match form {
        Form::Var { name } => variable_term(variables, name),
        Form::Val { of, value } => value_term(types, of, value),
        Form::True => Ok(Term::True),
        Form::False => Ok(Term::False),
        Form::Eq { left, right } => Ok(Term::Eq(left.value, right.value)),
        Form::Not { of } => Ok(Term::Not(of.value)),
        Form::And { left, right } => Ok(Term::And(left.value, right.value)),
        Form::Or { left, right } => Ok(Term::Or(left.value, right.value)),
        Form::Imp { left, right } => Ok(Term::Imp(left.value, right.value)),
        Form::Ite { test, yes, no } => Ok(Term::Ite(test.value, yes.value, no.value)),
    }
}

// The column of an argument; 0 where the form has no such number.
fn argument_column(form: Form<'_>, argument: u8) -> usize
    ensures the_column_of_the_argument { result ≡ slice_index (columns (form_seen form.entry)) argument }
{
    let columns = match form {
        Form::Var { .. } | Form::Val { .. } | Form::True | Form::False => [0; 3],
        Form::Not { of } => [of.column, 0, 0],
        Form::Eq { left, right }
        | Form::And { left, right }
        | Form::Or { left, right }
        | Form::Imp { left, right } => [left.column, right.column, 0],
        Form::Ite { test, yes, no } => [test.column, yes.column, no.column],
    };
    columns.get(argument as usize).copied().unwrap_or(0)
}

// The sort of a term, with its fault at the column of the argument. A match, since
// each fault has a column to be found and the sort goes over as it is.
fn sort_in_line(
    declarations: Declarations<'_>,
    sorts: &[Sort],
    term: Term,
    form: Form<'_>,
) -> Result<Sort, LineFault>
    ensures the_sort_or_the_fault_at_its_argument { result ≡ at_argument (columns (form_seen form.entry)) (sort (declared declarations.entry) sorts.now term) }
{
    match sort_of(declarations, sorts, term) {
        Err(TermFault::NoSuch(argument)) => Err(Wrong::NoSuch.at(argument_column(form, argument))),
        Err(TermFault::WrongSort(argument)) => Err(Wrong::WrongSort.at(argument_column(
            form, argument,
        ))),
        Ok(sort) => Ok(sort),
    }
}

impl TermTable {
    // The term that a `term` line adds, with its sort; or the line's fault.
    fn next_term<'t>(
        &self,
        types: &'t TypeTable,
        variables: &'t VariableTable,
        form: Form<'_>,
    ) -> Result<(Term, Sort), LineFault>
        ensures the_new_term_or_the_fault { result ≡ new_term (types_seen types.now) (variables_seen variables.now) (form_seen form.entry) (terms_seen self.now) }
    {
        let term = term_of(types, variables, form)?;
        let declarations = Declarations {
            types: &types.sizes,
            variables: &variables.kinds,
        };
        let sort = sort_in_line(declarations, &self.sorts, term, form)?;
        check_room(&self.terms, MOST_TERMS)?;
        Ok((term, sort))
    }

    // A `term` line: one term more with its sort, or the line's fault.
    pub fn take<'t>(
        &mut self,
        types: &'t TypeTable,
        variables: &'t VariableTable,
        form: Form<'_>,
    ) -> Result<(), TakeFault>
        ensures what_the_line_adds_or_its_fault { Came result (terms_seen self.new) (term_taken (types_seen types.now) (variables_seen variables.now) (form_seen form.entry) (terms_seen self.old)) }
    {
        let (term, sort) = self.next_term(types, variables, form)?;
        self.terms.push(term)?;
        self.sorts.push(sort)?;
        Ok(())
    }
}
