// Marking the terms that a formula is made of.
ghost use Rattle.std.specs.Prelude.{◌≡◌, ◌<◌, ◌≤◌, true, length, slice_set};
ghost use Rattle.precondition.specs.Parts.{with_marks, passed_on, marked_from};
ghost use Rattle.precondition.specs.Tables.{arguments};

use terms::Term;

fn mark_number(marks: &mut [bool], n: u16)
    ensures that_number_is_marked { marks.new ≡ slice_set marks.old n true }
{
    // By index: get_mut of a slice does not say what the slice holds afterwards.
    if (n as usize) < marks.len() {
        marks[n as usize] = true;
    }
}

fn mark_arguments(marks: &mut [bool], term: Term)
    ensures its_arguments_are_marked { marks.new ≡ with_marks marks.old (arguments term) }
{
    for a in term.arguments().iter().flatten() {
        mark_number(marks, *a);
    }
}

// A term that is marked has its arguments marked. By index: the marks are written while the terms are gone through.
fn pass_on(marks: &mut [bool], n: usize, term: Term)
    requires within { n < length marks.old }
    ensures its_arguments_are_marked_if_it_is { marks.new ≡ passed_on n term marks.old }
{
    if marks[n] {
        mark_arguments(marks, term);
    }
}

// From the last term down to the first.
pub(crate) fn mark(terms: &[Term], marks: &mut [bool])
    requires a_mark_for_each { length terms.now ≤ length marks.old }
    ensures what_the_marked_are_made_of { marks.new ≡ marked_from 0 terms.now marks.old }
{
    for (n, term) in terms.iter().enumerate().rev() {
        pass_on(marks, n, *term);
    }
}
