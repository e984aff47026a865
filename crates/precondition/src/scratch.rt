// The precondition of a formula.
ghost use Rattle.std.specs.Prelude.{◌≡◌, ℕ, ◌<◌, ◌≤◌, true, ◌&&◌, ◌++◌, length, IfOk, nat_lt};
ghost use Rattle.precondition.specs.Parts.{parts, up_to};
ghost use Rattle.precondition.specs.Steps.{Numbered, Went, replaced_by, work_seen};
ghost use Rattle.precondition.specs.Tables.{lowest as lowest_of, named as named_of};
ghost use Rattle.precondition.specs.Writing.{Came, IsPrecondition, all_taken, all_there, answer, answer_seen, begun, noted, written};

use crate::answers::{Draft, Precondition};
use crate::copies::Copies;
use crate::faults::{Fault, Refusal};
use crate::marks::mark;
use crate::search::{find_in_both, rename, replacement};
use std::alloc::Global;
use terms::meanings::at_or;
use terms::{Assignment, MOST_TERMS, Term};

// The result of a term is noted, and the term is put at the scratch's end if it is new. The scratch holds at most as many
// terms as a table.
fn note(draft: &mut Draft, count: usize, term: Term, number: u16) -> Result<(), Fault>
    requires few { count ≤ 512 }
    ensures the_draft_with_it_or_the_refusal { Went result (work_seen draft.new) (noted count (work_seen draft.old) term number) }
{
    if (number as usize) >= count + draft.scratch.len() {
        if draft.scratch.len() >= MOST_TERMS {
            return Err(Fault::Refused(Refusal::ScratchFull));
        }
        let next = rename(draft.results.as_slice(), term);
        draft.scratch.push(next)?;
    }
    draft.results.push(number)?;
    Ok(())
}

// The assignments of a rule to terms of a table.
#[derive(Clone, Copy)]
struct Assignments<'a, 'b> {
    copies: &'a Copies<'b>,
    sets: &'a [Assignment],
}

impl Assignments<'_, '_> {
    // The result of a term: the lowest number of its tree with the variables replaced, or the number at the end if it is new.
    fn number_of(&self, draft: &Draft, term: Term) -> u16
        requires few_new { length (work_seen draft.now).scratch ≤ 512 }
        ensures the_lowest_number { Numbered (lowest_of self.now.copies.now.terms.now) (named_of self.now.copies.now.terms.now ++ (work_seen draft.now).scratch) (work_seen draft.now).results term (replaced_by self.now.sets.now term) result }
    {
        match replacement(self.sets, term) {
            Some(n) => at_or(self.copies.lowest.as_slice(), n, 0),
            None => {
                let next = rename(draft.results.as_slice(), term);
                find_in_both(self.copies.named.as_slice(), draft.scratch.as_slice(), next)
            }
        }
    }

    // The next term is taken, with its lowest number.
    fn take(&self, draft: &mut Draft, term: Term) -> Result<(), Fault>
        requires few_new { length (work_seen draft.old).scratch ≤ 512 }
        ensures the_draft_with_its_lowest_number { (n : ℕ) × Numbered (lowest_of self.now.copies.now.terms.now) (named_of self.now.copies.now.terms.now ++ (work_seen draft.old).scratch) (work_seen draft.old).results term (replaced_by self.now.sets.now term) n × Went result (work_seen draft.new) (noted (length self.now.copies.now.terms.now) (work_seen draft.old) term n) }
    {
        let number = self.number_of(draft, term);
        note(draft, self.copies.terms.len(), term, number)
    }

    // The terms of the formula, by ascending number. The marks come beside the part, since they are as many as a table may have
    // terms.
    fn take_all(
        &self,
        heap: Global,
        formula: u16,
        part: &[Term],
        marks: &[bool],
    ) -> Result<Draft, Fault>
        requires a_formula { formula < length self.now.copies.now.terms.now }
        requires each_is_there { all_there (length self.now.copies.now.terms.now) self.now.sets.now ≡ true }
        requires its_part { part.now ≡ up_to self.now.copies.now.terms.now formula }
        requires its_marks { marks.now ≡ parts self.now.copies.now.terms.now formula }
        ensures what_is_written_or_the_refusal { Came work_seen result (all_taken self.now.copies.now.terms.now self.now.sets.now (parts self.now.copies.now.terms.now formula) (up_to self.now.copies.now.terms.now formula) begun) }
        ensures the_result_is_the_precondition { IfOk result (λ d. IsPrecondition self.now.copies.now.terms.now self.now.sets.now formula (answer formula (work_seen d))) }
    {
        let mut draft = Draft {
            results: Vec::new(heap),
            scratch: Vec::new(heap),
        };
        for (term, marked) in part.iter().zip(marks) {
            if *marked {
                self.take(&mut draft, *term)?;
            } else {
                draft.results.push(0)?;
            }
        }
        Ok(draft)
    }
}

// Whether the formula and all that variables are set to are terms of the table.
fn are_there(count: usize, sets: &[Assignment], formula: u16) -> bool
    ensures whether_all_are_there { result ≡ (nat_lt formula count && all_there count sets.now) }
{
    (formula as usize) < count && sets.iter().all(|set| (set.term as usize) < count)
}

// The precondition of a formula under the assignments of a rule, written into a scratch.
pub fn precondition(
    heap: Global,
    copies: &Copies<'_>,
    sets: &[Assignment],
    formula: u16,
) -> Result<Precondition, Fault>
    ensures the_scratch_and_the_number_or_the_refusal { Came answer_seen result (written copies.now.terms.now sets.now formula) }
    ensures its_tree_is_the_precondition_of_the_formula { IfOk result (λ p. IsPrecondition copies.now.terms.now sets.now formula (answer_seen p)) }
{
    if !are_there(copies.terms.len(), sets, formula) {
        return Err(Fault::Refused(Refusal::NoSuchTerm));
    }
    let part = &copies.terms[..=formula as usize];
    // On the stack: they are at most as many as a table's terms, so that no memory is asked for.
    let mut marks = [false; MOST_TERMS];
    marks[formula as usize] = true;
    mark(part, &mut marks);
    let assignments = Assignments { copies, sets };
    let Draft { results, scratch } = assignments.take_all(heap, formula, part, &marks)?;
    let result = at_or(results.as_slice(), formula, 0);
    Ok(Precondition { scratch, result })
}
