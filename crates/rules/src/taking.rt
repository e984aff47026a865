// The lines of the rules: `rule` and `set`.
ghost use Rattle.std.specs.Prelude.{◌≡◌, [], map};
ghost use Rattle.names.specs.Names.{spelled};
ghost use Rattle.words.specs.Words.{word_seen};
ghost use Rattle.reading.specs.Taking.{Came};
ghost use Rattle.tables.specs.Taking.{unless};
ghost use Rattle.tables.specs.Views.{terms_seen, variables_seen};
ghost use Rattle.rules.specs.RuleTests.{rule_tests, value_tests, set_tests_below, assignment_of};
ghost use Rattle.rules.specs.Taking.{is_set, rule_taken, assignment_taken};
ghost use Rattle.rules.specs.Views.{rule_seen, rules_seen};

use crate::table::{Rule, RuleTable};
use names::{Name, Named, find};
use reading::faults::TakeFault;
use std::alloc::Global;
use tables::taking::check_room;
use tables::term_table::TermTable;
use tables::variables::VariableTable;
use terms::{Assignment, Sort};
use text::faults::{LineFault, Wrong};
use words::{Number, Word};

// A protocol has at most this many rules.
const MOST_RULES: usize = 64;

// A rule has at most this many assignments.
const MOST_SETS: usize = 16;

impl Named for Rule {
    ghost named = { λ r. spelled r.name };

    fn name(&self) -> &[u8] {
        self.name.as_bytes()
    }
}

// The guard of a new rule, or the fault of its line. Its name and its number come apart, as the line has them.
#[tactic(auto, using(crate::proofs::RuleLaws::same_place))]
fn test_rule(
    rules: &[Rule],
    terms: &TermTable,
    name: Word<'_>,
    guard: Number,
) -> Result<u16, LineFault>
    ensures the_guard_or_the_first_fault { result ≡ unless (rule_tests (terms_seen terms.now).sorts (word_seen name.entry) guard (map rule_seen rules.now)) guard.value }
{
    if find(rules, name.bytes).is_some() {
        return Err(Wrong::Used.at(name.column));
    }
    let guard = terms.formula(guard)?;
    check_room(rules, MOST_RULES)?;
    Ok(guard)
}

// The number of a term that is a value of this type, or the fault that it is none.
fn value_of(terms: &TermTable, kind: u16, n: Number) -> Result<u16, LineFault>
    ensures a_value_of_the_type_or_the_fault { result ≡ unless (value_tests kind (terms_seen terms.now).sorts n) n.value }
{
    match terms.sort(n)? {
        Sort::Value(of) if of == kind => Ok(n.value),
        _ => Err(Wrong::WrongSort.at(n.column)),
    }
}

// Whether the variable is among those that are set.
fn is_set(sets: &[Assignment], variable: u16) -> bool
    ensures whether_it_is_set { result ≡ is_set variable sets.now }
{
    sets.iter().any(|a| a.variable == variable)
}

impl Rule {
    // The assignment that a `set` line adds to the rule, or the line's fault. The tables come apart, as `take_set` is given
    // them.
    fn next_set(
        &self,
        variables: &VariableTable,
        terms: &TermTable,
        name: Word<'_>,
        term: Number,
    ) -> Result<Assignment, LineFault>
        ensures the_assignment_or_the_first_fault { result ≡ unless (set_tests_below (variables_seen variables.now) (terms_seen terms.now) (word_seen name.entry) term (rule_seen self.now)) (assignment_of (variables_seen variables.now) (word_seen name.entry) term) }
    {
        let variable = variables
            .number(name.bytes)
            .ok_or(Wrong::Unknown.at(name.column))?;
        let kind = variables.kinds[variable as usize];
        let term = value_of(terms, kind, term)?;
        check_room(&self.sets, MOST_SETS)?;
        if is_set(&self.sets, variable) {
            return Err(Wrong::SetTwice.at(name.column));
        }
        Ok(Assignment { variable, term })
    }
}

impl RuleTable {
    // No rules.
    pub fn empty(heap: Global) -> RuleTable
        ensures no_rules { rules_seen result ≡ [] }
    {
        RuleTable {
            rules: Vec::new(heap),
        }
    }

    // A `rule` line: one rule more, without assignments, or its fault.
    pub fn take_rule(
        &mut self,
        heap: Global,
        terms: &TermTable,
        name: Word<'_>,
        guard: Number,
    ) -> Result<(), TakeFault>
        ensures what_the_line_adds_or_its_fault { Came result (rules_seen self.new) (rule_taken (terms_seen terms.now) (word_seen name.entry) guard (rules_seen self.old)) }
    {
        let guard = test_rule(&self.rules, terms, name, guard)?;
        let name = Name::copy_of(heap, name.bytes)?;
        let sets = Vec::new(heap);
        self.rules.push(Rule { name, guard, sets })?;
        Ok(())
    }

    // A `set` line: one assignment more for the rule above it, which alone changes, or its fault.
    pub fn take_set(
        &mut self,
        variables: &VariableTable,
        terms: &TermTable,
        name: Word<'_>,
        term: Number,
    ) -> Result<(), TakeFault>
        ensures what_the_line_adds_or_its_fault { Came result (rules_seen self.new) (assignment_taken (variables_seen variables.now) (terms_seen terms.now) (word_seen name.entry) term (rules_seen self.old)) }
    {
        // By index, so that a must-fail edit can turn which rule it is.
        let last = self.rules.len().checked_sub(1).ok_or(Wrong::Key.at(1))?;
        let assignment = self.rules[last].next_set(variables, terms, name, term)?;
        let rule = &mut self.rules[last];
        rule.sets.push(assignment)?;
        Ok(())
    }
}
