// The table of rules once more, in a heap that the caller gives: a `clone` takes memory from the heap that the value has.
ghost use Rattle.std.specs.Prelude.{◌≡◌, map, IfOk};
ghost use Rattle.rules.specs.Views.{rule_seen, rules_seen};

use crate::table::{Rule, RuleTable};
use std::alloc::{AllocError, Global};

impl Rule {
    // The same rule once more.
    fn copy(&self, heap: Global) -> Result<Rule, AllocError>
        ensures a_rule_that_says_the_same { IfOk result (λ rule. rule_seen rule ≡ rule_seen self.now) }
    {
        let name = self.name.copy(heap)?;
        let sets = self.sets.to_vec(heap)?;
        Ok(Rule {
            name,
            guard: self.guard,
            sets,
        })
    }
}

// The same rules once more.
fn copy_rules(heap: Global, rules: &[Rule]) -> Result<Vec<Rule>, AllocError>
    ensures rules_that_say_the_same { IfOk result (λ v. map rule_seen v.items ≡ map rule_seen rules.now) }
{
    rules.iter().map(|rule| rule.copy(heap)).try_collect(heap)
}

impl RuleTable {
    // The same table once more.
    pub fn copy(&self, heap: Global) -> Result<RuleTable, AllocError>
        ensures rules_that_say_the_same { IfOk result (λ t. rules_seen t ≡ rules_seen self.now) }
    {
        let rules = copy_rules(heap, &self.rules)?;
        Ok(RuleTable { rules })
    }
}
