// Whether two rules, and two tables of rules, say the same. `equals` of a table stands beside `==`, since it promises just that.
ghost use Rattle.std.specs.Prelude.{◌≡◌, Decides};
ghost use Rattle.rules.specs.Views.{rule_seen, rules_seen, rules_the_same};
ghost use Rattle.std.specs.Cmp.Rules.{comparing};
ghost use Rattle.std.proofs.Common.{rules};

use crate::table::{Rule, RuleTable};

impl Rule {
    // Whether the two have the same parts.
    fn has_parts_of(&self, other: &Rule) -> bool
        ensures by_their_parts { result ≡ rules_the_same self.now other.now }
    {
        self.name == other.name && self.guard == other.guard && self.sets == other.sets
    }
}

// Two rules are equal if they say the same, and only then. Written by hand, since a derive would promise the test of the parts
// alone.
impl PartialEq for Rule {
    ghost eq = { rules_the_same };

    ghost laws = { Prim.search (comparing, rules) depth 9 };

    #[tactic(auto, using(crate::proofs::Equals::rule_decides))]
    fn eq(&self, other: &Rule) -> bool
        ensures by_their_parts { result ≡ rules_the_same self.now other.now }
        ensures whether_they_say_the_same { Decides result (rule_seen self.now ≡ rule_seen other.now) }
    {
        self.has_parts_of(other)
    }
}

impl RuleTable {
    // Whether they say the same.
    #[tactic(auto, using(crate::proofs::Equals::rules_decide))]
    pub fn equals(&self, other: &RuleTable) -> bool
        ensures whether_they_say_the_same { Decides result (rules_seen self.now ≡ rules_seen other.now) }
    {
        self == other
    }
}
