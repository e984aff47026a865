// The table of rules.
ghost use Rattle.std.specs.Prelude.{◌≡◌, Decides};
ghost use Rattle.rules.specs.Views.{rule_seen};

use names::Name;
use terms::Assignment;

// A rule: its name, its guard and its assignments.
#[derive(Drop)]
pub struct Rule {
    pub name: Name,
    pub guard: u16,
    pub sets: Vec<Assignment>,
}

impl Rule {
    // Whether the two say the same.
    pub fn equals(&self, other: &Rule) -> bool
        ensures whether_they_say_the_same { Decides result (rule_seen self.now ≡ rule_seen other.now) }
    {
        *self == *other
    }
}

#[derive(Drop, PartialEq)]
pub struct RuleTable {
    pub rules: Vec<Rule>,
}
