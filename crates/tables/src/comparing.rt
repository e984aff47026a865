// Whether two tables say the same. `equals` stands beside `==`, since it promises that the two say the same.
ghost use Rattle.std.specs.Prelude.{◌≡◌, Decides};
ghost use Rattle.tables.specs.Views.{terms_seen, types_seen, variables_seen};

use crate::term_table::TermTable;
use crate::types::TypeTable;
use crate::variables::VariableTable;

impl TypeTable {
    // Whether they say the same.
    #[tactic(auto, using(crate::proofs::Equals::types_decide))]
    pub fn equals(&self, other: &TypeTable) -> bool
        ensures whether_they_say_the_same { Decides result (types_seen self.now ≡ types_seen other.now) }
    {
        self == other
    }
}

impl VariableTable {
    // Whether they say the same.
    #[tactic(auto, using(crate::proofs::Equals::variables_decide))]
    pub fn equals(&self, other: &VariableTable) -> bool
        ensures whether_they_say_the_same { Decides result (variables_seen self.now ≡ variables_seen other.now) }
    {
        self == other
    }
}

impl TermTable {
    // Whether they say the same.
    #[tactic(auto, using(crate::proofs::Equals::terms_decide))]
    pub fn equals(&self, other: &TermTable) -> bool
        ensures whether_they_say_the_same { Decides result (terms_seen self.now ≡ terms_seen other.now) }
    {
        self == other
    }
}
