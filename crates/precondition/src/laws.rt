// Each function here stands for a law about the definitions: the contract is the law, and no call does anything.
ghost use Rattle.precondition.specs.Laws.{SameLaw, PlaceLaw, PartsLaw};

#[tactic(auto, using(crate::proofs::Parting::same_law))]
pub fn same_law() -> u8
    ensures what_is_written_alike_is_the_same_tree { SameLaw }
{
    0
}

#[tactic(auto, using(crate::proofs::Parting::place_law))]
pub fn place_law() -> u8
    ensures a_place_is_the_lowest_number { PlaceLaw }
{
    0
}

#[tactic(auto, using(crate::proofs::Parting::parts_law))]
pub fn parts_law() -> u8
    ensures just_what_a_formula_is_made_of_is_marked { PartsLaw }
{
    0
}
