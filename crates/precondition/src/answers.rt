// What is written of a precondition.
use terms::Term;

// The precondition of a formula: the new terms, which are numbered on after the given ones, and its number.
#[derive(Drop)]
pub struct Precondition {
    pub scratch: Vec<Term>,
    pub result: u16,
}

// What is written so far: the result of each term up to here, and the scratch.
#[derive(Drop)]
pub struct Draft {
    pub results: Vec<u16>,
    pub scratch: Vec<Term>,
}
