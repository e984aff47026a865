// The table of terms.
use terms::{Sort, Term};

// The terms, and of each its sort. They are columns and no rows, since each is read alone as a slice.
#[derive(Drop, PartialEq)]
pub struct TermTable {
    pub terms: Vec<Term>,
    pub sorts: Vec<Sort>,
}
