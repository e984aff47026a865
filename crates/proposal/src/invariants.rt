// The table of invariants.
ghost use Rattle.std.specs.Prelude.{◌≤◌, vec_len};

use names::Name;

// An invariant: its name, the term that is its formula, and the line of the file that it stands on.
#[derive(Drop)]
pub struct Invariant {
    pub name: Name,
    pub formula: u16,
    pub line: usize,
}

// The invariants, at most 64.
#[derive(Drop)]
pub struct InvariantTable {
    pub rows: Vec<Invariant>,
    ghost few: { vec_len rows ≤ 64 },
}
