// The table of variables.
ghost use Rattle.std.specs.Prelude.{◌≡◌, ◌^◌, ◌≤◌, vec_len};

use names::Name;

// The variables: their names, of each its type, and the number of states, which is their sizes multiplied. At most 32
// variables with at most 2^40 states. They are columns and no rows, since `Declarations` lends the types of the variables
// as one slice.
#[derive(Drop, PartialEq)]
pub struct VariableTable {
    pub names: Vec<Name>,
    pub kinds: Vec<u16>,
    pub states: u64,
    ghost few: { vec_len names ≤ 32 },
    ghost all_typed: { vec_len kinds ≡ vec_len names },
    ghost few_states: { states ≤ 2 ^ 40 },
}
