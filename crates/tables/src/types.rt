// The table of types.
ghost use Rattle.std.specs.Prelude.{◌≡◌, ℕ, ◌≤◌, [], length, vec_len, slice_index_or};
ghost use Rattle.tables.specs.Spellings.{spellings};

use names::Name;

// The types: their names, of each type the names of its values, and how many these are. At most 8 types of at most 16 values.
// They are columns and no rows, since `Declarations` lends the sizes as one slice.
#[derive(Drop, PartialEq)]
pub struct TypeTable {
    pub names: Vec<Name>,
    pub values: Vec<Vec<Name>>,
    pub sizes: Vec<u16>,
    ghost few: { vec_len names ≤ 8 },
    ghost all_sized: { vec_len sizes ≡ vec_len names },
    ghost all_valued: { vec_len values ≡ vec_len names },
    ghost few_values: { (k : ℕ) → length (slice_index_or (spellings values) k []) ≤ 16 },
}
