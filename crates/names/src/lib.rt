// Owned names, and finding a row by its name.

#![tactic(auto)]

ghost use Rattle.std.specs.Prelude.{◌≡◌, ℕ, ◌<◌, List, [], map, length, IfOk, Decides, MatchOption, ◌≢◌, slice_index_or};
ghost use Rattle.names.specs.Names.{spelled, place_in};
ghost use Rattle.std.specs.Str.{bytes_eq};

use std::alloc::{AllocError, Global};
use words::is_word;

// An owned name.
#[derive(Drop, PartialEq)]
pub struct Name {
    bytes: Vec<u8>,
}

impl Name {
    // A name without bytes, which no file has.
    pub fn empty(heap: Global) -> Name
        ensures no_bytes { spelled result ≡ [] }
    {
        Name {
            bytes: Vec::new(heap),
        }
    }

    // A name of its own with these bytes.
    pub fn copy_of(heap: Global, bytes: &[u8]) -> Result<Name, AllocError>
        ensures a_name_with_these_bytes { IfOk result (λ n. spelled n ≡ bytes.now) }
    {
        Ok(Name {
            bytes: bytes.to_vec(heap)?,
        })
    }

    // Its bytes.
    pub fn as_bytes(&self) -> &[u8]
        ensures the_bytes_of_the_name { result.now ≡ spelled self.now }
    {
        self.bytes.as_slice()
    }

    // The same name once more, in a heap that the caller gives: a `clone` takes memory from the heap that the name has.
    pub fn copy(&self, heap: Global) -> Result<Name, AllocError>
        ensures a_name_spelled_the_same { IfOk result (λ n. spelled n ≡ spelled self.now) }
    {
        Name::copy_of(heap, self.as_bytes())
    }

    // Whether the two are the same name. Beside `==`, since it promises that they are spelled the same.
    pub fn equals(&self, other: &Name) -> bool
        ensures by_their_bytes { result ≡ bytes_eq (spelled self.now) (spelled other.now) }
        ensures spelled_the_same_and_only_then { Decides result (spelled self.now ≡ spelled other.now) }
    {
        self == other
    }
}

// What has a name.
pub trait Named {
    ghost named: { Self → List ℕ };

    // Its name.
    fn name(&self) -> &[u8]
        ensures the_name { result.now ≡ named self.now };
}

impl Named for Name {
    ghost named = { λ n. spelled n };

    fn name(&self) -> &[u8] {
        self.as_bytes()
    }
}

// The number, from 0, of the first row with this name.
pub fn find<T: Named>(rows: &[T], name: &[u8]) -> Option<usize>
    ensures the_number_of_the_first_so_named { result ≡ place_in (map T.Named.named rows.now) name.now }
    ensures found_is_so_named_and_none_means_no_row_is { MatchOption result ((k : ℕ) → k < length rows.now → slice_index_or (map T.Named.named rows.now) k [] ≢ name.now) (λ i. (i < length rows.now) × (slice_index_or (map T.Named.named rows.now) i [] ≡ name.now)) }
{
    // Apart from its answer, so that a must-fail edit can turn the number alone.
    let place = rows.iter().position(|row| is_word(row.name(), name))?;
    Some(place)
}
