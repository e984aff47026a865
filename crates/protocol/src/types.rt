// Taking a `type` line.
ghost use Rattle.std.specs.Prelude.{◌≡◌, ◌+◌, ◌^◌, ◌<◌, ◌≤◌, map, length, IfOk, vec_len, OnOk, nat_le};
ghost use Rattle.names.specs.Names.{spelled};
ghost use Rattle.words.specs.Repeats.{start};
ghost use Rattle.words.specs.Words.{word_seen, words_left};
ghost use Rattle.reading.specs.Taking.{Came};
ghost use Rattle.tables.specs.Views.{types_seen};
ghost use Rattle.protocol.specs.Taking.{type_taken};
ghost use Rattle.protocol.specs.TypeTests.{type_size, with_type};

use names::Name;
use reading::faults::TakeFault;
use std::alloc::{AllocError, Global};
use tables::taking::check_room;
use tables::types::TypeTable;
use text::faults::{LineFault, Wrong};
use words::repeats::{count_words, first_repeat};
use words::{Word, Words};

// A protocol has at most this many types.
const MOST_TYPES: usize = 8;

// A type has at most this many values.
const MOST_VALUES: usize = 16;

// An owned name for each word of the text.
fn copy_values(heap: Global, text: &[u8]) -> Result<Vec<Name>, AllocError>
    ensures an_owned_name_for_each_word { IfOk result (λ v. map spelled v.items ≡ map (λ w. w.bytes) (words_left (start text.now))) }
{
    let mut copies = Vec::new(heap);
    for word in Words::within(text) {
        copies.push(Name::copy_of(heap, word.bytes)?)?;
    }
    Ok(copies)
}

// A `type` line: the type's name, and the names of its values in one word, which ends within a line that memory can hold.
#[derive(Clone, Copy)]
pub(crate) struct TypeLine<'a> {
    pub(crate) name: Word<'a>,
    pub(crate) values: Word<'a>,
    ghost within_a_line: { values.column + length values.bytes.now ≤ 2 ^ 63 + 6 },
}

// How many values a `type` line has, or its fault.
fn tested_size(types: &TypeTable, line: TypeLine<'_>) -> Result<u16, LineFault>
    ensures its_number_of_values_or_its_fault { result ≡ type_size (types_seen types.now).names (word_seen line.entry.name) (word_seen line.entry.values) }
{
    if types.number(line.name.bytes).is_some() {
        return Err(Wrong::Used.at(line.name.column));
    }
    if let Some(column) = first_repeat(line.values.bytes) {
        return Err(Wrong::Used.at(line.values.column + column - 1));
    }
    check_room(&types.names, MOST_TYPES)?;
    let count = count_words(line.values.bytes);
    if count > MOST_VALUES {
        return Err(Wrong::TooMany.at(1));
    }
    Ok(count as u16)
}

// One type more, with these words as its values. There is room for it in all three lists before it comes into one.
fn add_type(
    types: &mut TypeTable,
    heap: Global,
    name: &[u8],
    values: &[u8],
    size: u16,
) -> Result<(), AllocError>
    requires one_more_may_stand { vec_len types.old.names < 8 }
    requires few_values { length (words_left (start values.now)) ≤ 16 }
    ensures one_type_more { OnOk result (types_seen types.new ≡ with_type (types_seen types.old) name.now (map (λ w. w.bytes) (words_left (start values.now))) size) }
{
    let name = Name::copy_of(heap, name)?;
    let values = copy_values(heap, values)?;
    types.names.reserve(1)?;
    types.values.reserve(1)?;
    types.sizes.reserve(1)?;
    types.names.push_reserved(name);
    types.values.push_reserved(values);
    types.sizes.push_reserved(size);
    Ok(())
}

// A `type` line: one type more with its values, or its fault.
pub(crate) fn take_type(
    types: &mut TypeTable,
    heap: Global,
    line: TypeLine<'_>,
) -> Result<(), TakeFault>
    ensures what_the_line_adds_or_its_fault { Came result (types_seen types.new) (type_taken (word_seen line.entry.name) (word_seen line.entry.values) (types_seen types.old)) }
{
    let size = tested_size(types, line)?;
    add_type(types, heap, line.name.bytes, line.values.bytes, size)?;
    Ok(())
}
