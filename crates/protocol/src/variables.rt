// Taking a `var` line.
ghost use Rattle.std.specs.Prelude.{◌≡◌, ◌^◌, ◌<◌, ◌≤◌, vec_len, OnOk};
ghost use Rattle.words.specs.Words.{word_seen};
ghost use Rattle.reading.specs.Taking.{Came};
ghost use Rattle.tables.specs.Views.{types_seen, variables_seen};
ghost use Rattle.protocol.specs.Taking.{variable_taken};
ghost use Rattle.protocol.specs.VariableTests.{row_or_fault, with_row};

use names::Name;
use reading::faults::TakeFault;
use std::alloc::{AllocError, Global};
use tables::taking::check_room;
use tables::types::TypeTable;
use tables::variables::VariableTable;
use text::faults::{LineFault, Wrong};
use words::Word;

// At most this many variables.
const MOST_VARIABLES: usize = 32;

// At most this many states.
const MOST_STATES: u64 = 1 << 40;

// What a variable adds beside its name: its type, and the number of states with it.
#[derive(Clone, Copy)]
struct VariableRow {
    kind: u16,
    states: u64,
}

// The row of a new variable, or the fault of its line. The two words come apart, as the line has them.
fn row_of(
    variables: &VariableTable,
    types: &TypeTable,
    name: Word<'_>,
    of: Word<'_>,
) -> Result<VariableRow, LineFault>
    ensures the_row_or_the_fault { result ≡ row_or_fault (types_seen types.now) (word_seen name.entry) (word_seen of.entry) (variables_seen variables.now) }
{
    if variables.number(name.bytes).is_some() {
        return Err(Wrong::Used.at(name.column));
    }
    let kind = types.number(of.bytes).ok_or(Wrong::Unknown.at(of.column))?;
    check_room(&variables.names, MOST_VARIABLES)?;
    let states = variables.states * u64::from(types.sizes[kind as usize]);
    if states > MOST_STATES {
        return Err(Wrong::TooManyStates.at(1));
    }
    Ok(VariableRow { kind, states })
}

// One variable more. There is room for it in both lists before it comes into one.
fn add_variable(
    variables: &mut VariableTable,
    heap: Global,
    name: &[u8],
    row: VariableRow,
) -> Result<(), AllocError>
    requires one_more_may_stand { vec_len variables.old.names < 32 }
    requires few_states { row.states ≤ 2 ^ 40 }
    ensures one_row_more { OnOk result (variables_seen variables.new ≡ with_row name.now row (variables_seen variables.old)) }
{
    let name = Name::copy_of(heap, name)?;
    variables.names.reserve(1)?;
    variables.kinds.reserve(1)?;
    variables.names.push_reserved(name);
    variables.kinds.push_reserved(row.kind);
    variables.states = row.states;
    Ok(())
}

// A `var` line: one variable more, or its fault.
pub(crate) fn take_variable(
    variables: &mut VariableTable,
    heap: Global,
    types: &TypeTable,
    name: Word<'_>,
    of: Word<'_>,
) -> Result<(), TakeFault>
    ensures what_the_line_adds_or_its_fault { Came result (variables_seen variables.new) (variable_taken (types_seen types.now) (word_seen name.entry) (word_seen of.entry) (variables_seen variables.old)) }
{
    let row = row_of(variables, types, name, of)?;
    add_variable(variables, heap, name.bytes, row)?;
    Ok(())
}
