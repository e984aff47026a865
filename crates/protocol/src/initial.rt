// The initial formulas.
ghost use Rattle.reading.specs.Taking.{Came};
ghost use Rattle.tables.specs.Views.{terms_seen};
ghost use Rattle.protocol.specs.Taking.{initial_taken};

use reading::faults::TakeFault;
use tables::taking::check_room;
use tables::term_table::TermTable;
use words::Number;

// A protocol has at most this many initial formulas.
const MOST_INITIAL: usize = 8;

// An `init` line: one initial formula more, or the line's fault.
pub(crate) fn take_initial(
    initial: &mut Vec<u16>,
    terms: &TermTable,
    n: Number,
) -> Result<(), TakeFault>
    ensures what_the_line_adds_or_its_fault { Came result initial.new.items (initial_taken (terms_seen terms.now) n initial.old.items) }
{
    let formula = terms.formula(n)?;
    check_room(initial, MOST_INITIAL)?;
    initial.push(formula)?;
    Ok(())
}
