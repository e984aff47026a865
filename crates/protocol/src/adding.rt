// What each line adds to the parts of a protocol.
ghost use Rattle.std.specs.Prelude.{◌≡◌};
ghost use Rattle.line.specs.Lines.{line_seen};
ghost use Rattle.names.specs.Names.{spelled};
ghost use Rattle.words.specs.Words.{word_seen};
ghost use Rattle.reading.specs.Taking.{Came};
ghost use Rattle.protocol.specs.Reading.{line_taken, name_taken};
ghost use Rattle.protocol.specs.Ready.{WithinALine};
ghost use Rattle.protocol.specs.Records.{empty};
ghost use Rattle.protocol.specs.Views.{parts_seen};

use crate::initial::take_initial;
use crate::parts::Parts;
use crate::types::{TypeLine, take_type};
use crate::variables::take_variable;
use line::lines::Line;
use names::Name;
use reading::faults::TakeFault;
use rules::table::RuleTable;
use std::alloc::Global;
use tables::term_table::TermTable;
use tables::types::TypeTable;
use tables::variables::VariableTable;
use text::faults::{LineFault, Wrong};
use words::Word;

// A `protocol` line: the name, or the fault that there is one.
fn take_name(name: &mut Name, heap: Global, word: Word<'_>) -> Result<(), TakeFault>
    ensures the_name_or_that_there_is_one { Came result (spelled name.new) (name_taken (word_seen word.entry) (spelled name.old)) }
{
    if !name.as_bytes().is_empty() {
        return Err(Wrong::TooMany.at(1).into());
    }
    *name = Name::copy_of(heap, word.bytes)?;
    Ok(())
}

impl Parts {
    // No name and no lines.
    pub(crate) fn empty(heap: Global) -> Parts
        ensures the_empty_protocol { parts_seen result ≡ empty }
    {
        Parts {
            name: Name::empty(heap),
            types: TypeTable::empty(heap),
            variables: VariableTable::empty(heap),
            terms: TermTable::empty(heap),
            initial: Vec::new(heap),
            rules: RuleTable::empty(heap),
        }
    }

    // One line more, or its fault.
    pub(crate) fn take_line(&mut self, heap: Global, line: Line<'_>) -> Result<(), TakeFault>
        requires within_a_line { WithinALine (line_seen line) }
        ensures what_the_line_adds_or_its_fault { Came result (parts_seen self.new) (line_taken (line_seen line.entry) (parts_seen self.old)) }
    {
        match line {
            Line::Protocol { name } => take_name(&mut self.name, heap, name),
            Line::Type { name, values } => take_type(
                &mut self.types,
                heap,
                TypeLine { name, values },
            ),
            Line::Var { name, of } => {
                take_variable(&mut self.variables, heap, &self.types, name, of)
            }
            Line::Term { form } => self.terms.take(&self.types, &self.variables, form),
            Line::Init { formula } => take_initial(&mut self.initial, &self.terms, formula),
            Line::Rule { name, guard } => self.rules.take_rule(heap, &self.terms, name, guard),
            Line::Set { variable, term } => self
                .rules
                .take_set(&self.variables, &self.terms, variable, term),
            Line::End => Ok(()),
            Line::Proposal { .. } | Line::Inv { .. } | Line::Cause { .. } => {
                Err(Wrong::Key.at(1).into())
            }
        }
    }
}
