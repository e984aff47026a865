// Taking the lines of a proposal file, one by one.
ghost use Rattle.std.specs.Prelude.{◌≡◌, length, nat_le};
ghost use Rattle.line.specs.Lines.{line_seen};
ghost use Rattle.names.specs.Names.{spelled};
ghost use Rattle.protocol.specs.Answers.{protocol_seen};
ghost use Rattle.reading.specs.Taking.{Came};
ghost use Rattle.tables.specs.Views.{terms_seen};
ghost use Rattle.words.specs.Words.{word_seen};
ghost use Rattle.proposal.specs.Reading.{line_taken};
ghost use Rattle.proposal.specs.Taking.{name_taken, formula_in, take_invariant};
ghost use Rattle.proposal.specs.Views.{invariants_seen, parts_seen};

use crate::invariants::{Invariant, InvariantTable};
use crate::parts::Parts;
use crate::taking_claims::{CauseLine, take_claim};
use line::lines::Line;
use names::{Name, Named};
use protocol::record::Protocol;
use reading::faults::TakeFault;
use std::alloc::Global;
use tables::taking::check_room;
use tables::term_table::TermTable;
use text::faults::{LineFault, Wrong};
use words::{Number, Word, is_word};

// At most this many invariants.
const MOST_INVARIANTS: usize = 64;

// A `proposal` line: the protocol's name, or its fault. Beside that of a `protocol` line, whose name is compared with no other.
fn take_name(own: &mut Name, heap: Global, protocol: &[u8], name: Word<'_>) -> Result<(), TakeFault>
    ensures the_name_or_the_fault { Came result (spelled own.new) (name_taken protocol.now (word_seen name.entry) (spelled own.old)) }
{
    if !own.as_bytes().is_empty() {
        return Err(Wrong::TooMany.at(1).into());
    }
    if !is_word(name.bytes, protocol) {
        return Err(Wrong::AnotherProtocol.at(name.column).into());
    }
    *own = Name::copy_of(heap, name.bytes)?;
    Ok(())
}

impl InvariantTable {
    // The formula of a new invariant, or the fault of its name or number.
    fn new_formula(&self, terms: &TermTable, name: Word<'_>, n: Number) -> Result<u16, LineFault>
        ensures the_formula_or_the_fault { result ≡ formula_in (terms_seen terms.now) (word_seen name.entry) n (invariants_seen self.now) }
    {
        if self.number(name.bytes).is_some() {
            return Err(Wrong::Used.at(name.column));
        }
        terms.formula(n)
    }

    // An `inv` line: one invariant more, or its fault.
    fn take(
        &mut self,
        heap: Global,
        terms: &TermTable,
        line: usize,
        name: Word<'_>,
        n: Number,
    ) -> Result<(), TakeFault>
        ensures what_the_line_adds_or_its_fault { Came result (invariants_seen self.new) (take_invariant (terms_seen terms.now) line (word_seen name.entry) n (invariants_seen self.old)) }
    {
        let formula = self.new_formula(terms, name, n)?;
        check_room(&self.rows, MOST_INVARIANTS)?;
        let name = Name::copy_of(heap, name.bytes)?;
        self.rows.push(Invariant {
            name,
            formula,
            line,
        })?;
        Ok(())
    }
}

impl Parts {
    // The line of this number adds its part, or is at fault.
    pub(crate) fn take_line(
        &mut self,
        heap: Global,
        protocol: &Protocol,
        number: usize,
        line: Line<'_>,
    ) -> Result<(), TakeFault>
        ensures what_the_line_adds_or_its_fault { Came result (parts_seen self.new) (line_taken (protocol_seen protocol.now) number (line_seen line.entry) (parts_seen self.old)) }
    {
        match line {
            Line::Proposal { name } => take_name(&mut self.name, heap, protocol.name(), name),
            Line::Term { form } => self
                .terms
                .take(protocol.types(), protocol.variables(), form),
            Line::Inv { name, formula } => self
                .invariants
                .take(heap, &self.terms, number, name, formula),
            Line::Cause {
                rule,
                invariant,
                kind,
            } => take_claim(
                &mut self.claims,
                protocol,
                &self.invariants,
                CauseLine {
                    number,
                    rule,
                    invariant,
                    kind,
                },
            ),
            Line::End => Ok(()),
            Line::Protocol { .. }
            | Line::Type { .. }
            | Line::Var { .. }
            | Line::Init { .. }
            | Line::Rule { .. }
            | Line::Set { .. } => Err(Wrong::Key.at(1).into()),
        }
    }
}
