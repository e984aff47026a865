// Writing a whole line behind the bytes that are there.
ghost use Rattle.std.specs.Prelude.{◌≡◌, ℕ, List, ◌∷◌, Ok};
ghost use Rattle.line.specs.Forms.{form_seen, kind_seen};
ghost use Rattle.line.specs.Lines.{line_seen};
ghost use Rattle.line.specs.Reading.{recognised, read};
ghost use Rattle.writing.specs.Appending.{Appended};
ghost use Rattle.writing.specs.Forms.{form_said, kind_said};
ghost use Rattle.writing.specs.Said.{said};
ghost use Rattle.writing.specs.Written.{spaced, each_spaced, form_words, kind_words, words_said, written_line};

use crate::pieces::{write_key, write_next_word, write_number, write_with, write_word};
use keys::Key;
use line::lines::{File, Form, Kind, Line};
use std::alloc::AllocError;

// The words of a term.
fn write_form(out: &mut Vec<u8>, form: Form<'_>) -> Result<(), AllocError>
    ensures the_words_of_the_term { Appended result out.old.items (spaced (form_words (form_said (form_seen form.entry)))) out.new.items }
{
    match form {
        Form::Var { name } => write_with(out, b"var", &[name.bytes]),
        Form::Val { of, value } => write_with(out, b"val", &[of.bytes, value.bytes]),
        Form::True => write_word(out, b"true"),
        Form::False => write_word(out, b"false"),
        Form::Eq { left, right } => write_with(out, b"eq", &[left.value, right.value]),
        Form::Not { of } => write_with(out, b"not", &[of.value]),
        Form::And { left, right } => write_with(out, b"and", &[left.value, right.value]),
        Form::Or { left, right } => write_with(out, b"or", &[left.value, right.value]),
        Form::Imp { left, right } => write_with(out, b"imp", &[left.value, right.value]),
        Form::Ite { test, yes, no } => write_with(out, b"ite", &[test.value, yes.value, no.value]),
    }
}

// The words of a cause's kind, behind others.
fn write_kind(out: &mut Vec<u8>, kind: Kind<'_>) -> Result<(), AllocError>
    ensures the_words_of_the_kind { Appended result out.old.items (each_spaced (kind_words (kind_said (kind_seen kind.entry)))) out.new.items }
{
    match kind {
        Kind::Guard => write_next_word(out, b"1"),
        Kind::Unchanged => write_next_word(out, b"2"),
        Kind::Partner { name } => {
            write_next_word(out, b"3")?;
            write_next_word(out, name.bytes)
        },
    }
}

// The words of a cause.
fn write_cause(
    out: &mut Vec<u8>,
    rule: &[u8],
    invariant: &[u8],
    kind: Kind<'_>,
) -> Result<(), AllocError>
    ensures the_words_of_the_cause { Appended result out.old.items (spaced (rule.now ∷ invariant.now ∷ kind_words (kind_said (kind_seen kind.entry)))) out.new.items }
{
    write_with(out, rule, &[invariant])?;
    write_kind(out, kind)
}

// The words behind a line's key.
#[tactic(auto, using(crate::proofs::Appends::values_spaced))]
fn write_words(out: &mut Vec<u8>, file: File, line: Line<'_>) -> Result<(), AllocError>
    ensures the_words_with_single_spaces { Appended result out.old.items (spaced (words_said file (said (line_seen line.entry)))) out.new.items }
{
    match line {
        Line::Protocol { name } | Line::Proposal { name } => write_word(out, name.bytes),
        Line::Type { name, values } => write_with(out, name.bytes, &[values.bytes]),
        Line::Var { name, of } => write_with(out, name.bytes, &[of.bytes]),
        Line::Term { form } => write_form(out, form),
        Line::Init { formula } => write_number(out, formula.value),
        Line::Rule { name, guard } => write_with(out, name.bytes, &[guard.value]),
        Line::Set { variable, term } => write_with(out, variable.bytes, &[term.value]),
        Line::End => write_word(out, file.ending()),
        Line::Inv { name, formula } => write_with(out, name.bytes, &[formula.value]),
        Line::Cause {
            rule,
            invariant,
            kind,
        } => write_cause(out, rule.bytes, invariant.bytes, kind),
    }
}

// A line of a file. If it was read from some bytes, then just those are written.
pub fn write_line(out: &mut Vec<u8>, file: File, line: Line<'_>) -> Result<(), AllocError>
    ensures the_line_from_what_it_says { Appended result out.old.items (written_line file (said (line_seen line.entry))) out.new.items }
    ensures the_bytes_that_it_was_read_from { (bytes rest : List ℕ) (key : Key) → recognised file bytes ≡ Ok (key, rest) → read file key rest ≡ Ok (line_seen line.entry) → Appended result out.old.items bytes out.new.items }
{
    write_key(out, line.key())?;
    write_words(out, file, line)
}
