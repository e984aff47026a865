// Reading the words of a line.
ghost use Rattle.std.specs.Prelude.{◌≡◌, Result};
ghost use Rattle.text.specs.declared.faults.LineFault.{LineFault};
ghost use Rattle.words.specs.declared.Number.{Number};
ghost use Rattle.words.specs.Words.{WordV, Place, place, next, word_seen, name_at, number_at};
ghost use Rattle.line.specs.Reading.{answer, one, two, three_numbers};
ghost use Rattle.line.specs.Reading.{form_behind, form_at, kind_at, type_at, cause_at, end_at, line_at, read, recognised, form_answer, kind_answer, line_answer, key_answer};

use crate::lines::{File, Form, Kind, Line};
use crate::operators::{Operator, find_operator};
use keys::{Key, split_key};
use text::faults::{LineFault, Wrong};
use words::{Number, Word, Words};

// What a word of a line may be read as.
trait Part<'a>: Copy {
    // What a value of it stands for, and what the word at a place is.
    ghost View: { Type 0 };

    ghost view: { Self → View };

    ghost at: { Place → Result View LineFault };

    // The next word, read so.
    fn next(words: &mut Words<'a>) -> Result<Self, LineFault>
        ensures what_the_word_is_or_the_fault { answer view result ≡ at (place words.old) }
        ensures where_the_next_begins { place words.new ≡ next (place words.old) };
}

impl<'a> Part<'a> for Word<'a> {
    ghost View = { WordV };

    ghost view = { word_seen };

    ghost at = { name_at };

    fn next(words: &mut Words<'a>) -> Result<Word<'a>, LineFault> {
        words.name()
    }
}

impl<'a> Part<'a> for Number {
    ghost View = { Number };

    ghost view = { λ number. number };

    ghost at = { number_at };

    fn next(words: &mut Words<'a>) -> Result<Number, LineFault> {
        words.number()
    }
}

// One part and nothing more.
fn read_one<'a, P: Part<'a>>(mut words: Words<'a>) -> Result<P, LineFault>
    ensures one_part_and_nothing_more { answer P.view result ≡ one P.at (place words.entry) }
{
    let part = P::next(&mut words)?;
    words.nothing_more()?;
    Ok(part)
}

// Two parts and nothing more.
fn read_two<'a, P: Part<'a>, Q: Part<'a>>(mut words: Words<'a>) -> Result<(P, Q), LineFault>
    ensures two_parts_and_nothing_more { answer (λ p. (P.view p.0, Q.view p.1)) result ≡ two P.at Q.at (place words.entry) }
{
    let first = P::next(&mut words)?;
    let second = read_one(words)?;
    Ok((first, second))
}

// Three numbers and nothing more.
fn read_three_numbers(mut words: Words<'_>) -> Result<(Number, Number, Number), LineFault>
    ensures three_numbers_and_nothing_more { result ≡ three_numbers (place words.entry) }
{
    let first = words.number()?;
    let (second, third) = read_two(words)?;
    Ok((first, second, third))
}

// The form of this operator, from the words behind it.
fn form_after<'a>(operator: Operator, words: Words<'a>) -> Result<Form<'a>, LineFault>
    ensures what_follows_the_operator { form_answer result ≡ form_behind operator (place words.entry) }
{
    match operator {
        Operator::Var => read_one(words).map(|name| Form::Var { name }),
        Operator::Val => read_two(words).map(|(of, value)| Form::Val { of, value }),
        Operator::True => words.nothing_more().map(|()| Form::True),
        Operator::False => words.nothing_more().map(|()| Form::False),
        Operator::Eq => read_two(words).map(|(left, right)| Form::Eq { left, right }),
        Operator::Not => read_one(words).map(|of| Form::Not { of }),
        Operator::And => read_two(words).map(|(left, right)| Form::And { left, right }),
        Operator::Or => read_two(words).map(|(left, right)| Form::Or { left, right }),
        Operator::Imp => read_two(words).map(|(left, right)| Form::Imp { left, right }),
        Operator::Ite => {
            read_three_numbers(words).map(|(test, yes, no)| Form::Ite { test, yes, no })
        },
    }
}

fn read_form<'a>(mut words: Words<'a>) -> Result<Form<'a>, LineFault>
    ensures the_form_of_the_term { form_answer result ≡ form_at (place words.entry) }
{
    let word = words.next_word()?;
    let operator = find_operator(word.bytes).ok_or(Wrong::Word.at(word.column))?;
    form_after(operator, words)
}

fn read_kind<'a>(mut words: Words<'a>) -> Result<Kind<'a>, LineFault>
    ensures the_kind_of_the_cause { kind_answer result ≡ kind_at (place words.entry) }
{
    let word = words.next_word()?;
    match word.bytes {
        b"1" => words.nothing_more().map(|()| Kind::Guard),
        b"2" => words.nothing_more().map(|()| Kind::Unchanged),
        b"3" => read_one(words).map(|name| Kind::Partner { name }),
        _ => Err(Wrong::Word.at(word.column)),
    }
}

fn read_type<'a>(mut words: Words<'a>) -> Result<Line<'a>, LineFault>
    ensures the_type_with_its_values { line_answer result ≡ type_at (place words.entry) }
{
    let name = words.name()?;
    let values = words.rest()?;
    words.name()?;
    words.name()?;
    words.only_names()?;
    Ok(Line::Type { name, values })
}

fn read_cause<'a>(mut words: Words<'a>) -> Result<Line<'a>, LineFault>
    ensures the_cause_with_its_kind { line_answer result ≡ cause_at (place words.entry) }
{
    let rule = words.name()?;
    let invariant = words.name()?;
    let kind = read_kind(words)?;
    Ok(Line::Cause {
        rule,
        invariant,
        kind,
    })
}

fn read_end<'a>(file: File, mut words: Words<'a>) -> Result<Line<'a>, LineFault>
    ensures the_end_line_of_its_file { line_answer result ≡ end_at file (place words.entry) }
{
    let word = words.next_word()?;
    if word.bytes != file.ending() {
        return Err(Wrong::Word.at(word.column));
    }
    words.nothing_more().map(|()| Line::End)
}

// The line of this key whose words these are.
fn line_after<'a>(file: File, key: Key, words: Words<'a>) -> Result<Line<'a>, LineFault>
    ensures the_line_of_its_key { line_answer result ≡ line_at file key (place words.entry) }
{
    match key {
        Key::Protocol => read_one(words).map(|name| Line::Protocol { name }),
        Key::Type => read_type(words),
        Key::Var => read_two(words).map(|(name, of)| Line::Var { name, of }),
        Key::Term => read_form(words).map(|form| Line::Term { form }),
        Key::Init => read_one(words).map(|formula| Line::Init { formula }),
        Key::Rule => read_two(words).map(|(name, guard)| Line::Rule { name, guard }),
        Key::Set => read_two(words).map(|(variable, term)| Line::Set { variable, term }),
        Key::End => read_end(file, words),
        Key::Proposal => read_one(words).map(|name| Line::Proposal { name }),
        Key::Inv => read_two(words).map(|(name, formula)| Line::Inv { name, formula }),
        Key::Cause => read_cause(words),
    }
}

// The key of a line in this file and what follows its equals sign. A key that is absent, unknown or the other file's is
// refused before any word is looked at.
pub fn recognise<'a>(file: File, line: &'a [u8]) -> Result<(Key, &'a [u8]), LineFault>
    ensures the_key_and_what_follows_or_the_fault { key_answer result ≡ recognised file line.now }
{
    split_key(line)
        .filter(|(key, _)| file.has(*key))
        .ok_or(Wrong::Key.at(1))
}

// The line of this key whose words stand in `rest`.
pub fn read_line<'a>(file: File, key: Key, rest: &'a [u8]) -> Result<Line<'a>, LineFault>
    ensures the_line_or_the_fault { line_answer result ≡ read file key rest.now }
{
    line_after(file, key, Words::after(key, rest))
}
