// The words of a line, and the names and numbers that they are.

#![tactic(auto)]

ghost use Rattle.std.specs.Prelude.{◌≡◌, ◌+◌, ◌-◌, ◌≤◌, false, cond, length, Some, None};
ghost use Rattle.std.specs.Iterator.{YieldsFirstBy, at_most};
ghost use Rattle.std.specs.Option.{option_map};
ghost use Rattle.std.specs.List.{prefix_len};
ghost use Rattle.std.specs.Str.{bytes_eq};
ghost use Rattle.text.specs.Faults.{fault};
ghost use Rattle.text.specs.declared.faults.Wrong.TheVariants as wrong;
ghost use Rattle.words.specs.Repeats.{start};
ghost use Rattle.words.specs.Words.{place, word, word_seen, column, next, seen, word_at, name_at, number_at, nothing_at, no_space, name_byte, is_name, number_length, number_of, first_place, over, column_behind, rest_at, words_left, all_names};

pub mod repeats;

use keys::Key;
use text::faults::{LineFault, Wrong};

// A name has at most this many bytes.
const LONGEST_NAME: usize = 16;

// A word: its bytes, a part of the file, and the column where it begins.
#[derive(Clone, Copy)]
pub struct Word<'a> {
    pub bytes: &'a [u8],
    pub column: usize,
}

// A number and the column where it begins.
#[derive(Clone, Copy, Debug, PartialEq, Eq)]
pub struct Number {
    pub value: u16,
    pub column: usize,
}

// A place in the words of a line: `before` bytes of the line stand in front of `text`, and the next word begins
// behind the first `at` bytes of `text`. A copy goes on by itself from there.
#[derive(Clone, Copy)]
pub struct Words<'a> {
    text: &'a [u8],
    before: u8,
    at: usize,
}

// How many bytes stand in front of the first space, or in the whole text where there is none.
fn word_run(text: &[u8]) -> usize
    ensures the_bytes_before_the_first_space { result ≡ prefix_len no_space text.now }
    ensures within_the_text { result ≤ length text.now }
{
    text.iter().take_while(|&&byte| byte != b' ').count()
}

// Whether the bytes are those of this word. Beside `==`, since it promises that they are compared byte by byte.
pub fn is_word(bytes: &[u8], word: &[u8]) -> bool
    ensures whether_they_are_the_same { result ≡ bytes_eq bytes.now word.now }
{
    bytes == word
}

fn is_name_byte(byte: u8) -> bool
    ensures a_byte_of_a_name { result ≡ name_byte byte }
{
    byte.is_ascii_alphanumeric() || matches!(byte, b'_' | b'.' | b'[' | b']')
}

// Whether the bytes are a name: 1 to 16 letters, digits, underscores, full stops or square brackets.
pub fn is_name(bytes: &[u8]) -> bool
    ensures whether_it_is_a_name { result ≡ is_name bytes.now }
{
    (1..=LONGEST_NAME).contains(&bytes.len()) && bytes.iter().all(|&byte| is_name_byte(byte))
}

// Whether the bytes, if they are digits, are a number: one to three, and the first of several is not 0.
fn may_be_number(bytes: &[u8]) -> bool
    ensures one_to_three_and_no_leading_zero { result ≡ number_length bytes.now }
{
    match bytes {
        [_] => true,
        [first, _] | [first, _, _] => *first != b'0',
        _ => false,
    }
}

// The value of one to three decimal digits, of which the first of several is not 0.
pub fn parse_number(bytes: &[u8]) -> Option<u16>
    ensures the_value_of_a_number { result ≡ number_of bytes.now }
{
    if !may_be_number(bytes) {
        return None;
    }
    let mut value: u16 = 0;
    for &byte in bytes {
        if !byte.is_ascii_digit() {
            return None;
        }
        value = value * 10 + u16::from(byte - b'0');
    }
    Some(value)
}

// The fault that a word is missing, extra, empty or misformed.
fn bad_word(column: usize) -> LineFault
    ensures a_word_at_fault { result ≡ fault wrong.Word column }
{
    Wrong::Word.at(column)
}

impl<'a> Words<'a> {
    // The words after a line's key.
    pub fn after(key: Key, rest: &'a [u8]) -> Words<'a>
        ensures the_first_word_follows_the_key { place result ≡ first_place key rest.now }
    {
        Words {
            text: rest,
            before: key.width(),
            at: 0,
        }
    }

    // The words of a text that stands alone.
    pub fn within(text: &'a [u8]) -> Words<'a>
        ensures the_first_word_begins_the_text { place result ≡ start text.now }
    {
        Words {
            text,
            before: 0,
            at: 0,
        }
    }

    // Whether the last word was taken.
    fn is_over(&self) -> bool
        ensures whether_no_word_is_left { result ≡ over (place self.now) }
    {
        self.at > self.text.len()
    }

    // The column where the next word begins.
    fn column(&self) -> usize
        requires a_word_is_left { over (place self.now) ≡ false }
        ensures where_the_next_word_begins { result ≡ column (place self.now) }
    {
        self.before as usize + self.at + 1
    }

    // The column just behind the line.
    fn end_column(&self) -> usize
        ensures just_behind_the_line { result ≡ column_behind (place self.now) }
    {
        self.before as usize + self.text.len() + 1
    }

    // The next word, or none behind the last.
    fn take_word(&mut self) -> Option<Word<'a>>
        ensures the_next_word_or_none_behind_the_last { option_map word_seen result ≡ cond (over (place self.old)) None (Some (word (place self.old))) }
        ensures where_the_next_begins { place self.new ≡ next (place self.old) }
    {
        let left = self.text.get(self.at..)?;
        let n = word_run(left);
        let word = Word {
            bytes: &left[..n],
            column: self.column(),
        };
        self.at += n + 1;
        Some(word)
    }

    // The next word, or the fault that it is missing.
    pub fn next_word(&mut self) -> Result<Word<'a>, LineFault>
        ensures the_word_or_that_it_is_missing { seen result ≡ word_at (place self.old) }
        ensures where_the_next_begins { place self.new ≡ next (place self.old) }
    {
        let missing = bad_word(self.end_column());
        self.take_word().ok_or(missing)
    }

    // The next word, which has to be a name.
    pub fn name(&mut self) -> Result<Word<'a>, LineFault>
        ensures the_name_or_the_fault { seen result ≡ name_at (place self.old) }
        ensures where_the_next_begins { place self.new ≡ next (place self.old) }
    {
        let word = self.next_word()?;
        if is_name(word.bytes) {
            Ok(word)
        } else {
            Err(bad_word(word.column))
        }
    }

    // The next word, which has to be a number.
    pub fn number(&mut self) -> Result<Number, LineFault>
        ensures the_number_or_the_fault { result ≡ number_at (place self.old) }
        ensures where_the_next_begins { place self.new ≡ next (place self.old) }
    {
        let word = self.next_word()?;
        let value = parse_number(word.bytes).ok_or(bad_word(word.column))?;
        Ok(Number {
            value,
            column: word.column,
        })
    }

    // No word may be left.
    pub fn nothing_more(&self) -> Result<(), LineFault>
        ensures no_word_is_left_or_the_fault { result ≡ nothing_at (place self.now) }
    {
        if self.is_over() {
            Ok(())
        } else {
            Err(bad_word(self.column()))
        }
    }

    // All that is left of the line, several words as one; or the fault that no word is left.
    pub fn rest(&self) -> Result<Word<'a>, LineFault>
        ensures what_is_left_or_that_it_is_missing { seen result ≡ rest_at (place self.now) }
    {
        let missing = bad_word(self.end_column());
        let bytes = self.text.get(self.at..).ok_or(missing)?;
        Ok(Word {
            bytes,
            column: self.column(),
        })
    }

    // Every word that is left has to be a name.
    pub fn only_names(mut self) -> Result<(), LineFault>
        ensures all_are_names_or_the_first_that_is_none { result ≡ all_names (words_left (place self.entry)) }
    {
        // A match, since the word that is found is the fault.
        match self.find(|word| !is_name(word.bytes)) {
            Some(word) => Err(bad_word(word.column)),
            None => Ok(()),
        }
    }
}

// The words that are left, from the next one on.
impl<'a> Iterator for Words<'a> {
    type Item = Word<'a>;

    ghost next_gives = { YieldsFirstBy word_seen (λ words. words_left (place words)) };

    ghost remaining = { λ words. at_most (length words.text.now + 1 - words.at) };

    fn next(&mut self) -> Option<Word<'a>> {
        self.take_word()
    }
}
