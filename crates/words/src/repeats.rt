// How many words a text has, and the first of them that comes again.
ghost use Rattle.std.specs.Prelude.{◌≡◌, length, None};
ghost use Rattle.words.specs.Repeats.{start, seen_before, repeat_in, AllDiffer};
ghost use Rattle.words.specs.Words.{place, words_left};

use crate::{Words, is_word};

// How many words the text has.
pub fn count_words(text: &[u8]) -> usize
    ensures how_many_words_the_text_has { result ≡ length (words_left (start text.now)) }
{
    Words::within(text).count()
}

// Whether one of the words that are left begins before the column and has these bytes.
fn is_seen_before(mut words: Words<'_>, column: usize, bytes: &[u8]) -> bool
    ensures whether_such_a_word_stands_before_the_column { result ≡ seen_before (words_left (place words.entry)) column bytes.now }
{
    words.any(|word| word.column < column && is_word(word.bytes, bytes))
}

// The column of the first word that stands further left in the text too.
pub fn first_repeat(text: &[u8]) -> Option<usize>
    ensures the_column_of_the_first_word_that_stands_further_left_too { result ≡ repeat_in (words_left (start text.now)) (words_left (start text.now)) }
    ensures no_repeat_means_all_differ { result ≡ None → AllDiffer (words_left (start text.now)) }
{
    Words::within(text)
        .find(|word| is_seen_before(Words::within(text), word.column, word.bytes))
        .map(|word| word.column)
}
