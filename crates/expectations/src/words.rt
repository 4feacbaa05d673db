//! The words of a text: one blank stands between any two.
ghost use Rattle.std.specs.Prelude.{◌≡◌, length};
ghost use Rattle.expectations.specs.Words as said;

use crate::stars::is_like;

/// Whether a word is a field: `key=value`.
fn is_field(word: &str) -> bool
    ensures { result ≡ said.is_field word.now }
{
    word.bytes().any(|byte| byte == b'=')
}

/// Whether a text has a word.
pub(crate) fn has_word(text: &str, word: &str) -> bool
    ensures { result ≡ said.has_word (said.words_of text.now) word.now }
{
    text.split(' ').any(|other| other == word)
}

/// How often a text has a word.
fn count_of(text: &str, word: &str) -> usize
    ensures { result ≡ said.count_of (said.words_of text.now) word.now }
{
    text.split(' ').filter(|other| *other == word).count()
}

/// Whether a text has a word of another as often as that has it, or more often.
fn has_enough(text: &str, other: &str, word: &str) -> bool
    ensures { result ≡ said.has_enough (said.words_of text.now) (said.words_of other.now) word.now }
{
    count_of(other, word) <= count_of(text, word)
}

/// Whether a text has all words of another, each as often or more often.
pub(crate) fn has_words_of(text: &str, other: &str) -> bool
    ensures { result ≡ said.has_all (said.words_of text.now) (said.words_of other.now) }
{
    other.split(' ').all(|word| has_enough(text, other, word))
}

/// How many words of a text are such for which a word stands.
fn count_like(text: &str, word: &str) -> usize
    ensures { result ≡ said.count_like (said.words_of text.now) word.now }
{
    text.split(' ')
        .filter(|other| is_like(*other, word))
        .count()
}

/// Whether so many words of a text are such for which a word stands as another has that, or more.
fn has_enough_like(text: &str, other: &str, word: &str) -> bool
    ensures { result ≡ said.has_enough_like (said.words_of text.now) (said.words_of other.now) word.now }
{
    count_of(other, word) <= count_like(text, word)
}

/// Whether a text has all words for which those of another stand, each as often or more often.
pub(crate) fn has_words_like(text: &str, other: &str) -> bool
    ensures { result ≡ said.has_all_like (said.words_of text.now) (said.words_of other.now) }
{
    other
        .split(' ')
        .all(|word| has_enough_like(text, other, word))
}

/// How many words a text has.
pub(crate) fn word_count(text: &str) -> usize
    ensures { result ≡ length (said.words_of text.now) }
{
    text.split(' ').count()
}

/// How many words stand before the first field of a text.
fn name_length(text: &str) -> usize
    ensures { result ≡ length (said.name_of (said.words_of text.now)) }
{
    text.split(' ').take_while(|word| !is_field(*word)).count()
}

/// Whether the words before the first field are such for which those of another text stand.
pub(crate) fn have_same_name(one: &str, other: &str) -> bool
    ensures { result ≡ said.are_like (said.name_of (said.words_of one.now)) (said.name_of (said.words_of other.now)) }
{
    name_length(one) == name_length(other)
        && one
            .split(' ')
            .take_while(|word| !is_field(*word))
            .zip(other.split(' ').take_while(|word| !is_field(*word)))
            .all(|(word, another)| is_like(word, another))
}
