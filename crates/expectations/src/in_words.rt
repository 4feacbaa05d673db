//! Whether messages in words are as expected.
ghost use Rattle.std.specs.Prelude.{◌≡◌};
ghost use Rattle.expectations.specs.InWords as said;

use crate::ends::{begins_line, begins_words};
use crate::marks::without_mark;
use crate::stars::is_line_like;
use crate::words::{has_words_like, have_same_name};

/// Whether a message is an expected one: it has the same name, and all fields that are expected. `*` stands for any word, value, or
/// part of a channel.
pub(crate) fn is_part_met(part: &str, expected: &str) -> bool
    ensures { result ≡ said.is_part_met part.now expected.now }
{
    have_same_name(part, expected) && has_words_like(part, expected)
}

/// Whether one of the parts of a line in words is an expected one.
fn has_part(line: &str, expected: &str) -> bool
    ensures { result ≡ said.has_part line.now expected.now }
{
    line.split(';').any(|part| is_part_met(part, expected))
}

/// Whether a line in words is as expected. Its parts are a message, words about it, and the message inside; each but the
/// last ends with `;`. Each expected part is one of these, with all fields that are expected of it.
pub fn are_in_words(line: &str, expected: &str) -> bool
    ensures met { result ≡ said.are_in_words line.now expected.now }
{
    expected.split(';').all(|part| has_part(line, part))
}

/// Whether a line has words, and these are those that are expected. Where it is no message it has none.
fn are_met(words: &str, expected: &str) -> bool
    ensures { result ≡ said.are_met words.now expected.now }
{
    !words.is_empty() && are_in_words(words, expected)
}

/// Whether a line that came is as expected: it is the text, in which `*` stands for any word, any part of a channel, or any
/// reply; or it is a message that is like this in words.
pub fn is_met_by(line: &str, words: &str, expected: &str) -> bool
    ensures met { result ≡ said.is_met_by line.now words.now expected.now }
{
    is_line_like(line, expected) || are_met(words, expected)
}

/// Whether a line is one that is refused, with the marks that both have.
fn is_refused_as(line: &str, words: &str, text: &str) -> bool
    ensures { result ≡ said.is_refused_as line.now words.now text.now }
{
    begins_line(line, text) || begins_words(words, text) || are_met(words, text)
}

/// Whether a line that came is one that mustn't come: it begins with the text, by itself or in words, and a word ends there,
/// or the text ends between two octets; or it is a message that is like this in words. If the text has no controller's mark,
/// the line may be of either controller.
pub fn is_refused_by(line: &str, words: &str, text: &str) -> bool
    ensures refused { result ≡ said.is_refused_by line.now words.now text.now }
{
    is_refused_as(line, words, text) || is_refused_as(without_mark(line), without_mark(words), text)
}
