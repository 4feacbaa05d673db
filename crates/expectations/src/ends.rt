//! Whether a text begins with another one that ends at the end of a word, or between two octets.
ghost use Rattle.std.specs.Prelude.{◌≡◌, true};
ghost use Rattle.expectations.specs.Ends as said;

use crate::marks::without_mark;
use crate::stars::{is_end, rest_like};

/// The last word of a text; nothing if a blank ends that.
fn last_word(text: &[u8]) -> &[u8]
    ensures { result.now ≡ said.last_word text.now }
{
    let mut word = text;
    let mut rest = text;
    while let [octet, behind @ ..] = rest {
        if *octet == b' ' {
            word = behind;
        }
        rest = behind;
    }
    word
}

/// Whether an even number of octets stands before the first that ends a word, or before the end.
fn is_even(text: &[u8]) -> bool
    ensures { result ≡ said.is_even text.now true }
{
    let mut is_even = true;
    let mut rest = text;
    while let [octet, behind @ ..] = rest {
        if is_end(*octet) {
            return is_even;
        }
        is_even = !is_even;
        rest = behind;
    }
    is_even
}

/// Whether a text ends a word, or has none: these stand behind it.
fn ends_word(text: &[u8], rest: &[u8]) -> bool
    ensures { result ≡ said.ends_word text.now rest.now }
{
    match rest {
        [octet, ..] => is_end(*octet) || last_word(text).is_empty(),
        [] => true,
    }
}

/// Whether a word is a field whose value is octets, or begins that.
fn has_octets(word: &[u8]) -> bool
    ensures { result ≡ said.has_octets word.now }
{
    word.starts_with(b"layer3=")
        || word.starts_with(b"mode=")
        || word.starts_with(b"uplink=")
        || word.starts_with(b"classmark=")
        || word.starts_with(b"channel=")
        || word.starts_with(b"encryption=")
}

/// Whether a line is a message: octets are its last word.
fn is_message(line: &str) -> bool
    ensures { result ≡ said.is_message line.now }
{
    line.starts_with("in abis ")
        || line.starts_with("out abis ")
        || line.starts_with("in a ")
        || line.starts_with("out a ")
}

/// Whether octets have a blank among them.
fn has_blank(text: &[u8]) -> bool
    ensures { result ≡ said.has_blank text.now }
{
    text.iter().any(|octet| *octet == b' ')
}

/// Whether what stands behind a text in a message is whole octets, and nothing else.
fn are_whole(rest: &[u8]) -> bool
    ensures { result ≡ said.are_whole rest.now }
{
    is_even(rest) && !has_blank(rest)
}

/// Whether a line begins with a text that ends a word, or between octets.
pub(crate) fn begins_line(line: &str, text: &str) -> bool
    ensures { result ≡ said.begins_line line.now text.now }
{
    match rest_like(line.as_bytes(), text.as_bytes()) {
        Some(rest) => {
            ends_word(text.as_bytes(), rest) || (is_message(without_mark(line)) && are_whole(rest))
        }
        None => false,
    }
}

/// Whether a line in words begins with a text that ends at the end of a word, or between the octets of a field.
pub fn begins_words(words: &str, text: &str) -> bool
    ensures begins { result ≡ said.begins_words words.now text.now }
{
    match rest_like(words.as_bytes(), text.as_bytes()) {
        Some(rest) => {
            ends_word(text.as_bytes(), rest)
                || (has_octets(last_word(text.as_bytes())) && is_even(rest))
        }
        None => false,
    }
}
