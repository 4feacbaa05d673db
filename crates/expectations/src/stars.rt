//! Texts in which `*` stands for any: for a word, for the value of a field, or for a part of a channel.
ghost use Rattle.std.specs.Prelude.{◌≡◌, option_map, Some};
ghost use Rattle.expectations.specs.Stars as said;

/// Whether an octet ends a word: a blank, or the semicolon that ends a part of a line in words.
pub(crate) fn is_end(octet: u8) -> bool
    ensures { result ≡ said.is_end octet }
{
    octet == b' ' || octet == b';'
}

/// What stands behind the word that begins a line, or behind the part of it that a slash ends.
pub(crate) fn behind_star(line: &[u8], is_part: bool) -> &[u8]
    ensures { result.now ≡ said.behind_star line.now is_part }
{
    let mut rest = line;
    while let [octet, behind @ ..] = rest {
        if is_end(*octet) || (is_part && *octet == b'/') {
            return rest;
        }
        rest = behind;
    }
    rest
}

/// Whether a text begins with a slash.
fn begins_with_slash(text: &[u8]) -> bool
    ensures { result ≡ said.begins_with_slash text.now }
{
    match text {
        [octet, ..] => *octet == b'/',
        [] => false,
    }
}

/// What stands behind an octet that begins a line.
fn behind_octet(line: &[u8], octet: u8) -> Option<&[u8]>
    ensures { option_map (λ rest. rest.now) result ≡ said.behind_octet line.now octet }
{
    match line {
        [first, behind @ ..] if *first == octet => Some(behind),
        [..] => None,
    }
}

/// What stands in a line behind what a character of a text stands for, between the one before it and those behind it.
fn behind_one<'a>(line: Option<&'a [u8]>, octet: u8, before: u8, behind: &[u8]) -> Option<&'a [u8]>
    ensures { option_map (λ rest. rest.now) result ≡
        said.behind_one (option_map (λ rest. rest.now) line.entry) octet before behind.now }
{
    let line = line?;
    if octet == b'*' {
        Some(behind_star(line, before == b'/' || begins_with_slash(behind)))
    } else {
        behind_octet(line, octet)
    }
}

/// What stands in a line behind a text with which it begins. In that `*` stands for any word, for any value behind `=`, and beside a
/// slash for any part.
pub(crate) fn rest_like<'a>(line: &'a [u8], text: &[u8]) -> Option<&'a [u8]>
    ensures { option_map (λ rest. rest.now) result ≡ said.rest_like line.now text.now }
{
    let mut found = Some(line);
    let mut before = b' ';
    let mut left = text;
    while let [octet, behind @ ..] = left {
        found = behind_one(found, *octet, before, behind);
        before = *octet;
        left = behind;
    }
    found
}

/// Whether a word is one for which another stands.
pub(crate) fn is_like(word: &str, other: &str) -> bool
    ensures { result ≡ said.is_like word.now other.now }
{
    match rest_like(word.as_bytes(), other.as_bytes()) {
        Some(rest) => rest.is_empty(),
        None => false,
    }
}

/// Whether a text stands for any reply of the book.
pub(crate) fn ends_with_any_reply(text: &str) -> bool
    ensures { result ≡ said.ends_with_any_reply text.now }
{
    text.as_bytes().ends_with(b"-> *")
}

/// Whether a line is one for which a text stands; `-> *` ends one that stands for any reply.
pub(crate) fn is_line_like(line: &str, text: &str) -> bool
    ensures { result ≡ said.is_line_like line.now text.now }
{
    match rest_like(line.as_bytes(), text.as_bytes()) {
        Some(rest) => rest.is_empty() || ends_with_any_reply(text),
        None => false,
    }
}
