//! Causes in hexadecimal in the comments of a script: `cause=0x20` is written there as `cause=32`, as messages are printed.
//!
//! No clause says how: that is shown by tests.
use expectations::refused_in;
use std::alloc::{AllocError, Global};
use tested_scripts::expected_in;

/// The keys of fields that are causes, and what begins one in hexadecimal.
const FRONTS: [&str; 2] = ["cause=0x", "rr=0x"];

/// The number that a hexadecimal digit stands for.
fn digit_of(octet: u8) -> Option<u8> {
    match octet {
        b'0'..=b'9' => Some(octet.saturating_sub(b'0')),
        b'a'..=b'f' => Some(octet.saturating_sub(b'a').saturating_add(10)),
        b'A'..=b'F' => Some(octet.saturating_sub(b'A').saturating_add(10)),
        _ => None,
    }
}

/// The number that two hexadecimal digits stand for.
fn octet_of(text: &str) -> Option<u8> {
    match text.as_bytes() {
        [high, low] => {
            let high = digit_of(*high)?.saturating_mul(16);
            Some(high.saturating_add(digit_of(*low)?))
        }
        [..] => None,
    }
}

/// The cause that a word has in hexadecimal, and the key that stands before it.
fn cause_of(word: &str) -> Option<(&'static str, u8)> {
    for front in FRONTS {
        if let Some(digits) = word.strip_prefix(front)
            && let Some(cause) = octet_of(digits)
        {
            return Some((front.strip_suffix("0x").unwrap_or(""), cause));
        }
    }
    None
}

/// Appends a word, with its cause in decimal.
fn push_word(written: &mut String, word: &str) -> Result<(), AllocError> {
    let (bare, end) = match word.strip_suffix(";") {
        Some(bare) => (bare, ";"),
        None => (word, ""),
    };
    match cause_of(bare) {
        Some((key, cause)) => write!(written, "{key}{cause}{end}"),
        None => written.push_str(word),
    }
}

/// Appends a comment, with its causes in decimal.
fn push_comment(written: &mut String, comment: &str) -> Result<(), AllocError> {
    for (place, word) in comment.split(' ').enumerate() {
        if 0 < place {
            written.push(' ')?;
        }
        push_word(written, word)?;
    }
    Ok(())
}

/// Whether a line says of a message that it comes, or doesn't.
fn says_message(line: &str) -> bool {
    expected_in(line).is_some() || refused_in(line).is_some()
}

/// A script whose comments have causes in decimal alone.
pub(crate) fn with_decimal_causes(alloc: Global, script: &str) -> Result<String, AllocError> {
    let mut written = String::new(alloc);
    for (place, line) in script.split('\n').enumerate() {
        if 0 < place {
            written.push('\n')?;
        }
        match line.strip_suffix("\r") {
            Some(line) if says_message(line) => {
                push_comment(&mut written, line)?;
                written.push('\r')?;
            }
            None if says_message(line) => push_comment(&mut written, line)?,
            Some(_) | None => written.push_str(line)?,
        }
    }
    Ok(written)
}
