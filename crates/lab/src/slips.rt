//! Comments that look as if they said something to a test, and don't: for a blank that is missing, or is another character; and
//! `#- idle` in another form.
//!
//! No clause says which they are: that is shown by tests.
use expectations::{cells_in, held_in, is_meant_idle, is_slipped, peer_in, refused_in, site_in};
use lab_script::script::is_comment;
use std::alloc::{AllocError, Global};
use tested_scripts::expected_in;

/// Whether a character can't be seen, or looks like a blank.
fn is_unseen(character: char) -> bool {
    character.is_whitespace()
        || character.is_control()
        || matches!(
            character,
            '\u{ad}'
                | '\u{115f}'..='\u{1160}'
                | '\u{180b}'..='\u{180f}'
                | '\u{200b}'..='\u{200f}'
                | '\u{202a}'..='\u{202e}'
                | '\u{2060}'..='\u{206f}'
                | '\u{2800}'
                | '\u{3164}'
                | '\u{fe00}'..='\u{fe0f}'
                | '\u{feff}'
                | '\u{ffa0}'
        )
}

/// Whether a character ends a line for some, but not in a script.
fn ends_line(character: char) -> bool {
    matches!(
        character,
        '\r' | '\u{b}' | '\u{c}' | '\u{85}' | '\u{2028}' | '\u{2029}'
    )
}

/// Whether a comment says something to a test.
fn is_mark(line: &str) -> bool {
    expected_in(line).is_some()
        || refused_in(line).is_some()
        || held_in(line).is_some()
        || site_in(line).is_some()
        || peer_in(line).is_some()
        || cells_in(line).is_some()
        || is_meant_idle(line)
}

/// What stands behind the number signs that begin a comment, and what can't be seen among them.
fn behind_signs(line: &str) -> &str {
    line.trim_start_matches(|character: char| character == '#' || is_unseen(character))
}

/// Whether what stands behind the number signs of a comment is `- idle`, in any form.
pub(crate) fn is_idle_mark(line: &str) -> bool {
    is_idle(behind_signs(line))
}

/// Whether what stands behind number signs is `- idle`, in any form.
fn is_idle(text: &str) -> bool {
    match text.strip_prefix("-") {
        Some(word) => word
            .trim_matches(|character: char| is_unseen(character))
            .as_bytes()
            .eq_ignore_ascii_case(b"idle"),
        None => false,
    }
}

/// Whether a comment that says nothing to a test looks like one that does.
fn looks_like_mark(alloc: Global, line: &str) -> Result<bool, AllocError> {
    let text = behind_signs(line);
    let plain = format!(in alloc; "# {text}")?;
    Ok(is_idle(text) || is_slipped(&plain))
}

/// Whether a comment stands in another, behind a character that doesn't end the line, and looks as if it said something to a test.
fn hides_mark(alloc: Global, line: &str) -> Result<bool, AllocError> {
    for text in line.split(|character: char| ends_line(character)).skip(1) {
        let text = text.trim_start_matches(|character: char| is_unseen(character));
        if is_comment(text) && (is_mark(text) || looks_like_mark(alloc, text)?) {
            return Ok(true);
        }
    }
    Ok(false)
}

/// Whether a comment looks as if it said something to a test, and doesn't.
pub(crate) fn is_slip(alloc: Global, line: &str) -> Result<bool, AllocError> {
    if !is_comment(line) {
        return Ok(false);
    }
    Ok((!is_mark(line) && looks_like_mark(alloc, line)?) || hides_mark(alloc, line)?)
}
