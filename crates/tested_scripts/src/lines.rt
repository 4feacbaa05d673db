//! The kinds of lines of a script, for a test.
ghost use Rattle.std.specs.Prelude.{◌≡◌, IfOk, option_map, is_some};
ghost use Rattle.std.specs.List.{position_or_len};
ghost use Rattle.lab_script.specs.Script as script;
ghost use Rattle.tested_scripts.specs.Lines as said;

use expectations::{held_in, refused_in, without_mark};
use lab_script::script::{is_blank, is_comment, without_return};
use std::alloc::{AllocError, Allocator};

/// The lines of a text, each without the carriage return that may end it.
pub fn lines_of<'a, A: Allocator>(alloc: A, text: &'a str) -> Result<Vec<&'a str, A>, AllocError>
    ensures lines { IfOk result (λ lines. said.texts_of lines.items ≡ script.lines_of text.now) }
{
    let mut lines = Vec::new(alloc);
    for line in text.split('\n') {
        lines.push(without_return(line))?;
    }
    Ok(lines)
}

/// Whether a line gives something, if it can be read: it is neither a comment nor blank.
pub fn is_script_line(line: &str) -> bool
    ensures script { result ≡ said.is_script_line line.now }
{
    !is_comment(line) && !is_blank(line)
}

/// A text without the one blank that may begin it.
fn without_blank(text: &str) -> &str
    ensures { result.now ≡ said.without_blank text.now }
{
    text.strip_prefix(" ").unwrap_or(text)
}

/// The trace line that a line expects: the text after `#>` and one blank. `None` if it doesn't begin like this.
pub fn expected_in(line: &str) -> Option<&str>
    ensures expected { option_map (λ text. text.now) result ≡ said.expected_in line.now }
{
    let text = line.strip_prefix("#>")?;
    Some(without_blank(text))
}

/// Whether a line expects something.
pub(crate) fn is_expectation(line: &str) -> bool
    ensures { result ≡ said.is_expectation line.now }
{
    line.starts_with("#>")
}

/// Whether a line says something of what comes: that a line does, that none does, or what the books hold.
pub(crate) fn says_something(line: &str) -> bool
    ensures { result ≡ said.says_something line.now }
{
    is_expectation(line) || refused_in(line).is_some() || held_in(line).is_some()
}

/// Whether a line of a trace is that of an input.
pub(crate) fn is_input(line: &str) -> bool
    ensures { result ≡ said.is_input line.now }
{
    without_mark(line).starts_with("in ")
}

/// Whether an expectation means any lines, or none.
pub fn is_any(expected: &str) -> bool
    ensures any { result ≡ said.is_any expected.now }
{
    expected == ".."
}

/// How many lines come before the next one that gives something.
pub fn part_end(lines: &[&str]) -> usize
    ensures end { result ≡ position_or_len said.is_script_line (said.texts_of lines.now) }
{
    lines
        .iter()
        .position(|line| is_script_line(*line))
        .unwrap_or(lines.len())
}
