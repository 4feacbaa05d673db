//! What the comments behind a line of a script say of it: that it is meant to come to nothing, or no more than what doesn't come.
//!
//! No clause says what they say: that is shown by tests.
use expectations::{held_in, is_meant_idle, refused_in};
use tested_scripts::{expected_in, is_any, part_end};

/// The comments behind the line of this number, counted from 1, up to the next line that gives something.
fn part_behind<'a>(lines: &'a [&'a str], number: usize) -> &'a [&'a str] {
    let (_, behind) = lines.split_at(number.min(lines.len()));
    let (part, _) = behind.split_at(part_end(behind).min(behind.len()));
    part
}

/// Whether it is said of the line of this number that it is meant to come to nothing.
pub(crate) fn is_meant(lines: &[&str], number: usize) -> bool {
    part_behind(lines, number)
        .iter()
        .any(|line| is_meant_idle(*line))
}

/// Whether a comment expects a line, and not any.
fn expects_line(line: &str) -> bool {
    expected_in(line).is_some_and(|text| !is_any(text))
}

/// Whether it is said which line comes of the line of this number.
pub(crate) fn expects_a_line(lines: &[&str], number: usize) -> bool {
    part_behind(lines, number)
        .iter()
        .any(|line| expects_line(*line))
}

/// Whether all that is expected behind the line of this number is that something doesn't come.
pub(crate) fn has_absences_alone(lines: &[&str], number: usize) -> bool {
    let part = part_behind(lines, number);
    part.iter().any(|line| refused_in(*line).is_some())
        && !part
            .iter()
            .any(|line| expects_line(*line) || held_in(*line).is_some())
}
