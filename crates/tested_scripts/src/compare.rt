//! The first difference between lines that came and lines that are expected.
ghost use Rattle.std.specs.Prelude.{◌≡◌, ◌↔◌, ◌⊎◌, ◌≤◌, ◌∷◌, ◌++◌, ℕ, [], true, false, None, Some, IfOk, OnOk, IfSome, All, Contains, filter_map, length, slice_get, ◌<◌};
ghost use Rattle.tested_scripts.specs.Lines.{texts_of, expected_in, is_any};
ghost use Rattle.tested_scripts.specs.Meeting as said;

use crate::lines::{expected_in, is_any, is_expectation, is_input};
use expectations::is_met_by;
use std::alloc::{AllocError, Allocator};

/// A line that came.
#[derive(Clone, Copy, Debug, PartialEq, Eq)]
pub struct CameLine<'a> {
    /// The line of the trace.
    pub text: &'a str,
    /// The line in words if it is a message; else an empty text.
    pub words: &'a str,
}

/// The first difference between the comments after a line of a script that gives something, and the trace lines that came of
/// that line.
#[derive(Clone, Copy, Debug, PartialEq, Eq)]
pub struct Difference {
    /// The place of the comment that wasn't met. If all were met but more came, it is the place after the last.
    pub line: usize,
    /// The lines that came before this place, and no more, met what was expected before. If nothing more came, it is the
    /// place after the last.
    pub came: usize,
}

/// Whether the line at a place is one that is expected.
fn is_at(came: &[CameLine<'_>], place: usize, text: &str) -> bool
    ensures { result ≡ said.is_at (said.said_of came.now) place text.now }
{
    match came.get(place) {
        Some(line) => is_met_by(line.text, line.words, text),
        None => false,
    }
}

/// Appends the place behind another, where the line at that is one that is expected.
fn push_behind<A: Allocator>(
    found: &mut Vec<usize, A>,
    came: &[CameLine<'_>],
    text: &str,
    place: usize,
) -> Result<(), AllocError>
    ensures { OnOk result (found.new.items ≡ found.old.items ++
        filter_map (said.behind (said.said_of came.now) text.now) (place ∷ [])) }
{
    if is_at(came, place, text) {
        found.push(place + 1)?;
    }
    Ok(())
}

/// The places behind those of these places at which the line is one that is expected.
fn behind_text<A: Allocator>(
    alloc: A,
    places: &[usize],
    came: &[CameLine<'_>],
    text: &str,
) -> Result<Vec<usize, A>, AllocError>
    ensures { IfOk result (λ found. found.items ≡
        filter_map (said.behind (said.said_of came.now) text.now) places.now) }
{
    let mut found = Vec::new(alloc);
    for place in places {
        push_behind(&mut found, came, text, *place)?;
    }
    Ok(found)
}

/// The least of some places.
fn least(places: &[usize]) -> Option<usize>
    ensures none { result ≡ None → places.now ≡ [] }
    ensures least { IfSome result (λ place.
        Contains places.now place × All (λ other. place ≤ other) places.now) }
{
    let mut least = *places.first()?;
    for place in places {
        least = least.min(*place);
    }
    Some(least)
}

/// All places from one on up to the end.
fn places_from<A: Allocator>(
    alloc: A,
    first: usize,
    came: &[CameLine<'_>],
) -> Result<Vec<usize, A>, AllocError>
    ensures { IfOk result (λ found. (p : ℕ) → Contains found.items p ↔
        ((first ≤ p) × (p ≤ length (said.said_of came.now)))) }
{
    let mut found = Vec::new(alloc);
    let end = came.len() + 1;
    for place in first.min(end)..end {
        found.push(place)?;
    }
    Ok(found)
}

/// The places to which any lines lead from these places.
fn behind_any<A: Allocator>(
    alloc: A,
    places: &[usize],
    came: &[CameLine<'_>],
    text: &str,
) -> Result<Vec<usize, A>, AllocError>
    requires { is_any text.now ≡ true }
    ensures { IfOk result (λ found.
        said.AreNext (said.said_of came.now) (Some text.now) places.now found.items) }
{
    match least(places) {
        Some(first) => places_from(alloc, first, came),
        None => Ok(Vec::new(alloc)),
    }
}

/// The places to which a line that expects something leads from these places.
fn behind_expected<A: Allocator>(
    alloc: A,
    places: &[usize],
    came: &[CameLine<'_>],
    text: &str,
) -> Result<Vec<usize, A>, AllocError>
    ensures { IfOk result (λ found.
        said.AreNext (said.said_of came.now) (Some text.now) places.now found.items) }
{
    if is_any(text) {
        behind_any(alloc, places, came, text)
    } else {
        behind_text(alloc, places, came, text)
    }
}

/// The places to which a line of a script leads from these places.
fn next_places<A: Allocator>(
    alloc: A,
    places: &[usize],
    came: &[CameLine<'_>],
    line: &str,
) -> Result<Vec<usize, A>, AllocError>
    ensures { IfOk result (λ found.
        said.AreNext (said.said_of came.now) (expected_in line.now) places.now found.items) }
{
    match expected_in(line) {
        Some(text) => behind_expected(alloc, places, came, text),
        None => Vec::from_slice(alloc, places),
    }
}

/// The greatest of some places.
fn greatest(places: &[usize]) -> Option<usize>
    ensures none { result ≡ None → places.now ≡ [] }
    ensures greatest { IfSome result (λ place.
        Contains places.now place × All (λ other. other ≤ place) places.now) }
{
    let mut greatest = *places.first()?;
    for place in places {
        greatest = greatest.max(*place);
    }
    Some(greatest)
}

/// Whether a place is among some.
fn has_place(places: &[usize], place: usize) -> bool
    ensures has { result ≡ true → Contains places.now place }
    ensures has_not { result ≡ false → ¬ Contains places.now place }
{
    for other in places {
        if *other == place {
            return true;
        }
    }
    false
}

/// The line at a place.
fn line_at<'a>(lines: &[&'a str], place: usize) -> &'a str
    requires { place < length lines.now }
    ensures { slice_get (texts_of lines.now) place ≡ Some result.now }
{
    match lines.get(place) {
        Some(line) => *line,
        None => "",
    }
}

/// Whether what is expected is the echo of a script's line, or may be.
fn is_echo(text: &str) -> bool
    ensures { result ≡ said.is_echo text.now }
{
    is_any(text) || is_input(text)
}

/// Whether the first that lines expect is the echo of the script's line, or may be.
fn begin_with_echo(lines: &[&str]) -> bool
    ensures { result ≡ said.begins_with_echo (texts_of lines.now) }
{
    for line in lines {
        if let Some(text) = expected_in(*line) {
            return is_echo(text);
        }
    }
    true
}

/// The place from which on the lines that came are expected: behind the echo of the script's line, where that is left out.
fn first_place(lines: &[&str], came: &[CameLine<'_>]) -> usize
    ensures { result ≡ said.first_place (texts_of lines.now) (said.said_of came.now) }
{
    match came.first() {
        Some(line) if is_input(line.text) && !begin_with_echo(lines) => 1,
        _ => 0,
    }
}

/// Where trace lines differ first from those that lines of a script expect, if they do.
fn first_difference<A: Allocator + Copy>(
    alloc: A,
    lines: &[&str],
    came: &[CameLine<'_>],
) -> Result<Option<Difference>, AllocError>
    ensures met { IfOk result (λ found. (found ≡ None) ↔ said.Reaches (said.said_of came.now) (texts_of lines.now)
        (said.first_place (texts_of lines.now) (said.said_of came.now)) (length (said.said_of came.now))) }
    ensures first { IfOk result (λ found. IfSome found (said.IsFirst (texts_of lines.now) (said.said_of came.now))) }
{
    let mut furthest = first_place(lines, came);
    let mut places = Vec::from_slice(alloc, &[furthest])?;
    for line in 0..lines.len() {
        let next = next_places(alloc, &places, came, line_at(lines, line))?;
        match greatest(&next) {
            Some(place) => {
                furthest = place;
                places = next;
            }
            None => {
                return Ok(Some(Difference {
                    line,
                    came: furthest,
                }));
            }
        }
    }
    if has_place(&places, came.len()) {
        return Ok(None);
    }
    Ok(Some(Difference {
        line: lines.len(),
        came: furthest,
    }))
}

/// The first place among the lines that came up to which those that stand before may have met what lines of a script expect.
///
/// No clause says which: nothing but a line for a person hangs on it.
pub(crate) fn first_behind<A: Allocator + Copy>(
    alloc: A,
    lines: &[&str],
    came: &[CameLine<'_>],
) -> Result<usize, AllocError> {
    let mut places = Vec::from_slice(alloc, &[first_place(lines, came)])?;
    for line in lines {
        places = next_places(alloc, &places, came, *line)?;
    }
    Ok(least(&places).unwrap_or(0))
}

/// Whether lines of a script expect something.
fn expect_any(lines: &[&str]) -> bool
    ensures { result ≡ said.expect_any (texts_of lines.now) }
{
    lines.iter().any(|line| is_expectation(*line))
}

/// The first place where trace lines differ from those that are expected. `lines` are the lines of a script after one that
/// gives something, up to the next such line; `came` is what came of it. `None` if all that is expected came, in this order,
/// and nothing else; also if nothing is expected.
pub fn find_difference<A: Allocator + Copy>(
    alloc: A,
    lines: &[&str],
    came: &[CameLine<'_>],
) -> Result<Option<Difference>, AllocError>
    ensures met { IfOk result (λ found. (found ≡ None) ↔ said.AreMet (texts_of lines.now) (said.said_of came.now)) }
    ensures first { IfOk result (λ found. IfSome found (said.IsFirst (texts_of lines.now) (said.said_of came.now))) }
{
    if expect_any(lines) {
        first_difference(alloc, lines, came)
    } else {
        Ok(None)
    }
}

/// The first difference for the last line of a script that gives something. `ended` is what came of it, followed by the
/// lines of the trace's end, which may be expected or not.
pub fn find_last_difference<A: Allocator + Copy>(
    alloc: A,
    lines: &[&str],
    came: &[CameLine<'_>],
    ended: &[CameLine<'_>],
) -> Result<Option<Difference>, AllocError>
    ensures met { IfOk result (λ found. (found ≡ None) ↔
        (said.AreMet (texts_of lines.now) (said.said_of came.now)
        ⊎ said.AreMet (texts_of lines.now) (said.said_of ended.now))) }
    ensures first { IfOk result (λ found. IfSome found (said.IsFirst (texts_of lines.now) (said.said_of ended.now))) }
{
    match find_difference(alloc, lines, came)? {
        Some(_) => find_difference(alloc, lines, ended),
        None => Ok(None),
    }
}
