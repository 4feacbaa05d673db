//! Names that are misspelt, or seem to be: one behind `#!` that no comment before it expects something with; and one that stands in
//! one place of a script alone, and is nearly another that stands before it.
//!
//! No clause says which they are: that is shown by tests.
use expectations::{cut_name, has_name, held_in, refused_in};
use run_listeners::LabFault;
use screen_text::Escaped;
use std::alloc::{AllocError, Global};
use std::io::Write;
use tested_scripts::{Miss, Reasons, expected_in, is_script_line, lines_of};

/// What is wrong with a name.
#[derive(Clone, Copy, Debug, PartialEq, Eq)]
enum Flaw {
    /// It stands behind `#!`, and no comment before it expects something with it.
    Unbound,
    /// It stands nowhere else, and is nearly another name, which stands before it, or twice or more.
    Misspelt,
    /// It stands nowhere else: `*` says the same.
    Lone,
}

/// A name of a comment that is misspelt, or seems to be.
#[derive(Clone, Copy, Debug, PartialEq, Eq)]
pub(crate) struct FlawedName<'a> {
    /// The number of its line, counted from 1.
    line: usize,
    /// The comment.
    text: &'a str,
    name: &'a str,
    flaw: Flaw,
    /// The name that it may be: the nearest of those that comments before the line expect something with, or one that is nearly it.
    nearest: Option<&'a str>,
}

/// The name with which a piece of a text begins that stands behind `$`, where one does.
fn name_of(piece: &str) -> Option<&str> {
    let (name, _) = cut_name(piece)?;
    Some(name)
}

/// How many octets two texts begin with that are the same.
fn common_front(one: &[u8], other: &[u8]) -> usize {
    one.iter()
        .zip(other.iter())
        .take_while(|pair| pair.0 == pair.1)
        .count()
}

/// How many octets two texts end with that are the same.
fn common_end(one: &[u8], other: &[u8]) -> usize {
    one.iter()
        .rev()
        .zip(other.iter().rev())
        .take_while(|pair| pair.0 == pair.1)
        .count()
}

/// What differs in two names, between what they begin and end with that is the same.
fn differing<'a>(one: &'a str, other: &'a str) -> (&'a [u8], &'a [u8]) {
    let (one, other) = (one.as_bytes(), other.as_bytes());
    let front = common_front(one, other);
    let (_, one) = one.split_at(front.min(one.len()));
    let (_, other) = other.split_at(front.min(other.len()));
    let end = common_end(one, other);
    let (one, _) = one.split_at(one.len().saturating_sub(end));
    let (other, _) = other.split_at(other.len().saturating_sub(end));
    (one, other)
}

/// How many letters stand where two names differ, in the longer.
fn distance(one: &str, other: &str) -> usize {
    let (rest, others) = differing(one, other);
    rest.len().max(others.len())
}

/// Whether a text has digits alone.
fn are_digits(text: &[u8]) -> bool {
    text.iter().all(|octet| octet.is_ascii_digit())
}

/// Whether what differs in two names is a slip: one letter is another, is missing or is too many, or two neighbours are the other way
/// round. Names that differ in a digit alone are two.
fn is_slip(rest: &[u8], others: &[u8]) -> bool {
    match (rest, others) {
        ([letter, another], [first, second]) => *letter == *second && *another == *first,
        ([], [letter]) | ([letter], []) => !letter.is_ascii_digit(),
        ([_], [_]) => !(are_digits(rest) && are_digits(others)),
        ([..], [..]) => false,
    }
}

/// Whether two names are nearly the same: they differ by a slip, and two other letters at least are the same.
fn is_near(one: &str, other: &str) -> bool {
    let (rest, others) = differing(one, other);
    let longest = one.len().max(other.len());
    is_slip(rest, others) && 2 <= longest.saturating_sub(distance(one, other))
}

/// Whether a line expects something, so that a name may get its value there.
fn expects(line: &str) -> bool {
    expected_in(line).is_some() || held_in(line).is_some()
}

/// Whether a comment says something of what comes.
fn says_something(line: &str) -> bool {
    expects(line) || refused_in(line).is_some()
}

/// How often a line has a name that is one of the script: not in a comment for the reader.
fn count_in(line: &str, name: &str) -> usize {
    if !is_script_line(line) && !says_something(line) {
        return 0;
    }
    line.split('$')
        .skip(1)
        .filter(|piece| name_of(*piece) == Some(name))
        .count()
}

/// How often lines have a name.
fn count_of(lines: &[&str], name: &str) -> usize {
    let mut count = 0_usize;
    for line in lines {
        count = count.saturating_add(count_in(*line, name));
    }
    count
}

/// Whether one of some lines expects something with a name.
fn is_bound(lines: &[&str], name: &str) -> bool {
    lines
        .iter()
        .any(|line| expects(*line) && 0 < count_in(*line, name))
}

/// The nearer of two names to another: the first, unless the second is nearer.
fn nearer<'a>(best: Option<&'a str>, found: &'a str, name: &str) -> &'a str {
    match best {
        Some(best) if distance(best, name) <= distance(found, name) => best,
        Some(_) | None => found,
    }
}

/// The nearest name to another of a line, or the one that was the nearest so far.
fn nearest_in<'a>(line: &'a str, name: &str, best: Option<&'a str>) -> Option<&'a str> {
    let mut best = best;
    for piece in line.split('$').skip(1) {
        if let Some(found) = name_of(piece) {
            best = Some(nearer(best, found, name));
        }
    }
    best
}

/// The name that is nearest to another, of those that some lines expect something with.
pub(crate) fn nearest_of<'a>(lines: &[&'a str], name: &str) -> Option<&'a str> {
    let mut best = None;
    for line in lines {
        if expects(*line) {
            best = nearest_in(*line, name, best);
        }
    }
    best
}

/// A name of a line that is nearly another, and stands twice or more in a script's lines.
fn near_in<'a>(lines: &[&str], line: &'a str, name: &str) -> Option<&'a str> {
    line.split('$')
        .skip(1)
        .filter_map(|piece| name_of(piece))
        .find(|found| is_near(*found, name) && 1 < count_of(lines, *found))
}

/// A name that is nearly another, and stands twice or more in a script's lines.
fn near_of<'a>(lines: &[&'a str], name: &str) -> Option<&'a str> {
    lines
        .iter()
        .filter(|line| says_something(**line))
        .find_map(|line| near_in(lines, *line, name))
}

/// What is wrong with a name of a comment, behind some of a script's lines, and the name that it may be; nothing if all is well.
fn flaw_of<'a>(
    lines: &[&'a str],
    before: &[&'a str],
    comment: &str,
    name: &str,
) -> Option<(Flaw, Option<&'a str>)> {
    let nearest = nearest_of(before, name);
    if refused_in(comment).is_some() {
        let is_bound = is_bound(before, name);
        return if is_bound {
            None
        } else {
            Some((Flaw::Unbound, nearest))
        };
    }
    if 1 < count_of(lines, name) {
        return None;
    }
    match nearest
        .filter(|found| is_near(*found, name))
        .or(near_of(lines, name))
    {
        Some(near) => Some((Flaw::Misspelt, Some(near))),
        None => Some((Flaw::Lone, None)),
    }
}

/// Appends a name of a comment, if it is misspelt, or seems to be: the comment stands at a place of a script's lines.
fn add_flawed<'a>(
    lines: &[&'a str],
    place: usize,
    comment: &'a str,
    name: &'a str,
    found: &mut Vec<FlawedName<'a>>,
) -> Result<(), AllocError> {
    let (before, _) = lines.split_at(place.min(lines.len()));
    if let Some((flaw, nearest)) = flaw_of(lines, before, comment, name) {
        found.push(FlawedName {
            line: place.saturating_add(1),
            text: comment,
            name,
            flaw,
            nearest,
        })?;
    }
    Ok(())
}

/// Appends the names of a comment that are misspelt, or seem to be: it stands at a place of a script's lines.
fn add_all_flawed<'a>(
    lines: &[&'a str],
    place: usize,
    comment: &'a str,
    found: &mut Vec<FlawedName<'a>>,
) -> Result<(), AllocError> {
    for piece in comment.split('$').skip(1) {
        if let Some(name) = name_of(piece) {
            add_flawed(lines, place, comment, name, found)?;
        }
    }
    Ok(())
}

/// The names in the comments of a script that are misspelt, or seem to be. One in a line that gives something is told where that can't
/// be read.
fn flawed_names<'a>(alloc: Global, script: &'a str) -> Result<Vec<FlawedName<'a>>, AllocError> {
    let lines = lines_of(alloc, script)?;
    let mut found = Vec::new(alloc);
    for (place, comment) in lines.iter().enumerate() {
        if has_name(*comment) && says_something(*comment) {
            add_all_flawed(&lines, place, *comment, &mut found)?;
        }
    }
    Ok(found)
}

/// What is said of a name that is flawed, without the nearest one.
fn words_of(flaw: Flaw) -> &'static str {
    match flaw {
        Flaw::Unbound => "stands for nothing: no comment before the line expects it",
        Flaw::Misspelt => "stands nowhere else",
        Flaw::Lone => "stands nowhere else: * says the same",
    }
}

/// What is wrong with a name, in words.
fn reason_of(alloc: Global, flawed: FlawedName<'_>) -> Result<String, AllocError> {
    let FlawedName {
        line: _,
        text: _,
        name,
        flaw,
        nearest,
    } = flawed;
    let words = words_of(flaw);
    match nearest {
        Some(nearest) if flaw != Flaw::Lone => {
            format!(in alloc; "${name} {words}; the nearest name is ${nearest}")
        }
        Some(_) | None => format!(in alloc; "${name} {words}"),
    }
}

/// Says which names of a script's comments are misspelt, or seem to be, and answers those with which it isn't met.
pub(crate) fn say_flawed_names<'a, E: Write>(
    alloc: Global,
    path: &str,
    script: &'a str,
    errors: &mut E,
) -> Result<Vec<FlawedName<'a>>, LabFault> {
    let mut flawed = flawed_names(alloc, script)?;
    for name in &flawed {
        let line = name.line;
        let reason = reason_of(alloc, *name)?;
        writeln!(errors, "{}:{line}: {reason}", Escaped(path))?;
    }
    flawed.retain(|name| name.flaw != Flaw::Lone);
    Ok(flawed)
}

/// Tells that a name of a comment is misspelt, or seems to be.
pub(crate) fn tell_flawed_name(
    alloc: Global,
    flawed: FlawedName<'_>,
    reasons: &mut Reasons<Global>,
) -> Result<(), LabFault> {
    let line = flawed.line;
    let reason = reason_of(alloc, flawed)?;
    let came = reason.as_str();
    let miss = match (refused_in(flawed.text), held_in(flawed.text)) {
        (Some(refused), _) => Miss::Begins {
            line,
            refused,
            came,
        },
        (None, Some(expected)) => Miss::Holds {
            line,
            expected,
            held: came,
        },
        (None, None) => Miss::Differs {
            line,
            expected: expected_in(flawed.text),
            came: Some(came),
        },
    };
    reasons.tell(miss)
}
