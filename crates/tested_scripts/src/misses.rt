//! The comments of a part of a script that aren't met, other than those that expect lines one by one.
ghost use Rattle.std.specs.Prelude.{◌≡◌};
ghost use Rattle.std.specs.List.{list_any};
ghost use Rattle.tested_scripts.specs.Lines.{texts_of};
ghost use Rattle.tested_scripts.specs.Meeting.{said_of};
ghost use Rattle.tested_scripts.specs.Meeting as said;
ghost use Rattle.tested_scripts.specs.Tests as tests;

use crate::came::printed_lines;
use crate::compare::CameLine;
use crate::nearest::shown;
use crate::printed::Miss;
use crate::reasons::Reasons;
use expectations::{Answered, answer_to, held_in, is_answered, is_refused_by, refused_in};
use run_listeners::LabFault;
use std::alloc::Allocator;

/// Whether a line that came is refused by a text.
fn is_refused(line: &CameLine<'_>, text: &str) -> bool
    ensures { result ≡ said.is_refused text.now (line.now.text.now, line.now.words.now) }
{
    is_refused_by(line.text, line.words, text)
}

/// Whether one of the lines that came is.
fn is_any_refused(came: &[CameLine<'_>], text: &str) -> bool
    ensures { result ≡ list_any (said.is_refused text.now) (said_of came.now) }
{
    came.iter().any(|line| is_refused(line, text))
}

/// Whether a line of a script says that no such line comes, and one that came is so.
fn is_broken(line: &str, came: &[CameLine<'_>]) -> bool
    ensures { result ≡ tests.is_broken (said_of came.now) line.now }
{
    match refused_in(line) {
        Some(text) => is_any_refused(came, text),
        None => false,
    }
}

/// Whether one of the lines of a script says so.
pub(crate) fn has_broken(part: &[&str], came: &[CameLine<'_>]) -> bool
    ensures { result ≡ list_any (tests.is_broken (said_of came.now)) (texts_of part.now) }
{
    part.iter().any(|line| is_broken(*line, came))
}

/// Tells each line of a part that says so, with the first line that is so. The part begins behind so many lines of the
/// script.
pub(crate) fn tell_broken<A: Allocator + Copy>(
    reasons: &mut Reasons<A>,
    before: usize,
    part: &[&str],
    came: &[CameLine<'_>],
) -> Result<(), LabFault> {
    let mut number = before;
    for line in part {
        number = number.saturating_add(1);
        if let Some(refused) = refused_in(*line)
            && let Some(found) = came.iter().find(|found| is_refused(*found, refused))
        {
            let came = shown(*found, Some(refused));
            reasons.tell(Miss::Begins {
                line: number,
                refused,
                came,
            })?;
        }
    }
    Ok(())
}

/// Whether lines of a part expect something of the books.
pub(crate) fn expect_held(part: &[&str]) -> bool {
    part.iter().any(|line| held_in(*line).is_some())
}

/// What the books hold where a line expects something else of them; these are the lines of what they hold.
fn unheld<A: Allocator + Copy>(
    alloc: A,
    line: &str,
    held: &[&str],
) -> Result<Option<String<A>>, LabFault> {
    let Some(expected) = held_in(line) else {
        return Ok(None);
    };
    match answer_to(alloc, expected, held)? {
        Answered::Held(answer) if is_answered(&answer, expected) => Ok(None),
        Answered::Held(answer) => Ok(Some(answer)),
        Answered::Unasked(why) => Ok(Some(String::from_str(alloc, why)?)),
    }
}

/// Whether the books hold what the lines of a part expect.
pub(crate) fn holds_all<A: Allocator + Copy>(
    alloc: A,
    part: &[&str],
    held: &str,
) -> Result<bool, LabFault> {
    if !expect_held(part) {
        return Ok(true);
    }
    let held = printed_lines(alloc, held)?;
    for line in part {
        if unheld(alloc, *line, &held)?.is_some() {
            return Ok(false);
        }
    }
    Ok(true)
}

/// Tells what a line expects of the books where they hold something else.
fn tell_unheld<A: Allocator + Copy>(
    alloc: A,
    reasons: &mut Reasons<A>,
    number: usize,
    line: &str,
    held: &[&str],
) -> Result<(), LabFault> {
    let Some(answer) = unheld(alloc, line, held)? else {
        return Ok(());
    };
    let miss = Miss::Holds {
        line: number,
        expected: held_in(line).unwrap_or(""),
        held: &answer,
    };
    reasons.tell(miss)
}

/// Tells each line of a part that expects something else of the books than they hold.
pub(crate) fn tell_all_unheld<A: Allocator + Copy>(
    alloc: A,
    reasons: &mut Reasons<A>,
    before: usize,
    part: &[&str],
    held: &str,
) -> Result<(), LabFault> {
    let held = printed_lines(alloc, held)?;
    let mut number = before;
    for line in part {
        number = number.saturating_add(1);
        tell_unheld(alloc, reasons, number, *line, &held)?;
    }
    Ok(())
}
