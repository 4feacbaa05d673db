//! The lines that came of a part of a script.
ghost use Rattle.std.specs.Prelude.{◌≡◌, ◌++◌, ◌∷◌, [], zip, IfOk, OnOk};
ghost use Rattle.tested_scripts.specs.Lines as expected;
ghost use Rattle.tested_scripts.specs.Meeting.{said_of};
ghost use Rattle.tested_scripts.specs.Tests.{printed_lines};

use crate::compare::CameLine;
use crate::lines::lines_of;
use run_listeners::LabFault;
use std::alloc::{AllocError, Allocator};

/// The lines of what a run printed.
pub(crate) fn printed_lines<A: Allocator>(alloc: A, printed: &str) -> Result<Vec<&str, A>, LabFault>
    ensures { IfOk result (λ lines. expected.texts_of lines.items ≡ printed_lines printed.now) }
{
    let mut lines = lines_of(alloc, printed)?;
    // nothing stands behind the last line feed
    lines.pop();
    Ok(lines)
}

/// Lines, each with its words.
fn paired<'a, A: Allocator>(
    alloc: A,
    lines: &[&'a str],
    words: &[&'a str],
) -> Result<Vec<CameLine<'a>, A>, AllocError>
    ensures { IfOk result (λ came. said_of came.items ≡
        zip (expected.texts_of lines.now) (expected.texts_of words.now)) }
{
    lines
        .iter()
        .zip(words.iter())
        .map(|(text, words)| CameLine {
            text: *text,
            words: *words,
        })
        .collect(alloc)
}

/// The lines that came, by what a run printed of them, and of their words.
pub(crate) fn came_lines<'a, A: Allocator + Copy>(
    alloc: A,
    trace: &'a str,
    words: &'a str,
) -> Result<Vec<CameLine<'a>, A>, LabFault>
    ensures { IfOk result (λ came. said_of came.items ≡
        zip (printed_lines trace.now) (printed_lines words.now)) }
{
    let lines = printed_lines(alloc, trace)?;
    let words = printed_lines(alloc, words)?;
    Ok(paired(alloc, &lines, &words)?)
}
