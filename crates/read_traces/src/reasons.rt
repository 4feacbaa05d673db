//! Why a trace can't be read back: one line for a person.
//!
//! No clause says what the line holds.
use crate::reading::foreign_entry;
use encoded_messages::Shown;
use run_listeners::LabFault;
use screen_text::Escaped;
use std::alloc::Global;
use std::io::{self, Write};
use trace_entries::entries::{Foreign, first_unreadable, reply_text};
use trace_text::trace::ReplyText;

/// A line of a trace, counted from 1.
fn line_of(trace: &str, number: usize) -> &str {
    trace
        .split('\n')
        .nth(number.saturating_sub(1))
        .unwrap_or("")
}

/// Says why a line of a trace can't be read by a command: it is one of two controllers, or one that begins with `event `; all
/// others are passed over.
fn say_unreadable<E: Write>(
    path: Escaped<'_>,
    trace: &str,
    number: usize,
    command: &str,
    errors: &mut E,
) -> io::Result<()> {
    let line = line_of(trace, number);
    if line.starts_with("1: ") || line.starts_with("2: ") {
        writeln!(
            errors,
            "{path}:{number}: this is a trace of two controllers, but {command} reads the trace of one"
        )
    } else {
        writeln!(
            errors,
            "{path}:{number}: this isn't an event with its reply, as in: event look 1 -> refused 1"
        )
    }
}

/// Says that an entry of a trace has another reply than the book gives. Words behind an entry, which are no part of a reply
/// either, are named as such.
fn say_foreign<E: Write>(
    path: Escaped<'_>,
    trace: &str,
    foreign: Foreign,
    errors: &mut E,
) -> io::Result<()> {
    let number = foreign.entry.line();
    let line = line_of(trace, number);
    if line.contains(" # ") {
        return writeln!(
            errors,
            "{path}:{number}: words follow this event: the trace was printed with --words"
        );
    }
    let found = Shown(reply_text(line).unwrap_or(""));
    writeln!(
        errors,
        "{path}:{number}: the book of this site replies \"{}\" here, but the trace says {found}",
        ReplyText(foreign.reply)
    )
}

/// Says why a command can't read a trace over a site, both given as texts: the first line that can't be read, or else the
/// first entry with another reply than the book gives. The answer is whether there is one. The site's text describes a site.
pub fn say_untold<E: Write>(
    alloc: Global,
    site: &str,
    path: &str,
    trace: &str,
    command: &str,
    errors: &mut E,
) -> Result<bool, LabFault> {
    let path = Escaped(path);
    if let Some(number) = first_unreadable(trace) {
        say_unreadable(path, trace, number, command, errors)?;
        return Ok(true);
    }
    match foreign_entry(alloc, site, trace)? {
        Some(foreign) => say_foreign(path, trace, foreign, errors)?,
        None => return Ok(false),
    }
    Ok(true)
}
