//! The text of a trace, which may be a journal's file.
use crate::files::text_of;
use crate::trace_ends::{refuse_cut, whole_lines};
use journal_records::{behind_first_line, first_record};
use journal_resume::{WholeFault, trace_octets};
use lab_words::{TraceEnd, TracePath};
use run_listeners::LabFault;
use screen_text::Escaped;
use std::alloc::Global;
use std::io::Write;
use std::rt::Files;

/// Whether a text is a journal's file.
fn is_journal(text: &str) -> bool {
    behind_first_line(text.as_bytes()).is_ok()
}

/// How much of a text is read as a trace: of a journal's file all but a record at its end that was cut; of another one that may
/// be cut all whole lines.
fn trace_length(text: &str, end: TraceEnd) -> Result<usize, WholeFault> {
    let octets = trace_octets(text.as_bytes())?;
    Ok(match end {
        TraceEnd::Optional if !is_journal(text) => whole_lines(text).len(),
        TraceEnd::Optional | TraceEnd::Needed => octets.len(),
    })
}

/// The text behind the head of a journal's file, and how many of its lines stand before that. Of another trace it is all.
pub(crate) fn behind_head(text: &str) -> (usize, &str) {
    let Ok(records) = behind_first_line(text.as_bytes()) else {
        return (0, text);
    };
    let Ok(head) = first_record(records) else {
        return (0, text);
    };
    let place = text.len().saturating_sub(head.behind.len());
    let (front, behind) = text.split_at_checked(place).unwrap_or((text, ""));
    (front.split('\n').count().saturating_sub(1), behind)
}

/// Refuses a trace with a byte order mark in front, behind which its first line would be passed over.
fn refuse_marked<W: Write, E: Write>(
    path: &str,
    out: &mut W,
    errors: &mut E,
) -> Result<Option<String>, LabFault> {
    writeln!(
        errors,
        "{}:1: the line begins with a byte order mark",
        Escaped(path)
    )?;
    writeln!(out, "line 1")?;
    Ok(None)
}

/// As much of a trace's text as is read; nothing if it is a damaged journal's, and then its path was printed, and on
/// `errors` why.
fn readable<W: Write, E: Write>(
    alloc: Global,
    text: String,
    trace: TracePath<'_>,
    out: &mut W,
    errors: &mut E,
) -> Result<Option<String>, LabFault> {
    match trace_length(&text, trace.end) {
        Ok(length) if length == text.len() => Ok(Some(text)),
        Ok(length) => {
            let whole = text.get(..length).unwrap_or("");
            Ok(Some(String::from_str(alloc, whole)?))
        }
        Err(fault) => {
            let path = Escaped(trace.path);
            writeln!(errors, "{path}: {fault}")?;
            writeln!(out, "file {path}")?;
            Ok(None)
        }
    }
}

/// The text of a trace's file, which may be a journal's; nothing if the file can't be read, or is a damaged journal's, and
/// then its path was printed; where a byte order mark stands in front, and then `line 1` was; where it is no trace (`no
/// trace`), or lacks the end that it has to have (`no end`); and on `errors` why. A journal's file has no end.
pub(crate) fn trace_of<R: Files + AllocGlobal, W: Write, E: Write>(
    rt: &R,
    trace: TracePath<'_>,
    out: &mut W,
    errors: &mut E,
) -> Result<Option<String>, LabFault> {
    let Some(text) = text_of(rt, trace.path, out, errors)? else {
        return Ok(None);
    };
    if text.starts_with("\u{feff}") {
        return refuse_marked(trace.path, out, errors);
    }
    let Some(text) = readable(rt.alloc(), text, trace, out, errors)? else {
        return Ok(None);
    };
    if !is_journal(&text) && refuse_cut(trace, &text, out, errors)? {
        return Ok(None);
    }
    Ok(Some(text))
}
