//! The counts of a trace.
use crate::journal_text::{behind_head, trace_of};
use attempt_lists::{first_unmarked, is_of_two};
use lab_runs::run::Status;
use lab_words::TracePath;
use run_listeners::LabFault;
use run_summaries::{RunSummary, SummaryWords, TraceFault, json_text, summary_of_trace};
use screen_text::Escaped;
use std::alloc::Global;
use std::io::Write;
use std::rt::Files;
use view_options::SummaryForm;

/// Prints counts.
fn print_summary<W: Write>(
    alloc: Global,
    summary: &RunSummary,
    form: SummaryForm,
    out: &mut W,
) -> Result<(), LabFault> {
    match form {
        SummaryForm::Words => write!(out, "{}", SummaryWords(summary))?,
        SummaryForm::Json => {
            let text = json_text(alloc, summary)?;
            writeln!(out, "{text}")?;
        }
    }
    Ok(())
}

/// Refuses the first line of a trace that can't be read: its number is printed, and `errors` says what it isn't.
fn refuse_line<W: Write, E: Write>(
    path: &str,
    number: usize,
    is_unmarked: bool,
    out: &mut W,
    errors: &mut E,
) -> Result<Status, LabFault> {
    let why = if is_unmarked {
        "in a trace of two controllers this line has to begin with 1: or 2:"
    } else {
        "run prints no such line"
    };
    writeln!(errors, "{}:{number}: {why}", Escaped(path))?;
    writeln!(out, "line {number}")?;
    Ok(Status::Refused)
}

/// Prints the counts of the trace of a file, in all and for each cell ([`summary_of_trace`]), in words or as one JSON
/// object. In a journal's file the head isn't counted: its book is from before. The file is refused as by
/// [`rewind_files`](crate::trace_files::rewind_files). If a line begins like one that is counted, but isn't one, it is
/// refused: `line` and its number are printed, and one line on `errors` says so.
pub fn summary_file<R: Files + AllocGlobal, W: Write, E: Write>(
    rt: &R,
    trace: TracePath<'_>,
    form: SummaryForm,
    out: &mut W,
    errors: &mut E,
) -> Result<Status, LabFault> {
    let alloc = rt.alloc();
    let path = trace.path;
    let Some(trace) = trace_of(rt, trace, out, errors)? else {
        return Ok(Status::Refused);
    };
    let (before, told) = behind_head(&trace);
    match summary_of_trace(alloc, told) {
        Ok(summary) => {
            print_summary(alloc, &summary, form, out)?;
            Ok(Status::Done)
        }
        Err(TraceFault::Line(number)) => {
            let is_unmarked = is_of_two(told) && first_unmarked(told) == Some(number);
            refuse_line(
                path,
                before.saturating_add(number),
                is_unmarked,
                out,
                errors,
            )
        }
        Err(TraceFault::NoMemory) => Err(LabFault::NoMemory),
    }
}
