//! What was sent for the lines after the last one that was heard, printed once more.
ghost use Rattle.std.specs.Prelude.{IfOk};
ghost use Rattle.journal_files.specs.Journals.{IsRead};

use crate::fault::{OpenFault, refuse, refuse_file};
use crate::opening::Asked;
use journal_files::Folder;
use journal_records::FIRST_LINE;
use journal_resume::{last_number, tell_sent, whole_octets};
use std::alloc::Global;
use std::io::Write;
use std::rt::Files;

/// The octets of the file that has this number in its name.
pub(crate) fn octets_of<R: Files + AllocGlobal, E: Write>(
    folder: &Folder<'_, R>,
    number: u64,
    path: &str,
    errors: &mut E,
) -> Result<Vec<u8>, OpenFault>
    ensures read { IfOk result (λ octets. IsRead R.File.remaining octets.items) }
{
    match folder.read_span(number) {
        Ok(octets) => Ok(octets),
        Err(error) => Err(refuse_file(path, error, errors)),
    }
}

/// What was sent for the lines of one file that stand behind one is told once more, behind what `told` has. Where another file
/// follows, this one has all lines up to it.
fn tell_span<R: Files + AllocGlobal, E: Write>(
    folder: &Folder<'_, R>,
    number: u64,
    next: Option<u64>,
    heard: u64,
    told: &mut Vec<u8>,
    errors: &mut E,
) -> Result<(), OpenFault> {
    let path = folder.span_path(number)?;
    let octets = octets_of(folder, number, &path, errors)?;
    let whole = match whole_octets(&octets) {
        Ok(whole) => whole,
        Err(fault) => return Err(refuse(&path, fault, errors)),
    };
    let (_first_line, records) = whole.split_at(FIRST_LINE.len().min(whole.len()));
    if next.is_some() && last_number(records, number) != next {
        return Err(refuse(
            &path,
            "it doesn't have each line before the next file exactly once",
            errors,
        ));
    }
    // what is kept in memory lacks nothing but that
    tell_sent(told, records, heard).map_err(|_| OpenFault::NoMemory)
}

/// What was sent for the lines of all files that stand behind one.
fn told_behind<R: Files + AllocGlobal, E: Write>(
    alloc: Global,
    folder: &Folder<'_, R>,
    spans: &[u64],
    heard: u64,
    errors: &mut E,
) -> Result<Vec<u8>, OpenFault> {
    let mut told = Vec::new(alloc);
    for (place, number) in spans.iter().enumerate() {
        let next = spans.get(place.saturating_add(1)).copied();
        let is_over = match next {
            Some(next) => next <= heard,
            None => false,
        };
        if !is_over {
            tell_span(folder, *number, next, heard, &mut told, errors)?;
        }
    }
    Ok(told)
}

/// Why nothing is told once more of the lines behind one.
pub(crate) const UNHEARD: &str = "no file has the line that --heard names";

/// Whether the line behind the one that was heard stands in a file that is there no more.
fn is_gone(spans: &[u64], heard: u64) -> bool {
    match spans.first() {
        Some(first) => heard < *first,
        None => false,
    }
}

/// What was sent for the lines behind the one that was heard, where that is said; refused where no file has it.
pub(crate) fn told_again<R: Files + AllocGlobal, E: Write>(
    alloc: Global,
    folder: &Folder<'_, R>,
    asked: Asked<'_>,
    spans: &[u64],
    last: u64,
    errors: &mut E,
) -> Result<Vec<u8>, OpenFault> {
    match asked.heard {
        Some(heard) if is_gone(spans, heard) || last < heard => {
            Err(refuse(asked.folder, UNHEARD, errors))
        }
        Some(heard) => told_behind(alloc, folder, spans, heard, errors),
        None => Ok(Vec::new(alloc)),
    }
}
