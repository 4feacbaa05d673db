//! A run with views and with an audit at its end.
ghost use Rattle.std.specs.Prelude.{◌≡◌, Ok, IfOk, IfSome, IsSomeAnd};
ghost use Rattle.std.specs.declared.alloc.Global.{Global};
ghost use Rattle.lab_runs.specs.Sites.{texts_of};
ghost use Rattle.audits.specs.Runs.{IsAuditedRun, AreSame, AreApart, OfItsAudits};

use crate::lines::CountedLines;
use crate::noting::Noting;
use crate::runs::{AllBeside, Audits, audited_run, print_audits};
use lab_runs::run::Status;
use run_listeners::LabFault;
use run_views::{Sheets, Viewer};
use std::alloc::Global;
use std::cell::Cell;
use std::fs::OpenFile;
use std::io::Write;
use std::rt::Files;
use view_options::Views;

/// A script, its site, and its peer's site if one is given, all as texts, and the views of its run.
#[derive(Clone, Copy, Debug, PartialEq, Eq)]
pub struct AskedRun<'a> {
    pub site: &'a str,
    pub peer: Option<&'a str>,
    pub script: &'a str,
    /// The title of its chart.
    pub title: &'a str,
    pub views: &'a Views<'a>,
}

/// What the audits of the controllers of a run come to, and what is told beside them.
type Told = (Audits, AllBeside);

/// What was told, where anything was run, and whether the files of its views were
/// written.
type Ended = (Option<Told>, Result<(), LabFault>);

/// Runs a script, tells a viewer what comes of it, whose lines are counted, and takes all settled attempts out.
fn audit_told<W: Write>(
    alloc: Global,
    asked: AskedRun<'_>,
    viewer: &mut Viewer<'_, W>,
    printed: &Cell<usize>,
) -> Result<Option<Told>, LabFault>
    ensures told { IfOk result (λ found. IfSome found (λ told.
        IsAuditedRun Global asked.entry.site.now (texts_of asked.entry.peer) asked.entry.script.now told.0)) }
{
    let AskedRun {
        site,
        peer,
        script,
        title: _,
        views: _,
    } = asked;
    let mut noting = Noting::new(alloc, viewer, printed);
    let audits = audited_run(alloc, alloc, site, peer, script, &mut noting)?;
    match (audits, noting.into_beside()) {
        (Some(audits), Some(beside)) => Ok(Some((audits, beside))),
        (Some(_), None) | (None, _) => Ok(None),
    }
}

/// What a run came to, once it was printed what was counted of it, where that was asked for.
fn summed<T: Drop, W: Write>(
    alloc: Global,
    ended: Result<Option<T>, LabFault>,
    viewer: &mut Viewer<'_, W>,
) -> Result<Option<T>, LabFault>
    ensures { IfOk result (λ summed. ended ≡ Ok summed) }
{
    let audits = ended?;
    viewer.print_summary(alloc)?;
    Ok(audits)
}

/// Runs a script with a viewer that prints to a writer which counts lines, and writes what it gathered to the files of its
/// views, where something was run.
fn run_counted<R: Files + AllocGlobal, F: Write + OpenFile + Drop, W: Write, E: Write>(
    rt: &R,
    asked: AskedRun<'_>,
    sheets: Sheets<F>,
    printed: &Cell<usize>,
    out: &mut W,
    errors: &mut E,
) -> Result<Ended, LabFault>
    ensures told { IfOk result (λ ended. IfSome ended.0 (λ told.
        IsAuditedRun Global asked.entry.site.now (texts_of asked.entry.peer) asked.entry.script.now told.0)) }
{
    let alloc = rt.alloc();
    let mut viewer = Viewer::new(alloc, asked.views, asked.peer.is_some(), out)?;
    viewer.note_script(asked.title, asked.script)?;
    let ended = summed(
        alloc,
        audit_told(alloc, asked, &mut viewer, printed),
        &mut viewer,
    );
    let written = if viewer.has_begun() {
        sheets.finish(rt, &viewer, errors)
    } else {
        Ok(())
    };
    Ok((ended?, written))
}

/// Runs a script with a viewer that prints to any writer.
fn run_viewed<R: Files + AllocGlobal, F: Write + OpenFile + Drop, W: Write, E: Write>(
    rt: &R,
    asked: AskedRun<'_>,
    sheets: Sheets<F>,
    out: &mut W,
    errors: &mut E,
) -> Result<Ended, LabFault>
    ensures told { IfOk result (λ ended. IfSome ended.0 (λ told.
        IsAuditedRun Global asked.entry.site.now (texts_of asked.entry.peer) asked.entry.script.now told.0)) }
{
    let printed = Cell::new(0);
    let mut counted = CountedLines::new(out, &printed);
    run_counted(rt, asked, sheets, &printed, &mut counted, errors)
}

/// Prints the audits of a run; the answer is by them, or `Refused` if nothing was run.
fn print_told<W: Write>(told: Option<Told>, out: &mut W) -> Result<Status, LabFault>
    ensures done { result ≡ Ok Status.Done → IsSomeAnd told (λ it. AreSame it.0) }
    ensures differs { result ≡ Ok Status.Differs → IsSomeAnd told (λ it. AreApart it.0) }
{
    match told {
        Some((audits, beside)) => print_audits(out, &audits, &beside),
        None => Ok(Status::Refused),
    }
}

/// Runs a script with views, as [`run_for`](lab_runs::run::run_for) does, and prints its trace. After the trace's end, and
/// after the summary if one is asked for, it prints the audits of its controllers ([`print_audits`]). The files of the views
/// are written when the run has ended, unless nothing was run. The answer is `Refused` if nothing was run, else `Done` or
/// `Differs` by the audits.
pub fn audit_viewed<R: Files + AllocGlobal, F: Write + OpenFile + Drop, W: Write, E: Write>(
    rt: &R,
    asked: AskedRun<'_>,
    sheets: Sheets<F>,
    out: &mut W,
    errors: &mut E,
) -> Result<Status, LabFault>
    ensures done { result ≡ Ok Status.Done →
        OfItsAudits Global AreSame asked.entry.site.now (texts_of asked.entry.peer) asked.entry.script.now }
    ensures differs { result ≡ Ok Status.Differs →
        OfItsAudits Global AreApart asked.entry.site.now (texts_of asked.entry.peer) asked.entry.script.now }
{
    let (told, written) = run_viewed(rt, asked, sheets, out, errors)?;
    let status = print_told(told, out)?;
    written?;
    Ok(status)
}
