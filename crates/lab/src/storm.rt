//! Storms of calls over the site of a file.
ghost use Rattle.std.specs.Prelude.{◌≡◌, ◌≢◌, ◌≤◌, Ok, Err, IfOk, OnOk};
ghost use Rattle.std.specs.Io.KnownBytes.{Appends};
ghost use Rattle.cell_table.specs.SiteFile.{IsBlankFile};
ghost use Rattle.storms.specs.Outcomes.{IsOutcome};
ghost use Rattle.storms.specs.declared.outcome.Outcome.{Outcome};
ghost use Rattle.lab_runs.specs.Statuses.{audit_status};
ghost use Rattle.lab.specs.Storms.{status_of, storm_text, LeftTrace, Prints};

use crate::files::text_of;
use crate::site_files::say_site;
use lab_runs::run::Status;
use lab_runs::verdict::{audit_line, audit_status};
use lab_words::{Job, StormSize, WordsFault, read_words};
use run_listeners::{LabFault, print_no_site};
use screen_text::Escaped;
use std::alloc::{Allocator, Global};
use std::io::Write;
use std::rt::Files;
use std::sync::Wait;
use std::thread::Threads;
use storms::outcome::{Figures, OfficeFault, Outcome};
use storms::storm::run_storm;
use storms::trip::Shortage;
pub use storms::watch::{Reached, Unwatched, Watch};

/// Prints the six lines of a storm that has ended, as [`storm_run`] does, and answers with the command's status.
pub fn print_figures<W: Write>(out: &mut W, figures: Figures) -> Result<Status, LabFault>
    ensures status { IfOk result (λ status. status ≡ audit_status figures.audit) }
    ensures printed { OnOk result (Appends (W.contents out.old) (W.contents out.new) (storm_text figures)) }
    ensures memory { result ≢ Err LabFault.NoMemory }
{
    let (line, _) = audit_line(&figures.audit);
    writeln!(out, "{figures}{line}")?;
    Ok(audit_status(&figures.audit))
}

/// Prints what came of a storm, and says how the work ended.
fn print_outcome<W: Write>(out: &mut W, outcome: Outcome) -> Result<Status, LabFault>
    ensures status { IfOk result (λ status. status ≡ status_of outcome) }
    ensures printed { OnOk result (Prints (W.contents out.old) (W.contents out.new) outcome) }
    ensures memory { result ≢ Err LabFault.NoMemory }
{
    match outcome {
        Outcome::Done(figures) => return print_figures(out, figures),
        Outcome::NoSite(fault) => print_no_site(out, fault)?,
        Outcome::TooSmall(_) => writeln!(out, "site too small")?,
        Outcome::Office(_) => writeln!(out, "office")?,
    }
    Ok(Status::Refused)
}

/// Runs a storm of `calls` calls over a site that is given as a text, with `workers` workers, each on a thread of its own.
/// Prints six lines to `out`: `calls`, `attempts`, `completed`, `undone` and `channels in use`, each with a number, and
/// `audit same` if the book and the replies stay the same when all undone and settled attempts are taken out of the desk's
/// history together. The answer is `Done` then. Otherwise the last line is `audit differs`, and the answer is `Differs`.
/// [`run_storm`] says what the calls do.
///
/// If the text describes no site, the line that [`lab_run`](crate::run::lab_run) prints for it is printed. If the site has
/// fewer than two cells, or a cell has too few traffic channels, `site too small` is printed; if the office of the workers
/// fails, `office`. Nothing else is printed in these cases, and the answer is `Refused`. `scratch` serves while the site is
/// read, `alloc` for all else. Once memory was refused to anybody (`NoMemory`), or `out` can't be written to (`Write`),
/// nothing more is printed. All threads that were started have ended when this returns.
pub fn storm_run<
    R: Threads + Wait + Clone + Drop + Send + 'static,
    A: Allocator + Copy + Send + Sync + 'static,
    W: Write,
>(
    rt: &R,
    alloc: A,
    scratch: Global,
    site: &str,
    workers: u8,
    calls: u16,
    out: &mut W,
) -> Result<Status, LabFault>
    requires workers { (1 ≤ workers) × (workers ≤ 16) }
    requires calls { (1 ≤ calls) × (calls ≤ 1024) }
    ensures ended { IfOk result (λ status. (outcome : Outcome) × IsOutcome site.now calls outcome ×
        (status ≡ status_of outcome) × Prints (W.contents out.old) (W.contents out.new) outcome) }
    ensures differs { result ≡ Ok Status.Differs → LeftTrace site.now calls }
    ensures memory { result ≡ Err LabFault.NoMemory → ¬ IsBlankFile site.now }
    ensures unprinted { result ≡ Err LabFault.NoMemory → out.new ≡ out.old }
{
    let outcome = run_storm(rt, alloc, scratch, site, workers, calls, &mut Unwatched)?;
    print_outcome(out, outcome)
}

/// A storm that words ask for.
#[derive(Clone, Copy, Debug, PartialEq, Eq)]
pub struct StormJob<'a> {
    /// The path of the site's file.
    pub site: &'a str,
    pub size: StormSize,
}

/// The storm that the words of a command line ask for, those after the program's own name; nothing if they ask for anything
/// else, or are refused.
pub fn storm_asked<'a>(
    alloc: Global,
    words: &'a [&'a str],
) -> Result<Option<StormJob<'a>>, LabFault> {
    match words.first() {
        Some(&"storm") => {}
        Some(_) | None => return Ok(None),
    }
    match read_words(alloc, words) {
        Ok(Job::Storm { site, size }) => Ok(Some(StormJob { site, size })),
        Ok(_) => Ok(None),
        Err(WordsFault::Refused(_)) => Ok(None),
        Err(WordsFault::NoMemory) => Err(LabFault::NoMemory),
    }
}

/// Says why a storm over a site that was read wasn't run.
fn say_shortage<E: Write>(path: &str, shortage: Shortage, errors: &mut E) -> Result<(), LabFault> {
    writeln!(errors, "{}: {shortage}", Escaped(path))?;
    Ok(())
}

/// Says how the office failed.
fn say_office<E: Write>(fault: OfficeFault, errors: &mut E) -> Result<(), LabFault> {
    writeln!(errors, "the office of the workers failed: {fault}")?;
    Ok(())
}

/// Runs a storm over the site of a file, prints the result as [`storm_run`] does, and tells `watch` of its progress. The
/// file is refused as by [`run_files`](crate::files::run_files). If nothing was run, or the office failed, one line on
/// `errors` says why.
pub fn storm_file<
    R: Files + AllocGlobal + Threads + Wait + Clone + Drop + Send + 'static,
    V: Watch,
    W: Write,
    E: Write,
>(
    rt: &R,
    job: StormJob<'_>,
    watch: &mut V,
    out: &mut W,
    errors: &mut E,
) -> Result<Status, LabFault> {
    let alloc = rt.alloc();
    let StormJob { site, size } = job;
    let Some(text) = text_of(rt, site, out, errors)? else {
        return Ok(Status::Refused);
    };
    let outcome = run_storm(rt, alloc, alloc, &text, size.workers, size.calls, watch)?;
    let status = print_outcome(out, outcome)?;
    match outcome {
        Outcome::Done(_) => {}
        Outcome::NoSite(_) => {
            let _ = say_site(alloc, site, &text, errors)?;
        }
        Outcome::TooSmall(shortage) => say_shortage(site, shortage, errors)?,
        Outcome::Office(fault) => say_office(fault, errors)?,
    }
    Ok(status)
}
