//! Undone attempts, taken out of traces in files.
use crate::files::text_of;
use crate::journal_text::trace_of;
use crate::site_files::{SitePaths, SiteTexts, in_files, say_reasons, say_site, site_texts};
use attempt_lists::{first_unmarked, is_of_two, list_run, side_text};
use audits::traced::audit_run;
use lab_runs::run::Status;
use lab_words::TracePath;
use read_traces::reasons::say_untold;
use read_traces::rewound::rewind_run;
use run_listeners::LabFault;
use screen_text::Escaped;
use std::alloc::Global;
use std::io::{self, Write};
use std::rt::Files;
use trace_text::trace::Mark;

/// The texts of a site and of a trace.
#[derive(Drop)]
struct Texts {
    site: String,
    trace: String,
}

/// The texts of a site's file and of a trace's, of which the site's is read first; nothing if one can't be read or the trace
/// is refused ([`trace_of`]), and then the first such was printed, and on `errors` why.
fn texts_of<R: Files + AllocGlobal, W: Write, E: Write>(
    rt: &R,
    site: &str,
    trace: TracePath<'_>,
    out: &mut W,
    errors: &mut E,
) -> Result<Option<Texts>, LabFault> {
    let Some(site) = text_of(rt, site, out, errors)? else {
        return Ok(None);
    };
    let Some(trace) = trace_of(rt, trace, out, errors)? else {
        return Ok(None);
    };
    Ok(Some(Texts { site, trace }))
}

/// Says why a site or a trace is refused by a command; answers whether one is.
fn say_refused<E: Write>(
    alloc: Global,
    site: &str,
    trace: &str,
    texts: &Texts,
    command: &str,
    errors: &mut E,
) -> Result<bool, LabFault> {
    if say_site(alloc, site, &texts.site, errors)? {
        return Ok(true);
    }
    say_untold(alloc, &texts.site, trace, &texts.trace, command, errors)
}

/// Says that no attempt opens in a line of a trace that is undone later.
fn say_no_attempt<E: Write>(path: &str, line: usize, errors: &mut E) -> io::Result<()> {
    writeln!(
        errors,
        "{}: line {line} doesn't open an attempt that is undone later",
        Escaped(path)
    )
}

/// How work ended whose answer is kept in a list, which lacks nothing but memory.
fn kept_whole(ended: Result<Status, LabFault>) -> Result<Status, LabFault> {
    ended.map_err(|_| LabFault::NoMemory)
}

/// Takes an undone attempt out of the trace of one file, over the site of another, and prints what stays, as [`rewind_run`]
/// does with texts. If memory is refused, nothing is printed. Files and the site are refused as by
/// [`run_files`](crate::files::run_files). So are a trace that begins with a byte order mark (`line 1`), a text that is no
/// trace (`no trace`), and a trace that lacks its end but needs it (`no end`).
pub fn rewind_files<R: Files + AllocGlobal, W: Write, E: Write>(
    rt: &R,
    site: &str,
    trace: TracePath<'_>,
    line: usize,
    out: &mut W,
    errors: &mut E,
) -> Result<Status, LabFault> {
    let alloc = rt.alloc();
    let Some(texts) = texts_of(rt, site, trace, out, errors)? else {
        return Ok(Status::Refused);
    };
    let mut answer = Vec::new(alloc);
    let ended = rewind_run(alloc, alloc, &texts.site, &texts.trace, line, &mut answer);
    let status = kept_whole(ended)?;
    out.write_all(&answer)?;
    if status == Status::Refused
        && !say_refused(alloc, site, trace.path, &texts, "rewind", errors)?
    {
        say_no_attempt(trace.path, line, errors)?;
    }
    Ok(status)
}

/// The texts of the sites and of a trace.
#[derive(Drop)]
struct SidesTexts {
    sites: SiteTexts,
    trace: String,
}

/// The texts of the sites' files and of a trace's, of which those of the sites are read first; nothing if one can't be read
/// or the trace is refused ([`trace_of`]), and then the first such was printed, and on `errors` why.
fn sides_texts<R: Files + AllocGlobal, W: Write, E: Write>(
    rt: &R,
    sites: SitePaths<'_>,
    trace: TracePath<'_>,
    out: &mut W,
    errors: &mut E,
) -> Result<Option<SidesTexts>, LabFault> {
    let Some(sites) = site_texts(rt, in_files(sites), out, errors)? else {
        return Ok(None);
    };
    let Some(trace) = trace_of(rt, trace, out, errors)? else {
        return Ok(None);
    };
    Ok(Some(SidesTexts { sites, trace }))
}

/// Says which line of the trace of two controllers doesn't say of which it is; answers whether one doesn't.
fn say_unmarked<E: Write>(path: &str, trace: &str, errors: &mut E) -> io::Result<bool> {
    let Some(number) = first_unmarked(trace) else {
        return Ok(false);
    };
    writeln!(
        errors,
        "{}:{number}: in a trace of two controllers this line has to begin with 1: or 2:",
        Escaped(path)
    )?;
    Ok(true)
}

/// Says why the lines of one of two controllers are refused; answers whether they are.
fn say_refused_side<E: Write>(
    alloc: Global,
    mark: Mark,
    site: &str,
    path: &str,
    trace: &str,
    errors: &mut E,
) -> Result<bool, LabFault> {
    let side = side_text(alloc, mark, trace)?;
    say_untold(alloc, site, path, &side, "rewind --all", errors)
}

/// Says why sites or a trace, of one controller or of two, are refused; answers whether they are.
fn say_refused_sides<E: Write>(
    alloc: Global,
    sites: SitePaths<'_>,
    path: &str,
    texts: &SidesTexts,
    errors: &mut E,
) -> Result<bool, LabFault> {
    if say_reasons(alloc, in_files(sites), &texts.sites, errors)? {
        return Ok(true);
    }
    let (site, trace) = (texts.sites.first(), texts.trace.as_str());
    match texts.sites.peer() {
        Some(peer) if is_of_two(trace) => {
            Ok(
                say_unmarked(path, trace, errors)?
                    || say_refused_side(alloc, Mark::First, site, path, trace, errors)?
                    || say_refused_side(alloc, Mark::Peer, peer, path, trace, errors)?,
            )
        }
        Some(_) | None => say_untold(alloc, site, path, trace, "rewind without --peer", errors),
    }
}

/// Takes each undone attempt out of the trace of one file, one at a time, over the sites of others, and prints a line for
/// each, as [`list_run`] does with texts. If memory is refused, nothing is printed. Files and sites are refused as by
/// [`rewind_files`].
pub fn rewind_all_files<R: Files + AllocGlobal, W: Write, E: Write>(
    rt: &R,
    sites: SitePaths<'_>,
    trace: TracePath<'_>,
    out: &mut W,
    errors: &mut E,
) -> Result<Status, LabFault> {
    let alloc = rt.alloc();
    let Some(texts) = sides_texts(rt, sites, trace, out, errors)? else {
        return Ok(Status::Refused);
    };
    let (site, peer) = (texts.sites.first(), texts.sites.peer());
    let mut answer = Vec::new(alloc);
    let ended = list_run(alloc, alloc, site, peer, &texts.trace, &mut answer);
    let status = kept_whole(ended)?;
    out.write_all(&answer)?;
    if status == Status::Refused {
        let _ = say_refused_sides(alloc, sites, trace.path, &texts, errors)?;
    }
    Ok(status)
}

/// Takes all settled attempts out of the trace of one file, over the site of another, and prints the result, as
/// [`audit_run`] does with texts. If memory is refused, nothing is printed. Files and the site are refused as by
/// [`rewind_files`].
pub fn audit_files<R: Files + AllocGlobal, W: Write, E: Write>(
    rt: &R,
    site: &str,
    trace: TracePath<'_>,
    out: &mut W,
    errors: &mut E,
) -> Result<Status, LabFault> {
    let alloc = rt.alloc();
    let Some(texts) = texts_of(rt, site, trace, out, errors)? else {
        return Ok(Status::Refused);
    };
    let mut answer = Vec::new(alloc);
    let ended = audit_run(alloc, alloc, &texts.site, &texts.trace, &mut answer);
    let status = kept_whole(ended)?;
    out.write_all(&answer)?;
    if status == Status::Refused {
        let _ = say_refused(alloc, site, trace.path, &texts, "audit", errors)?;
    }
    Ok(status)
}
