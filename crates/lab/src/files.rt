//! Runs over files.
ghost use Rattle.std.specs.Prelude.{◌≡◌, ◌+◌, ◌<◌, ◌≤◌, length, vec_len, string_bytes, Some, None, Ok, IsOk, IfOk, IfErr, IfSome, option_map};
ghost use Rattle.std.specs.Str.{IsUtf8};
ghost use Rattle.std.specs.Str.Lossy.{utf8_valid_len};
ghost use Rattle.lab.specs.Files.{longest_file};

use crate::run_reason::{say_cut_script, say_refusal};
use crate::script_names::without_names;
use crate::script_notes::say_idle_settings;
use crate::script_sites::{say_other_sites, sites_named_by};
use crate::site_files::{GivenPaths, SitePaths, SiteSources, SiteTexts, in_files, site_texts};
use crate::view_paths::{named_twice, refuse_twice};
use audits::viewed::{AskedRun, audit_viewed};
use lab_runs::run::{Status, lab_run, run_for};
use lab_words::Ending;
use run_listeners::LabFault;
use run_views::{Viewer, open_sheets};
use screen_text::{Escaped, Reason};
use std::alloc::{AllocError, Allocator, Global};
use std::fmt;
use std::fs::File;
use std::io::{self, Read, Write};
use std::rt::Files;
use view_options::Views;

/// The most octets that a file may have: 64 MiB.
pub const LONGEST_FILE: u64 = 64 << 20;

/// All octets that a reader gives.
fn all_octets<A: Allocator, R: Read>(alloc: A, mut reader: R) -> io::Result<Vec<u8, A>>
where
    R: Drop,
    ensures { IfOk result (λ read. IfSome (R.remaining reader) (λ octets. read.items ≡ octets)) }
{
    let mut octets = Vec::new(alloc);
    reader.read_to_end(&mut octets)?;
    Ok(octets)
}

/// Octets as many as a file may have; nothing if there are more.
fn within_longest<A: Allocator>(octets: Vec<u8, A>) -> Option<Vec<u8, A>>
    ensures whole { vec_len octets ≤ longest_file →
        option_map (λ found. found.items) result ≡ Some octets.items }
    ensures longer { longest_file < vec_len octets → result ≡ None }
{
    if octets.len() as u64 <= LONGEST_FILE {
        Some(octets)
    } else {
        None
    }
}

/// All octets that a reader gives; nothing if there are more than a file may have. A device without an end is read up to one
/// octet more.
fn whole_octets<A: Allocator, R: Read>(alloc: A, reader: R) -> io::Result<Option<Vec<u8, A>>>
where
    R: Drop,
    ensures whole { IfOk result (λ found. IfSome (R.remaining reader) (λ octets.
        length octets ≤ longest_file → option_map (λ read. read.items) found ≡ Some octets)) }
    ensures longer { IfOk result (λ found. IfSome (R.remaining reader) (λ octets.
        longest_file < length octets → found ≡ None)) }
{
    let octets = all_octets(alloc, reader.take(LONGEST_FILE + 1))?;
    Ok(within_longest(octets))
}

/// All octets of a file; nothing if it has more than it may have.
fn file_octets<R: Files + AllocGlobal>(rt: &R, path: &str) -> io::Result<Option<Vec<u8>>> {
    whole_octets(rt.alloc(), File::open(rt, path)?)
}

/// The text that octets are, or the place, counted from 1, of the first octet that is no part of one.
fn text_in<A: Allocator>(octets: Vec<u8, A>) -> Result<String<A>, usize>
    ensures text { IfOk result (λ text. string_bytes text ≡ octets.items) }
    ensures read { IsUtf8 octets.items → IsOk result }
    ensures odd { IfErr result (λ place. place ≡ utf8_valid_len octets.items + 1) }
{
    match String::from_utf8(octets) {
        Ok(text) => Ok(text),
        Err(fault) => Err(fault.utf8_error().valid_up_to() + 1),
    }
}

/// A number with a comma before each three of its digits but the first, as in 1,045.
#[derive(Clone, Copy)]
struct Grouped(u64);

/// What the groups of three digits of a number stand for, the highest first.
const GROUPS: [u64; 7] = [
    1_000_000_000_000_000_000,
    1_000_000_000_000_000,
    1_000_000_000_000,
    1_000_000_000,
    1_000_000,
    1_000,
    1,
];

impl fmt::Display for Grouped {
    fn fmt<W: fmt::Write>(&self, f: &mut fmt::Formatter<W>) -> fmt::Result {
        let mut is_begun = false;
        for unit in GROUPS {
            if is_begun {
                write!(f, ",{:03}", self.0 / unit % 1_000)?;
            } else if unit == 1 || self.0 >= unit {
                write!(f, "{}", self.0 / unit)?;
                is_begun = true;
            }
        }
        Ok(())
    }
}

/// Says that a file is no text, and which of its octets, counted from 1, is the first that is no part of one.
fn say_not_text<E: Write>(path: &str, place: usize, errors: &mut E) -> io::Result<()> {
    writeln!(
        errors,
        "{}: isn't UTF-8 (octet {})",
        Escaped(path),
        Grouped(place as u64)
    )
}

/// The text of a file; nothing if it can't be read, and then its path was printed, and on `errors` why.
pub(crate) fn text_of<R: Files + AllocGlobal, W: Write, E: Write>(
    rt: &R,
    path: &str,
    out: &mut W,
    errors: &mut E,
) -> Result<Option<String>, LabFault> {
    match file_octets(rt, path) {
        Ok(Some(octets)) => {
            match text_in(octets) {
                Ok(text) => return Ok(Some(text)),
                Err(place) => say_not_text(path, place, errors)?,
            }
        }
        Ok(None) => writeln!(errors, "{}: larger than 64 MiB", Escaped(path))?,
        Err(error) if error.kind() == io::ErrorKind::OutOfMemory => return Err(LabFault::NoMemory),
        Err(error) => writeln!(errors, "{}: {}", Escaped(path), Reason(&error))?,
    }
    writeln!(out, "file {}", Escaped(path))?;
    Ok(None)
}

/// The texts of a run's files.
#[derive(Drop)]
struct RunTexts {
    sites: SiteTexts,
    script: String,
}

/// Where a run's script and sites come from.
#[derive(Clone, Copy)]
struct RunPaths<'a> {
    sites: SiteSources<'a>,
    script: &'a str,
}

/// A run that is viewed: its script and sites as texts, and the title of its chart.
#[derive(Clone, Copy)]
pub(crate) struct ViewedRun<'a> {
    pub title: &'a str,
    pub sites: &'a SiteTexts,
    pub script: &'a str,
}

/// The title of a run's chart: its script and its sites.
pub(crate) fn title_of(
    alloc: Global,
    script: &str,
    sites: &SiteTexts,
) -> Result<String, AllocError> {
    format!(in alloc; "{script} over {}", sites.names())
}

/// The paths of those files of a run that no later page of its chart may be.
fn kept_paths<'a>(
    alloc: Global,
    paths: RunPaths<'a>,
    views: &Views<'a>,
) -> Result<Vec<&'a str>, AllocError> {
    let mut kept = Vec::new(alloc);
    kept.push(paths.script)?;
    if let Some(first) = paths.sites.first.path() {
        kept.push(first)?;
    }
    if let Some(peer) = paths.sites.peer {
        kept.push(peer)?;
    }
    if let Some(pcap) = views.pcap {
        kept.push(pcap)?;
    }
    Ok(kept)
}

/// The texts of a run's files, of which those of the sites are read first, then the script; nothing if one can't be read,
/// and then the path of the first such was printed, and on `errors` why.
fn run_texts<R: Files + AllocGlobal, W: Write, E: Write>(
    rt: &R,
    sites: SiteSources<'_>,
    script: &str,
    out: &mut W,
    errors: &mut E,
) -> Result<Option<RunTexts>, LabFault> {
    let given = sites;
    let Some(sites) = site_texts(rt, given, out, errors)? else {
        return Ok(None);
    };
    let path = script;
    let Some(script) = text_of(rt, path, out, errors)? else {
        return Ok(None);
    };
    say_cut_script(path, &script, errors)?;
    say_other_sites(rt, given, path, &script, errors)?;
    let script = without_names(rt.alloc(), path, &sites, script, errors)?;
    Ok(Some(RunTexts { sites, script }))
}

/// How a run that was viewed ended, and the writing of what was gathered of it: the run's fault comes first.
pub(crate) fn ended_viewed(
    ended: Result<Status, LabFault>,
    written: Result<(), LabFault>,
) -> Result<Status, LabFault>
    ensures ended { IfOk result (λ status. ended ≡ Ok status) }
{
    let status = ended?;
    written?;
    Ok(status)
}

/// Says that no line was of the call whose lines alone are shown, where that is so and something was run.
fn say_unseen<W: Write, E: Write>(viewer: &Viewer<'_, W>, errors: &mut E) -> io::Result<()> {
    match viewer.unseen_call() {
        Some(call) if viewer.has_begun() => writeln!(errors, "no line is about call {call}"),
        Some(_) | None => Ok(()),
    }
}

/// How a run ended; where it came to its end, once it was printed what it came to, where that was asked for, and said that it
/// had nothing of the call that was asked for.
fn summed<W: Write, E: Write>(
    alloc: Global,
    ended: Result<Status, LabFault>,
    viewer: &mut Viewer<'_, W>,
    errors: &mut E,
) -> Result<Status, LabFault> {
    let status = ended?;
    viewer.print_summary(alloc)?;
    say_unseen(viewer, errors)?;
    Ok(status)
}

/// Runs a script over sites, all given as texts, with the views that are asked for; nothing if one of their files can't be
/// opened, and then its path was printed, and on `errors` why. What came of the run until it ended, be it early, is written;
/// but nothing where nothing was run, as where the script or a site is refused, so that the files are as they were. No later page
/// of the chart may be the file of one of the paths `kept`.
pub(crate) fn run_viewed<R: Files + AllocGlobal, W: Write, E: Write>(
    rt: &R,
    run: ViewedRun<'_>,
    views: &Views<'_>,
    kept: &[&str],
    out: &mut W,
    errors: &mut E,
) -> Result<Option<Status>, LabFault> {
    let alloc = rt.alloc();
    let ViewedRun {
        title,
        sites,
        script,
    } = run;
    let Some(sheets) = open_sheets(rt, views, kept, out, errors)? else {
        return Ok(None);
    };
    let peer = sites.peer();
    let mut viewer = Viewer::new(alloc, views, peer.is_some(), out)?;
    viewer.note_script(title, script)?;
    let ended = run_for(alloc, alloc, sites.first(), peer, script, &mut viewer);
    let ended = summed(alloc, ended, &mut viewer, errors);
    let written = if viewer.has_begun() {
        sheets.finish(rt, &viewer, errors)
    } else {
        Ok(())
    };
    Ok(Some(ended_viewed(ended, written)?))
}

/// Runs what was read, with the views that are asked for, under the names of its files.
fn run_named<R: Files + AllocGlobal, W: Write, E: Write>(
    rt: &R,
    paths: RunPaths<'_>,
    texts: &RunTexts,
    views: &Views<'_>,
    out: &mut W,
    errors: &mut E,
) -> Result<Option<Status>, LabFault> {
    let title = title_of(rt.alloc(), paths.script, &texts.sites)?;
    let kept = kept_paths(rt.alloc(), paths, views)?;
    let run = ViewedRun {
        title: title.as_str(),
        sites: &texts.sites,
        script: texts.script.as_str(),
    };
    run_viewed(rt, run, views, &kept, out, errors)
}

/// Runs what was read, with all settled attempts taken out of what was asked, at the end.
fn run_audited<R: Files + AllocGlobal, W: Write, E: Write>(
    rt: &R,
    paths: RunPaths<'_>,
    texts: &RunTexts,
    views: &Views<'_>,
    out: &mut W,
    errors: &mut E,
) -> Result<Option<Status>, LabFault> {
    let alloc = rt.alloc();
    let title = title_of(alloc, paths.script, &texts.sites)?;
    let kept = kept_paths(alloc, paths, views)?;
    let Some(sheets) = open_sheets(rt, views, &kept, out, errors)? else {
        return Ok(None);
    };
    let asked = AskedRun {
        site: texts.sites.first(),
        peer: texts.sites.peer(),
        script: &texts.script,
        title: &title,
        views,
    };
    Ok(Some(audit_viewed(rt, asked, sheets, out, errors)?))
}

/// Runs a script over sites, all given as texts, and prints the trace.
fn run_plain<W: Write>(alloc: Global, texts: &RunTexts, out: &mut W) -> Result<Status, LabFault> {
    let RunTexts { sites, script } = texts;
    lab_run(alloc, alloc, sites.first(), sites.peer(), script, out)
}

/// Says why the script of files that were read was refused, where it was; where it was run, which of its settings came to
/// nothing.
fn say_ended<E: Write>(
    alloc: Global,
    sources: SiteSources<'_>,
    path: &str,
    texts: &RunTexts,
    status: Status,
    errors: &mut E,
) -> Result<Status, LabFault> {
    let RunTexts { sites, script } = texts;
    if status == Status::Refused {
        say_refusal(alloc, sources, sites, path, script, errors)?;
    } else {
        say_idle_settings(alloc, path, sites, script, errors)?;
    }
    Ok(status)
}

/// Runs the script of one file over the sites of others.
fn run_over<R: Files + AllocGlobal, W: Write, E: Write>(
    rt: &R,
    sites: SiteSources<'_>,
    script: &str,
    views: &Views<'_>,
    ending: Ending,
    out: &mut W,
    errors: &mut E,
) -> Result<Status, LabFault> {
    if let Some(path) = named_twice(rt, sites, script, views)? {
        return refuse_twice(&path, out, errors);
    }
    let Some(texts) = run_texts(rt, sites, script, out, errors)? else {
        return Ok(Status::Refused);
    };
    let paths = RunPaths { sites, script };
    let ended = match ending {
        Ending::Audit => run_audited(rt, paths, &texts, views, out, errors)?,
        Ending::Plain if views.is_plain() => Some(run_plain(rt.alloc(), &texts, out)?),
        Ending::Plain => run_named(rt, paths, &texts, views, out, errors)?,
    };
    match ended {
        Some(status) => say_ended(rt.alloc(), sites, script, &texts, status, errors),
        None => Ok(Status::Refused),
    }
}

/// Runs the script of one file over the site of another, or over two sites if a peer is named, and prints the trace to
/// `out`, as [`lab_run`] does with texts. If no site is given, the script has to name its own; it is read for that first.
///
/// Where views are asked for, their files are opened or made before the run begins, and emptied and written once it ended,
/// but not where a site or the script is refused; one that can't be opened is refused as one that can't be read, and so
/// is, before anything is read, one that is another file of the run. One file that is made for both is refused then. Of a chart's
/// pages the first is treated so; the others are made once the run ended, and none of them is written where it is another file of
/// the run.
///
/// If a summary is asked for, the counts follow the trace's end, in words or as one JSON object.
///
/// If an audit is asked for, all settled attempts are taken out of each controller's history at the end, and the result is
/// printed after that ([`audit_viewed`]). If something differs then, the answer is `Differs`.
///
/// The site's file is read first, then the peer's, then the script's. If a file isn't there, can't be read, isn't UTF-8 or
/// has more than [`LONGEST_FILE`] octets, only `file` and its path are printed, and the answer is `Refused`; one line on
/// `errors` says why. If the script's last line has no line feed, one line says that it may be cut off. One line names each
/// site that the script names but isn't run over. If a site is refused, one line on `errors` says where in its file, and
/// what is allowed there. If a line of the script is refused, one line says which word is wrong, and what is allowed in its
/// place.
pub fn run_files<R: Files + AllocGlobal, W: Write, E: Write>(
    rt: &R,
    sites: GivenPaths<'_>,
    script: &str,
    views: &Views<'_>,
    ending: Ending,
    out: &mut W,
    errors: &mut E,
) -> Result<Status, LabFault> {
    let peer = sites.peer;
    if let Some(first) = sites.first {
        let sites = in_files(SitePaths { first, peer });
        return run_over(rt, sites, script, views, ending, out, errors);
    }
    match sites_named_by(rt, peer, script, out, errors)? {
        Some(named) => run_over(rt, named.sources(), script, views, ending, out, errors),
        None => Ok(Status::Refused),
    }
}
