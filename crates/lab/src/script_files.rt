//! Tests and records of scripts in files.
use crate::files::text_of;
use crate::flaws::{Marks, Numbered, UnreadLine, say_flaws, say_marks, test_flawed};
use crate::junit::Report;
use crate::kept::{Kept, is_folder_there, keep_run};
use crate::octet_causes::with_decimal_causes;
use crate::run_reason::{Naming, say_cut_script, say_line, say_refusal};
use crate::script_names::{say_names, without_names};
use crate::script_notes::say_idle_settings;
use crate::script_sites::{
    GivenSites, ScriptSites, fault_of, say_other_sites, sites_named_by, sites_of_script,
};
use crate::site_files::{
    GivenPaths, SitePaths, SiteSources, SiteTexts, in_files, say_reasons, site_texts,
};
use crate::view_paths::refuse_twice;
use expectations::Recording;
use lab_runs::run::{Status, refuse_site};
use lab_words::TestFiles;
use run_listeners::{LabFault, Printing};
use run_views::is_same;
use screen_text::Escaped;
use std::alloc::Global;
use std::io::{self, Write};
use std::rt::Files;
use tested_scripts::recorded::record_run;
use tested_scripts::{Miss, Named, print_miss, print_plan};
use undone_runs::tried::{Trial, try_undos};
use undone_runs::{Tally, print_tally};

/// The worse of two ends: one that was refused, then one that differs.
pub(crate) fn worse(one: Status, other: Status) -> Status {
    match (one, other) {
        (Status::Refused, _) | (_, Status::Refused) => Status::Refused,
        (Status::Differs, _) | (_, Status::Differs) => Status::Differs,
        (Status::Done, Status::Done) => Status::Done,
    }
}

/// What is asked of tests: the sites that are given for their scripts, and where those are kept that aren't met.
#[derive(Drop)]
struct AskedTests<'a> {
    given: GivenSites<'a>,
    kept: Option<Kept<'a>>,
}

/// A script that is tested: its text, who names its sites, and what is known of its lines.
#[derive(Drop)]
struct TestedScript<'a> {
    text: &'a str,
    naming: Naming,
    marks: Marks<'a>,
}

/// The text of a script that is tested: with values in the place of its names, up to the line that can't be read because of one; and
/// that line.
fn tested_of<'a>(named: Option<&'a Named>, script: &'a str) -> (&'a str, Option<UnreadLine>) {
    let Some(named) = named else {
        return (script, None);
    };
    match &named.unnamed {
        Some(unnamed) => {
            let line = UnreadLine {
                number: unnamed.line,
                is_unmet: unnamed.expected.is_some(),
            };
            (unnamed.front.as_str(), Some(line))
        }
        None => (named.text.as_str(), None),
    }
}

/// Tests a script over sites that can be run over, and keeps it in a folder, where one is given and it isn't met.
fn test_over<R: Files + AllocGlobal, W: Write, E: Write>(
    rt: &R,
    sites: &SiteTexts,
    script: TestedScript<'_>,
    kept: Option<Kept<'_>>,
    test: Numbered<'_>,
    out: &mut W,
    errors: &mut E,
) -> Result<Status, LabFault> {
    let alloc = rt.alloc();
    let TestedScript {
        text,
        naming,
        mut marks,
    } = script;
    let has_peer = sites.peer().is_some();
    // before names are found: what a comment expects beside a name has its causes in decimal then, as the messages that come
    let text = with_decimal_causes(alloc, text)?;
    let named = say_names(alloc, test.name, sites, &text, errors)?;
    let (tested, unread) = tested_of(named.as_ref(), &text);
    marks.unread = unread;
    let flaws = say_flaws(alloc, test.name, sites, tested, marks, errors)?;
    let status = test_flawed(alloc, sites, tested, test, &flaws, out)?;
    if status == Status::Refused {
        // the sites were read before
        say_line(alloc, test.name, tested, has_peer, naming, errors)?;
    }
    if status == Status::Differs
        && let Some(kept) = kept
        && !keep_run(rt, kept, test, sites, tested, errors)?
    {
        return Ok(Status::Refused);
    }
    Ok(status)
}

/// Tests the script of a file.
fn test_file<R: Files + AllocGlobal, W: Write, E: Write>(
    rt: &R,
    asked: &AskedTests<'_>,
    test: Numbered<'_>,
    out: &mut W,
    errors: &mut E,
) -> Result<Status, LabFault> {
    let alloc = rt.alloc();
    let Some(script) = text_of(rt, test.name, &mut io::sink(), errors)? else {
        print_miss(out, test.number, test.name, Miss::NoFile)?;
        return Ok(Status::Refused);
    };
    say_cut_script(test.name, &script, errors)?;
    let marks = say_marks(alloc, test.name, &script, errors)?;
    let text = script.as_str();
    match sites_of_script(rt, &asked.given, test.name, text, errors)? {
        ScriptSites::Given(texts) => {
            let script = TestedScript {
                text,
                naming: Naming::Given,
                marks,
            };
            test_over(rt, texts, script, asked.kept, test, out, errors)
        }
        ScriptSites::Named(texts) => {
            let script = TestedScript {
                text,
                naming: Naming::InScript,
                marks,
            };
            test_over(rt, &texts, script, asked.kept, test, out, errors)
        }
        ScriptSites::Unreadable(miss) => {
            print_miss(out, test.number, test.name, miss)?;
            Ok(Status::Refused)
        }
    }
}

/// The texts of sites that can be run over; nothing if a file or a site is refused, and then `out` and `errors` say so.
fn readable_texts<R: Files + AllocGlobal, W: Write, E: Write>(
    rt: &R,
    sources: SiteSources<'_>,
    out: &mut W,
    errors: &mut E,
) -> Result<Option<SiteTexts>, LabFault> {
    let Some(texts) = site_texts(rt, sources, out, errors)? else {
        return Ok(None);
    };
    if let Some(fault) = fault_of(rt.alloc(), &texts) {
        refuse_site::<Global, _>(fault, &mut Printing::new(out))?;
        say_reasons(rt.alloc(), sources, &texts, errors)?;
        return Ok(None);
    }
    Ok(Some(texts))
}

/// The sites that are given for scripts; nothing if a file or a site is refused, and then `out` and `errors` say so.
fn readable_sites<'a, R: Files + AllocGlobal, W: Write, E: Write>(
    rt: &R,
    paths: GivenPaths<'a>,
    out: &mut W,
    errors: &mut E,
) -> Result<Option<GivenSites<'a>>, LabFault> {
    let Some(first) = paths.first else {
        return Ok(Some(GivenSites { paths, texts: None }));
    };
    let peer = paths.peer;
    let sources = in_files(SitePaths { first, peer });
    match readable_texts(rt, sources, out, errors)? {
        Some(texts) => {
            let texts = Some(texts);
            Ok(Some(GivenSites { paths, texts }))
        }
        None => Ok(None),
    }
}

/// The text that octets are, which a program printed.
fn text_printed(alloc: Global, printed: Vec<u8>) -> String {
    match String::from_utf8(printed) {
        Ok(text) => text,
        Err(_) => String::new(alloc),
    }
}

/// Tests the script of a file, and notes how that ended in a report, if there is one.
fn test_noted<R: Files + AllocGlobal, W: Write, E: Write>(
    rt: &R,
    asked: &AskedTests<'_>,
    test: Numbered<'_>,
    report: &mut Option<Report>,
    out: &mut W,
    errors: &mut E,
) -> Result<Status, LabFault> {
    let Some(report) = report else {
        return test_file(rt, asked, test, out, errors);
    };
    let alloc = rt.alloc();
    let mut printed = Vec::new(alloc);
    let status = test_file(rt, asked, test, &mut printed, errors)?;
    out.write_all(&printed)?;
    report.note(alloc, test.name, status, &text_printed(alloc, printed))?;
    Ok(status)
}

/// Tests the scripts of some files, one after another.
fn test_all<R: Files + AllocGlobal, W: Write, E: Write>(
    rt: &R,
    asked: &AskedTests<'_>,
    scripts: &[&str],
    report: &mut Option<Report>,
    out: &mut W,
    errors: &mut E,
) -> Result<Status, LabFault> {
    print_plan(out, scripts.len())?;
    let mut ended = Status::Done;
    let mut number = 0_usize;
    for name in scripts {
        number = number.saturating_add(1);
        let test = Numbered { number, name };
        ended = worse(ended, test_noted(rt, asked, test, report, out, errors)?);
        // whoever reads the tests sees each as soon as it ended
        out.flush()?;
    }
    Ok(ended)
}

/// Tests the scripts of some files over the sites that they name, or those that are given.
fn test_given<R: Files + AllocGlobal, W: Write, E: Write>(
    rt: &R,
    paths: GivenPaths<'_>,
    scripts: &[&str],
    kept: Option<&str>,
    report: &mut Option<Report>,
    out: &mut W,
    errors: &mut E,
) -> Result<Status, LabFault> {
    let Some(given) = readable_sites(rt, paths, out, errors)? else {
        return Ok(Status::Refused);
    };
    if let Some(folder) = kept
        && !is_folder_there(rt, folder, errors)?
    {
        writeln!(out, "file {}", Escaped(folder))?;
        return Ok(Status::Refused);
    }
    let kept = kept.map(|folder| Kept { folder, scripts });
    let asked = AskedTests { given, kept };
    test_all(rt, &asked, scripts, report, out, errors)
}

/// Whether the file of a report is one that is read: that would be lost.
fn is_read<R: Files>(rt: &R, paths: GivenPaths<'_>, scripts: &[&str], report: &str) -> bool {
    let is_site = paths.first.is_some_and(|site| is_same(rt, site, report));
    let is_peer = paths.peer.is_some_and(|site| is_same(rt, site, report));
    is_site || is_peer || scripts.iter().any(|script| is_same(rt, *script, report))
}

/// Tests the scripts of some files, each over the sites that it names, or else over those that are given, as [`test_run`]
/// does with texts. Prints TAP: the number of tests, and then each test. If a script can't be read, it is refused, and the
/// scripts after it are tested all the same. The answer is `Refused` if a script was refused, else `Differs` if one differs,
/// else `Done`. Files of sites, and sites, are refused as by [`run_files`](crate::files::run_files); then no script is read.
///
/// Where a report is asked for it is written at the end, in the form of JUnit; where it can't be the answer is `Refused`, and
/// `errors` says why. Its file is refused before anything is read where it is one of those that are. Where scripts that aren't
/// met are to be kept, their files are written as each ended ([`keep_run`]); the folder is made first, and refused as a file is
/// where it can't be.
pub fn test_files<R: Files + AllocGlobal, W: Write, E: Write>(
    rt: &R,
    paths: GivenPaths<'_>,
    scripts: &[&str],
    written: TestFiles<'_>,
    out: &mut W,
    errors: &mut E,
) -> Result<Status, LabFault> {
    let TestFiles { report, kept } = written;
    let Some(path) = report else {
        return test_given(rt, paths, scripts, kept, &mut None, out, errors);
    };
    if is_read(rt, paths, scripts, path) {
        return refuse_twice(path, out, errors);
    }
    let mut report = Some(Report::new(rt.alloc()));
    let ended = test_given(rt, paths, scripts, kept, &mut report, out, errors)?;
    match report {
        Some(report) if !report.write_to(rt, path, errors)? => Ok(Status::Refused),
        Some(_) | None => Ok(ended),
    }
}

/// Takes each attempt of a script back at each point, over sites that can be run over.
fn try_over<W: Write, E: Write>(
    alloc: Global,
    sites: &SiteTexts,
    naming: Naming,
    script: String,
    name: &str,
    tally: &mut Tally,
    out: &mut W,
    errors: &mut E,
) -> Result<Status, LabFault> {
    let script = without_names(alloc, name, sites, script, errors)?;
    let trial = Trial {
        site: sites.first(),
        peer: sites.peer(),
        script: &script,
        name,
    };
    let status = try_undos(alloc, alloc, trial, tally, out)?;
    if status == Status::Refused {
        // the sites were read before
        say_line(alloc, name, &script, trial.peer.is_some(), naming, errors)?;
    }
    Ok(status)
}

/// Takes each attempt of the script of a file back at each point.
fn try_file<R: Files + AllocGlobal, W: Write, E: Write>(
    rt: &R,
    given: &GivenSites<'_>,
    name: &str,
    tally: &mut Tally,
    out: &mut W,
    errors: &mut E,
) -> Result<Status, LabFault> {
    let alloc = rt.alloc();
    let Some(script) = text_of(rt, name, &mut io::sink(), errors)? else {
        print_miss(out, tally.next(), name, Miss::NoFile)?;
        return Ok(Status::Refused);
    };
    say_cut_script(name, &script, errors)?;
    match sites_of_script(rt, given, name, &script, errors)? {
        ScriptSites::Given(texts) => {
            let naming = Naming::Given;
            try_over(alloc, texts, naming, script, name, tally, out, errors)
        }
        ScriptSites::Named(texts) => {
            let naming = Naming::InScript;
            try_over(alloc, &texts, naming, script, name, tally, out, errors)
        }
        ScriptSites::Unreadable(miss) => {
            print_miss(out, tally.next(), name, miss)?;
            Ok(Status::Refused)
        }
    }
}

/// Says that no attempt was taken back, where none was.
fn say_no_attempts<E: Write>(tally: &Tally, errors: &mut E) -> io::Result<()> {
    if tally.tests == 0 {
        writeln!(errors, "no attempt was open, so none was undone")?;
    }
    Ok(())
}

/// Undoes each attempt of the scripts of some files at each point, over sites as [`test_files`] does, and as [`try_undos`]
/// does with texts. Prints TAP: each test, then the number of tests and their results. If there was no test, `errors` says
/// so. Scripts and sites are refused as by [`test_files`].
pub fn try_undos_files<R: Files + AllocGlobal, W: Write, E: Write>(
    rt: &R,
    paths: GivenPaths<'_>,
    scripts: &[&str],
    out: &mut W,
    errors: &mut E,
) -> Result<Status, LabFault> {
    let Some(sites) = readable_sites(rt, paths, out, errors)? else {
        return Ok(Status::Refused);
    };
    let mut tally = Tally::new();
    let mut ended = Status::Done;
    for name in scripts {
        ended = worse(ended, try_file(rt, &sites, *name, &mut tally, out, errors)?);
    }
    print_tally(out, &tally)?;
    say_no_attempts(&tally, errors)?;
    Ok(ended)
}

/// Refuses a line that is to be recorded alone, where a script has fewer lines: its number is printed, and on `errors` how many
/// there are. Answers whether it is refused.
fn refuse_line<W: Write, E: Write>(
    script: &str,
    text: &str,
    recording: Recording,
    out: &mut W,
    errors: &mut E,
) -> io::Result<bool> {
    let count = text.lines().count();
    match recording.only {
        Some(line) if count < line => {
            writeln!(
                errors,
                "{}:{line}: the script has {count} lines",
                Escaped(script)
            )?;
            writeln!(out, "line {line}")?;
            Ok(true)
        }
        Some(_) | None => Ok(false),
    }
}

/// Records the script of a file over sites.
fn record_over<R: Files + AllocGlobal, W: Write, E: Write>(
    rt: &R,
    sources: SiteSources<'_>,
    script: &str,
    recording: Recording,
    out: &mut W,
    errors: &mut E,
) -> Result<Status, LabFault> {
    let alloc = rt.alloc();
    let Some(sites) = site_texts(rt, sources, out, errors)? else {
        return Ok(Status::Refused);
    };
    let Some(text) = text_of(rt, script, out, errors)? else {
        return Ok(Status::Refused);
    };
    if refuse_line(script, &text, recording, out, errors)? {
        return Ok(Status::Refused);
    }
    say_cut_script(script, &text, errors)?;
    say_other_sites(rt, sources, script, &text, errors)?;
    let text = without_names(alloc, script, &sites, text, errors)?;
    let peer = sites.peer();
    let status = record_run(alloc, alloc, sites.first(), peer, &text, recording, out)?;
    if status == Status::Refused {
        say_refusal(alloc, sources, &sites, script, &text, errors)?;
    } else {
        say_idle_settings(alloc, script, &sites, &text, errors)?;
    }
    Ok(status)
}

/// Records the script of a file, in these forms, over the sites that are given, or else over those that it names, as
/// [`record_run`] does of texts. Files and sites are refused as by [`run_files`](crate::files::run_files), and the same is said of
/// the script; so is, by its number, a line that is to be recorded alone, where the script has fewer.
pub fn record_file<R: Files + AllocGlobal, W: Write, E: Write>(
    rt: &R,
    paths: GivenPaths<'_>,
    script: &str,
    recording: Recording,
    out: &mut W,
    errors: &mut E,
) -> Result<Status, LabFault> {
    let peer = paths.peer;
    if let Some(first) = paths.first {
        let sites = in_files(SitePaths { first, peer });
        return record_over(rt, sites, script, recording, out, errors);
    }
    match sites_named_by(rt, peer, script, out, errors)? {
        Some(named) => record_over(rt, named.sources(), script, recording, out, errors),
        None => Ok(Status::Refused),
    }
}
