//! What is kept of scripts that aren't met: their traces, charts and captures.
//!
//! No clause says what the files hold: that is shown by tests.
use crate::files::{ViewedRun, run_viewed, title_of};
use crate::flaws::Numbered;
use crate::site_files::SiteTexts;
use run_listeners::LabFault;
use screen_text::{Escaped, Reason};
use std::alloc::{AllocError, Global};
use std::fs;
use std::io::{self, Write};
use std::rt::Files;
use view_options::{ChartView, Views};

/// The name under which a script is kept: its path without `.txt`, with a hyphen for each slash. Dots and slashes that begin it are
/// left out, so that it is a name within the folder.
fn kept_name(alloc: Global, path: &str) -> Result<String, AllocError> {
    let path = path.strip_suffix(".txt").unwrap_or(path);
    let path = path.trim_start_matches(|letter: char| letter == '.' || letter == '/');
    let mut name = String::new(alloc);
    for character in path.chars() {
        name.push(if character == '/' { '-' } else { character })?;
    }
    Ok(name)
}

/// Where scripts are kept that aren't met: in a folder, by the paths of all that are tested.
#[derive(Clone, Copy)]
pub(crate) struct Kept<'a> {
    pub folder: &'a str,
    pub scripts: &'a [&'a str],
}

/// Whether a name is among some.
fn is_among(names: &[String], name: &str) -> bool {
    names.iter().any(|other| other.as_str() == name)
}

/// A name that is none of some: with a number behind it, where it is one of them.
fn unused(alloc: Global, name: String, names: &[String]) -> Result<String, AllocError> {
    if !is_among(names, &name) {
        return Ok(name);
    }
    let mut number = 2_usize;
    // the name itself is one of these, so one number at least isn't used
    for _ in names {
        let numbered = format!(in alloc; "{name}-{number}")?;
        if !is_among(names, &numbered) {
            return Ok(numbered);
        }
        number = number.saturating_add(1);
    }
    Ok(name)
}

impl Kept<'_> {
    /// The name under which the script of this number is kept: another than those of the scripts before it.
    fn name_of(self, alloc: Global, number: usize) -> Result<String, AllocError> {
        let mut names = Vec::new(alloc);
        let mut last = String::new(alloc);
        for path in self.scripts.iter().take(number) {
            last = unused(alloc, kept_name(alloc, *path)?, &names)?;
            names.push(last.clone()?)?;
        }
        Ok(last)
    }
}

/// Whether something was done to a file, or a folder; where not, `errors` says why.
fn is_done<E: Write>(path: &str, done: io::Result<()>, errors: &mut E) -> Result<bool, LabFault> {
    match done {
        Ok(()) => Ok(true),
        Err(error) if error.kind() == io::ErrorKind::OutOfMemory => Err(LabFault::NoMemory),
        Err(error) => {
            writeln!(errors, "{}: {}", Escaped(path), Reason(&error))?;
            Ok(false)
        }
    }
}

/// Makes the folder in which scripts are kept, where it isn't there; answers whether it is there then, and where not `errors` says
/// why.
pub(crate) fn is_folder_there<R: Files + AllocGlobal, E: Write>(
    rt: &R,
    folder: &str,
    errors: &mut E,
) -> Result<bool, LabFault> {
    is_done(folder, fs::create_dir_all(rt, folder), errors)
}

/// Keeps what comes of the script of a test over sites that can be run over, in the files of a folder: its trace, as `run` prints
/// it, its chart and its capture. Answers whether they could be written; where not `errors` says why.
pub(crate) fn keep_run<R: Files + AllocGlobal, E: Write>(
    rt: &R,
    kept: Kept<'_>,
    test: Numbered<'_>,
    sites: &SiteTexts,
    script: &str,
    errors: &mut E,
) -> Result<bool, LabFault> {
    let alloc = rt.alloc();
    let folder = kept.folder;
    let name = kept.name_of(alloc, test.number)?;
    let trace = format!(in alloc; "{folder}/{name}.trace")?;
    let chart = format!(in alloc; "{folder}/{name}.svg")?;
    let pcap = format!(in alloc; "{folder}/{name}.pcap")?;
    let views = Views {
        pcap: Some(pcap.as_str()),
        chart: Some(ChartView {
            path: chart.as_str(),
            looks: false,
            pages: false,
        }),
        ..Views::plain()
    };
    let mut printed = Vec::new(alloc);
    let title = title_of(alloc, test.name, sites)?;
    let run = ViewedRun {
        title: title.as_str(),
        sites,
        script,
    };
    // the chart has no later pages
    match run_viewed(rt, run, &views, &[], &mut printed, errors)? {
        Some(_) => is_done(&trace, fs::write(rt, trace.as_str(), &printed), errors),
        None => Ok(false),
    }
}
