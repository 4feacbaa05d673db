//! Notes about a script for standard error: comments that look like expectations, expectations that can't be met or are
//! always met, carriage returns, and settings without effect.
//!
//! No clause says what the lines hold: tests show it.
use crate::absences::{expects_a_line, is_meant};
use crate::site_files::SiteTexts;
use crate::slips::{is_idle_mark, is_slip};
use expectations::names_no_site;
use idle_settings::{Cause, Found, Idle, Taken, Texts, idle_settings};
use lab_runs::run::read_sites;
use lab_script::script::without_return;
use run_listeners::LabFault;
use screen_text::Escaped;
use std::alloc::{AllocError, Global};
use std::io::{self, Write};
use tested_scripts::{NeverLine, Told, lines_of, never_lines};

/// Whether a comment has something to do with the name of a site: `%` stands behind the number signs, blanks and tabs that begin it.
fn is_of_site(line: &str) -> bool {
    let first = line
        .bytes()
        .find(|octet| !matches!(octet, b'#' | b' ' | b'\t'));
    first == Some(b'%')
}

/// What is said of a comment that looks as if it said something to a test, but doesn't, as `is_slip` says; nothing of another.
fn slip_of(line: &str, is_slip: bool) -> Option<&'static str> {
    if names_no_site(line) || (is_slip && is_of_site(line)) {
        Some(
            "this looks like the name of a site, but isn't one: write \"#% site PATH\", \"#% peer PATH\" or \"#% cells N full\"",
        )
    } else if is_slip && is_idle_mark(line) {
        Some("this looks like \"#- idle\", but isn't")
    } else if is_slip {
        Some("this looks like an expectation, but isn't one: write \"#> \", \"#! \" or \"#= \"")
    } else {
        None
    }
}

/// Says which comments of a script look as if they expected something, or named a site, but don't. Answers the numbers of those
/// with which a script isn't met.
pub(crate) fn say_slipped<E: Write>(
    alloc: Global,
    path: &str,
    script: &str,
    errors: &mut E,
) -> Result<Vec<usize>, LabFault> {
    let mut slipped = Vec::new(alloc);
    for (place, line) in script.split('\n').enumerate() {
        let line = without_return(line);
        let number = place.saturating_add(1);
        let is_slip = is_slip(alloc, line)?;
        if let Some(slip) = slip_of(line, is_slip) {
            writeln!(errors, "{}:{number}: {slip}", Escaped(path))?;
        }
        if is_slip {
            slipped.push(number).map_err(AllocError::from)?;
        }
    }
    Ok(slipped)
}

/// Says which lines of a script have a carriage return that doesn't end them: what stands behind it is no line of its own.
pub(crate) fn say_bare_returns<E: Write>(
    path: &str,
    script: &str,
    errors: &mut E,
) -> Result<(), LabFault> {
    for (place, line) in script.split('\n').enumerate() {
        if without_return(line).contains('\r') {
            writeln!(
                errors,
                "{}:{}: a carriage return without a line feed doesn't end the line",
                Escaped(path),
                place.saturating_add(1)
            )?;
        }
    }
    Ok(())
}

/// Says why a line of a script comes to nothing.
fn say_idle<E: Write>(path: &str, idle: Idle, errors: &mut E) -> io::Result<()> {
    let Idle { line, cause } = idle;
    let path = Escaped(path);
    match cause {
        Cause::Unused(chan) => {
            writeln!(
                errors,
                "{path}:{line}: this line has no effect: it is never used on {chan}"
            )
        }
        Cause::Again(chan) => {
            writeln!(
                errors,
                "{path}:{line}: this line has no effect: before it is used, another line replaces it on {chan}"
            )
        }
        Cause::Lacks(lack) => writeln!(errors, "{path}:{line}: {lack}"),
        Cause::Unmet(unmet) => writeln!(errors, "{path}:{line}: this line has no effect: {unmet}"),
        Cause::Input(lack) => writeln!(errors, "{path}:{line}: this line has no effect: {lack}"),
    }
}

/// Says which call a line of a script opened under a number for which the switching centre asks.
fn say_taken<E: Write>(path: &str, taken: Taken, errors: &mut E) -> io::Result<()> {
    let Taken { line, call, asked } = taken;
    writeln!(
        errors,
        "{}:{line}: opens call {call}, for which the switching centre asks in line {asked}",
        Escaped(path)
    )
}

/// Whether a line of a script that comes to nothing is told: it isn't said that this is meant, nor what comes of an input.
fn is_told(lines: &[&str], idle: Idle) -> bool {
    let is_known = match idle.cause {
        Cause::Input(_) => expects_a_line(lines, idle.line),
        Cause::Lacks(_) | Cause::Unused(_) | Cause::Again(_) | Cause::Unmet(_) => false,
    };
    !is_known && !is_meant(lines, idle.line)
}

/// Those of the lines of a script that come to nothing which are told.
fn told_of(alloc: Global, script: &str, idle: Vec<Idle>) -> Result<Vec<Idle>, AllocError> {
    let lines = lines_of(alloc, script)?;
    let mut idle = idle;
    idle.retain(|line| is_told(&lines, *line));
    Ok(idle)
}

/// What was found of the lines of a script that have an effect, or none.
#[derive(Drop)]
pub(crate) struct Effects {
    /// Lines that have none, and should.
    pub idle: Vec<Idle>,
    /// The numbers of lines that have one, where a comment says that they have none.
    pub unmeant: Vec<usize>,
}

/// Says which of the lines of these numbers are meant to have no effect, as they have one, and answers them.
fn say_unmeant<E: Write>(
    alloc: Global,
    path: &str,
    script: &str,
    effects: Vec<usize>,
    errors: &mut E,
) -> Result<Vec<usize>, LabFault> {
    let lines = lines_of(alloc, script)?;
    let mut effects = effects;
    effects.retain(|line| is_meant(&lines, *line));
    for line in &effects {
        writeln!(
            errors,
            "{}:{line}: this line has an effect, but \"#- idle\" says that it has none",
            Escaped(path)
        )?;
    }
    Ok(effects)
}

/// Says which lines of a script have no effect and should, and which have one and shouldn't, and answers them; and which calls have
/// a number for which the switching centre asks.
pub(crate) fn say_idle_settings<E: Write>(
    alloc: Global,
    path: &str,
    texts: &SiteTexts,
    script: &str,
    errors: &mut E,
) -> Result<Effects, LabFault> {
    let sites = Texts {
        scratch: alloc,
        first: texts.first(),
        peer: texts.peer(),
    };
    let Found {
        idle,
        effects,
        taken,
        is_whole,
    } = idle_settings(alloc, sites, script)?;
    let idle = told_of(alloc, script, idle)?;
    for line in &idle {
        say_idle(path, *line, errors)?;
    }
    let unmeant = say_unmeant(alloc, path, script, effects, errors)?;
    for call in &taken {
        say_taken(path, *call, errors)?;
    }
    if !is_whole {
        writeln!(
            errors,
            "{}: settings without effect aren't looked for: over 100,000 lines would have to be played",
            Escaped(path)
        )?;
    }
    Ok(Effects { idle, unmeant })
}

/// Says which comments of a script say that a line comes, or that none does, where none ever can be so, and answers them. Nothing is
/// said where a text describes no site.
pub(crate) fn say_never<'a, E: Write>(
    alloc: Global,
    path: &str,
    texts: &SiteTexts,
    script: &'a str,
    errors: &mut E,
) -> Result<Vec<NeverLine<'a>>, LabFault> {
    let Ok(sites) = read_sites(alloc, alloc, texts.first(), texts.peer()) else {
        return Ok(Vec::new(alloc));
    };
    let lines = never_lines(alloc, script, &sites)?;
    for never in &lines {
        let NeverLine { line, told, why } = *never;
        let kind = match told {
            Told::Expected(_) => "can't be met",
            Told::Refused(_) => "is always met",
        };
        writeln!(errors, "{}:{line}: {kind}: {why}", Escaped(path))?;
    }
    Ok(lines)
}
