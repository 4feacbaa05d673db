//! Why a run was refused: one line for a person.
//!
//! No clause says what the line holds. `read_script` says which line of a script is refused, and `script_reasons` which word
//! is the reason.
use crate::script_notes::say_bare_returns;
use crate::site_files::{SiteSources, SiteTexts, say_reasons};
use expectations::has_name;
use lab_script::script::{ScriptFault, read_script};
use run_listeners::LabFault;
use screen_text::Escaped;
use script_reasons::{Fault, Reason, script_reason};
use std::alloc::Global;
use std::io::{self, Write};

/// Says where a script has carriage returns that end no line, and that it may be cut, where its last line has no line feed.
pub(crate) fn say_cut_script<E: Write>(
    path: &str,
    script: &str,
    errors: &mut E,
) -> Result<(), LabFault> {
    say_bare_returns(path, script, errors)?;
    if script.is_empty() || script.ends_with("\n") {
        return Ok(());
    }
    writeln!(
        errors,
        "{}: the last line has no line feed, and may be cut off",
        Escaped(path)
    )?;
    Ok(())
}

/// Who names the sites over which a script is run.
#[derive(Clone, Copy, Debug, PartialEq, Eq)]
pub(crate) enum Naming {
    /// Whoever runs it.
    Given,
    /// The script itself.
    InScript,
}

/// Says why a line of a script can't be read, by what its sites are named by.
fn say_reason<E: Write>(
    path: &str,
    line: usize,
    reason: Reason<'_>,
    naming: Naming,
    errors: &mut E,
) -> io::Result<()> {
    let path = Escaped(path);
    match (reason.fault, naming) {
        (Fault::NoPeer, Naming::InScript) => writeln!(
            errors,
            "{path}:{line}: 2: is for a second controller, but the script names none (#% peer PATH)"
        ),
        (_, Naming::Given | Naming::InScript) => writeln!(errors, "{path}:{line}: {reason}"),
    }
}

/// Whether the line of a script of this number, counted from 1, has names.
fn names_at(script: &str, number: usize) -> bool {
    script
        .split('\n')
        .nth(number.saturating_sub(1))
        .is_some_and(|line| has_name(line))
}

/// Says why the first line of a script that can't be read can't be, if there is one. Of a line with names that was said before.
pub(crate) fn say_line<E: Write>(
    alloc: Global,
    path: &str,
    script: &str,
    has_peer: bool,
    naming: Naming,
    errors: &mut E,
) -> Result<(), LabFault> {
    let line = match read_script(alloc, script, has_peer) {
        Ok(_) => return Ok(()),
        Err(ScriptFault::Line(line)) => line,
        Err(ScriptFault::NoMemory) => return Err(LabFault::NoMemory),
    };
    if names_at(script, line) {
        // that one stands for nothing was said before
        return Ok(());
    }
    if let Some(reason) = script_reason(script, line, has_peer) {
        say_reason(path, line, reason, naming, errors)?;
    }
    Ok(())
}

/// Says why a run over sites was refused: why the first of them that is refused is, or else why the script is.
pub(crate) fn say_refusal<E: Write>(
    alloc: Global,
    sources: SiteSources<'_>,
    sites: &SiteTexts,
    path: &str,
    script: &str,
    errors: &mut E,
) -> Result<(), LabFault> {
    if say_reasons(alloc, sources, sites, errors)? {
        return Ok(());
    }
    let has_peer = sites.peer().is_some();
    say_line(alloc, path, script, has_peer, Naming::Given, errors)
}
