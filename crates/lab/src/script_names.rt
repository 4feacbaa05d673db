//! The names of a script, for which values are found out.
//!
//! No clause says which: that is shown by tests.
use crate::name_flaws::nearest_of;
use crate::site_files::SiteTexts;
use run_listeners::LabFault;
use screen_text::Escaped;
use std::alloc::Global;
use std::io::{self, Write};
use tested_scripts::{Named, Unnamed, lines_of, named_script};

/// Says that a line of a script has a name that stands for nothing, and which name is the nearest, of those that comments before the
/// line expect something with.
fn say_unnamed<E: Write>(
    path: &str,
    unnamed: &Unnamed,
    nearest: Option<&str>,
    errors: &mut E,
) -> io::Result<()> {
    let Unnamed {
        line,
        name,
        expected,
        front: _,
    } = unnamed;
    let path = Escaped(path);
    match (expected, nearest) {
        (Some(expected), _) => writeln!(
            errors,
            "{path}:{line}: ${name} stands for nothing: line {expected} isn't met"
        ),
        (None, Some(nearest)) => writeln!(
            errors,
            "{path}:{line}: ${name} stands for nothing: no comment before the line expects it; the nearest name is ${nearest}"
        ),
        (None, None) => writeln!(
            errors,
            "{path}:{line}: ${name} stands for nothing: no comment before the line expects it"
        ),
    }
}

/// A script with values in the place of its names; nothing where it has none. Where one stands for nothing `errors` says so.
pub(crate) fn say_names<E: Write>(
    alloc: Global,
    path: &str,
    sites: &SiteTexts,
    script: &str,
    errors: &mut E,
) -> Result<Option<Named>, LabFault> {
    let named = named_script(alloc, alloc, sites.first(), sites.peer(), script)?;
    if let Some(
        Named {
            text: _,
            unnamed: Some(unnamed),
        },
    ) = &named
    {
        let lines = lines_of(alloc, script)?;
        let (before, _) = lines.split_at(unnamed.line.min(lines.len()));
        let nearest = nearest_of(before, unnamed.name.as_str());
        say_unnamed(path, unnamed, nearest, errors)?;
    }
    Ok(named)
}

/// A script with values in the place of its names. The first line with one that stands for nothing stays, and can't be read: `errors`
/// says why.
pub(crate) fn without_names<E: Write>(
    alloc: Global,
    path: &str,
    sites: &SiteTexts,
    script: String,
    errors: &mut E,
) -> Result<String, LabFault> {
    match say_names(alloc, path, sites, &script, errors)? {
        Some(named) => Ok(named.text),
        None => Ok(script),
    }
}
