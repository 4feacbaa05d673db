//! The files of the sites of a run.
use crate::faults::lab_result;
use crate::files::text_of;
pub use lab_words::{GivenPaths, SitePaths};
use run_listeners::LabFault;
use site_text::{UniformSite, say_reason};
use std::alloc::Global;
use std::fmt;
use std::io::Write;
use std::rt::Files;

/// Where the text of a site comes from.
#[derive(Clone, Copy)]
pub(crate) enum SiteSource<'a> {
    /// From the file of this path.
    File(&'a str),
    /// From a script that says which cells the site has.
    Cells(UniformSite),
}

impl<'a> SiteSource<'a> {
    /// The path of its file; nothing where it has none.
    pub(crate) fn path(self) -> Option<&'a str> {
        match self {
            SiteSource::File(path) => Some(path),
            SiteSource::Cells(_) => None,
        }
    }
}

impl fmt::Display for SiteSource<'_> {
    /// The path of its file, or the cells as a script says them.
    fn fmt<W: fmt::Write>(&self, f: &mut fmt::Formatter<W>) -> fmt::Result {
        match self {
            SiteSource::File(path) => f.write_str(path),
            SiteSource::Cells(site) => write!(f, "cells {} {}", site.cells(), site.timeslots()),
        }
    }
}

/// Where the texts of the sites of a run come from; that of a peer always from a file.
#[derive(Clone, Copy)]
pub(crate) struct SiteSources<'a> {
    pub first: SiteSource<'a>,
    pub peer: Option<&'a str>,
}

/// The files of these paths as sources of sites.
pub(crate) fn in_files(paths: SitePaths<'_>) -> SiteSources<'_> {
    SiteSources {
        first: SiteSource::File(paths.first),
        peer: paths.peer,
    }
}

/// The texts of the sites of a run, and where they come from, in words.
#[derive(Drop)]
pub(crate) struct SiteTexts {
    first: String,
    peer: Option<String>,
    names: String,
}

impl SiteTexts {
    /// The text of the first controller's site.
    pub(crate) fn first(&self) -> &str {
        &self.first
    }

    /// The text of the peer's site.
    pub(crate) fn peer(&self) -> Option<&str> {
        self.peer.as_ref().map(|text| text.as_str())
    }

    /// Where they come from.
    pub(crate) fn names(&self) -> &str {
        &self.names
    }
}

/// The text of a site; nothing where its file can't be read, and then the path of that was printed, and on `errors` why.
fn source_text<R: Files + AllocGlobal, W: Write, E: Write>(
    rt: &R,
    source: SiteSource<'_>,
    out: &mut W,
    errors: &mut E,
) -> Result<Option<String>, LabFault> {
    match source {
        SiteSource::File(path) => text_of(rt, path, out, errors),
        SiteSource::Cells(site) => Ok(Some(site.to_string(rt.alloc())?)),
    }
}

/// The texts of sites; nothing if one can't be read, and then the path of the first such was printed, and on `errors` why.
pub(crate) fn site_texts<R: Files + AllocGlobal, W: Write, E: Write>(
    rt: &R,
    sources: SiteSources<'_>,
    out: &mut W,
    errors: &mut E,
) -> Result<Option<SiteTexts>, LabFault> {
    let Some(first) = source_text(rt, sources.first, out, errors)? else {
        return Ok(None);
    };
    let alloc = rt.alloc();
    let Some(path) = sources.peer else {
        let names = sources.first.to_string(alloc)?;
        return Ok(Some(SiteTexts {
            first,
            peer: None,
            names,
        }));
    };
    let Some(peer) = text_of(rt, path, out, errors)? else {
        return Ok(None);
    };
    Ok(Some(SiteTexts {
        first,
        peer: Some(peer),
        names: format!(in alloc; "{} and {path}", sources.first)?,
    }))
}

/// Says why a site is refused; answers whether it is.
pub(crate) fn say_site<E: Write>(
    alloc: Global,
    path: &str,
    text: &str,
    errors: &mut E,
) -> Result<bool, LabFault> {
    lab_result(say_reason(alloc, path, text, errors))
}

/// Says why the first of the sites that is refused is; answers whether one is.
pub(crate) fn say_reasons<E: Write>(
    alloc: Global,
    sources: SiteSources<'_>,
    texts: &SiteTexts,
    errors: &mut E,
) -> Result<bool, LabFault> {
    if let Some(path) = sources.first.path()
        && say_site(alloc, path, &texts.first, errors)?
    {
        return Ok(true);
    }
    match (sources.peer, texts.peer()) {
        (Some(path), Some(text)) => say_site(alloc, path, text, errors),
        (Some(_), None) | (None, _) => Ok(false),
    }
}
