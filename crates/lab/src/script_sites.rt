//! The sites that a script names for itself.
use crate::files::text_of;
use crate::site_files::{GivenPaths, SiteSource, SiteSources, SiteTexts, say_reasons, site_texts};
use cell_table::SiteFault;
use expectations::{cells_in, peer_in, site_in};
use lab_runs::run::read_sites;
use lab_script::script::without_return;
use run_listeners::LabFault;
use run_views::is_same;
use screen_text::Escaped;
use site_text::UniformSite;
use std::alloc::{AllocError, Global};
use std::io::{self, Write};
use std::rt::Files;
use tested_scripts::Miss;

/// The site that a line of a script names.
#[derive(Clone, Copy)]
enum NamedSite<'a> {
    /// A file, by its path as it stands there.
    File(&'a str),
    /// The cells that it says.
    Cells(UniformSite),
}

/// What a script names first of a kind: the number of its line, counted from 1, and what stands there.
type Named<T> = Option<(usize, T)>;

/// The sites that a script names, as they stand in it.
#[derive(Clone, Copy)]
struct NamedSites<'a> {
    first: Named<NamedSite<'a>>,
    peer: Named<&'a str>,
}

/// Why a script names no sites that it can be run over.
#[derive(Clone, Copy)]
enum NamesFault {
    /// A line names a site, or a peer's, that another line before has named.
    Twice { line: usize, before: usize },
    /// A line says no cells that a site may have.
    Cells { line: usize },
}

impl NamesFault {
    /// The number of the line, counted from 1.
    fn line(self) -> usize {
        match self {
            NamesFault::Twice { line, .. } => line,
            NamesFault::Cells { line } => line,
        }
    }
}

/// The sites that are given for scripts that name none.
#[derive(Drop)]
pub(crate) struct GivenSites<'a> {
    pub paths: GivenPaths<'a>,
    /// Their texts; `None` if each script has to name its own.
    pub texts: Option<SiteTexts>,
}

/// The sites over which a script is run.
#[derive(Drop)]
pub(crate) enum ScriptSites<'g> {
    /// It names none: those that are given.
    Given(&'g SiteTexts),
    /// Those that it names.
    Named(SiteTexts),
    /// It can't be run over what it names: why.
    Unreadable(Miss<'static>),
}

/// What is named once a line was read that names this, or nothing.
fn named_by<T: Copy>(
    named: Named<T>,
    line: usize,
    found: Option<T>,
) -> Result<Named<T>, NamesFault> {
    match (named, found) {
        (Some((before, _)), Some(_)) => Err(NamesFault::Twice { line, before }),
        (None, Some(found)) => Ok(Some((line, found))),
        (named, None) => Ok(named),
    }
}

/// The site that a line of a script names, if it names one.
fn named_site(line: &str, number: usize) -> Result<Option<NamedSite<'_>>, NamesFault> {
    let Some(words) = cells_in(line) else {
        return Ok(site_in(line).map(|path| NamedSite::File(path)));
    };
    match UniformSite::of_words(words) {
        Some(site) => Ok(Some(NamedSite::Cells(site))),
        None => Err(NamesFault::Cells { line: number }),
    }
}

/// The sites that a script names, each once.
fn named_in(script: &str) -> Result<NamedSites<'_>, NamesFault> {
    let mut named = NamedSites {
        first: None,
        peer: None,
    };
    for (place, line) in script.split('\n').enumerate() {
        let number = place.saturating_add(1);
        let line = without_return(line);
        named.first = named_by(named.first, number, named_site(line, number)?)?;
        named.peer = named_by(named.peer, number, peer_in(line))?;
    }
    Ok(named)
}

/// A path that stands in a script, seen from the script's folder.
fn beside(alloc: Global, script: &str, path: &str) -> Result<String, AllocError> {
    match script.rsplit_once('/') {
        Some((folder, _)) if !path.starts_with("/") => format!(in alloc; "{folder}/{path}"),
        _ => String::from_str(alloc, path),
    }
}

/// A path that may be named, as it is named beside a script.
fn named_beside(
    alloc: Global,
    script: &str,
    named: Named<&str>,
) -> Result<Option<String>, AllocError> {
    match named {
        Some((_, path)) => Ok(Some(beside(alloc, script, path)?)),
        None => Ok(None),
    }
}

/// The site that a script names, its path seen from the script's folder.
#[derive(Drop)]
enum OwnSite {
    File(String),
    Cells(UniformSite),
}

impl OwnSite {
    /// Where its text comes from.
    fn source(&self) -> SiteSource<'_> {
        match self {
            OwnSite::File(path) => SiteSource::File(path.as_str()),
            OwnSite::Cells(site) => SiteSource::Cells(*site),
        }
    }
}

/// The site that a script may name, as it is named beside that.
fn own_site(
    alloc: Global,
    script: &str,
    named: Named<NamedSite<'_>>,
) -> Result<Option<OwnSite>, AllocError> {
    match named {
        Some((_, NamedSite::File(path))) => Ok(Some(OwnSite::File(beside(alloc, script, path)?))),
        Some((_, NamedSite::Cells(site))) => Ok(Some(OwnSite::Cells(site))),
        None => Ok(None),
    }
}

/// Why the sites can't be run over, if they can't.
pub(crate) fn fault_of(alloc: Global, texts: &SiteTexts) -> Option<SiteFault> {
    match read_sites(alloc, alloc, texts.first(), texts.peer()) {
        Ok(_) => None,
        Err(fault) => Some(fault),
    }
}

/// The texts of sites that can be run over; where one can't be read `errors` says why.
fn texts_at<R: Files + AllocGlobal, E: Write>(
    rt: &R,
    sources: SiteSources<'_>,
    errors: &mut E,
) -> Result<ScriptSites<'static>, LabFault> {
    let Some(texts) = site_texts(rt, sources, &mut io::sink(), errors)? else {
        return Ok(ScriptSites::Unreadable(Miss::NoSite));
    };
    if fault_of(rt.alloc(), &texts).is_some() {
        say_reasons(rt.alloc(), sources, &texts, errors)?;
        return Ok(ScriptSites::Unreadable(Miss::NoSite));
    }
    Ok(ScriptSites::Named(texts))
}

/// Says why a script names no sites that it can be run over.
fn say_names_fault<E: Write>(path: &str, fault: NamesFault, errors: &mut E) -> io::Result<()> {
    let path = Escaped(path);
    match fault {
        NamesFault::Twice { line, before } => writeln!(
            errors,
            "{path}:{line}: line {before} names one already: a script names at most one site and one peer"
        ),
        NamesFault::Cells { line } => writeln!(
            errors,
            "{path}:{line}: behind \"#% cells\" stand a number from 1 to 64, and full or half"
        ),
    }
}

/// Says that a script has no site.
fn say_unnamed<E: Write>(path: &str, errors: &mut E) -> io::Result<()> {
    writeln!(
        errors,
        "{}: no site is given, and the script names none (#% site PATH)",
        Escaped(path)
    )
}

/// The sites of a script that names none, where some are given.
fn given_sites<'g, E: Write>(
    given: &'g GivenSites<'_>,
    path: &str,
    errors: &mut E,
) -> io::Result<ScriptSites<'g>> {
    match &given.texts {
        Some(texts) => Ok(ScriptSites::Given(texts)),
        None => {
            say_unnamed(path, errors)?;
            Ok(ScriptSites::Unreadable(Miss::NoSite))
        }
    }
}

/// Where the site of a script comes from: from what it names, or else from the file of this path.
fn source_of<'a>(own: &'a Option<OwnSite>, given: Option<&'a str>) -> Option<SiteSource<'a>> {
    match own {
        Some(own) => Some(own.source()),
        None => given.map(|path| SiteSource::File(path)),
    }
}

/// The sites that the script of a file names, from its folder on. One that names its own site has a peer only where it names
/// that, too; one that names a peer alone is run over the given site and that. It may name each once.
pub(crate) fn sites_of_script<'g, R: Files + AllocGlobal, E: Write>(
    rt: &R,
    given: &'g GivenSites<'_>,
    path: &str,
    script: &str,
    errors: &mut E,
) -> Result<ScriptSites<'g>, LabFault> {
    let named = match named_in(script) {
        Ok(named) => named,
        Err(fault) => {
            say_names_fault(path, fault, errors)?;
            return Ok(ScriptSites::Unreadable(Miss::Unreadable(fault.line())));
        }
    };
    let own = own_site(rt.alloc(), path, named.first)?;
    let peer = named_beside(rt.alloc(), path, named.peer)?;
    match source_of(&own, given.paths.first) {
        Some(first) if own.is_some() || peer.is_some() => {
            let peer = peer.as_ref().map(|path| path.as_str());
            texts_at(rt, SiteSources { first, peer }, errors)
        }
        _ => Ok(given_sites(given, path, errors)?),
    }
}

/// The sites that a script names, from its folder on.
#[derive(Drop)]
pub(crate) struct OwnSites {
    first: OwnSite,
    peer: Option<String>,
}

impl OwnSites {
    /// Where their texts come from.
    pub(crate) fn sources(&self) -> SiteSources<'_> {
        SiteSources {
            first: self.first.source(),
            peer: self.peer.as_ref().map(|path| path.as_str()),
        }
    }
}

/// The path of the peer of a script that names its site: the one that it names, or else the one that is given.
fn peer_beside(
    alloc: Global,
    script: &str,
    named: Named<&str>,
    given: Option<&str>,
) -> Result<Option<String>, AllocError> {
    match (named, given) {
        (Some((_, path)), _) => Ok(Some(beside(alloc, script, path)?)),
        (None, Some(path)) => Ok(Some(String::from_str(alloc, path)?)),
        (None, None) => Ok(None),
    }
}

/// The sites that the script of a file names, from its folder on, where none is given for it, or a peer's alone;
/// nothing where the file can't be read, and then its path was printed, or where it names no site, or one twice; and on `errors`
/// why.
pub(crate) fn sites_named_by<R: Files + AllocGlobal, W: Write, E: Write>(
    rt: &R,
    peer: Option<&str>,
    script: &str,
    out: &mut W,
    errors: &mut E,
) -> Result<Option<OwnSites>, LabFault> {
    let alloc = rt.alloc();
    let Some(text) = text_of(rt, script, out, errors)? else {
        return Ok(None);
    };
    let named = match named_in(&text) {
        Ok(named) => named,
        Err(fault) => {
            say_names_fault(script, fault, errors)?;
            return Ok(None);
        }
    };
    let Some(first) = own_site(alloc, script, named.first)? else {
        say_unnamed(script, errors)?;
        return Ok(None);
    };
    let peer = peer_beside(alloc, script, named.peer, peer)?;
    Ok(Some(OwnSites { first, peer }))
}

/// Says that a line of a script names the file of another site than this, if it does.
fn say_other_file<R: Files + AllocGlobal, E: Write>(
    rt: &R,
    site: &str,
    path: &str,
    (line, name): (usize, &str),
    errors: &mut E,
) -> Result<(), LabFault> {
    let named = beside(rt.alloc(), path, name)?;
    if !is_same(rt, site, &named) {
        writeln!(
            errors,
            "{}:{line}: names the site {}, but is run over {}",
            Escaped(path),
            Escaped(&named),
            Escaped(site)
        )?;
    }
    Ok(())
}

/// Says that a line of a script says the cells of its site, and that it is run over the file of another.
fn say_other_cells<E: Write>(
    site: &str,
    path: &str,
    line: usize,
    words: &str,
    errors: &mut E,
) -> io::Result<()> {
    writeln!(
        errors,
        "{}:{line}: names the site of cells {}, but is run over {}",
        Escaped(path),
        Escaped(words),
        Escaped(site)
    )
}

/// Tells which other site a script names for its peer; there may be none.
fn say_other_peer<R: Files + AllocGlobal, E: Write>(
    rt: &R,
    peer: Option<&str>,
    path: &str,
    (line, name): (usize, &str),
    errors: &mut E,
) -> Result<(), LabFault> {
    let named = beside(rt.alloc(), path, name)?;
    match peer {
        Some(peer) if is_same(rt, peer, &named) => Ok(()),
        Some(peer) => Ok(writeln!(
            errors,
            "{}:{line}: names the peer {}, but its peer is {}",
            Escaped(path),
            Escaped(&named),
            Escaped(peer)
        )?),
        None => Ok(writeln!(
            errors,
            "{}:{line}: names the peer {}, but is run without a peer",
            Escaped(path),
            Escaped(&named)
        )?),
    }
}

/// Says where a script names another site, or another peer's, than those over which it is run: `run` and `record` go by what it
/// names where no site is given.
pub(crate) fn say_other_sites<R: Files + AllocGlobal, E: Write>(
    rt: &R,
    sources: SiteSources<'_>,
    path: &str,
    script: &str,
    errors: &mut E,
) -> Result<(), LabFault> {
    for (place, line) in script.split('\n').enumerate() {
        let number = place.saturating_add(1);
        let line = without_return(line);
        if let (Some(site), Some(name)) = (sources.first.path(), site_in(line)) {
            say_other_file(rt, site, path, (number, name), errors)?;
        }
        if let (Some(site), Some(words)) = (sources.first.path(), cells_in(line)) {
            say_other_cells(site, path, number, words, errors)?;
        }
        if let Some(name) = peer_in(line) {
            say_other_peer(rt, sources.peer, path, (number, name), errors)?;
        }
    }
    Ok(())
}
