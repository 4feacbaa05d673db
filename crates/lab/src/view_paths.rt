//! The files to which a run writes.
use crate::site_files::SiteSources;
use lab_runs::run::Status;
use run_listeners::LabFault;
use run_views::{first_path, is_same};
use screen_text::Escaped;
use std::alloc::AllocError;
use std::io::Write;
use std::rt::Files;
use view_options::Views;

/// Whether a run reads the file of this path.
fn is_read<R: Files>(rt: &R, sites: SiteSources<'_>, script: &str, path: &str) -> bool {
    if is_same(rt, script, path) {
        return true;
    }
    if let Some(site) = sites.first.path()
        && is_same(rt, site, path)
    {
        return true;
    }
    match sites.peer {
        Some(peer) => is_same(rt, peer, path),
        None => false,
    }
}

/// The path of the capture, or else of the chart or of its first page, where another file of the run is the same: that would be
/// lost.
pub(crate) fn named_twice<R: Files + AllocGlobal>(
    rt: &R,
    sites: SiteSources<'_>,
    script: &str,
    views: &Views<'_>,
) -> Result<Option<String>, AllocError> {
    let alloc = rt.alloc();
    if let Some(pcap) = views.pcap {
        if is_read(rt, sites, script, pcap) {
            return Ok(Some(String::from_str(alloc, pcap)?));
        }
    }
    let Some(chart) = views.chart else {
        return Ok(None);
    };
    let chart = first_path(alloc, chart)?;
    if is_read(rt, sites, script, &chart) {
        return Ok(Some(chart));
    }
    match views.pcap {
        Some(pcap) if is_same(rt, pcap, &chart) => Ok(Some(chart)),
        Some(_) | None => Ok(None),
    }
}

/// The path of the capture of a live controller, where the site's file is the same: that would be lost.
pub(crate) fn is_site<'a, R: Files>(rt: &R, site: &str, views: &Views<'a>) -> Option<&'a str> {
    let pcap = views.pcap?;
    if is_same(rt, site, pcap) {
        Some(pcap)
    } else {
        None
    }
}

/// Refuses a path that is named twice.
pub(crate) fn refuse_twice<W: Write, E: Write>(
    path: &str,
    out: &mut W,
    errors: &mut E,
) -> Result<Status, LabFault> {
    writeln!(errors, "{}: named twice", Escaped(path))?;
    writeln!(out, "file {}", Escaped(path))?;
    Ok(Status::Refused)
}
