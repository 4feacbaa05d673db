//! A site as it was read, and warnings about it.
//!
//! No clause says what is printed. `cell_table` says which site a text describes.
use crate::site_files::{SitePaths, in_files, say_reasons, site_texts};
use cell_table::Site;
use lab_runs::run::{Sites, Status, read_sites, refuse_site};
use run_listeners::{LabFault, Printing};
use site_text::{print_cells, print_peer_warnings, print_warnings};
use std::alloc::Global;
use std::io::Write;
use std::rt::Files;
use toml::Value;

/// Prints what is allowed in the text of a site, which was read, and surely meant otherwise.
fn print_warnings_of<W: Write>(
    alloc: Global,
    site: &Site,
    text: &str,
    out: &mut W,
) -> Result<(), LabFault> {
    // what is TOML lacks nothing but memory the second time
    let document = toml::table_from_str(alloc, text).map_err(|_| LabFault::NoMemory)?;
    Ok(print_warnings(site, &Value::Table(document), out)?)
}

/// Prints the cells of a site, its warnings, and those beside its peer's, if there is one.
fn print_sites<W: Write>(
    alloc: Global,
    sites: &Sites<Global>,
    text: &str,
    out: &mut W,
) -> Result<(), LabFault> {
    print_cells(&sites.first, out)?;
    print_warnings_of(alloc, &sites.first, text, out)?;
    if let Some(peer) = &sites.peer {
        print_peer_warnings(&sites.first, peer, out)?;
    }
    Ok(())
}

/// Reads the site of a file, and prints its cells and warnings ([`print_cells`], [`print_warnings`]). If a peer's site is
/// named, it also prints which outside cells the peer doesn't have as the site says ([`print_peer_warnings`]). Files and
/// sites are refused as by [`run_files`](crate::files::run_files).
pub fn check_file<R: Files + AllocGlobal, W: Write, E: Write>(
    rt: &R,
    paths: SitePaths<'_>,
    out: &mut W,
    errors: &mut E,
) -> Result<Status, LabFault> {
    let alloc = rt.alloc();
    let sources = in_files(paths);
    let Some(texts) = site_texts(rt, sources, out, errors)? else {
        return Ok(Status::Refused);
    };
    match read_sites(alloc, alloc, texts.first(), texts.peer()) {
        Ok(sites) => {
            print_sites(alloc, &sites, texts.first(), out)?;
            Ok(Status::Done)
        }
        Err(fault) => {
            let status = refuse_site::<Global, _>(fault, &mut Printing::new(out))?;
            let _ = say_reasons(alloc, sources, &texts, errors)?;
            Ok(status)
        }
    }
}
