//! Outside cells of a site that aren't as the site of its peer has them.
ghost use Rattle.std.specs.Prelude.{◌≡◌, ◌↔◌, ℕ, IsTrue, Some};
ghost use Rattle.site_text.specs.Peers.{IsCellAtPeer, HasCarrierOf, HasColourOf};

use crate::cells::CELL_NUMBERS;
use cell_table::Site;
use cell_table::limits::FIRST_OUTSIDE;
use std::alloc::Allocator;
use std::fmt;
use std::io::{self, Write};

/// The own cell of a peer that has the location area code and the cell identity of an outside cell; `None` if the peer has
/// no such cell.
fn cell_at_peer<A: Allocator + Copy>(site: &Site<A>, outside: u8, peer: &Site<A>) -> Option<u8>
    ensures { (cell : ℕ) → (result ≡ Some cell) ↔ IsCellAtPeer site.now outside peer.now cell }
{
    let cell = peer.cell_of(site.lac(outside)?, site.ci(outside)?)?;
    if cell < peer.cells() {
        Some(cell)
    } else {
        None
    }
}

/// Whether a cell has the carrier of a peer's cell.
fn has_carrier_of<A: Allocator + Copy>(
    site: &Site<A>,
    cell: u8,
    peer: &Site<A>,
    at_peer: u8,
) -> bool
    ensures { IsTrue result ↔ HasCarrierOf site.now cell peer.now at_peer }
{
    site.bcch(cell) == peer.bcch(at_peer)
}

/// Whether a cell has the colour codes of a peer's cell.
fn has_colour_of<A: Allocator + Copy>(site: &Site<A>, cell: u8, peer: &Site<A>, at_peer: u8) -> bool
    ensures { IsTrue result ↔ HasColourOf site.now cell peer.now at_peer }
{
    site.ncc(cell) == peer.ncc(at_peer) && site.bcc(cell) == peer.bcc(at_peer)
}

/// A base station identity code, as its two colour codes.
#[derive(Clone, Copy)]
struct Colour {
    ncc: u8,
    bcc: u8,
}

impl fmt::Display for Colour {
    fn fmt<W: fmt::Write>(&self, f: &mut fmt::Formatter<W>) -> fmt::Result {
        write!(f, "{}/{}", self.ncc, self.bcc)
    }
}

/// The colour codes of a cell; `None` if there is no such cell.
fn colour_of<A: Allocator + Copy>(site: &Site<A>, cell: u8) -> Option<Colour> {
    Some(Colour {
        ncc: site.ncc(cell)?,
        bcc: site.bcc(cell)?,
    })
}

/// Warns of an outside cell whose carrier isn't that of the peer's cell.
fn warn_of_carrier<A: Allocator + Copy, W: Write>(
    site: &Site<A>,
    outside: u8,
    peer: &Site<A>,
    cell: u8,
    out: &mut W,
) -> io::Result<()> {
    if has_carrier_of(site, outside, peer, cell) {
        return Ok(());
    }
    if let (Some(carrier), Some(other)) = (site.bcch(outside), peer.bcch(cell)) {
        writeln!(
            out,
            "warning: outside {outside}: bcch: {carrier}, but the peer's cell {cell} has {other}"
        )?;
    }
    Ok(())
}

/// Warns of an outside cell whose colour codes aren't those of the peer's cell.
fn warn_of_colour<A: Allocator + Copy, W: Write>(
    site: &Site<A>,
    outside: u8,
    peer: &Site<A>,
    cell: u8,
    out: &mut W,
) -> io::Result<()> {
    if has_colour_of(site, outside, peer, cell) {
        return Ok(());
    }
    if let (Some(colour), Some(other)) = (colour_of(site, outside), colour_of(peer, cell)) {
        writeln!(
            out,
            "warning: outside {outside}: bsic: {colour}, but the peer's cell {cell} has {other}"
        )?;
    }
    Ok(())
}

/// Warns of an outside cell that the peer doesn't have.
fn warn_of_absence<A: Allocator + Copy, W: Write>(
    site: &Site<A>,
    outside: u8,
    out: &mut W,
) -> io::Result<()> {
    if let (Some(lac), Some(ci)) = (site.lac(outside), site.ci(outside)) {
        writeln!(
            out,
            "warning: outside {outside}: no cell of the peer has lac={lac} ci={ci}"
        )?;
    }
    Ok(())
}

/// Prints what of the outside cells of a site isn't as the site of its peer says, one a line, cell by cell: that no own cell of
/// the peer has the cell's location area code and cell identity; or else that the peer's cell has another carrier, and that it
/// has other colour codes.
pub fn print_peer_warnings<A: Allocator + Copy, W: Write>(
    site: &Site<A>,
    peer: &Site<A>,
    out: &mut W,
) -> io::Result<()> {
    for outside in FIRST_OUTSIDE..CELL_NUMBERS {
        match cell_at_peer(site, outside, peer) {
            Some(cell) => {
                warn_of_carrier(site, outside, peer, cell, out)?;
                warn_of_colour(site, outside, peer, cell, out)?;
            }
            None => warn_of_absence(site, outside, out)?,
        }
    }
    Ok(())
}
