//! The cells of a site.
ghost use Rattle.std.specs.Prelude.{◌↔◌, IsTrue};
ghost use Rattle.site_text.specs.Cells.{IsNeighbour, HasNeighbour, IsOneSided};

use cell_table::Site;
use cell_table::limits::{FIRST_OUTSIDE, MOST_CELLS, MOST_OUTSIDE};
use std::alloc::Allocator;
use std::fmt;
use std::io::{self, Write};

/// The numbers that cells may have, own and outside, are below this.
pub(crate) const CELL_NUMBERS: u8 = (MOST_CELLS + MOST_OUTSIDE) as u8;

/// What identifies a cell.
#[derive(Clone, Copy)]
struct Identity {
    lac: u16,
    ci: u16,
    bcch: u16,
    ncc: u8,
    bcc: u8,
}

impl fmt::Display for Identity {
    fn fmt<W: fmt::Write>(&self, f: &mut fmt::Formatter<W>) -> fmt::Result {
        let Identity {
            lac,
            ci,
            bcch,
            ncc,
            bcc,
        } = self;
        write!(f, "lac={lac} ci={ci} bcch={bcch} bsic={ncc}/{bcc}")
    }
}

/// What identifies a cell, own or outside; `None` if there is no such cell.
fn identity_of<A: Allocator + Copy>(site: &Site<A>, cell: u8) -> Option<Identity> {
    Some(Identity {
        lac: site.lac(cell)?,
        ci: site.ci(cell)?,
        bcch: site.bcch(cell)?,
        ncc: site.ncc(cell)?,
        bcc: site.bcc(cell)?,
    })
}

/// Whether mobiles in an own cell name another cell by its neighbour list.
fn is_neighbour<A: Allocator + Copy>(site: &Site<A>, cell: u8, other: u8) -> bool
    ensures { IsTrue result ↔ IsNeighbour site.now cell other }
{
    other != cell && site.reported_as(cell, other).is_some()
}

/// Whether an own cell has a neighbour.
pub(crate) fn has_neighbours<A: Allocator + Copy>(site: &Site<A>, cell: u8) -> bool
    ensures { IsTrue result ↔ HasNeighbour site.now cell }
{
    for other in 0..CELL_NUMBERS {
        if is_neighbour(site, cell, other) {
            return true;
        }
    }
    false
}

/// Whether another own cell is a neighbour of an own cell, which is none of that.
pub(crate) fn is_one_sided<A: Allocator + Copy>(site: &Site<A>, cell: u8, other: u8) -> bool
    ensures { IsTrue result ↔ IsOneSided site.now cell other }
{
    other < site.cells() && is_neighbour(site, cell, other) && !is_neighbour(site, other, cell)
}

/// Prints the traffic channels of a TRX, behind a timeslot its halves, where it has such.
fn print_timeslots<W: Write>(
    cell: u8,
    trx: u8,
    timeslots: &[u8],
    halves: &[u8],
    out: &mut W,
) -> io::Result<()> {
    for tn in timeslots {
        write!(out, " {cell}/{trx}/{tn}")?;
        if halves.contains(tn) {
            write!(out, " {cell}/{trx}/{tn}/0 {cell}/{trx}/{tn}/1")?;
        }
    }
    Ok(())
}

/// Prints the traffic channels of an own cell.
fn print_channels<A: Allocator + Copy, W: Write>(
    site: &Site<A>,
    cell: u8,
    out: &mut W,
) -> io::Result<()> {
    write!(out, " channels")?;
    for trx in 0..site.trx(cell).unwrap_or(0) {
        if let (Some(timeslots), Some(halves)) = (site.tch(cell, trx), site.half(cell, trx)) {
            print_timeslots(cell, trx, timeslots, halves, out)?;
        }
    }
    Ok(())
}

/// Prints the neighbours of an own cell by their numbers, each with the position and the code by which mobiles name it.
fn print_neighbours<A: Allocator + Copy, W: Write>(
    site: &Site<A>,
    cell: u8,
    out: &mut W,
) -> io::Result<()> {
    write!(out, " neighbours")?;
    if !has_neighbours(site, cell) {
        write!(out, " -")?;
    }
    for other in 0..CELL_NUMBERS {
        if is_neighbour(site, cell, other)
            && let Some((position, bsic)) = site.reported_as(cell, other)
        {
            write!(out, " {other}:{position}/{bsic}")?;
        }
    }
    Ok(())
}

/// Prints an own cell.
fn print_cell<A: Allocator + Copy, W: Write>(
    site: &Site<A>,
    cell: u8,
    out: &mut W,
) -> io::Result<()> {
    if let (Some(identity), Some(power)) = (identity_of(site, cell), site.power(cell)) {
        write!(out, "cell {cell} {identity} power={power}")?;
        print_channels(site, cell, out)?;
        print_neighbours(site, cell, out)?;
        writeln!(out)?;
    }
    Ok(())
}

/// Prints the cells of a site, one a line in the order of their numbers: the own cells with what identifies them, the
/// power level that mobiles begin with, their traffic channels in the order of the file, and their neighbours, which are the
/// cells, own and outside, whose carrier is in the cell's neighbour list (TS 44.018 clause 10.5.2.22): the number of each, its
/// position in that list, and its base station identity code; then the outside cells with what identifies them. `-` stands for
/// no neighbour.
pub fn print_cells<A: Allocator + Copy, W: Write>(site: &Site<A>, out: &mut W) -> io::Result<()> {
    for cell in 0..site.cells() {
        print_cell(site, cell, out)?;
    }
    for cell in FIRST_OUTSIDE..CELL_NUMBERS {
        if let Some(identity) = identity_of(site, cell) {
            writeln!(out, "outside {cell} {identity}")?;
        }
    }
    Ok(())
}
