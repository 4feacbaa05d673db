//! A site file, read.
use crate::fault::Fault;
use crate::varying::Varying;
use cell_table::Site;
use sample_sites::site_of_cells;
use std::alloc::Global;

/// How many cells the site has, and how many TRX each of them.
const CELLS: u8 = 64;

const TRX: u8 = 4;

/// The number of a site's cells and the carriers of one of them, added up.
fn site_sum(site: &Site, cell: u8) -> u64 {
    let mut sum = u64::from(site.cells());
    for trx in 0..TRX {
        let carrier = site.arfcn(cell, trx).unwrap_or(0);
        sum = sum.wrapping_add(u64::from(carrier));
    }
    sum
}

/// Reads a site file. The sum is that of what the site says of a cell.
fn read_once(alloc: Global, text: &str, cell: u8) -> Result<u64, Fault> {
    let site = Site::read(alloc, alloc, text)?;
    Ok(site_sum(&site, cell))
}

/// Reads a site file in each iteration.
fn read_text(alloc: Global, text: &str, octets: &mut Varying, count: u64) -> Result<u64, Fault> {
    let mut sum = 0u64;
    for iteration in 0..count {
        let cell = octets.at(iteration).first().copied().unwrap_or(0) % CELLS;
        sum = sum.wrapping_add(read_once(alloc, text, cell)?);
    }
    Ok(sum)
}

/// Reads a site file of 64 cells with four TRX each in each iteration. The sum is the number of its cells and the
/// carriers of that cell which the first octet names, modulo 64, added up.
pub fn read_sites(alloc: Global, octets: &mut Varying, count: u64) -> Result<u64, Fault> {
    let text = site_of_cells(alloc, u16::from(CELLS), u16::from(TRX), 0)?;
    read_text(alloc, text.as_str(), octets, count)
}
