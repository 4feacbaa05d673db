//! Cases on measurement reports: one more in a window (TS 44.018 clause 10.5.2.20), and the candidates for a handover.
ghost use Rattle.std.specs.Prelude.{◌≡◌, ◌<◌, IfOk};

use crate::fault::Fault;
use crate::radio::read_results;
use crate::varying::Varying;
use cell_table::Site;
use ho_candidates::{Candidate, candidates};
use measurements::Window;
use rr_elements::MeasResults;
use std::alloc::{AllocError, Global};
use std::fmt::Write;

/// How many reports a window has.
const REPORTS: usize = 32;

/// How many cells the site has.
const CELLS: u8 = 64;

/// How many neighbours each of them has.
const NEIGHBOURS: u8 = 32;

/// Adds one and the other report alternately, so many in all. The sum is that of the window's lengths.
fn add_alternately(window: &mut Window, even: &MeasResults, odd: &MeasResults, count: u64) -> u64 {
    let mut sum = 0u64;
    for iteration in 0..count {
        let report = match iteration % 2 {
            0 => even,
            _ => odd,
        };
        window.add(report);
        sum = sum.wrapping_add(window.len() as u64);
    }
    sum
}

/// Adds a report to a window of 32 in each iteration: that of iteration 0 and that of iteration 1 alternately. The sum is
/// that of the window's lengths, and of the serving cell's levels in it at the end.
pub fn add_reports(alloc: Global, octets: &mut Varying, count: u64) -> Result<u64, Fault> {
    let even = read_results(octets.at(0))?;
    let odd = read_results(octets.at(1))?;
    let mut window = Window::new(alloc, REPORTS)?;
    let lengths = add_alternately(&mut window, &even, &odd, count);
    Ok(lengths.wrapping_add(u64::from(window.serving_sum())))
}

/// Appends the BA list of a cell: the carriers of the cells that come next, with cell 0 behind the last one.
fn push_neighbours(text: &mut String, cell: u8) -> Result<(), AllocError>
    requires { cell < 64 }
{
    for step in 1..NEIGHBOURS {
        write!(text, "{}, ", (cell + step) % CELLS)?;
    }
    write!(text, "{}", (cell + NEIGHBOURS) % CELLS)
}

/// Appends a cell whose BCCH carrier is its number.
fn push_cell(text: &mut String, cell: u8) -> Result<(), AllocError>
    requires { cell < 64 }
{
    write!(
        text,
        "[[cell]]\nlac = 1\nci = {cell}\nbcch = {cell}\nncc = 0\nbcc = 0\npower = 0\nba = ["
    )?;
    push_neighbours(text, cell)?;
    writeln!(text, "]\ntrx = [{{ arfcn = {cell}, tch = [1] }}]")
}

/// A site file of 64 cells with 32 neighbours each, in which a candidate for a handover needs no margin.
fn crowded_text(alloc: Global) -> Result<String, AllocError> {
    let mut text = String::from_str(alloc, "[handover]\nwindow = 32\nmargin = 0\nminimum = 0\n")?;
    for cell in 0..CELLS {
        push_cell(&mut text, cell)?;
    }
    Ok(text)
}

/// Adds the reports of the first iterations, so many.
fn fill(window: &mut Window, octets: &mut Varying, count: usize) -> Result<(), Fault>
    ensures width { window.new.width ≡ window.old.width }
{
    for iteration in 0..count {
        window.add(&read_results(octets.at(iteration as u64))?);
    }
    Ok(())
}

/// A window of the site with as many reports as it can have.
fn full_window(alloc: Global, site: &Site, octets: &mut Varying) -> Result<Window, Fault>
    ensures width { IfOk result (λ window. window.width ≡ site.now.handover.window) }
{
    // The site keeps its limits: a window has 1 to 32 reports.
    if site.cells() != CELLS {
        return Err(Fault::Setting);
    }
    let width = usize::from(site.window());
    let mut window = Window::new(alloc, width)?;
    fill(&mut window, octets, width)?;
    Ok(window)
}

/// The cells and sums of candidates, added up.
fn candidates_sum(found: &[Candidate]) -> u64 {
    let mut sum = 0u64;
    for each in found {
        sum = sum.wrapping_add(u64::from(each.cell) + u64::from(each.sum));
    }
    sum
}

/// The candidates in each iteration.
fn look(alloc: Global, site: &Site, window: &Window, count: u64) -> Result<u64, Fault>
    requires { window.now.width ≡ site.now.handover.window }
{
    let mut sum = 0u64;
    for iteration in 0..count {
        let cell = (iteration % u64::from(CELLS)) as u8;
        let found = candidates(alloc, window, site, cell)?;
        sum = sum.wrapping_add(candidates_sum(found.as_slice()));
    }
    Ok(sum)
}

/// Lists the candidates of a mobile in each iteration, in cell 0 and then in the next, modulo 64. The site has 64 cells
/// with 32 neighbours each; a neighbour's position in a list is by carrier, which is the cell's number. The window has 32
/// reports, those of the first iterations. The sum is that of the candidates' cells and sums.
pub fn list_candidates(alloc: Global, octets: &mut Varying, count: u64) -> Result<u64, Fault> {
    let text = crowded_text(alloc)?;
    let site = Site::read(alloc, alloc, text.as_str())?;
    let window = full_window(alloc, &site, octets)?;
    look(alloc, &site, &window, count)
}
