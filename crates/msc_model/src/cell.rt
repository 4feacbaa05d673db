//! The cells of the controllers.
ghost use Rattle.std.specs.Prelude.{◌≡◌, ◌++◌, [], map, find, not, IfOk, OnOk, IsOk};
ghost use Rattle.msc_model.specs.Cells.{cell_of, cells_of_site, cells_of, has_area, is_peer_cell, target_cell, serving_cell};

use bssmap_messages::CellId;
use cell_table::Site;
use std::alloc::{AllocError, Allocator};
use std::sync::Arc;

/// An own cell of a controller's site, by location area code and cell identity (TS 48.008 clause 3.2.2.17).
#[derive(Clone, Copy)]
pub struct Cell {
    pub controller: usize,
    pub lac: u16,
    pub ci: u16,
}

/// The cell lies in the location area, where one is named.
fn has_area(lac: Option<u16>, cell: &Cell) -> bool
    ensures { result ≡ has_area lac cell.now }
{
    match lac {
        Some(lac) => cell.lac == lac,
        None => true,
    }
}

/// The cell is one of another controller that has this identifier.
fn is_peer_cell(controller: usize, asked: CellId, cell: &Cell) -> bool
    ensures { result ≡ is_peer_cell controller asked cell.now }
{
    cell.controller != controller && cell.ci == asked.ci && has_area(asked.lac, cell)
}

/// The cell of another controller that a controller asks for.
pub fn target_cell(cells: &[Cell], controller: usize, asked: CellId) -> Option<Cell>
    ensures { result ≡ target_cell cells.now controller asked }
{
    cells
        .iter()
        .find(|cell| is_peer_cell(controller, asked, cell))
        .copied()
}

/// The first cell of a controller.
pub fn serving_cell(cells: &[Cell], controller: usize) -> Option<Cell>
    ensures { result ≡ serving_cell cells.now controller }
{
    cells
        .iter()
        .find(|cell| cell.controller == controller)
        .copied()
}

/// The own cells of all sites, by controller and cell.
pub fn cells_of<A: Allocator + Copy>(
    alloc: A,
    sites: &[Arc<Site<A>, A>],
) -> Result<Vec<Cell, A>, AllocError>
    ensures cells { IfOk result (λ cells. cells.items ≡ cells_of (map (λ site. site.value) sites.now)) }
    ensures empty { sites.now ≡ [] → IsOk result }
{
    let mut cells = Vec::new(alloc);
    for controller in 0..sites.len() {
        push_site(&mut cells, controller, &sites[controller])?;
    }
    Ok(cells)
}

fn push_site<A: Allocator + Copy>(
    cells: &mut Vec<Cell, A>,
    controller: usize,
    site: &Site<A>,
) -> Result<(), AllocError>
    ensures { OnOk result (cells.new.items ≡
        cells.old.items ++ cells_of_site controller site.now) }
{
    for cell in 0..site.cells() {
        if let Some(found) = cell_of(controller, site, cell) {
            cells.push(found)?;
        }
    }
    Ok(())
}

fn cell_of<A: Allocator + Copy>(controller: usize, site: &Site<A>, cell: u8) -> Option<Cell>
    ensures { result ≡ cell_of controller site.now cell }
{
    Some(Cell {
        controller,
        lac: site.lac(cell)?,
        ci: site.ci(cell)?,
    })
}
