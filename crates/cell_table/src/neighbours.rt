//! The neighbour list of a cell, and the cells that a position in it and a colour code name.
ghost use Rattle.std.specs.Prelude.{◌≡◌, count_by, option_map, slice_get};
ghost use Rattle.std.specs.List.{position};
ghost use Rattle.cell_table.specs.Searches.{stands_before, is_at, has_bsic, is_named, first_cell, first_named};

use crate::limits::FIRST_OUTSIDE;
use crate::tables::{Cell, CellIdentity, Tables};

/// Whether one carrier stands before another in a neighbour list: in ascending order, but carrier 0 last.
fn stands_before(carrier: u16, other: u16) -> bool
    ensures value { result ≡ stands_before carrier other }
{
    carrier != 0 && (other == 0 || carrier < other)
}

/// How many carriers of a BA list stand before one in the neighbour list.
pub fn count_before(ba: &[u16], carrier: u16) -> usize
    ensures value { result ≡ count_by (λ other. stands_before other carrier) ba.now }
{
    ba.iter()
        .filter(|other| stands_before(**other, carrier))
        .count()
}

/// Whether a carrier is at a place of the neighbour list that a BA list gives.
fn is_at(ba: &[u16], place: u8, carrier: u16) -> bool
    ensures value { result ≡ is_at ba.now place carrier }
{
    ba.contains(&carrier) && count_before(ba, carrier) == place as usize
}

/// Whether a cell has a base station identity code.
fn has_bsic(bsic: u8, cell: CellIdentity) -> bool
    ensures value { result ≡ has_bsic bsic cell }
{
    cell.ncc == bsic / 8 && cell.bcc == bsic % 8
}

/// Whether a cell is the one that a place of the neighbour list and a base station identity code name.
fn is_named(ba: &[u16], place: u8, bsic: u8, cell: CellIdentity) -> bool
    ensures value { result ≡ is_named ba.now place bsic cell }
{
    has_bsic(bsic, cell) && is_at(ba, place, cell.bcch)
}

/// The own cell that a place of the neighbour list and a base station identity code name.
fn own_cell_named(cells: &[Cell], ba: &[u16], place: u8, bsic: u8) -> Option<usize>
    ensures place { result ≡ position (λ c. is_named ba.now place bsic c.identity) cells.now }
{
    cells
        .iter()
        .position(|cell| is_named(ba, place, bsic, cell.identity))
}

/// The outside cell that a place of the neighbour list and a base station identity code name.
fn outside_cell_named(cells: &[CellIdentity], ba: &[u16], place: u8, bsic: u8) -> Option<usize>
    ensures place { result ≡ position (is_named ba.now place bsic) cells.now }
{
    cells
        .iter()
        .position(|cell| is_named(ba, place, bsic, *cell))
}

/// The first cell, own or outside, that a place of a neighbour list and a base station identity code name.
fn cell_named(tables: &Tables, ba: &[u16], place: u8, bsic: u8) -> Option<u8>
    ensures value { result ≡ first_cell (is_named ba.now place bsic) tables.now }
{
    match own_cell_named(tables.cells.as_slice(), ba, place, bsic) {
        Some(cell) => Some(cell as u8),
        None => {
            let outside = outside_cell_named(tables.outside.as_slice(), ba, place, bsic)?;
            Some(FIRST_OUTSIDE + outside as u8)
        }
    }
}

/// The BA list of an own cell.
fn ba_in(tables: &Tables, cell: u8) -> Option<&[u16]>
    ensures value { option_map (λ found. found.now) result ≡
        option_map (λ c. c.ba) (slice_get tables.now.cells cell) }
{
    let found = tables.cells.get(cell as usize)?;
    Some(found.ba.as_slice())
}

/// The first cell, own or outside, that a place of the serving cell's neighbour list and a base station identity code
/// name.
pub fn neighbour_named(tables: &Tables, serving: u8, place: u8, bsic: u8) -> Option<u8>
    ensures value { result ≡ first_named tables.now serving place bsic }
{
    let ba = ba_in(tables, serving)?;
    cell_named(tables, ba, place, bsic)
}
