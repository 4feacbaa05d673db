//! The position and the code by which a mobile names a neighbour of its serving cell.
ghost use Rattle.std.specs.Prelude.{◌≡◌, ◌≤◌, ◌↔◌, ℕ, length};
ghost use Rattle.cell_table.specs.Limits.{most_neighbours};
ghost use Rattle.cell_table.specs.Site.{IsSite, IsIdentity};
ghost use Rattle.cell_table.specs.ReportedNeighbours.{place_of, bsic_of, name_of, reported_as};
ghost use Rattle.cell_table.specs.Neighbours.{IsNamedCell};

use super::{Site, identity_in};
use crate::neighbours::count_before;
use crate::tables::{CellIdentity, Tables};
use std::alloc::Allocator;

/// The place of a carrier in the neighbour list that a BA list gives; `None` if it isn't one of them.
fn place_of(ba: &[u16], carrier: u16) -> Option<u8>
    requires { length ba.now ≤ most_neighbours }
    ensures value { result ≡ place_of ba.now carrier }
{
    if !ba.contains(&carrier) {
        return None;
    }
    Some(count_before(ba, carrier) as u8)
}

/// A cell's base station identity code.
fn bsic_of(cell: CellIdentity) -> u8
    requires { IsIdentity cell }
    ensures value { result ≡ bsic_of cell }
{
    cell.ncc * 8 + cell.bcc
}

/// A cell's place in the neighbour list that a BA list gives, and its base station identity code.
fn name_of(ba: &[u16], cell: CellIdentity) -> Option<(u8, u8)>
    requires few { length ba.now ≤ most_neighbours }
    requires range { IsIdentity cell }
    ensures value { result ≡ name_of ba.now cell }
{
    Some((place_of(ba, cell.bcch)?, bsic_of(cell)))
}

/// The name of a cell, own or outside, in an own cell.
fn name_in(tables: &Tables, cell: u8, neighbour: u8) -> Option<(u8, u8)>
    requires { IsSite tables.now }
    ensures value { result ≡ reported_as tables.now cell neighbour }
{
    let serving = tables.cells.get(cell as usize)?;
    let named = identity_in(tables, neighbour)?;
    name_of(serving.ba.as_slice(), named)
}

impl<A: Allocator + Copy> Site<A> {
    /// The position in the neighbour list and the base station identity code by which a mobile in an own cell names a
    /// neighbour, an own or an outside cell. [`Site::by_bsic`] finds the neighbour by them. `None` if the cell isn't an own
    /// one, if there is no such neighbour, or if the neighbour's carrier isn't in the cell's `ba`.
    ///
    /// The position is 0 to 31, the code 0 to 63: eight times the neighbour's `ncc` and its `bcc`.
    pub fn reported_as(&self, cell: u8, neighbour: u8) -> Option<(u8, u8)>
        ensures name { (place bsic : ℕ) →
            (result ≡ Some (place, bsic)) ↔ IsNamedCell self.now cell place bsic neighbour }
    {
        name_in(&self.tables, cell, neighbour)
    }
}
