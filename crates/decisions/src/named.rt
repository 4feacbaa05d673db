//! What a report names.
ghost use Rattle.std.specs.Prelude.{◌≡◌, ◌↔◌, IsTrue, find};
ghost use Rattle.cell_table.specs.Searches.{stands_before, is_at};
ghost use Rattle.cell_table.specs.Neighbours.{neighbour_at};
ghost use Rattle.decisions.specs.Named.{IsNamed, IsWhyNone, HasCarrier};

use cell_table::Site;
use cell_table::limits::FIRST_OUTSIDE;
use std::alloc::Allocator;

/// What a mobile names by a position in the neighbour list of the cell that serves it and a base station identity code (TS
/// 44.018 clause 10.5.2.20).
#[derive(Clone, Copy, Debug, PartialEq, Eq)]
pub enum Named {
    /// Another cell: 0 to 63 is an own one, from 64 on an outside one.
    Cell(u8),
    /// The cell that serves it.
    Serving,
    /// None: the neighbour list ends before this position.
    NoPosition,
    /// None: no cell has the carrier at this position, an ARFCN from 0 to 1023.
    NoCell(u16),
    /// None: cells have the carrier at this position, but none of them has this code.
    OtherCode(u16),
}

/// Whether one carrier stands before another in a neighbour list: in ascending order, but carrier 0 last.
fn stands_before(carrier: u16, other: u16) -> bool
    ensures value { result ≡ stands_before carrier other }
{
    carrier != 0 && (other == 0 || carrier < other)
}

/// Whether a carrier of a BA list is at a position of the neighbour list.
fn is_at(ba: &[u16], position: u8, carrier: u16) -> bool
    ensures value { result ≡ is_at ba.now position carrier }
{
    let before = ba
        .iter()
        .filter(|other| stands_before(**other, carrier))
        .count();
    ba.contains(&carrier) && before == usize::from(position)
}

/// The carrier of a BA list that is at a position of the neighbour list.
fn carrier_in(ba: &[u16], position: u8) -> Option<u16>
    ensures value { result ≡ find (λ carrier. is_at ba.now position carrier) ba.now }
{
    ba.iter()
        .find(|carrier| is_at(ba, position, **carrier))
        .copied()
}

/// The carrier at a position of an own cell's neighbour list.
#[tactic(auto, using(crate::proofs::NamedFacts::none_listed))]
fn carrier_at<A: Allocator + Copy>(site: &Site<A>, serving: u8, position: u8) -> Option<u16>
    ensures { result ≡ neighbour_at site.now serving position }
{
    let _cells = site.cells();
    carrier_in(site.ba(serving)?, position)
}

/// Whether a cell, own or outside, has this carrier.
#[tactic(auto, using(crate::proofs::NamedFacts::cell_within))]
fn has_carrier<A: Allocator + Copy>(site: &Site<A>, carrier: u16) -> bool
    ensures { IsTrue result ↔ HasCarrier site.now carrier }
{
    let _cells = site.cells();
    for cell in 0..FIRST_OUTSIDE + site.outside_cells() {
        if site.bcch(cell) == Some(carrier) {
            return true;
        }
    }
    false
}

/// Why a position and a code name no cell.
fn none_named<A: Allocator + Copy>(site: &Site<A>, serving: u8, position: u8) -> Named
    ensures { IsWhyNone site.now serving position result }
{
    match carrier_at(site, serving, position) {
        Some(carrier) if has_carrier(site, carrier) => Named::OtherCode(carrier),
        Some(carrier) => Named::NoCell(carrier),
        None => Named::NoPosition,
    }
}

/// What a mobile in an own cell names by a position in the cell's neighbour list, counted from 0, and a base station identity
/// code, 0 to 63 ([`Site::by_bsic`]).
pub fn named_by<A: Allocator + Copy>(site: &Site<A>, serving: u8, position: u8, bsic: u8) -> Named
    ensures named { IsNamed site.now serving position bsic result }
{
    match site.by_bsic(serving, position, bsic) {
        Some(cell) if cell == serving => Named::Serving,
        Some(cell) => Named::Cell(cell),
        None => none_named(site, serving, position),
    }
}
