//! Cells in the value of an element.
ghost use Rattle.std.specs.Prelude.{◌≡◌, ◌<◌, ◌↔◌, [], ◌∷◌, List, length, Some, Ok, Err, IsOk, IsTrue, IsSome, IfSome, IfNone, IfOk, IfErr};
ghost use Rattle.std.specs.Option.{option_map};
ghost use Rattle.bssmap_messages.specs.declared.message.CellId.{CellId};
ghost use Rattle.octet_elements.specs.Values.{value_seen};
ghost use Rattle.bssmap_messages.specs.Values.{area_and_cell, cells_after, cell_in, cells_in};

use crate::message::CellId;
use crate::table::{CELL_IDENTIFIER, CELL_IDENTIFIER_LIST};
use octet_elements::ValueFault;
use octet_elements::values::u16_of;
use std::alloc::{AllocError, Allocator, Global};
use std::marker::Model;

/// The cells of a cell identifier list (TS 48.008 clause 3.2.2.27), in its order.
#[derive(Debug, Drop)]
pub struct CellList<A: Allocator = Global> {
    cells: Vec<CellId, A>,
}

impl<A: Allocator> Model for CellList<A> {
    ghost Value = { List CellId };

    ghost view = { λ o. o.cells.items };
}

impl<A: Allocator + Copy> CellList<A> {
    /// A list of these cells. An empty one takes no memory.
    pub fn new(alloc: A, cells: &[CellId]) -> Result<Self, AllocError>
        ensures cells { IfOk result (λ o. o ≡ cells.now) }
        ensures empty { cells.now ≡ [] → IsOk result }
    {
        let mut list = Vec::new(alloc);
        list.extend_from_slice(cells)?;
        Ok(CellList { cells: list })
    }
}

impl<A: Allocator> CellList<A> {
    /// Its cells.
    pub fn as_slice(&self) -> &[CellId]
        ensures cells { result.now ≡ self.now }
    {
        self.cells.as_slice()
    }
}

/// The cell with this location area code and cell identity.
#[inline]
fn area_and_cell(area_high: u8, area_low: u8, high: u8, low: u8) -> CellId
    ensures { result ≡ area_and_cell area_high area_low high low }
{
    CellId {
        lac: Some(u16_of(area_high, area_low)),
        ci: u16_of(high, low),
    }
}

/// The cell that the octets after a discriminator begin with, and the rest.
fn leading_cell(discriminator: u8, octets: &[u8]) -> Option<(CellId, &[u8])>
    ensures found { IfSome result (λ f. cells_after discriminator octets.now ≡ option_map
        (λ cells. f.0 ∷ cells) (cells_after discriminator f.1.now)) }
    ensures less { IfSome result (λ f. length f.1.now < length octets.now) }
    ensures none { IfNone result (IfSome (cells_after discriminator octets.now)
        (λ cells. cells ≡ [])) }
{
    match (discriminator % 16, octets) {
        (0, [_, _, _, area_high, area_low, high, low, rest @ ..]) => {
            Some((area_and_cell(*area_high, *area_low, *high, *low), rest))
        }
        (1, [area_high, area_low, high, low, rest @ ..]) => {
            Some((area_and_cell(*area_high, *area_low, *high, *low), rest))
        }
        (2, [high, low, rest @ ..]) => {
            let ci = u16_of(*high, *low);
            Some((CellId { lac: None, ci }, rest))
        }
        _ => None,
    }
}

/// The cell of a cell identifier, whose value is to have exactly one.
#[inline(always)]
pub fn cell(value: Option<&[u8]>) -> Result<CellId, ValueFault>
    ensures { result ≡ cell_in (value_seen value.entry) }
{
    match value {
        None => Err(ValueFault::Absent(CELL_IDENTIFIER)),
        Some([discriminator, octets @ ..]) => match leading_cell(*discriminator, octets) {
            Some((cell, rest)) if rest.is_empty() => Ok(cell),
            _ => Err(ValueFault::Bad(CELL_IDENTIFIER)),
        },
        Some([]) => Err(ValueFault::Bad(CELL_IDENTIFIER)),
    }
}

/// Whether the octets after a discriminator, at least one, are whole cells.
fn are_cells(discriminator: u8, octets: &[u8]) -> bool
    requires { 0 < length octets.now }
    ensures { IsTrue result ↔ IsSome (cells_after discriminator octets.now) }
{
    match discriminator % 16 {
        0 => octets.len() % 7 == 0,
        1 => octets.len() % 4 == 0,
        2 => octets.len() % 2 == 0,
        _ => false,
    }
}

/// The discriminator of a cell identifier list and the octets of its cells, at least one.
pub fn cells(value: Option<&[u8]>) -> Result<(u8, &[u8]), ValueFault>
    ensures ok { IfOk result (λ c. (cells : List CellId) ×
        (cells_after c.0 c.1.now ≡ Some cells) × (cells_in (value_seen value.entry) ≡ Ok cells) ×
        (0 < length cells)) }
    ensures err { IfErr result (λ e. cells_in (value_seen value.entry) ≡ Err e) }
{
    match value {
        None => Err(ValueFault::Absent(CELL_IDENTIFIER_LIST)),
        Some([discriminator, octets @ ..])
            if !octets.is_empty() && are_cells(*discriminator, octets) => {
            Ok((*discriminator, octets))
        }
        Some(_) => Err(ValueFault::Bad(CELL_IDENTIFIER_LIST)),
    }
}

/// The list of the cells after a discriminator. Memory is asked for once: for cells of two octets, which are the shortest.
pub fn read_cells<A: Allocator + Copy>(
    alloc: A,
    discriminator: u8,
    octets: &[u8],
) -> Result<CellList<A>, AllocError>
    requires { IsSome (cells_after discriminator octets.now) }
    ensures { IfOk result (λ list. cells_after discriminator octets.now ≡ Some list) }
{
    let mut cells = Vec::with_capacity(alloc, octets.len() / 2)?;
    let mut rest = octets;
    while let Some((cell, after)) = leading_cell(discriminator, rest) {
        cells.push(cell)?;
        rest = after;
    }
    Ok(CellList { cells })
}
