//! The rules for all cells of a site together.
ghost use Rattle.std.specs.Prelude.{◌≡◌, ◌==◌, ◌≤◌, ◌++◌, length, map};
ghost use Rattle.std.specs.List.{list_any, list_all, position};
ghost use Rattle.cell_table.specs.Limits.{most_cells, most_outside};
ghost use Rattle.cell_table.specs.Rules.{same_codes, same_colour, identities, has_no_traffic, broken_rule};
ghost use Rattle.cell_table.specs.Searches.{has_pair, has_carrier_pair, slot_pair, has_slot_pair, has_neighbour_pair, broken_by_pairs};

use crate::fault::{SiteFault, What};
use crate::limits::{MOST_CELLS, MOST_OUTSIDE};
use crate::tables::{Cell, CellIdentity, Tables, Trx};
use arrayvec::ArrayVec;

/// The most cells, own and outside.
const MOST_IDENTITIES: usize = MOST_CELLS + MOST_OUTSIDE;

/// Whether a cell has the location area code and cell identity of another.
fn have_codes(cells: &[CellIdentity], of: CellIdentity) -> bool
    ensures value { result ≡ list_any (same_codes of) cells.now }
{
    cells
        .iter()
        .any(|other| of.lac == other.lac && of.ci == other.ci)
}

/// Whether two cells have one location area code and cell identity.
fn have_codes_twice(cells: &[CellIdentity]) -> bool
    ensures value { result ≡ has_pair same_codes cells.now }
{
    match cells {
        [first, rest @ ..] => have_codes(rest, *first) || have_codes_twice(rest),
        [] => false,
    }
}

/// Whether a cell has the BCCH carrier, network colour code and base station colour code of another.
fn have_colour(cells: &[CellIdentity], of: CellIdentity) -> bool
    ensures value { result ≡ list_any (same_colour of) cells.now }
{
    cells.iter().any(|other| of.bcch == other.bcch && of.ncc == other.ncc && of.bcc == other.bcc)
}

/// Whether two cells have one BCCH carrier, network colour code and base station colour code.
fn have_colour_twice(cells: &[CellIdentity]) -> bool
    ensures value { result ≡ has_pair same_colour cells.now }
{
    match cells {
        [first, rest @ ..] => have_colour(rest, *first) || have_colour_twice(rest),
        [] => false,
    }
}

/// Whether a TRX has a carrier.
fn have_carrier(trx: &[Trx], arfcn: u16) -> bool
    ensures value { result ≡ list_any (λ t. t.arfcn == arfcn) trx.now }
{
    trx.iter().any(|other| other.arfcn == arfcn)
}

/// Whether two TRX have one carrier.
fn have_carrier_twice(trx: &[Trx]) -> bool
    ensures value { result ≡ has_pair (λ s t. t.arfcn == s.arfcn) trx.now }
{
    match trx {
        [first, rest @ ..] => have_carrier(rest, first.arfcn) || have_carrier_twice(rest),
        [] => false,
    }
}

/// Whether a timeslot stands twice.
fn have_slot_twice(slots: &[u8]) -> bool
    ensures value { result ≡ has_pair (λ m n. n == m) slots.now }
{
    match slots {
        [first, rest @ ..] => rest.contains(first) || have_slot_twice(rest),
        [] => false,
    }
}

/// Whether a carrier stands twice.
fn have_neighbour_twice(carriers: &[u16]) -> bool
    ensures value { result ≡ has_pair (λ m n. n == m) carriers.now }
{
    match carriers {
        [first, rest @ ..] => rest.contains(first) || have_neighbour_twice(rest),
        [] => false,
    }
}

/// Whether a TRX names a timeslot twice, in `tch` or in `half`.
fn trx_has_slot_twice(trx: &Trx) -> bool
    ensures value { result ≡ slot_pair trx.now }
{
    have_slot_twice(trx.tch.as_slice()) || have_slot_twice(trx.half.as_slice())
}

/// Whether a TRX of the cell names a timeslot twice.
fn cell_has_slot_twice(cell: &Cell) -> bool
    ensures value { result ≡ has_slot_pair cell.now }
{
    cell.trx.iter().any(|trx| trx_has_slot_twice(trx))
}

/// Whether a cell has no traffic channel.
fn has_no_traffic(cell: &Cell) -> bool
    ensures value { result ≡ has_no_traffic cell.now }
{
    cell.trx.iter().all(|trx| trx.tch.is_empty())
}

/// Whether one of the cells has one carrier on two TRX.
fn any_carrier_twice(cells: &[Cell]) -> bool
    ensures value { result ≡ list_any has_carrier_pair cells.now }
{
    cells
        .iter()
        .any(|cell| have_carrier_twice(cell.trx.as_slice()))
}

/// Whether a TRX of one of the cells names a timeslot twice.
fn any_slot_twice(cells: &[Cell]) -> bool
    ensures value { result ≡ list_any has_slot_pair cells.now }
{
    cells.iter().any(|cell| cell_has_slot_twice(cell))
}

/// Whether the BA list of one of the cells has a carrier twice.
fn any_neighbour_twice(cells: &[Cell]) -> bool
    ensures value { result ≡ list_any has_neighbour_pair cells.now }
{
    cells
        .iter()
        .any(|cell| have_neighbour_twice(cell.ba.as_slice()))
}

/// The first cell that has no traffic channel.
fn first_without_traffic(cells: &[Cell]) -> Option<usize>
    ensures value { result ≡ position has_no_traffic cells.now }
{
    cells.iter().position(|cell| has_no_traffic(cell))
}

/// What identifies the own cells.
fn own_identities(cells: &[Cell]) -> ArrayVec<CellIdentity, MOST_IDENTITIES>
    requires { length cells.now ≤ most_cells }
    ensures all { result.items ≡ map (λ c. c.identity) cells.now }
{
    let mut own = ArrayVec::new();
    for cell in cells {
        own.push(cell.identity);
    }
    own
}

/// What identifies all cells, the own and then those of others.
fn all_identities(
    cells: &[Cell],
    outside: &[CellIdentity],
) -> ArrayVec<CellIdentity, MOST_IDENTITIES>
    requires cells { length cells.now ≤ most_cells }
    requires outside { length outside.now ≤ most_outside }
    ensures all { result.items ≡ map (λ c. c.identity) cells.now ++ outside.now }
{
    let mut all = own_identities(cells);
    for identity in outside {
        all.push(*identity);
    }
    all
}

/// The first rule that the cells break together.
pub fn broken_rule(site: &Tables) -> Option<SiteFault>
    ensures value { result ≡ broken_rule site.now }
{
    broken_by_pairs(site)
}

/// The first rule that the cells break together, as two cells, TRX, timeslots or carriers show it of which one is like the other.
#[tactic(auto, unfolding(crate::specs::Searches::broken_by_pairs))]
fn broken_by_pairs(site: &Tables) -> Option<SiteFault>
    ensures value { result ≡ broken_by_pairs site.now }
{
    let cells = site.cells.as_slice();
    let all = all_identities(cells, site.outside.as_slice());
    if have_codes_twice(all.as_slice()) {
        return Some(SiteFault::Twice(What::Identity));
    }
    if have_colour_twice(all.as_slice()) {
        return Some(SiteFault::Twice(What::Colour));
    }
    if any_carrier_twice(cells) {
        return Some(SiteFault::Twice(What::Carrier));
    }
    if any_slot_twice(cells) {
        return Some(SiteFault::Twice(What::Slot));
    }
    if any_neighbour_twice(cells) {
        return Some(SiteFault::Twice(What::Neighbour));
    }
    match first_without_traffic(cells) {
        Some(cell) => Some(SiteFault::NoTraffic(cell as u8)),
        None => None,
    }
}
