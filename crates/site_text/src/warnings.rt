//! What a site file may have, and who wrote it surely meant otherwise.
ghost use Rattle.std.specs.Prelude.{◌≡◌, ◌↔◌, IsTrue};
ghost use Rattle.cell_table.specs.SiteFile.{key_name};
ghost use Rattle.site_text.specs.Cells.{IsCarrierOfAnother};
ghost use Rattle.site_text.specs.Keys.{keys_of, IsNameOf};

use crate::cells::{CELL_NUMBERS, has_neighbours, is_one_sided};
use crate::document::{Place, entries};
use cell_table::{Key, Site};
use std::alloc::Allocator;
use std::io::{self, Write};
use toml::{Table, Value};

/// The keys of a table by its place.
fn keys_at(place: Place) -> &'static [Key]
    ensures { result.now ≡ keys_of place }
{
    match place {
        Place::Top => &[Key::Handover, Key::Cell, Key::Outside],
        Place::Handover => &[Key::Window, Key::Margin, Key::Minimum],
        Place::Cell(_) => &[
            Key::Lac,
            Key::Ci,
            Key::Bcch,
            Key::Ncc,
            Key::Bcc,
            Key::Power,
            Key::Ba,
            Key::Trx,
        ],
        Place::Trx(_, _) => &[Key::Arfcn, Key::Tch, Key::Half],
        Place::Outside(_) => &[Key::Lac, Key::Ci, Key::Bcch, Key::Ncc, Key::Bcc],
    }
}

/// Whether this is a key's name.
fn is_name_of(key: Key, name: &str) -> bool
    ensures { IsTrue result ↔ (key_name key ≡ name.now) }
{
    key.name() == name
}

/// Whether one of these keys has this name.
fn is_name_in(keys: &[Key], name: &str) -> bool
    ensures { IsTrue result ↔ IsNameOf keys.now name.now }
{
    keys.iter().any(|key| is_name_of(*key, name))
}

/// Whether a key of this name may stand in a table.
fn is_known(place: Place, name: &str) -> bool
    ensures { IsTrue result ↔ IsNameOf (keys_of place) name.now }
{
    is_name_in(keys_at(place), name)
}

/// Warns of the keys of a table that are ignored.
fn warn_of_keys<W: Write>(place: Place, table: &Table, out: &mut W) -> io::Result<()> {
    for name in table.keys() {
        let name = name.as_str();
        if !is_known(place, name) {
            write!(out, "warning: ")?;
            if !matches!(place, Place::Top) {
                write!(out, "{place}: ")?;
            }
            writeln!(out, "unknown key {name:?} is ignored")?;
        }
    }
    Ok(())
}

/// Warns of the keys of a value that are ignored, where it is a table.
fn warn_of_entry<W: Write>(place: Place, value: &Value, out: &mut W) -> io::Result<()> {
    match value.as_table() {
        Some(table) => warn_of_keys(place, table, out),
        None => Ok(()),
    }
}

/// Warns of the keys of a cell that are ignored, and of its TRX.
fn warn_of_cell<W: Write>(number: usize, cell: &Value, out: &mut W) -> io::Result<()> {
    warn_of_entry(Place::Cell(number), cell, out)?;
    for (trx, table) in entries(cell, Key::Trx).iter().enumerate() {
        warn_of_entry(Place::Trx(number, trx), table, out)?;
    }
    Ok(())
}

/// Warns of the keys of a file that are ignored.
fn warn_of_file<W: Write>(document: &Value, out: &mut W) -> io::Result<()> {
    warn_of_entry(Place::Top, document, out)?;
    if let Some(handover) = document.get(Key::Handover.name()) {
        warn_of_entry(Place::Handover, handover, out)?;
    }
    for (number, cell) in entries(document, Key::Cell).iter().enumerate() {
        warn_of_cell(number, cell, out)?;
    }
    for (number, cell) in entries(document, Key::Outside).iter().enumerate() {
        warn_of_entry(Place::Outside(number), cell, out)?;
    }
    Ok(())
}

/// Whether another cell, own or outside, has this carrier.
fn is_carrier_of_another<A: Allocator + Copy>(site: &Site<A>, cell: u8, carrier: u16) -> bool
    ensures { IsTrue result ↔ IsCarrierOfAnother site.now cell carrier }
{
    for other in 0..CELL_NUMBERS {
        if other != cell && site.bcch(other) == Some(carrier) {
            return true;
        }
    }
    false
}

/// Warns of the neighbours of an own cell.
fn warn_of_neighbours<A: Allocator + Copy, W: Write>(
    site: &Site<A>,
    cell: u8,
    ba: &[u16],
    out: &mut W,
) -> io::Result<()> {
    for carrier in ba {
        if !is_carrier_of_another(site, cell, *carrier) {
            writeln!(
                out,
                "warning: cell {cell}: ba: no other cell has the carrier {carrier}"
            )?;
        }
    }
    if !has_neighbours(site, cell) {
        writeln!(out, "warning: cell {cell} has no neighbours")?;
    }
    for other in 0..site.cells() {
        if is_one_sided(site, cell, other) {
            writeln!(
                out,
                "warning: cell {other} is a neighbour of cell {cell}, but cell {cell} isn't one of cell {other}"
            )?;
        }
    }
    Ok(())
}

/// Prints what is allowed in a site's file and surely meant otherwise, one a line: first the keys that are ignored, then
/// cell by cell the carriers in `ba` that no other cell has, whether it has no neighbours, and which of its neighbours, own
/// cells, don't have it as theirs. `document` is the file's text as TOML, and `site` the site that it describes.
pub fn print_warnings<A: Allocator + Copy, W: Write>(
    site: &Site<A>,
    document: &Value,
    out: &mut W,
) -> io::Result<()> {
    warn_of_file(document, out)?;
    for cell in 0..site.cells() {
        if let Some(ba) = site.ba(cell) {
            warn_of_neighbours(site, cell, ba, out)?;
        }
    }
    Ok(())
}
