//! Reads a site file: each key is checked once, and its value is kept.
ghost use Rattle.std.specs.Prelude.{◌≡◌, ◌==◌, ◌<◌, ◌≤◌, Ok, IfOk, length, map, option_map};
ghost use Rattle.std.specs.List.{list_all};
ghost use Rattle.toml.specs.View.{view};
ghost use Rattle.toml.specs.Data.{get, as_array};
ghost use Rattle.cell_table.specs.SiteFile.{Read, value_at, is_allowed, allowed_number, number_of, number_within, number_at, array_of, entries_of, counted, all_tables, tables_of, each, handover_of, handover_at, identity_of, ba_of, half_slot, halves_by, outside_of, key_name, is_table};
ghost use Rattle.cell_table.specs.Kept.{first_nine, is_number, names, trx_by, kept_slots, kept_trx, kept_trx_list, kept_cell, kept_cells};
ghost use Rattle.cell_table.specs.Ranges.{allowed, arfcn_range, tch_range, up_to};
ghost use Rattle.cell_table.specs.Limits.{most_cells, most_outside, most_trx, timeslots_of_trx, most_neighbours};
ghost use Rattle.cell_table.specs.Reading.{value_read, values_read, items_read};

use crate::fault::{Key, SiteFault};
use crate::limits::{MOST_CELLS, MOST_NEIGHBOURS, MOST_OUTSIDE, MOST_TRX};
use crate::ranges::{Allowed, arfcn_range, tch_range, up_to};
use crate::tables::{Cell, CellIdentity, HandoverRule, Tables, Trx};
use arrayvec::ArrayVec;
use toml::Value;

/// The value at a key, which has to be there.
fn value_at<'a>(table: &'a Value, key: Key) -> Result<&'a Value, SiteFault>
    ensures read { value_read result ≡ value_at key (view table.now) }
{
    table.get(key.name()).ok_or(SiteFault::Missing(key))
}

/// The integer that a value is, where it is allowed.
fn allowed_number(range: Allowed, value: &Value) -> Option<u16>
    ensures read { result ≡ allowed_number range (view value.now) }
{
    match value.as_integer() {
        Some(number) if i64::from(range.least) <= number && number <= i64::from(range.most) => {
            Some(number as u16)
        }
        _ => None,
    }
}

/// The integer that the value of a key, or an entry of it, is.
fn number_of(key: Key, range: Allowed, value: &Value) -> Result<u16, SiteFault>
    ensures read { result ≡ number_of key range (view value.now) }
    ensures most { IfOk result (λ n. n ≤ range.most) }
{
    allowed_number(range, value).ok_or(SiteFault::Range(key))
}

/// The integer at a key, within a range.
#[tactic(auto, unfolding(crate::specs::SiteFile::number_within))]
fn number_within(table: &Value, key: Key, range: Allowed) -> Result<u16, SiteFault>
    ensures read { result ≡ number_within key range (view table.now) }
    ensures most { IfOk result (λ n. n ≤ range.most) }
{
    number_of(key, range, value_at(table, key)?)
}

/// The integer at a key, one that the key allows.
fn number_at(table: &Value, key: Key) -> Result<u16, SiteFault>
    ensures read { result ≡ number_at key (view table.now) }
    ensures most { IfOk result (λ n. n ≤ (allowed key).most) }
{
    number_within(table, key, key.allowed())
}

/// When a neighbour is a candidate, from the table at `handover`.
#[tactic(auto, unfolding(crate::specs::SiteFile::handover_of))]
fn handover_of(table: &Value) -> Result<HandoverRule, SiteFault>
    ensures read { result ≡ handover_of (view table.now) }
{
    let window = number_at(table, Key::Window)? as u8;
    let margin = number_at(table, Key::Margin)? as u8;
    let minimum = number_at(table, Key::Minimum)? as u8;
    Ok(HandoverRule {
        window,
        margin,
        minimum,
    })
}

/// What every cell has.
#[tactic(auto, unfolding(crate::specs::SiteFile::identity_of))]
fn identity_of(cell: &Value) -> Result<CellIdentity, SiteFault>
    ensures read { result ≡ identity_of (view cell.now) }
{
    Ok(CellIdentity {
        lac: number_at(cell, Key::Lac)?,
        ci: number_at(cell, Key::Ci)?,
        bcch: number_at(cell, Key::Bcch)?,
        ncc: number_at(cell, Key::Ncc)? as u8,
        bcc: number_at(cell, Key::Bcc)? as u8,
    })
}

/// The entries of an array.
fn entries_of(value: &Value) -> Option<&[Value]>
    ensures read { option_map (λ entries. map view entries.now) result ≡
        option_map entries_of (as_array (view value.now)) }
{
    match value.as_array() {
        Some(found) => Some(found.as_slice()),
        None => None,
    }
}

/// The entries of the array that the value of a key is.
fn array_of(key: Key, value: &Value) -> Result<&[Value], SiteFault>
    ensures read { values_read result ≡ array_of key (view value.now) }
{
    entries_of(value).ok_or(SiteFault::Range(key))
}

/// Whether a number is one of those allowed.
fn is_allowed(range: Allowed, number: usize) -> bool
    ensures value { result ≡ is_allowed range number }
{
    usize::from(range.least) <= number && number <= usize::from(range.most)
}

/// The entries, where so many are allowed.
fn counted(key: Key, count: Allowed, entries: &[Value]) -> Result<&[Value], SiteFault>
    ensures read { values_read result ≡ counted key count (map view entries.now) }
    ensures most { IfOk result (λ found. length found.now ≤ count.most) }
{
    if is_allowed(count, entries.len()) {
        Ok(entries)
    } else {
        Err(SiteFault::Range(key))
    }
}

/// Whether each value is a table.
fn are_tables(entries: &[Value]) -> bool
    ensures value { result ≡ list_all is_table (map view entries.now) }
{
    entries.iter().all(|entry| entry.is_table())
}

/// The entries, where each is a table.
fn all_tables(key: Key, entries: &[Value]) -> Result<&[Value], SiteFault>
    ensures read { values_read result ≡ all_tables key (map view entries.now) }
    ensures same { IfOk result (λ found. found.now ≡ entries.now) }
{
    if are_tables(entries) {
        Ok(entries)
    } else {
        Err(SiteFault::Range(key))
    }
}

/// The entries of the array of tables that the value of a key is, as many as are allowed.
#[tactic(auto, unfolding(crate::specs::SiteFile::tables_of))]
fn tables_of(key: Key, value: &Value) -> Result<&[Value], SiteFault>
    ensures read { values_read result ≡ tables_of key (view value.now) }
    ensures most { IfOk result (λ found. length found.now ≤ (allowed key).most) }
{
    let entries = counted(key, key.allowed(), array_of(key, value)?)?;
    all_tables(key, entries)
}

/// The TRX of a cell, the first or another, at an entry of `trx`.
#[tactic(auto, unfolding(crate::specs::Kept::kept_trx))]
fn trx_of(bcch: u16, first: bool, entry: &Value) -> Result<Trx, SiteFault>
    ensures read { result ≡ kept_trx bcch first (view entry.now) }
{
    let arfcn = number_within(entry, Key::Arfcn, arfcn_range(bcch, first))?;
    trx_with(arfcn, first, entry)
}

/// The timeslots of a TRX, of which the first nine are kept; so of those that also carry halves.
#[tactic(auto, unfolding(crate::specs::Kept::kept_slots))]
fn trx_with(arfcn: u16, first: bool, trx: &Value) -> Result<Trx, SiteFault>
    ensures read { result ≡ kept_slots arfcn first (view trx.now) }
{
    let slots = array_of(Key::Tch, value_at(trx, Key::Tch)?)?;
    trx_by(arfcn, tch_range(first), slots, trx)
}

/// A TRX with its traffic channels, by the entries of `tch`.
fn trx_by(arfcn: u16, range: Allowed, slots: &[Value], trx: &Value) -> Result<Trx, SiteFault>
    requires { range.most < timeslots_of_trx }
    ensures read { result ≡ trx_by arfcn range (map view slots.now) (view trx.now) }
{
    let tch = slots_of(range, slots)?;
    let half = half_of(trx, range, slots)?;
    Ok(Trx { arfcn, tch, half })
}

/// The timeslots at the entries of `tch`, of which the first nine are kept.
fn slots_of(range: Allowed, entries: &[Value]) -> Result<ArrayVec<u8, 9>, SiteFault>
    requires { range.most < timeslots_of_trx }
    ensures read { items_read result ≡
        first_nine (each (λ place. number_of Key.Tch range) 0 (map view entries.now)) }
{
    let mut slots = ArrayVec::new();
    for entry in entries {
        let slot = number_of(Key::Tch, range, entry)? as u8;
        if !slots.is_full() {
            slots.push(slot);
        }
    }
    Ok(slots)
}

/// Whether a value is an integer within a range, and that one.
fn is_number(range: Allowed, value: &Value, number: u8) -> bool
    ensures value { result ≡ is_number range number (view value.now) }
{
    match allowed_number(range, value) {
        Some(found) => found == u16::from(number),
        None => false,
    }
}

/// Whether one of the values is an integer within a range, and that one.
fn name(range: Allowed, values: &[Value], number: u8) -> bool
    ensures value { result ≡ names range (map view values.now) number }
{
    values.iter().any(|value| is_number(range, value, number))
}

/// A timeslot that also carries halves: one that the entries of `tch` name.
#[tactic(auto, unfolding(crate::specs::SiteFile::half_slot))]
fn half_slot(range: Allowed, slots: &[Value], entry: &Value) -> Result<u8, SiteFault>
    ensures read { result ≡ half_slot (names range (map view slots.now)) (view entry.now) }
{
    let tn = number_of(Key::Half, Key::Half.allowed(), entry)? as u8;
    if name(range, slots, tn) {
        Ok(tn)
    } else {
        Err(SiteFault::Range(Key::Half))
    }
}

/// The timeslots at the entries of `half`, of which the first nine are kept.
fn halves_of(
    range: Allowed,
    slots: &[Value],
    entries: &[Value],
) -> Result<ArrayVec<u8, 9>, SiteFault>
    ensures read { items_read result ≡
        first_nine (each (λ place. half_slot (names range (map view slots.now))) 0
        (map view entries.now)) }
{
    let mut halves = ArrayVec::new();
    for entry in entries {
        let slot = half_slot(range, slots, entry)?;
        if !halves.is_full() {
            halves.push(slot);
        }
    }
    Ok(halves)
}

/// The timeslots of a TRX that also carry halves, of which the first nine are kept.
#[tactic(auto, unfolding(crate::specs::SiteFile::halves_by))]
fn half_of(trx: &Value, range: Allowed, slots: &[Value]) -> Result<ArrayVec<u8, 9>, SiteFault>
    ensures read { items_read result ≡
        first_nine (halves_by (names range (map view slots.now))
        (get (key_name Key.Half) (view trx.now))) }
{
    match trx.get(Key::Half.name()) {
        Some(value) => halves_of(range, slots, array_of(Key::Half, value)?),
        None => Ok(ArrayVec::new()),
    }
}

/// The BA list of a cell.
#[tactic(auto, unfolding(crate::specs::SiteFile::ba_of))]
fn ba_of(cell: &Value) -> Result<ArrayVec<u16, MOST_NEIGHBOURS>, SiteFault>
    ensures read { items_read result ≡ ba_of (view cell.now) }
{
    let entries = array_of(Key::Ba, value_at(cell, Key::Ba)?)?;
    carriers_of(counted(Key::Ba, up_to(MOST_NEIGHBOURS as u16), entries)?)
}

/// The carriers at the entries of `ba`.
fn carriers_of(entries: &[Value]) -> Result<ArrayVec<u16, MOST_NEIGHBOURS>, SiteFault>
    requires { length entries.now ≤ most_neighbours }
    ensures read { items_read result ≡
        each (λ place. number_of Key.Ba (allowed Key.Ba)) 0 (map view entries.now) }
{
    let range = Key::Ba.allowed();
    let mut carriers = ArrayVec::new();
    for entry in entries {
        carriers.push(number_of(Key::Ba, range, entry)?);
    }
    Ok(carriers)
}

/// The TRX at the entries of `trx`.
fn each_trx(bcch: u16, entries: &[Value]) -> Result<ArrayVec<Trx, MOST_TRX>, SiteFault>
    requires { length entries.now ≤ most_trx }
    ensures read { items_read result ≡
        each (λ place. kept_trx bcch (place == 0)) 0 (map view entries.now) }
{
    let mut trx = ArrayVec::new();
    for entry in entries {
        trx.push(trx_of(bcch, trx.is_empty(), entry)?);
    }
    Ok(trx)
}

/// The TRX of a cell.
#[tactic(auto, unfolding(crate::specs::Kept::kept_trx_list))]
fn all_trx_of(bcch: u16, cell: &Value) -> Result<ArrayVec<Trx, MOST_TRX>, SiteFault>
    ensures read { items_read result ≡ kept_trx_list bcch (view cell.now) }
{
    let entries = tables_of(Key::Trx, value_at(cell, Key::Trx)?)?;
    each_trx(bcch, entries)
}

/// An own cell, at an entry of `cell`.
#[tactic(auto, unfolding(crate::specs::Kept::kept_cell))]
fn cell_of(entry: &Value) -> Result<Cell, SiteFault>
    ensures read { result ≡ kept_cell (view entry.now) }
{
    let identity = identity_of(entry)?;
    Ok(Cell {
        identity,
        power: number_at(entry, Key::Power)? as u8,
        ba: ba_of(entry)?,
        trx: all_trx_of(identity.bcch, entry)?,
    })
}

/// The own cells at the entries of `cell`.
fn each_cell(entries: &[Value]) -> Result<ArrayVec<Cell, MOST_CELLS>, SiteFault>
    requires { length entries.now ≤ most_cells }
    ensures read { items_read result ≡ each (λ place. kept_cell) 0 (map view entries.now) }
{
    let mut cells = ArrayVec::new();
    for entry in entries {
        cells.push(cell_of(entry)?);
    }
    Ok(cells)
}

/// The own cells.
#[tactic(auto, unfolding(crate::specs::Kept::kept_cells))]
pub fn cells_of(document: &Value) -> Result<ArrayVec<Cell, MOST_CELLS>, SiteFault>
    ensures read { items_read result ≡ kept_cells (view document.now) }
{
    let entries = tables_of(Key::Cell, value_at(document, Key::Cell)?)?;
    each_cell(entries)
}

/// The cells of others at the entries of `outside`.
fn each_outside(entries: &[Value]) -> Result<ArrayVec<CellIdentity, MOST_OUTSIDE>, SiteFault>
    requires { length entries.now ≤ most_outside }
    ensures read { items_read result ≡ each (λ place. identity_of) 0 (map view entries.now) }
{
    let mut cells = ArrayVec::new();
    for entry in entries {
        cells.push(identity_of(entry)?);
    }
    Ok(cells)
}

/// The cells of others.
#[tactic(auto, unfolding(crate::specs::SiteFile::outside_of))]
pub fn outside_of(document: &Value) -> Result<ArrayVec<CellIdentity, MOST_OUTSIDE>, SiteFault>
    ensures read { items_read result ≡ outside_of (get (key_name Key.Outside) (view document.now)) }
{
    match document.get(Key::Outside.name()) {
        Some(value) => each_outside(tables_of(Key::Outside, value)?),
        None => Ok(ArrayVec::new()),
    }
}

/// When a neighbour is a candidate.
#[tactic(auto, unfolding(crate::specs::SiteFile::handover_at))]
pub fn handover_at(document: &Value) -> Result<HandoverRule, SiteFault>
    ensures read { result ≡ handover_at (view document.now) }
{
    let table = value_at(document, Key::Handover)?;
    if !table.is_table() {
        return Err(SiteFault::Range(Key::Handover));
    }
    handover_of(table)
}
