//! Places of traffic channels: how many come before a channel, and which channel is at a place.
ghost use Rattle.std.specs.Prelude.{◌≡◌, ◌==◌, ◌+◌, ◌<◌, ◌≤◌, ℕ, All, length, sum_by};
ghost use Rattle.std.specs.List.{list_any};
ghost use Rattle.channel_fsm.specs.Masks.{has};
ghost use Rattle.cell_table.specs.Limits.{most_cells, most_trx, timeslots_of_trx};
ghost use Rattle.cell_table.specs.Searches.{trx_size, cell_size, number_of, parts_before, slots_before, before_in_cell, channels_before, part_at, trx_channel, cell_channel, at_place};

use crate::tables::{Cell, Trx};
use channel_fsm::{ChanId, Sub};

/// How many traffic channels a TRX has.
fn trx_size(trx: &Trx) -> usize
    ensures value { result ≡ trx_size trx.now }
    ensures most { result ≤ 27 }
{
    let halves = trx.half.len();
    trx.tch.len() + (halves + halves)
}

/// How many traffic channels some TRX have.
fn trx_sizes(trx: &[Trx]) -> usize
    requires { length trx.now ≤ most_trx }
    ensures value { result ≡ sum_by trx_size trx.now }
    ensures most { result ≤ 108 }
{
    let mut sum = 0;
    for each in trx {
        sum += trx_size(each);
    }
    sum
}

/// How many traffic channels some cells have.
pub fn cell_sizes(cells: &[Cell]) -> usize
    requires { length cells.now ≤ most_cells }
    ensures value { result ≡ sum_by cell_size cells.now }
    ensures most { result ≤ 6912 }
{
    let mut sum = 0;
    for each in cells {
        sum += trx_sizes(each.trx.as_slice());
    }
    sum
}

/// The number of a channel among all that a TRX can have, by timeslot and part of it.
fn number_of(tn: u8, sub: Sub) -> usize
    ensures value { result ≡ number_of tn sub }
{
    usize::from(tn) * 3 + usize::from(sub.number())
}

/// How many of a TRX's channels with this part of a timeslot have a number below one.
fn parts_before(sub: Sub, number: usize, slots: &[u8]) -> usize
    ensures value { result ≡ parts_before sub number slots.now }
    ensures most { result ≤ length slots.now }
{
    let mut count = 0;
    for tn in slots {
        if number_of(*tn, sub) < number {
            count += 1;
        }
    }
    count
}

/// How many traffic channels of a TRX have a number below one.
fn slots_before(number: usize, trx: &Trx) -> usize
    ensures value { result ≡ slots_before number trx.now }
    ensures most { result ≤ 27 }
{
    let halves = trx.half.as_slice();
    parts_before(Sub::Full, number, trx.tch.as_slice())
        + (parts_before(Sub::Half0, number, halves) + parts_before(Sub::Half1, number, halves))
}

/// How many traffic channels of a cell come before one.
fn before_in_cell(cell: &Cell, chan: ChanId) -> usize
    ensures value { result ≡ before_in_cell chan cell.now }
    ensures most { result ≤ 135 }
{
    let trx = cell.trx.as_slice();
    match trx.get(chan.trx as usize) {
        Some(own) => {
            trx_sizes(&trx[..chan.trx as usize]) + slots_before(number_of(chan.tn, chan.sub), own)
        }
        None => trx_sizes(trx),
    }
}

/// How many traffic channels of some cells come before one.
pub fn channels_before(cells: &[Cell], chan: ChanId) -> usize
    requires { length cells.now ≤ most_cells }
    ensures value { result ≡ channels_before cells.now chan }
{
    match cells.get(chan.cell as usize) {
        Some(own) => cell_sizes(&cells[..chan.cell as usize]) + before_in_cell(own, chan),
        None => cell_sizes(cells),
    }
}

/// The timeslot, of these, whose channel with this part of it has a place among the traffic channels of a TRX.
fn part_at(sub: Sub, trx: &Trx, slots: &[u8], place: usize) -> Option<u8>
    ensures value { result ≡ part_at sub trx.now slots.now place }
{
    match slots {
        [first, rest @ ..] => {
            if has_place(sub, trx, *first, place) {
                return Some(*first);
            }
            part_at(sub, trx, rest, place)
        }
        [] => None,
    }
}

/// Whether the channel with this part of a timeslot has a place among the traffic channels of a TRX.
fn has_place(sub: Sub, trx: &Trx, tn: u8, place: usize) -> bool
    ensures value { result ≡ (slots_before (number_of tn sub) trx.now == place) }
{
    slots_before(number_of(tn, sub), trx) == place
}

/// The channel that has a place among the traffic channels of a TRX of a cell.
fn trx_channel(cell: u8, number: u8, trx: &Trx, place: usize) -> Option<ChanId>
    ensures value { result ≡ trx_channel cell number trx.now place }
{
    let halves = trx.half.as_slice();
    let whole = part_at(Sub::Full, trx, trx.tch.as_slice(), place);
    if let Some(tn) = whole {
        return Some(channel(cell, number, tn, Sub::Full));
    }
    let lower = part_at(Sub::Half0, trx, halves, place);
    if let Some(tn) = lower {
        return Some(channel(cell, number, tn, Sub::Half0));
    }
    let tn = part_at(Sub::Half1, trx, halves, place)?;
    Some(channel(cell, number, tn, Sub::Half1))
}

/// A channel by its parts.
fn channel(cell: u8, trx: u8, tn: u8, sub: Sub) -> ChanId
    ensures { result ≡ record { cell = cell; trx = trx; tn = tn; sub = sub } }
{
    ChanId { cell, trx, tn, sub }
}

/// The channel that has a place among the traffic channels of some TRX of a cell, which are numbered from `number` on.
fn channel_of_trx(trx: &[Trx], cell: u8, number: u8, place: usize) -> Option<ChanId>
    requires few { number + length trx.now ≤ most_trx }
    ensures value { result ≡ at_place trx_size (trx_channel cell) number trx.now place }
{
    match trx {
        [first, rest @ ..] => {
            let size = trx_size(first);
            if place < size {
                return trx_channel(cell, number, first, place);
            }
            channel_of_trx(rest, cell, number + 1, place - size)
        }
        [] => None,
    }
}

/// The channel that has a place among the traffic channels of some cells, which are numbered from `number` on.
pub fn channel_of_cells(cells: &[Cell], number: u8, place: usize) -> Option<ChanId>
    requires few { number + length cells.now ≤ most_cells }
    ensures value { result ≡ at_place cell_size cell_channel number cells.now place }
{
    match cells {
        [first, rest @ ..] => {
            let trx = first.trx.as_slice();
            let size = trx_sizes(trx);
            if place < size {
                return channel_of_trx(trx, number, 0, place);
            }
            channel_of_cells(rest, number + 1, place - size)
        }
        [] => None,
    }
}

/// Timeslots as the bits of an octet: timeslot `n` is the bit of value 2 to the power `n`.
pub fn mask_of(slots: &[u8]) -> u8
    requires { All (λ tn. tn < timeslots_of_trx) slots.now }
    ensures value { (n : ℕ) → has result n ≡ list_any (λ tn. tn == n) slots.now }
{
    let mut mask = 0;
    for tn in slots {
        mask |= 1 << *tn;
    }
    mask
}
