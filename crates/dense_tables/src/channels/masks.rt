//! The free traffic timeslots of each TRX that a site can have, for each part of a timeslot.
ghost use Rattle.std.specs.Prelude.{◌≡◌, ◌≢◌, ◌<◌, ◌≤◌, Some, None, IfOk, IfSome, IfNone, length, count_by, ℕ, ◌*◌, ◌/◌, ◌%◌, ◌&&◌, is_some};
ghost use Rattle.channel_fsm.specs.Masks.{has, timeslots};
ghost use Rattle.timeslots.specs.declared.Sub.{Sub};
ghost use Rattle.channel_fsm.specs.declared.ChanId.{ChanId};
ghost use Rattle.cell_table.specs.Site.{IsWithinLimits, is_traffic, trx_channels};
ghost use Rattle.dense_tables.specs.Channels.{sub_at, mask_place, mask_at, place_at, is_free_by, is_part_free, state_by, IsMaskedAt, IsMaskedWith, IsFirstWith, IsFirstAt, lower_of, IsNoLater, channels_of};
ghost use Rattle.channel_fsm.specs.Slots.{is_used};

use super::places::{PARTS, place_in, sub_at};
use cell_table::Site;
use cell_table::limits::MOST_TRX;
use channel_fsm::{ChanId, ChanState, FreeMask, Rate, Sub};
use std::alloc::{AllocError, Allocator};

/// How many masks there are: three for each TRX that a site can have.
const MASKS: usize = 768;

/// The traffic timeslots of each TRX that a site can have.
pub fn masks_of<A: Allocator + Copy>(
    alloc: A,
    site: &Site<A>,
) -> Result<Vec<FreeMask, A>, AllocError>
    ensures len { IfOk result (λ masks. length masks.items ≡ 768) }
    ensures masks { IfOk result (λ masks. (x : ChanId) → IsWithinLimits x →
        mask_at masks.items x ≡ is_traffic site.now x) }
{
    let mut masks = Vec::from_elem(alloc, FreeMask::new(0), MASKS)?;
    for number in 0..MASKS {
        masks[number] = mask_of(site, number);
    }
    Ok(masks)
}

/// The traffic timeslots of a TRX with a part of them, by the number of both among all that a site can have.
fn mask_of<A: Allocator + Copy>(site: &Site<A>, number: usize) -> FreeMask
    requires { number < 768 }
    ensures { (tn : ℕ) → has result tn ≡ is_traffic site.now
        (record { cell = number / 12; trx = number / 3 % 4; tn = tn; sub = sub_at (number % 3) }) }
{
    let cell = number / (MOST_TRX * PARTS);
    let trx = number / PARTS % MOST_TRX;
    FreeMask::new(site.traffic_mask(cell as u8, trx as u8, sub_at(number % PARTS)))
}

/// The place of a channel's mask.
fn mask_place(x: ChanId) -> usize
    requires cell { x.cell < 64 }
    requires trx { x.trx < 4 }
    ensures value { result ≡ mask_place x }
    ensures within { result < 768 }
{
    let trx = usize::from(x.cell) * MOST_TRX + usize::from(x.trx);
    trx * PARTS + usize::from(x.sub.number())
}

/// A channel is in its mask from now on, or isn't.
fn set_mask<A: Allocator>(masks: &mut Vec<FreeMask, A>, x: ChanId, free: bool)
    requires within { IsWithinLimits x }
    requires len { length masks.old.items ≡ 768 }
    ensures len { length masks.new.items ≡ 768 }
    ensures set { mask_at masks.new.items x ≡ free }
    ensures others { (y : ChanId) → IsWithinLimits y → y ≢ x →
        mask_at masks.new.items y ≡ mask_at masks.old.items y }
{
    let place = mask_place(x);
    let mut mask = masks[place];
    if free {
        mask.give(x.tn);
    } else {
        mask.take(x.tn);
    }
    masks[place] = mask;
}

/// Whether a channel is in use.
fn is_used<A: Allocator>(
    places: &Vec<Option<u16>, A>,
    states: &Vec<ChanState, A>,
    x: ChanId,
) -> bool
    requires places { length places.now.items ≡ 6144 }
    requires states { IfSome (place_at places.now.items x) (λ place. place < length states.now.items) }
    ensures { result ≡ is_used (state_by places.now.items states.now.items x) }
{
    match place_in(places, x) {
        Some(place) => states[place].is_used(),
        None => false,
    }
}

/// Whether nothing is in the way of a part of a timeslot, by whether the whole, the lower and the upper half are in use.
fn is_part_free(whole: bool, lower: bool, upper: bool, sub: Sub) -> bool
    ensures { result ≡ is_part_free whole lower upper sub }
{
    match sub {
        Sub::Full => !whole && !lower && !upper,
        Sub::Half0 => !whole && !lower,
        Sub::Half1 => !whole && !upper,
    }
}

/// Whether a channel is for traffic, and nothing is in the way of its part of the timeslot.
fn is_free<A: Allocator>(
    places: &Vec<Option<u16>, A>,
    x: ChanId,
    whole: bool,
    lower: bool,
    upper: bool,
) -> bool
    requires { length places.now.items ≡ 6144 }
    ensures { result ≡ (is_some (place_at places.now.items x) && is_part_free whole lower upper x.sub) }
{
    place_in(places, x).is_some() && is_part_free(whole, lower, upper, x.sub)
}

/// The three channels of a timeslot are in their masks from now on where they are for traffic and nothing is in their way.
pub fn set_timeslot<A: Allocator>(
    masks: &mut Vec<FreeMask, A>,
    places: &Vec<Option<u16>, A>,
    states: &Vec<ChanState, A>,
    x: ChanId,
)
    requires within { IsWithinLimits x }
    requires len { length masks.old.items ≡ 768 }
    requires places { length places.now.items ≡ 6144 }
    requires states { (y : ChanId) → IfSome (place_at places.now.items y)
        (λ place. place < length states.now.items) }
    ensures len { length masks.new.items ≡ 768 }
    ensures timeslot { (sub : Sub) → mask_at masks.new.items (record x { sub = sub }) ≡
        is_free_by places.now.items states.now.items (record x { sub = sub }) }
    ensures others { (y : ChanId) → IsWithinLimits y →
        ((sub : Sub) → y ≢ record x { sub = sub }) →
        mask_at masks.new.items y ≡ mask_at masks.old.items y }
{
    let full = ChanId {
        sub: Sub::Full,
        ..x
    };
    let half0 = ChanId {
        sub: Sub::Half0,
        ..x
    };
    let half1 = ChanId {
        sub: Sub::Half1,
        ..x
    };
    let whole = is_used(places, states, full);
    let lower = is_used(places, states, half0);
    let upper = is_used(places, states, half1);
    set_mask(masks, full, is_free(places, full, whole, lower, upper));
    set_mask(masks, half0, is_free(places, half0, whole, lower, upper));
    set_mask(masks, half1, is_free(places, half1, whole, lower, upper));
}

/// The channel of a TRX with this part of a timeslot, of those that the masks have, with the lowest timeslot.
fn lowest_with<A: Allocator>(
    masks: &Vec<FreeMask, A>,
    cell: u8,
    trx: u8,
    sub: Sub,
) -> Option<ChanId>
    requires len { length masks.now.items ≡ 768 }
    requires cell { cell < 64 }
    requires trx { trx < 4 }
    ensures found { IfSome result (λ x. IsFirstWith masks.now.items cell trx sub x) }
    ensures none { IfNone result ((y : ChanId) → IsMaskedWith masks.now.items cell trx sub y → ⊥) }
{
    let any = ChanId {
        cell,
        trx,
        tn: 0,
        sub,
    };
    match masks[mask_place(any)].lowest() {
        Some(tn) => Some(ChanId { cell, trx, tn, sub }),
        None => None,
    }
}

/// The channel of a TRX at a rate, of those that the masks have, with the lowest timeslot, then half.
fn lowest_of_trx<A: Allocator>(
    masks: &Vec<FreeMask, A>,
    cell: u8,
    trx: u8,
    rate: Rate,
) -> Option<ChanId>
    requires len { length masks.now.items ≡ 768 }
    requires cell { cell < 64 }
    requires trx { trx < 4 }
    ensures found { IfSome result (λ x. IsFirstAt masks.now.items cell trx rate x) }
    ensures none { IfNone result ((y : ChanId) → IsMaskedAt masks.now.items cell rate y →
        y.trx ≡ trx → ⊥) }
{
    match rate {
        Rate::Full => lowest_with(masks, cell, trx, Sub::Full),
        Rate::Half => lower_of(
            lowest_with(masks, cell, trx, Sub::Half0),
            lowest_with(masks, cell, trx, Sub::Half1),
        ),
    }
}

/// Of two halves the one with the lower timeslot; of one timeslot, the first.
fn lower_of(one: Option<ChanId>, other: Option<ChanId>) -> Option<ChanId>
    ensures { result ≡ lower_of one other }
{
    match (one, other) {
        (Some(one), Some(other)) => {
            if other.tn < one.tn {
                Some(other)
            } else {
                Some(one)
            }
        }
        (Some(one), None) => Some(one),
        (None, other) => other,
    }
}

/// The channel of a cell at a rate with the lowest TRX, then timeslot, then half, of those that the masks have.
pub fn lowest_in<A: Allocator>(masks: &Vec<FreeMask, A>, cell: u8, rate: Rate) -> Option<ChanId>
    requires len { length masks.now.items ≡ 768 }
    requires cell { cell < 64 }
    ensures found { IfSome result (λ x. IsMaskedAt masks.now.items cell rate x) }
    ensures lowest { IfSome result (λ x. (y : ChanId) →
        IsMaskedAt masks.now.items cell rate y → IsNoLater x y) }
    ensures none { IfNone result ((y : ChanId) → IsMaskedAt masks.now.items cell rate y → ⊥) }
{
    for trx in 0..MOST_TRX as u8 {
        let first = lowest_of_trx(masks, cell, trx, rate);
        if let Some(x) = first {
            return Some(x);
        }
    }
    None
}

/// How many channels of a TRX with this part of a timeslot the masks have.
fn count_with<A: Allocator>(masks: &Vec<FreeMask, A>, cell: u8, trx: u8, sub: Sub) -> u32
    requires len { length masks.now.items ≡ 768 }
    requires cell { cell < 64 }
    requires trx { trx < 4 }
    ensures count { result ≡ count_by (λ tn. mask_at masks.now.items
        (record { cell = cell; trx = trx; tn = tn; sub = sub })) timeslots }
    ensures most { result ≤ 8 }
{
    let any = ChanId {
        cell,
        trx,
        tn: 0,
        sub,
    };
    u32::from(masks[mask_place(any)].count())
}

/// How many channels of a TRX the masks have.
fn count_of_trx<A: Allocator>(masks: &Vec<FreeMask, A>, cell: u8, trx: u8) -> u32
    requires len { length masks.now.items ≡ 768 }
    requires cell { cell < 64 }
    requires trx { trx < 4 }
    ensures count { result ≡ count_by (mask_at masks.now.items) (trx_channels cell trx) }
    ensures most { result ≤ 24 }
{
    count_with(masks, cell, trx, Sub::Full)
        + count_with(masks, cell, trx, Sub::Half0)
        + count_with(masks, cell, trx, Sub::Half1)
}

/// How many channels of a cell the masks have.
pub fn count_in<A: Allocator>(masks: &Vec<FreeMask, A>, cell: u8) -> u32
    requires len { length masks.now.items ≡ 768 }
    requires cell { cell < 64 }
    ensures count { result ≡ count_by (mask_at masks.now.items) (channels_of cell) }
{
    count_of_trx(masks, cell, 0)
        + count_of_trx(masks, cell, 1)
        + count_of_trx(masks, cell, 2)
        + count_of_trx(masks, cell, 3)
}
