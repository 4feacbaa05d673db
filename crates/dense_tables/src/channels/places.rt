//! Where each channel that a site can have stands among the site's traffic channels.
ghost use Rattle.std.specs.Prelude.{◌≡◌, ◌<◌, ◌≤◌, Some, None, IfOk, IfSome, length, if◌then◌else◌};
ghost use Rattle.dense_tables.specs.Channels.{ArePlaces, channel_at, is_within, number_of, place_at, sub_at};

use cell_table::Site;
use cell_table::limits::{MOST_CELLS, MOST_TRX, TIMESLOTS_OF_TRX};
use channel_fsm::{ChanId, Sub};
use std::alloc::{AllocError, Allocator};

/// How many channels a site can have.
pub const PLACES: usize = 6144;

/// A timeslot has three parts: the whole of it, and its halves.
pub const PARTS: usize = 3;

/// The part of a timeslot with this number.
pub fn sub_at(number: usize) -> Sub
    ensures { result ≡ sub_at number }
{
    if number == 0 {
        Sub::Full
    } else if number == 1 {
        Sub::Half0
    } else {
        Sub::Half1
    }
}

/// The number of a channel among all that a site can have, by cell, TRX, timeslot and part of it; `None` if no site has it.
fn number_of(x: ChanId) -> Option<usize>
    ensures { result ≡ (if is_within x then Some (number_of x) else None) }
{
    let cell = usize::from(x.cell);
    let trx = usize::from(x.trx);
    let tn = usize::from(x.tn);
    let sub = usize::from(x.sub.number());
    if cell < MOST_CELLS && trx < MOST_TRX && tn < TIMESLOTS_OF_TRX {
        Some(((cell * MOST_TRX + trx) * TIMESLOTS_OF_TRX + tn) * PARTS + sub)
    } else {
        None
    }
}

/// The channel of a number.
pub fn channel_at(number: usize) -> ChanId
    requires { number < 6144 }
    ensures { result ≡ channel_at number }
{
    ChanId {
        cell: (number / (MOST_TRX * TIMESLOTS_OF_TRX * PARTS)) as u8,
        trx: (number / (TIMESLOTS_OF_TRX * PARTS) % MOST_TRX) as u8,
        tn: (number / PARTS % TIMESLOTS_OF_TRX) as u8,
        sub: sub_at(number % PARTS),
    }
}

/// The place of a channel among the traffic channels of the site whose places these are.
pub fn place_in<A: Allocator>(places: &Vec<Option<u16>, A>, x: ChanId) -> Option<usize>
    requires { length places.now.items ≡ 6144 }
    ensures { result ≡ place_at places.now.items x }
{
    let number = number_of(x)?;
    let place = places[number]?;
    Some(usize::from(place))
}

/// The place of each channel that a site can have.
pub fn places_of<A: Allocator + Copy>(
    alloc: A,
    site: &Site<A>,
) -> Result<Vec<Option<u16>, A>, AllocError>
    ensures len { IfOk result (λ places. length places.items ≡ 6144) }
    ensures places { IfOk result (λ places. ArePlaces site.now places.items) }
{
    // Called for its clause alone: a channel beyond is none for traffic.
    let _cells = site.cells();
    let mut places = Vec::from_elem(alloc, None, PLACES)?;
    for number in 0..PLACES {
        places[number] = short_place(site.index_of(channel_at(number)));
    }
    Ok(places)
}

/// A place in two octets.
fn short_place(place: Option<usize>) -> Option<u16>
    requires { IfSome place (λ place. place ≤ 65535) }
    ensures { result ≡ place }
{
    Some(place? as u16)
}
