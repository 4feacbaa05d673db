//! A call's life in a radio book that many others use, and an attempt at handover taken out of a list of events.
ghost use Rattle.std.specs.Prelude.{◌<◌};

use crate::fault::Fault;
use crate::varying::Varying;
use cell_table::Site;
use channel_fsm::{ChanId, Rate, Sub};
use radio_book::book::Book;
use radio_book::event::{Event, Kind, Reply, Why};
use radio_book::rewind::{RewindFault, rewind};
use sample_sites::{site_of_cells, site_of_halves};
use std::alloc::{AllocError, Global};
use std::sync::Arc;

/// How many cells the site has.
pub(crate) const CELLS: u8 = 64;

/// How many TRX each of them has.
const TRX: u16 = 3;

/// How many other calls each cell carries.
pub(crate) const OTHERS: u8 = 16;

/// How many calls begin between the opening of an attempt and its undo.
const MEANWHILE: u8 = 45;

/// Where the attempt's opening stands in the list of events.
const OPENING: usize = 2;

/// The call whose life it is. The others have the numbers from 0 to 1,023.
pub(crate) const CALL: u16 = 5000;

/// The channel that has this part of a timeslot. Slots are counted from 0 through all TRX, eight of each.
fn chan_of(cell: u8, slot: u8, sub: Sub) -> ChanId {
    ChanId {
        cell,
        trx: slot / 8,
        tn: slot % 8,
        sub,
    }
}

/// The traffic channel of a cell at this place, counted from 0. Timeslot 0 of the first TRX carries no traffic.
pub(crate) fn chan_at(cell: u8, place: u8) -> ChanId
    requires { place < 23 }
{
    chan_of(cell, place + 1, Sub::Full)
}

/// The traffic channel of a cell at this place, where each odd timeslot has two places, its halves.
fn chan_beside_halves(cell: u8, place: u8) -> ChanId
    requires { place < 23 }
{
    let step = place + 1;
    let even = step / 3 * 2;
    match step % 3 {
        0 => chan_of(cell, even, Sub::Full),
        1 => chan_of(cell, even + 1, Sub::Half0),
        _ => chan_of(cell, even + 1, Sub::Half1),
    }
}

/// The channel of a cell at this place: at full rate a whole timeslot, at half rate also a half of one.
fn place_of(rate: Rate, cell: u8, place: u8) -> ChanId
    requires { place < 23 }
{
    match rate {
        Rate::Full => chan_at(cell, place),
        Rate::Half => chan_beside_halves(cell, place),
    }
}

/// The cell that the first octet names.
pub(crate) fn cell_of(octets: &[u8]) -> u8
    ensures { result < 64 }
{
    octets.first().copied().unwrap_or(0) % CELLS
}

/// 1 where the book accepts the event, 0 where it refuses it.
pub(crate) fn accepted(book: &mut Book, event: Event) -> Result<u64, Fault> {
    match book.step(event)? {
        Reply::Refused(_) => Ok(0),
        Reply::Done | Reply::Record(_, _) | Reply::Owned(_) => Ok(1),
    }
}

/// Opens a call and confirms its channel.
fn settle(book: &mut Book, call: u16, chan: ChanId) -> Result<(), Fault> {
    let steps = accepted(book, Event::Open(call, chan))?;
    let steps = accepted(book, Event::Confirm(chan))?.wrapping_add(steps);
    if steps != 2 {
        return Err(Fault::Setting);
    }
    Ok(())
}

/// Opens the other calls of a cell.
fn settle_cell(book: &mut Book, rate: Rate, cell: u8) -> Result<(), Fault> {
    for place in 0..OTHERS {
        let call = u16::from(cell) * u16::from(OTHERS) + u16::from(place);
        settle(book, call, place_of(rate, cell, place))?;
    }
    Ok(())
}

/// The book of a site file in which nothing is in use.
pub fn book_of(alloc: Global, text: &str) -> Result<Book, Fault> {
    let site = Site::read(alloc, alloc, text)?;
    let site = Arc::new(alloc, site).map_err(AllocError::from)?;
    Ok(Book::new(alloc, site)?)
}

/// The site file of 64 cells with three TRX each, and of so many cells of others.
pub(crate) fn site_text(alloc: Global, outside: u16) -> Result<String, AllocError> {
    site_of_cells(alloc, u16::from(CELLS), TRX, outside)
}

/// The site file of 64 cells with three TRX each, whose odd timeslots also carry halves.
pub(crate) fn halves_text(alloc: Global) -> Result<String, AllocError> {
    site_of_halves(alloc, u16::from(CELLS), TRX)
}

/// The book of 64 cells with three TRX each in which nothing is in use.
pub(crate) fn quiet_book(alloc: Global) -> Result<Book, Fault> {
    let text = site_text(alloc, 0)?;
    book_of(alloc, text.as_str())
}

/// Opens the other calls of every cell.
fn settle_cells(book: &mut Book, rate: Rate) -> Result<(), Fault> {
    for cell in 0..CELLS {
        settle_cell(book, rate, cell)?;
    }
    Ok(())
}

/// The book of a site file of 64 cells in which 1,024 other calls are steady: at full rate on whole timeslots, at half rate
/// those in odd timeslots on halves, which the site file has to name.
pub(crate) fn crowded_book(alloc: Global, text: &str, rate: Rate) -> Result<Book, Fault> {
    let mut book = book_of(alloc, text)?;
    settle_cells(&mut book, rate)?;
    Ok(book)
}

/// A crowded book with the call, which is steady on the first channel of cell 0 that the others leave free.
pub(crate) fn busy_book(alloc: Global, text: &str, rate: Rate) -> Result<Book, Fault> {
    let mut book = crowded_book(alloc, text, rate)?;
    settle(&mut book, CALL, place_of(rate, 0, OTHERS))?;
    Ok(book)
}

/// A whole life of twelve events, with a handover to another cell. The sum is the number of those that the book accepts.
fn live(book: &mut Book, serving: ChanId, target: ChanId) -> Result<u64, Fault> {
    let events = [
        Event::Open(CALL, serving),
        Event::Confirm(serving),
        Event::Take(CALL, Kind::Internal, target),
        Event::Reserve(CALL, 0),
        Event::Activate(CALL),
        Event::Confirm(target),
        Event::Command(CALL),
        Event::Detect(target),
        Event::Complete(CALL),
        Event::Released(serving),
        Event::Clear(CALL),
        Event::Released(target),
    ];
    let mut sum = 0u64;
    for event in events {
        sum = sum.wrapping_add(accepted(book, event)?);
    }
    Ok(sum)
}

/// Lives a life in each iteration, in a book.
fn lives(book: &mut Book, octets: &mut Varying, count: u64) -> Result<u64, Fault> {
    let mut sum = 0u64;
    for iteration in 0..count {
        let cell = cell_of(octets.at(iteration));
        let serving = chan_at(cell, OTHERS);
        let target = chan_at((cell + 1) % CELLS, OTHERS);
        sum = sum.wrapping_add(live(book, serving, target)?);
    }
    Ok(sum)
}

/// Lives a life in each iteration, in a book in which 1,024 calls are steady on 64 cells: on a free channel of the cell that
/// the first octet names, modulo 64, and towards the next cell. The sum is the number of events that the book accepts,
/// twelve for each life.
pub fn live_by_steps(alloc: Global, octets: &mut Varying, count: u64) -> Result<u64, Fault> {
    let text = site_text(alloc, 0)?;
    let mut book = crowded_book(alloc, text.as_str(), Rate::Full)?;
    lives(&mut book, octets, count)
}

/// A hundred events: a call begins, an attempt of it goes as far as the HANDOVER COMMAND, 45 other calls begin and are
/// confirmed, the attempt is undone, its channel is released, and the call is looked at.
fn undone_amid_others(alloc: Global, cell: u8) -> Result<Vec<Event>, AllocError>
    requires { cell < 64 }
{
    let serving = chan_at(cell, OTHERS);
    let target = chan_at((cell + 1) % CELLS, OTHERS);
    let mut events = vec![in alloc;
        Event::Open(CALL, serving),
        Event::Confirm(serving),
        Event::Take(CALL, Kind::Internal, target),
        Event::Reserve(CALL, 0),
        Event::Activate(CALL),
        Event::Confirm(target),
        Event::Command(CALL),
    ]?;
    for other in 0..MEANWHILE {
        let chan = chan_at((cell + other / OTHERS) % CELLS, other % OTHERS);
        events.push(Event::Open(u16::from(other), chan))?;
        events.push(Event::Confirm(chan))?;
    }
    events.push(Event::Undo(CALL, Why::Asked))?;
    events.push(Event::Released(target))?;
    events.push(Event::Look(CALL))?;
    Ok(events)
}

/// How many events stay without the attempt.
fn others_of(alloc: Global, book: &Book, events: &[Event]) -> Result<u64, Fault> {
    match rewind(alloc, book, events, OPENING) {
        Ok(rewound) => Ok(rewound.others.len() as u64),
        Err(RewindFault::NoAttempt) => Err(Fault::Setting),
        Err(RewindFault::NoMemory) => Err(Fault::NoMemory),
    }
}

/// Takes an attempt out of a list of a hundred events in each iteration, from the empty book of 64 cells. The call is on a
/// channel of the cell that the first octet names, modulo 64, and is to move to the next cell. The sum is the number of
/// events that stay, 93 in each list.
pub fn rewind_lists(alloc: Global, octets: &mut Varying, count: u64) -> Result<u64, Fault> {
    let book = quiet_book(alloc)?;
    let mut sum = 0u64;
    for iteration in 0..count {
        let events = undone_amid_others(alloc, cell_of(octets.at(iteration)))?;
        sum = sum.wrapping_add(others_of(alloc, &book, &events)?);
    }
    Ok(sum)
}
