mod audits;
mod both_tables;
mod channels;
mod choices;
mod courses;
mod desk;
mod desk_memory;
mod foreign;
mod inverses;
mod memory;
mod openings;
mod owed;
mod readers;
mod worked;

use cell_table::Site;
use channel_fsm::{ChanId, Rate, Sub};
use radio_book::book::{Book, Usage};
use radio_book::event::Event::{
    Activate, Command, Complete, Confirm, Open, Released, Reserve, Take, Undo,
};
use radio_book::event::Kind::Internal;
use radio_book::event::Why::Asked;
use radio_book::event::{Event, Kind, Reply};
use radio_desk::desk::Desk;
use sample_sites::{HOME, TARGET, THREE_CHANNELS, changed};
use std::alloc::{AllocError, Allocator, Global};
use std::fmt::Debug;
use std::process::Abort;
use std::sync::Arc;
use std::test::Fail;

// Each test asserts by these: an assertion in a function of its own is proved once, and a call of it costs little.

// What was found at this place is what was wanted.
fn equals_at<T: Copy + Debug + PartialEq, W: Copy + Debug>(
    rt: &impl Abort,
    found: T,
    wanted: T,
    at: W,
) {
    assert_eq!(rt; found, wanted, "{at:?}");
}

// This is so at this place.
fn holds_at<W: Copy + Debug>(rt: &impl Abort, is_so: bool, at: W) {
    assert!(rt; is_so, "{at:?}");
}

// Call 1 comes to rest on its channel, on the site of three channels: 0/0/2, 0/0/3 and 1/1/3.
const STEADY: &[Event] = &[Open(1, HOME), Confirm(HOME)];

// Steps of its handover to the channel of cell 1.
const TAKE: Event = Take(1, Internal, TARGET);

const RESERVE: Event = Reserve(1, 0);

const ACTIVATE: Event = Activate(1);

const CONFIRM: Event = Confirm(TARGET);

const COMMAND: Event = Command(1);

const COMPLETE: Event = Complete(1);

const UNDO: Event = Undo(1, Asked);

const RELEASED: Event = Released(TARGET);

// What is asked of a book or at a desk: an event, a Take of any free channel of a cell, an Open on any, a Reserve of any
// free reference.
#[derive(Clone, Copy, Debug)]
enum Ask {
    Step(Event),
    TakeAny(u16, Kind, u8),
    OpenAny(u16, u8),
    ReserveAny(u16),
}

// The event that an ask leads to, and its reply. `None` where no channel is free.
type Entry = Option<(Event, Reply)>;

fn put_to_book<A: Allocator + Copy>(book: &mut Book<A>, ask: Ask) -> Result<Entry, AllocError> {
    match ask {
        Ask::Step(event) => {
            let reply = book.step(event)?;
            Ok(Some((event, reply)))
        }
        Ask::TakeAny(call, kind, cell) => book.take_any(call, kind, cell, Rate::Full),
        Ask::OpenAny(call, cell) => book.open_any(call, cell, Rate::Full),
        Ask::ReserveAny(call) => {
            let chosen = book.reserve_any(call)?;
            Ok(Some(chosen))
        }
    }
}

// Asks the events of a book, whatever it replies.
fn step_all<A: Allocator + Copy>(book: &mut Book<A>, events: &[Event]) -> Result<(), AllocError> {
    for event in events {
        book.step(*event)?;
    }
    Ok(())
}

fn book_of<A: Allocator + Copy>(alloc: A, scratch: Global, text: &str) -> Result<Book<A>, Fail> {
    let site = Site::read(alloc, scratch, text)?;
    let site = Arc::new(alloc, site)?;
    Ok(Book::new(alloc, site)?)
}

// Plays at a new book of the site, which is owned here alone: each function that owns one is dear to prove.
fn at_a_new_book<R: AllocGlobal, F: FnOnce(&R, &mut Book<Global>) -> Result<(), Fail>>(
    rt: &R,
    site: &str,
    play: F,
) -> Result<(), Fail>
    requires { F.IsAlwaysCallable play }
{
    let mut book = book_of(rt.alloc(), rt.alloc(), site)?;
    play(rt, &mut book)
}

fn desk_of<A: Allocator + Copy>(alloc: A, scratch: Global) -> Result<Desk<A>, Fail> {
    Ok(Desk::new(alloc, book_of(alloc, scratch, THREE_CHANNELS)?)?)
}

// Plays at a new desk, which is owned here alone.
fn at_a_new_desk<R: AllocGlobal, F: FnOnce(&R, &mut Desk<Global>) -> Result<(), Fail>>(
    rt: &R,
    play: F,
) -> Result<(), Fail>
    requires { F.IsAlwaysCallable play }
{
    let mut desk = desk_of(rt.alloc(), rt.alloc())?;
    play(rt, &mut desk)
}

fn holds(channels: usize, calls: usize, references: usize, timers: usize) -> Usage {
    Usage {
        channels,
        calls,
        references,
        timers,
    }
}

// The timeslot at a place of a site whose cells have four TRX each, by cell, TRX, timeslot.
fn channel_at(place: u16) -> ChanId {
    ChanId {
        cell: (place / 32 % 64) as u8,
        trx: (place / 8 % 4) as u8,
        tn: (place % 8) as u8,
        sub: Sub::Full,
    }
}

// The channel at a place, by a timeslot's parts too: the whole of it, then its halves.
fn part_at(place: u16) -> ChanId {
    let sub = match place % 3 {
        0 => Sub::Full,
        1 => Sub::Half0,
        _ => Sub::Half1,
    };
    channel_at(place / 3).part(sub)
}

// The places below a count but for some.
fn all_but(alloc: Global, count: usize, left_out: &[usize]) -> Result<Vec<usize>, AllocError> {
    let mut places = Vec::new(alloc);
    for place in 0..count {
        if !left_out.contains(&place) {
            places.push(place)?;
        }
    }
    Ok(places)
}

// The items at the places.
fn at_places<T: Copy>(alloc: Global, all: &[T], places: &[usize]) -> Result<Vec<T>, AllocError> {
    let mut found = Vec::new(alloc);
    for place in places {
        if let Some(item) = all.get(*place) {
            found.push(*item)?;
        }
    }
    Ok(found)
}

fn is_of_two_cells(rt: &impl Abort, book: &Book<Global>) -> Result<(), Fail> {
    let site = book.site();
    equals_at(rt, site.cells(), 2, "the cells");
    equals_at(rt, site.is_traffic(TARGET), true, TARGET);
    Ok(())
}

#[test]
fn the_site_of_a_book_is_the_one_given(rt: HostRuntime) -> Result<(), Fail> {
    at_a_new_book(&rt, THREE_CHANNELS, |rt, book| is_of_two_cells(rt, book))
}

// A book equals the empty book of the site that a text describes, or doesn't. What else they hold, rewinds compare.
fn is_compared(
    rt: &(impl AllocGlobal + Abort),
    book: &Book<Global>,
    text: &str,
    wanted: bool,
) -> Result<(), Fail> {
    let other = book_of(rt.alloc(), rt.alloc(), text)?;
    equals_at(rt, *book == other, wanted, text);
    Ok(())
}

fn is_told_by_its_site(rt: &(impl AllocGlobal + Abort), book: &Book<Global>) -> Result<(), Fail> {
    let wide = changed(rt.alloc(), THREE_CHANNELS, "margin = 3", "margin = 4")?;
    is_compared(rt, book, THREE_CHANNELS, true)?;
    is_compared(rt, book, &wide.expect(rt, "the site's margin"), false)
}

#[test]
fn empty_books_are_equal_where_their_sites_are(rt: HostRuntime) -> Result<(), Fail> {
    at_a_new_book(
        &rt,
        THREE_CHANNELS,
        |rt, book| is_told_by_its_site(rt, book),
    )
}
