//! Channels and numbers that the book chooses.
use super::Ask::{OpenAny, ReserveAny, Step, TakeAny};
use super::{Ask, Entry, STEADY, at_a_new_book, equals_at, put_to_book, step_all};
use channel_fsm::{ChanId, Rate, Sub};
use radio_book::book::Book;
use radio_book::event::Event;
use radio_book::event::Event::{Open, Reserve, Take};
use radio_book::event::Kind::{Incoming, Internal};
use radio_book::event::Refusal::{CallExists, NoCall, RefBusy, SameCell, WrongPhase};
use radio_book::event::Reply::{Done, Refused};
use sample_sites::{HOME, OTHER, SCATTERED, TARGET, THREE_CHANNELS};
use std::alloc::{AllocError, Global};
use std::process::Abort;
use std::test::Fail;

// What is asked of a book, and what comes of it.
type Asked = (Ask, Entry);

fn are_chosen(
    rt: &impl Abort,
    book: &mut Book<Global>,
    before: &[Event],
    asks: &[Asked],
) -> Result<(), AllocError> {
    step_all(book, before)?;
    for (ask, entry) in asks {
        equals_at(rt, put_to_book(book, *ask)?, *entry, ask);
    }
    Ok(())
}

// So many channels of each cell are free.
fn are_free(rt: &impl Abort, book: &Book<Global>, cells: &[(u8, u32)]) {
    for (cell, free) in cells {
        equals_at(rt, book.free_in(*cell), *free, cell);
    }
}

const ANY_CHANNEL: &[Asked] = &[
    (
        TakeAny(1, Internal, 0),
        Some((Take(1, Internal, OTHER), Refused(SameCell))),
    ),
    (TakeAny(1, Internal, 2), None),
    (
        TakeAny(1, Internal, 1),
        Some((Take(1, Internal, TARGET), Done)),
    ),
    (TakeAny(1, Internal, 1), None),
    (ReserveAny(2), Some((Reserve(2, 0), Refused(NoCall)))),
    (ReserveAny(1), Some((Reserve(1, 0), Done))),
    (ReserveAny(1), Some((Reserve(1, 0), Refused(WrongPhase)))),
];

fn a_free_one_is_chosen(rt: &impl Abort, book: &mut Book<Global>) -> Result<(), Fail> {
    step_all(book, STEADY)?;
    are_free(rt, book, &[(0, 1), (1, 1), (2, 0), (255, 0)]);
    are_chosen(rt, book, &[], ANY_CHANNEL)?;
    are_free(rt, book, &[(0, 1), (1, 0)]);
    Ok(())
}

#[test]
fn any_free_channel_is_taken(rt: HostRuntime) -> Result<(), Fail> {
    at_a_new_book(&rt, THREE_CHANNELS, |rt, book| {
        a_free_one_is_chosen(rt, book)
    })
}

// None is free is answered before it is looked whether there is such a call.
const ANY_OPENING: &[Asked] = &[
    (OpenAny(1, 0), Some((Open(1, OTHER), Refused(CallExists)))),
    (OpenAny(2, 2), None),
    (OpenAny(2, 0), Some((Open(2, OTHER), Done))),
    (OpenAny(1, 0), None),
    (OpenAny(3, 0), None),
    (OpenAny(3, 1), Some((Open(3, TARGET), Done))),
    (OpenAny(4, 1), None),
];

fn calls_begin(rt: &impl Abort, book: &mut Book<Global>) -> Result<(), Fail> {
    are_chosen(rt, book, STEADY, ANY_OPENING)?;
    are_free(rt, book, &[(0, 0), (1, 0)]);
    Ok(())
}

#[test]
fn a_call_begins_on_any_free_channel(rt: HostRuntime) -> Result<(), Fail> {
    at_a_new_book(&rt, THREE_CHANNELS, |rt, book| calls_begin(rt, book))
}

// A number that is in use in the cell is refused, and another chosen.
const ANY_NUMBER: &[Asked] = &[
    (Step(Reserve(8, 5)), Some((Reserve(8, 5), Done))),
    (
        Step(Reserve(9, 5)),
        Some((Reserve(9, 5), Refused(RefBusy(0, 5)))),
    ),
    (ReserveAny(9), Some((Reserve(9, 0), Done))),
];

const TWO_COME: &[Event] = &[Take(8, Incoming, OTHER), Take(9, Incoming, HOME)];

fn a_free_number_is_chosen(rt: &impl Abort, book: &mut Book<Global>) -> Result<(), Fail> {
    are_chosen(rt, book, TWO_COME, ANY_NUMBER)?;
    Ok(())
}

#[test]
fn any_free_number_is_reserved(rt: HostRuntime) -> Result<(), Fail> {
    at_a_new_book(&rt, THREE_CHANNELS, |rt, book| {
        a_free_number_is_chosen(rt, book)
    })
}

// The channel of the one cell of the site of scattered channels.
fn scattered(trx: u8, tn: u8) -> ChanId {
    ChanId {
        cell: 0,
        trx,
        tn,
        sub: Sub::Full,
    }
}

// The TRX and timeslots of that site, in the order in which calls 1 to 4 get them.
const LOWEST_CHANNELS: [(u16, u8, u8); 4] = [(1, 1, 3), (2, 1, 5), (3, 2, 2), (4, 2, 6)];

fn each_gets_the_lowest(rt: &impl Abort, book: &mut Book<Global>) -> Result<(), Fail> {
    for (call, trx, tn) in &LOWEST_CHANNELS {
        let taken = book.take_any(*call, Incoming, 0, Rate::Full)?;
        let wanted = Take(*call, Incoming, scattered(*trx, *tn));
        equals_at(rt, taken, Some((wanted, Done)), call);
    }
    equals_at(
        rt,
        book.take_any(5, Incoming, 0, Rate::Full)?,
        None,
        "none is left",
    );
    Ok(())
}

fn each_begins_on_the_lowest(rt: &impl Abort, book: &mut Book<Global>) -> Result<(), Fail> {
    for (call, trx, tn) in &LOWEST_CHANNELS {
        let opened = book.open_any(*call, 0, Rate::Full)?;
        let wanted = Open(*call, scattered(*trx, *tn));
        equals_at(rt, opened, Some((wanted, Done)), call);
    }
    equals_at(rt, book.open_any(5, 0, Rate::Full)?, None, "none is left");
    Ok(())
}

#[test]
fn calls_begin_on_the_lowest_free_channel(rt: HostRuntime) -> Result<(), Fail> {
    at_a_new_book(&rt, SCATTERED, |rt, book| {
        each_begins_on_the_lowest(rt, book)
    })
}

#[test]
fn the_lowest_free_channel_is_taken(rt: HostRuntime) -> Result<(), Fail> {
    at_a_new_book(&rt, SCATTERED, |rt, book| each_gets_the_lowest(rt, book))
}

// The numbers that calls 1 and 2 reserve, and the one that call 3 gets then.
const LOWEST_NUMBERS: [(u8, u8, u8); 5] = [(0, 1, 2), (0, 2, 1), (2, 1, 0), (1, 0, 2), (255, 0, 1)];

fn gets_the_lowest(
    rt: &impl Abort,
    book: &mut Book<Global>,
    one: u8,
    two: u8,
    three: u8,
) -> Result<(), AllocError> {
    let asks = &[(ReserveAny(3), Some((Reserve(3, three), Done)))];
    are_chosen(rt, book, &[Reserve(1, one), Reserve(2, two)], asks)
}

fn three_come(rt: &impl Abort, book: &mut Book<Global>) -> Result<(), Fail> {
    for call in 1..4u16 {
        book.take_any(call, Incoming, 0, Rate::Full)?;
    }
    for (one, two, three) in &LOWEST_NUMBERS {
        gets_the_lowest(rt, &mut book.copy()?, *one, *two, *three)?;
    }
    Ok(())
}

#[test]
fn the_lowest_free_number_is_reserved(rt: HostRuntime) -> Result<(), Fail> {
    at_a_new_book(&rt, SCATTERED, |rt, book| three_come(rt, book))
}
