//! A seat whose last receipt is from another desk.
use super::Ask::{ReserveAny, Step, TakeAny};
use super::desk::put;
use super::{Ask, at_a_new_desk, equals_at};
use radio_book::event::Event::{Clear, Confirm, Look, Open, Order, Require, Reserve, Take, Undo};
use radio_book::event::Timer::T8;
use radio_book::event::Why::{Asked, Expired};
use radio_book::event::{Event, Kind};
use radio_desk::desk::{Desk, DeskFault};
use radio_desk::seat::Seat;
use sample_sites::{HOME, OTHER, TARGET};
use std::alloc::Global;
use std::process::Abort;
use std::test::Fail;

// A desk that opens with the book of another.
fn copy_of(opening: &Desk<Global>, alloc: Global) -> Result<Desk<Global>, Fail> {
    Ok(Desk::new(alloc, opening.book().copy()?)?)
}

// Asks the events at a desk.
fn judge_all(desk: &mut Desk<Global>, seat: &mut Seat, events: &[Event]) -> Result<(), Fail> {
    for event in events {
        desk.judge(seat, *event)?;
    }
    Ok(())
}

// A seat with which the events were asked at a desk.
fn seat_at(desk: &mut Desk<Global>, events: &[Event]) -> Result<Seat, Fail> {
    let mut seat = Seat::new();
    judge_all(desk, &mut seat, events)?;
    Ok(seat)
}

// A seat with which the events were asked at a desk that opens with the book of another.
fn seat_after(opening: &Desk<Global>, alloc: Global, events: &[Event]) -> Result<Seat, Fail> {
    seat_at(&mut copy_of(opening, alloc)?, events)
}

// Two courses whose last entries differ: in the event alone, and in the reply alone.
const OTHER_ENTRIES: [(&[Event], &[Event]); 12] = [
    (&[Look(1)], &[Look(2)]),
    (&[Look(1)], &[Require(1)]),
    (&[Undo(1, Asked)], &[Undo(1, Expired(T8))]),
    (
        &[Open(1, HOME), Confirm(HOME)],
        &[Open(2, HOME), Confirm(HOME)],
    ),
    (&[Open(1, HOME), Confirm(HOME)], &[Look(1), Confirm(HOME)]),
    (
        &[Open(1, HOME), Open(1, HOME)],
        &[Open(2, HOME), Open(1, HOME)],
    ),
    (&[Open(1, HOME), Look(1)], &[Open(1, OTHER), Look(1)]),
    (
        &[Open(1, HOME), Confirm(HOME), Look(1)],
        &[Open(1, HOME), Look(1), Look(1)],
    ),
    (&[Open(1, HOME), Clear(1)], &[Look(1), Clear(1)]),
    (
        &[Open(1, HOME), Confirm(HOME), Require(1), Look(1)],
        &[
            Open(1, HOME),
            Confirm(HOME),
            Take(1, Kind::Internal, TARGET),
            Look(1),
        ],
    ),
    (
        &[Open(1, HOME), Confirm(HOME), Require(1), Order(1), Look(1)],
        &[Open(1, HOME), Confirm(HOME), Require(1), Look(1), Look(1)],
    ),
    (
        &[Take(1, Kind::Incoming, TARGET), Reserve(1, 0), Look(1)],
        &[Take(1, Kind::Incoming, TARGET), Reserve(1, 1), Look(1)],
    ),
];

const ASKS: [Ask; 4] = [
    Step(Look(1)),
    Step(Open(3, TARGET)),
    TakeAny(3, Kind::Incoming, 1),
    ReserveAny(1),
];

// Each call of the desk refuses the seat, whose last receipt is of this place, and leaves both as they were.
fn refuses(rt: &impl Abort, desk: &mut Desk<Global>, seat: &mut Seat, place: usize) {
    for ask in &ASKS {
        let (len, last) = (desk.len(), seat.last());
        equals_at(
            rt,
            put(desk, seat, *ask),
            Err(DeskFault::Foreign(place)),
            ask,
        );
        equals_at(rt, (desk.len(), seat.last()), (len, last), ask);
    }
}

// A desk at which the events were judged refuses the seat.
fn refuses_after(
    rt: &impl Abort,
    desk: &mut Desk<Global>,
    seat: &mut Seat,
    events: &[Event],
    place: usize,
) -> Result<(), Fail> {
    judge_all(desk, &mut Seat::new(), events)?;
    equals_at(rt, desk.len(), events.len(), events);
    refuses(rt, desk, seat, place);
    Ok(())
}

// The receipt of one course is refused at a desk at which the other was judged.
fn is_told_apart(
    rt: &(impl AllocGlobal + Abort),
    opening: &Desk<Global>,
    one: &[Event],
    other: &[Event],
) -> Result<(), Fail> {
    let mut seat = seat_after(opening, rt.alloc(), one)?;
    let place = one.len().saturating_sub(1);
    let mut desk = copy_of(opening, rt.alloc())?;
    refuses_after(rt, &mut desk, &mut seat, other, place)
}

fn are_told_apart(rt: &(impl AllocGlobal + Abort), opening: &Desk<Global>) -> Result<(), Fail> {
    for (one, other) in &OTHER_ENTRIES {
        is_told_apart(rt, opening, one, other)?;
        is_told_apart(rt, opening, other, one)?;
    }
    Ok(())
}

#[test]
fn another_event_or_reply_is_foreign(rt: HostRuntime) -> Result<(), Fail> {
    at_a_new_desk(&rt, |rt, opening| are_told_apart(rt, opening))
}

#[test]
fn a_receipt_of_a_place_past_the_end_is_foreign(rt: HostRuntime) -> Result<(), Fail> {
    at_a_new_desk(&rt, |rt, opening| {
        is_told_apart(rt, opening, &[Look(1), Look(1)], &[Look(1)])
    })
}

#[test]
fn a_receipt_is_foreign_at_a_new_desk(rt: HostRuntime) -> Result<(), Fail> {
    at_a_new_desk(
        &rt,
        |rt, opening| is_told_apart(rt, opening, &[Look(1)], &[]),
    )
}
