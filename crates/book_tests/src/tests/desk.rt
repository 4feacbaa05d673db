//! A desk goes on: each answer is an entry of its history, and the last receipt of its seat.
use super::Ask::{OpenAny, ReserveAny, Step, TakeAny};
use super::{Ask, Entry, at_a_new_desk, equals_at, holds};
use channel_fsm::Rate;
use radio_book::event::Event::{Activate, Command, Confirm, Look, Open, Reserve, Take};
use radio_book::event::Kind;
use radio_book::event::Refusal::{CallExists, ChannelBusy, NoCall, WrongPhase};
use radio_book::event::Reply::{Done, Owned, Refused};
use radio_desk::desk::{Desk, DeskFault};
use radio_desk::seat::{Receipt, Seat};
use sample_sites::{HOME, OTHER, TARGET};
use std::alloc::{Allocator, Global};
use std::process::Abort;
use std::test::Fail;

pub(super) fn put<A: Allocator + Copy>(
    desk: &mut Desk<A>,
    seat: &mut Seat,
    ask: Ask,
) -> Result<Option<Receipt>, DeskFault> {
    match ask {
        Step(event) => desk.judge(seat, event).map(Some),
        TakeAny(call, kind, cell) => desk.judge_take(seat, call, kind, cell, Rate::Full),
        OpenAny(call, cell) => desk.judge_open(seat, call, cell, Rate::Full),
        ReserveAny(call) => desk.judge_reserve(seat, call).map(Some),
    }
}

// Call 1 comes to rest, moves to cell 1 and back; refused events are entries too, and a cell without a free channel isn't.
pub(super) const COURSE: &[(Ask, Entry)] = &[
    (Step(Open(1, HOME)), Some((Open(1, HOME), Done))),
    (
        Step(Open(2, HOME)),
        Some((Open(2, HOME), Refused(ChannelBusy(HOME)))),
    ),
    (Step(Confirm(HOME)), Some((Confirm(HOME), Owned(1)))),
    (ReserveAny(1), Some((Reserve(1, 0), Refused(WrongPhase)))),
    (TakeAny(1, Kind::Internal, 7), None),
    (
        TakeAny(1, Kind::Internal, 1),
        Some((Take(1, Kind::Internal, TARGET), Done)),
    ),
    (TakeAny(2, Kind::Incoming, 1), None),
    (ReserveAny(1), Some((Reserve(1, 0), Done))),
    (Step(Look(2)), Some((Look(2), Refused(NoCall)))),
    (Step(Activate(1)), Some((Activate(1), Done))),
    (
        TakeAny(1, Kind::Internal, 0),
        Some((Take(1, Kind::Internal, OTHER), Refused(WrongPhase))),
    ),
    (Step(Confirm(TARGET)), Some((Confirm(TARGET), Owned(1)))),
    (Step(Command(1)), Some((Command(1), Done))),
];

// The receipt that the entry gets at a place.
fn receipt_of(place: usize, entry: Entry) -> Option<Receipt> {
    entry.map(|(event, reply)| Receipt {
        place,
        event,
        reply,
    })
}

// An ask leads to this entry, and to its receipt.
fn leads_to(
    rt: &impl Abort,
    desk: &mut Desk<Global>,
    seat: &mut Seat,
    ask: Ask,
    entry: Entry,
) -> Result<(), Fail> {
    let place = desk.len();
    let last = seat.last();
    let expected = receipt_of(place, entry);
    equals_at(rt, put(desk, seat, ask)?, expected, ask);
    equals_at(rt, seat.last(), expected.or(last), ask);
    equals_at(rt, desk.entry(place).copied(), entry, ask);
    Ok(())
}

fn play(
    rt: &impl Abort,
    desk: &mut Desk<Global>,
    seat: &mut Seat,
    course: &[(Ask, Entry)],
) -> Result<(), Fail> {
    for (ask, entry) in course {
        leads_to(rt, desk, seat, *ask, *entry)?;
    }
    Ok(())
}

// The history has so many entries, and none behind them.
fn has_entries(rt: &impl Abort, desk: &Desk<Global>, count: usize) {
    equals_at(rt, desk.len(), count, "the entries of a desk");
    equals_at(
        rt,
        desk.entry(count).copied(),
        None,
        "the entry behind the last",
    );
}

// The opening book stays, and the book goes on.
fn has_books(rt: &impl Abort, desk: &Desk<Global>) {
    equals_at(
        rt,
        desk.opening().usage(),
        holds(0, 0, 0, 0),
        "the opening book",
    );
    equals_at(rt, desk.book().usage(), holds(2, 1, 1, 1), "the book");
}

// A call begins on the free channel of cell 0, and none is left there.
const BEGINNING: &[(Ask, Entry)] = &[
    (OpenAny(1, 0), Some((Open(1, OTHER), Refused(CallExists)))),
    (OpenAny(2, 7), None),
    (OpenAny(2, 0), Some((Open(2, OTHER), Done))),
    (OpenAny(1, 0), None),
    (OpenAny(3, 0), None),
];

fn begins(rt: &impl Abort, desk: &mut Desk<Global>) -> Result<(), Fail> {
    let mut seat = Seat::new();
    play(rt, desk, &mut seat, COURSE)?;
    play(rt, desk, &mut seat, BEGINNING)?;
    has_entries(rt, desk, 13);
    Ok(())
}

#[test]
fn a_call_begins_on_a_free_channel(rt: HostRuntime) -> Result<(), Fail> {
    at_a_new_desk(&rt, |rt, desk| begins(rt, desk))
}

fn goes_on(rt: &impl Abort, desk: &mut Desk<Global>) -> Result<(), Fail> {
    let mut seat = Seat::new();
    equals_at(rt, seat.last(), None, "the receipt of a new seat");
    has_entries(rt, desk, 0);
    play(rt, desk, &mut seat, COURSE)?;
    has_entries(rt, desk, 11);
    has_books(rt, desk);
    Ok(())
}

#[test]
fn each_answer_is_an_entry_and_the_last_receipt(rt: HostRuntime) -> Result<(), Fail> {
    at_a_new_desk(&rt, |rt, desk| goes_on(rt, desk))
}

// A fault is printed so.
fn is_printed(rt: &(impl AllocGlobal + Abort), fault: DeskFault, wanted: &str) -> Result<(), Fail> {
    let text = format!(in rt.alloc(); "{fault}")?;
    equals_at(rt, text.as_str(), wanted, fault);
    Ok(())
}

#[test]
fn faults_are_printed(rt: HostRuntime) -> Result<(), Fail> {
    let foreign = DeskFault::Foreign(7);
    is_printed(&rt, foreign, "the receipt of place 7 is of another desk")?;
    is_printed(&rt, DeskFault::NoMemory, "memory was refused")
}
