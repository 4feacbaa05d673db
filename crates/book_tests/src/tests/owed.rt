//! What is owed at a desk goes through where every request for memory is refused, and asks for none.
use super::{ACTIVATE, RELEASED, RESERVE, STEADY, TAKE, UNDO, desk_of, equals_at, holds_at};
use channel_fsm::ChanState::On;
use channel_fsm::Rate;
use radio_book::event::Event::{Look, Released, Undo};
use radio_book::event::Kind::Incoming;
use radio_book::event::Reply::{Done, Record};
use radio_book::event::Why::Asked;
use radio_book::event::{Attempt, AttemptKind, CallRecord, Event, Reply, Stage};
use radio_desk::desk::{Desk, DeskFault};
use radio_desk::seat::Seat;
use refusing_heap::RefusingHeap;
use sample_sites::{HOME, TARGET};
use std::process::Abort;
use std::test::Fail;

// What is owed, and what is answered: the record of call 1 as it was before its undo, and that the release has come.
const OWED: &[(Event, Reply)] = &[
    (
        UNDO,
        Record(
            CallRecord {
                serving: Some(HOME),
                attempt: Some(Attempt {
                    kind: AttemptKind::Internal,
                    stage: Stage::Sent,
                    target: Some(TARGET),
                    reference: Some(0),
                }),
            },
            Some(On(1)),
        ),
    ),
    (RELEASED, Done),
];

// Events that would be owed, where the book refuses them.
const NOT_OWED: &[Event] = &[Undo(2, Asked), Released(HOME), RELEASED];

// Asks the events at a desk.
fn judge_all(
    desk: &mut Desk<&RefusingHeap>,
    seat: &mut Seat,
    events: &[Event],
) -> Result<(), DeskFault> {
    for event in events {
        desk.judge(seat, *event)?;
    }
    Ok(())
}

// Whether the event is answered by a lack of memory. It is just where a request was refused.
fn is_refused_memory(
    rt: &impl Abort,
    heap: &RefusingHeap,
    desk: &mut Desk<&RefusingHeap>,
    seat: &mut Seat,
    event: Event,
) -> bool {
    let before = heap.refused();
    let is_refused = desk.judge(seat, event) == Err(DeskFault::NoMemory);
    equals_at(rt, is_refused, heap.refused() != before, event);
    is_refused
}

// Asks for a look at call 1 until memory is refused. Whether it was.
fn looks_until_refused(
    rt: &impl Abort,
    heap: &RefusingHeap,
    desk: &mut Desk<&RefusingHeap>,
    seat: &mut Seat,
) -> bool {
    for _ in 0..100u8 {
        if is_refused_memory(rt, heap, desk, seat, Look(1)) {
            return true;
        }
    }
    false
}

// A refused event doesn't use the room that is kept.
fn refused_events_wait(
    rt: &impl Abort,
    heap: &RefusingHeap,
    desk: &mut Desk<&RefusingHeap>,
    seat: &mut Seat,
) {
    for event in NOT_OWED {
        let is_refused = is_refused_memory(rt, heap, desk, seat, *event);
        holds_at(rt, is_refused, *event);
    }
}

// What is owed is answered, and so is that no channel of a cell is free. Nothing is asked of the heap.
fn owed_events_go_through(
    rt: &impl Abort,
    heap: &RefusingHeap,
    desk: &mut Desk<&RefusingHeap>,
    seat: &mut Seat,
) -> Result<(), DeskFault> {
    let before = heap.requests();
    equals_at(
        rt,
        desk.judge_take(seat, 2, Incoming, 1, Rate::Full)?,
        None,
        "a free channel",
    );
    equals_at(
        rt,
        desk.judge_open(seat, 2, 1, Rate::Full)?,
        None,
        "a free channel for a call",
    );
    for (event, reply) in OWED {
        equals_at(rt, desk.judge(seat, *event)?.reply, *reply, *event);
    }
    equals_at(rt, heap.requests(), before, "no request");
    Ok(())
}

// An attempt comes to the stage `Sent`. Then every request is refused, and once a look was refused its undo is answered, and
// the release of its target.
fn goes_through(
    rt: &impl Abort,
    heap: &RefusingHeap,
    desk: &mut Desk<&RefusingHeap>,
) -> Result<(), DeskFault> {
    let mut seat = Seat::new();
    judge_all(desk, &mut seat, STEADY)?;
    judge_all(desk, &mut seat, &[TAKE, RESERVE, ACTIVATE])?;
    heap.refuse_from_now();
    let is_refused = looks_until_refused(rt, heap, desk, &mut seat);
    holds_at(rt, is_refused, "a look");
    refused_events_wait(rt, heap, desk, &mut seat);
    owed_events_go_through(rt, heap, desk, &mut seat)
}

fn goes_through_at(rt: &(impl AllocGlobal + Abort), heap: &RefusingHeap) -> Result<(), Fail> {
    let mut desk = desk_of(heap, rt.alloc())?;
    Ok(goes_through(rt, heap, &mut desk)?)
}

#[test]
fn an_undo_and_a_release_need_no_memory(rt: HostRuntime) -> Result<(), Fail> {
    let heap = RefusingHeap::ample(rt.alloc());
    goes_through_at(&rt, &heap)
}
