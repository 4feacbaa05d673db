//! All settled attempts of a desk's history, taken out together, as they were worked out by hand; and the marks of one.
use super::{
    ACTIVATE, RELEASED, RESERVE, TAKE, UNDO, all_but, at_a_new_book, desk_of, equals_at, holds_at,
};
use radio_book::book::Book;
use radio_book::event::Event;
use radio_book::event::Event::{Confirm, Open, Reserve, Take, Undo};
use radio_book::event::Kind::Incoming;
use radio_book::event::Why::Asked;
use radio_book::marked::Marks;
use radio_book::marks::marks;
use radio_desk::audit::Audit;
use radio_desk::desk::{Desk, DeskFault};
use radio_desk::seat::Seat;
use refusing_heap::RefusingHeap;
use sample_sites::{HOME, OTHER, TARGET, THREE_CHANNELS};
use std::alloc::{Allocator, Global};
use std::process::Abort;
use std::test::Fail;

// What is judged at a new desk, and what its audit tells: how many attempts, the first held entry, whether the rest is the
// same.
type Row = (&'static [Event], usize, Option<usize>, bool);

const AUDITED: &[Row] = &[
    // the channel that an attempt held was refused to another call
    (
        &[Open(1, HOME), Confirm(HOME), TAKE, Open(2, TARGET), UNDO],
        1,
        Some(3),
        false,
    ),
    // the reference that one attempt held was refused to another, and both were undone
    (
        &[
            Take(8, Incoming, OTHER),
            Take(9, Incoming, HOME),
            Reserve(8, 5),
            Reserve(9, 5),
            Undo(8, Asked),
            Undo(9, Asked),
        ],
        2,
        Some(3),
        true,
    ),
    // the release is awaited
    (
        &[Open(1, HOME), Confirm(HOME), TAKE, RESERVE, ACTIVATE, UNDO],
        0,
        None,
        true,
    ),
    // it has come
    (
        &[
            Open(1, HOME),
            Confirm(HOME),
            TAKE,
            RESERVE,
            ACTIVATE,
            UNDO,
            RELEASED,
        ],
        1,
        None,
        true,
    ),
];

fn judge_all<A: Allocator + Copy>(desk: &mut Desk<A>, events: &[Event]) -> Result<(), DeskFault> {
    let mut seat = Seat::new();
    for event in events {
        desk.judge(&mut seat, *event)?;
    }
    Ok(())
}

fn is_marked(rt: &impl Abort, found: &Marks<Global>, others: &[usize], held: &[usize]) {
    holds_at(rt, found.settled, "settled");
    holds_at(rt, found.others.as_slice() == others, "the others");
    holds_at(rt, found.held.as_slice() == held, "the held");
}

fn refusals_are_marked(rt: &(impl AllocGlobal + Abort), book: &Book<Global>) -> Result<(), Fail> {
    let others = all_but(rt.alloc(), 5, &[2, 4])?;
    let found = marks(rt.alloc(), book, AUDITED[0].0, 2)?;
    is_marked(rt, &found, &others, &[3]);
    Ok(())
}

#[test]
fn refusals_for_what_was_held_are_marked(rt: HostRuntime) -> Result<(), Fail> {
    at_a_new_book(
        &rt,
        THREE_CHANNELS,
        |rt, book| refusals_are_marked(rt, book),
    )
}

// A desk on a heap that refuses requests is audited: where memory was refused that is answered, or, where less did as well,
// what is answered with ample memory.
fn is_audited_or_refused(
    rt: &impl Abort,
    heap: &RefusingHeap,
    desk: &Desk<&RefusingHeap>,
    row: &Row,
) {
    let (_, attempts, held, same) = *row;
    let wanted = Audit {
        attempts,
        held,
        same,
    };
    let at = heap.refusals();
    match desk.audit() {
        Ok(audit) => equals_at(rt, audit, wanted, at),
        Err(_) => holds_at(rt, heap.was_refused(), at),
    }
}

// Plays a row at a desk on the heap, and audits it where that is asked for. How many requests were made, and refused.
fn audited_on<'a>(
    rt: &impl Abort,
    heap: &'a RefusingHeap,
    desk: &mut Desk<&'a RefusingHeap>,
    row: &Row,
    with_audit: bool,
) -> Result<(u64, u64), Fail> {
    judge_all(desk, row.0)?;
    if with_audit {
        is_audited_or_refused(rt, heap, desk, row);
    }
    Ok((heap.requests(), heap.refused()))
}

fn audited_refusing(
    rt: &(impl AllocGlobal + Abort),
    n: u64,
    row: &Row,
    with_audit: bool,
) -> Result<(u64, u64), Fail> {
    let heap = RefusingHeap::refusing_nth(rt.alloc(), n);
    let mut desk = desk_of(&heap, rt.alloc())?;
    audited_on(rt, &heap, &mut desk, row, with_audit)
}

// Each request of the audit is refused in turn, until one meets no refusal.
fn meets_each_refusal(rt: &(impl AllocGlobal + Abort), row: &Row) -> Result<(), Fail> {
    let (made, _) = audited_refusing(rt, u64::MAX, row, false)?;
    let mut tried = 0u64;
    for n in 1..100 {
        let (_, refused) = audited_refusing(rt, made.saturating_add(n), row, true)?;
        if refused == 0 {
            break;
        }
        tried = n;
    }
    holds_at(rt, 2 <= tried && tried < 99, tried);
    Ok(())
}

#[test]
fn each_refusal_of_memory_in_an_audit_is_answered(rt: HostRuntime) -> Result<(), Fail> {
    for row in AUDITED {
        meets_each_refusal(&rt, row)?;
    }
    Ok(())
}
