//! Seats at a desk under a lock.
use super::controllers::{empty_desk, shared_site};
use channel_fsm::Rate;
use ho_procedure::shared::Shared;
use ho_procedure::view::DeskView;
use radio_book::event::{Event, Kind};
use radio_desk::desk::{Desk, DeskFault};
use radio_desk::seat::Receipt;
use refusing_heap::RefusingHeap;
use sample_sites::{HOME, OTHER, THREE_CHANNELS};
use std::alloc::{Allocator, Global};
use std::mem;
use std::process::Abort;
use std::sync::{Arc, Mutex, Wait};
use std::test::Fail;

/// A desk under a lock, at which nothing was asked.
type Lock<A> = Arc<Mutex<Desk<A>>, A>;

/// A new desk with an empty book.
fn new_desk<A: Allocator + Copy>(alloc: A, scratch: Global) -> Result<Desk<A>, Fail> {
    empty_desk(alloc, &shared_site(alloc, scratch, THREE_CHANNELS)?)
}

/// A new desk under a lock.
fn locked<A: Allocator + Copy>(alloc: A, scratch: Global) -> Result<Lock<A>, Fail> {
    Ok(Arc::new(alloc, Mutex::new(new_desk(alloc, scratch)?))?)
}

/// The receipts have these places.
fn have_places(rt: &impl Abort, receipts: &[Receipt], places: &[usize]) {
    assert_eq!(rt; receipts.len(), places.len());
    for (receipt, place) in receipts.iter().zip(places) {
        assert_eq!(rt; receipt.place, *place);
    }
}

/// Two seats ask in turn. A Take that finds no free channel is no entry.
fn ask_in_turn(rt: &(impl Wait + Abort), alloc: Global) -> Result<(), Fail> {
    let lock = locked(alloc, alloc)?;
    let mut one = Shared::new(rt, alloc, lock.clone()?);
    let mut other = Shared::new(rt, alloc, lock.clone()?);
    one.judge(Event::Open(1, HOME))?;
    other.judge(Event::Open(2, OTHER))?;
    one.judge(Event::Confirm(HOME))?;
    let taken = one.judge_take(1, Kind::Internal, 1, Rate::Full)?;
    let none = other.judge_take(2, Kind::Internal, 1, Rate::Full)?;
    assert!(rt; taken.is_some() && none.is_none());
    one.judge_reserve(1)?;
    let opened = other.judge_open(3, 1, Rate::Full)?;
    assert!(rt; opened.is_none());
    have_places(rt, &one.into_receipts(), &[0, 2, 3, 4]);
    have_places(rt, &other.into_receipts(), &[1]);
    Ok(())
}

#[test]
fn the_receipts_of_a_seat_rise(rt: HostRuntime) -> Result<(), Fail> {
    ask_in_turn(&rt, rt.alloc())
}

/// The desk is exchanged for another, at which nothing was asked. The seat's last receipt is of place 1.
fn ask_another(rt: &(impl Wait + Abort), alloc: Global) -> Result<(), Fail> {
    let lock = locked(alloc, alloc)?;
    let mut seat = Shared::new(rt, alloc, lock.clone()?);
    seat.judge(Event::Look(1))?;
    seat.judge(Event::Look(1))?;
    let _first = mem::replace(&mut *lock.lock(rt), new_desk(alloc, alloc)?);
    let asked = seat.judge(Event::Look(1)) == Err(DeskFault::Foreign(1));
    let took = seat.judge_take(1, Kind::Incoming, 0, Rate::Full) == Err(DeskFault::Foreign(1));
    let opened = seat.judge_open(1, 0, Rate::Full) == Err(DeskFault::Foreign(1));
    let reserved = seat.judge_reserve(1) == Err(DeskFault::Foreign(1));
    assert!(rt; asked && took && opened && reserved);
    assert_eq!(rt; lock.lock(rt).len(), 0);
    have_places(rt, &seat.into_receipts(), &[0, 1]);
    Ok(())
}

#[test]
fn an_exchanged_desk_is_foreign(rt: HostRuntime) -> Result<(), Fail> {
    ask_another(&rt, rt.alloc())
}

/// The history has room, since another seat asked; the seat has none for a receipt.
fn ask_without_room(
    rt: &(impl Wait + Abort),
    heap: &RefusingHeap,
    scratch: Global,
) -> Result<(), Fail> {
    let lock = locked(heap, scratch)?;
    Shared::new(rt, heap, lock.clone()?).judge(Event::Look(1))?;
    let mut seat = Shared::new(rt, heap, lock.clone()?);
    heap.refuse_from_now();
    let asked = seat.judge(Event::Look(1)) == Err(DeskFault::NoMemory);
    let took = seat.judge_take(1, Kind::Internal, 0, Rate::Full) == Err(DeskFault::NoMemory);
    let opened = seat.judge_open(1, 0, Rate::Full) == Err(DeskFault::NoMemory);
    let reserved = seat.judge_reserve(1) == Err(DeskFault::NoMemory);
    assert!(rt; asked && took && opened && reserved);
    assert_eq!(rt; heap.refused(), 4);
    assert_eq!(rt; lock.lock(rt).len(), 1);
    have_places(rt, &seat.into_receipts(), &[]);
    Ok(())
}

#[test]
fn nothing_is_asked_without_room_for_the_receipt(rt: HostRuntime) -> Result<(), Fail> {
    ask_without_room(&rt, &RefusingHeap::ample(rt.alloc()), rt.alloc())
}
