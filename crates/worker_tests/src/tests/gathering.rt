//! Receipts that are a desk's history, and what is said where they aren't.
use super::offices::empty_desk;
use call_worker::{CloseFault, gather};
use radio_book::event::{Event, Reply};
use radio_desk::desk::Desk;
use radio_desk::seat::{Receipt, Seat};
use refusing_heap::RefusingHeap;
use sample_sites::{HOME, OTHER, THREE_CHANNELS};
use std::alloc::{AllocError, Allocator, Global};
use std::process::Abort;
use std::test::Fail;

/// What two callers ask in turns.
const FIRST: &[Event] = &[Event::Open(1, HOME), Event::Confirm(HOME)];

const SECOND: &[Event] = &[Event::Open(2, OTHER), Event::Look(2)];

/// The receipts of one caller.
fn ask_all<A: Allocator + Copy>(
    alloc: A,
    desk: &mut Desk<A>,
    events: &[Event],
) -> Result<Vec<Receipt, A>, Fail> {
    let mut seat = Seat::new();
    let mut receipts = Vec::new(alloc);
    for event in events {
        receipts.push(desk.judge(&mut seat, *event)?)?;
    }
    Ok(receipts)
}

/// Two lists.
fn both<A: Allocator + Copy>(
    alloc: A,
    first: &[Receipt],
    second: &[Receipt],
) -> Result<Vec<Vec<Receipt, A>, A>, AllocError> {
    let mut lists = Vec::new(alloc);
    lists.push(Vec::from_slice(alloc, first)?)?;
    lists.push(Vec::from_slice(alloc, second)?)?;
    Ok(lists)
}

/// The answer about the receipts of two callers.
fn answer(
    alloc: Global,
    desk: &Desk<Global>,
    first: &[Receipt],
    second: &[Receipt],
) -> Result<Result<(), CloseFault>, AllocError> {
    let lists = both(alloc, first, second)?;
    Ok(gather(alloc, desk, &lists))
}

/// What is said of receipts, without the receipt that isn't an entry.
#[derive(Clone, Copy, Debug, PartialEq, Eq)]
enum Said {
    Whole,
    Missing(usize),
    Twice(usize),
    Count,
    NoMemory,
    Other,
}

fn said_by(answer: Result<(), CloseFault>) -> Said {
    match answer {
        Ok(()) => Said::Whole,
        Err(CloseFault::Missing(receipt)) => Said::Missing(receipt.place),
        Err(CloseFault::Twice(place)) => Said::Twice(place),
        Err(CloseFault::Count) => Said::Count,
        Err(CloseFault::NoMemory) => Said::NoMemory,
        Err(CloseFault::Opening) => Said::Other,
    }
}

/// This is said of the receipts of two callers.
fn is_said(
    rt: &(impl AllocGlobal + Abort),
    desk: &Desk<Global>,
    first: &[Receipt],
    second: &[Receipt],
    wanted: Said,
) -> Result<(), Fail> {
    let said = said_by(answer(rt.alloc(), desk, first, second)?);
    assert!(rt; said == wanted, "{said:?}");
    Ok(())
}

/// A list, and some more receipts behind it.
fn with_more(
    alloc: Global,
    head: &[Receipt],
    more: &[Receipt],
) -> Result<Vec<Receipt>, AllocError> {
    let mut list = Vec::from_slice(alloc, head)?;
    for receipt in more {
        list.push(*receipt)?;
    }
    Ok(list)
}

/// The lists as they are; the last receipt repeated, and left out; and it with another reply, and with another event.
pub fn are_compared(
    rt: &(impl AllocGlobal + Abort),
    desk: &Desk<Global>,
    first: &[Receipt],
    second: &[Receipt],
) -> Result<(), Fail> {
    let alloc = rt.alloc();
    let (last, head) = second.split_last().ok_or("no receipt")?;
    let last = *last;
    let place = last.place;
    let replied = Receipt {
        reply: Reply::Owned(1),
        ..last
    };
    let asked = Receipt {
        event: Event::Look(1),
        ..last
    };
    is_said(rt, desk, first, second, Said::Whole)?;
    let twice = with_more(alloc, head, &[last, last])?;
    is_said(rt, desk, first, &twice, Said::Twice(place))?;
    is_said(rt, desk, first, head, Said::Count)?;
    let replied = with_more(alloc, head, &[replied])?;
    is_said(rt, desk, first, &replied, Said::Missing(place))?;
    let asked = with_more(alloc, head, &[last, asked])?;
    is_said(rt, desk, first, &asked, Said::Missing(place))
}

/// How many requests a heap had before a look at the receipts of two callers, which are whole; one that is refused is told.
fn requests_before(rt: &impl Abort, scratch: Global, heap: &RefusingHeap) -> Result<u64, Fail> {
    let mut desk = empty_desk(heap, scratch, THREE_CHANNELS)?;
    let first = ask_all(heap, &mut desk, FIRST)?;
    let second = ask_all(heap, &mut desk, SECOND)?;
    let lists = both(heap, &first, &second)?;
    let before = heap.requests();
    let said = said_by(gather(heap, &desk, &lists));
    let wanted = if heap.was_refused() {
        Said::NoMemory
    } else {
        Said::Whole
    };
    assert!(rt; said == wanted, "{said:?}");
    Ok(before)
}

#[test]
fn each_refusal_of_a_look_at_receipts_is_told(rt: HostRuntime) -> Result<(), Fail> {
    let before = requests_before(&rt, rt.alloc(), &RefusingHeap::ample(rt.alloc()))?;
    let mut refused = 0u64;
    for n in 1..100 {
        let heap = RefusingHeap::refusing_nth(rt.alloc(), before.saturating_add(n));
        requests_before(&rt, rt.alloc(), &heap)?;
        if !heap.was_refused() {
            break;
        }
        refused = n;
    }
    assert!(&rt; 0 < refused && refused < 99, "{refused}");
    Ok(())
}
