//! That a heap counts the requests for memory, and refuses those that it is made to: no clause says that.
use refusing_heap::{Refusals, RefusingHeap};
use std::alloc::Allocator;
use std::process::Abort;
use std::test::Fail;
use std::thread;

/// So many requests were made, and so many of them refused.
fn counts(rt: &impl Abort, heap: &RefusingHeap, requests: u64, refused: u64) {
    assert_eq!(rt;
        (heap.requests(), heap.refused()),
        (requests, refused),
        "{:?}",
        heap.refusals()
    );
}

/// Refusals, and whether each of five requests is refused.
const ANSWERS: &[(Refusals, &[bool])] = &[
    (Refusals::Never, &[false, false, false, false, false]),
    (Refusals::Nth(1), &[true, false, false, false, false]),
    (Refusals::Nth(4), &[false, false, false, true, false]),
    (Refusals::Nth(6), &[false, false, false, false, false]),
    (Refusals::From(1), &[true, true, true, true, true]),
    (Refusals::From(4), &[false, false, false, true, true]),
    (Refusals::From(6), &[false, false, false, false, false]),
];

/// Each request of a row is answered as the row says, and is counted at once.
fn asks(rt: &impl Abort, heap: &RefusingHeap, row: &[bool]) {
    let (mut requests, mut refused) = (0u64, 0u64);
    for refuses in row {
        let answer = Box::new(heap, 7u64).is_err();
        assert_eq!(rt; answer, *refuses, "{:?}", heap.refusals());
        requests = requests.saturating_add(1);
        refused = refused.saturating_add(u64::from(*refuses));
        counts(rt, heap, requests, refused);
        assert_eq!(rt; heap.was_refused(), refused != 0);
    }
}

#[test]
fn requests_are_counted_and_refused(rt: HostRuntime) {
    for (refusals, row) in ANSWERS {
        asks(&rt, &RefusingHeap::new(rt.alloc(), *refusals), *row);
    }
}

#[test]
fn every_request_is_refused_from_now_on(rt: HostRuntime) -> Result<(), Fail> {
    let heap = RefusingHeap::ample(rt.alloc());
    let kept = Box::new(&heap, 7u64)?;
    heap.refuse_from_now();
    assert!(rt; !heap.was_refused());
    for _ in 0..3 {
        assert!(rt; Box::new(&heap, 8u64).is_err());
    }
    counts(&rt, &heap, 4, 3);
    assert_eq!(rt; *kept, 7);
    Ok(())
}

#[test]
fn giving_back_is_no_request(rt: HostRuntime) -> Result<(), Fail> {
    let heap = RefusingHeap::refusing_from(rt.alloc(), 2);
    let kept = Box::new(&heap, 7u64)?;
    drop(kept);
    counts(&rt, &heap, 1, 0);
    Ok(())
}

// A refused shrinking keeps the room, and is no error.
fn shrinks<'a>(
    rt: &impl Abort,
    heap: &'a RefusingHeap,
    items: &mut Vec<u64, &'a RefusingHeap>,
    room: usize,
    requests: u64,
) {
    items.shrink_to_fit();
    assert_eq!(rt; items.capacity(), room);
    counts(rt, heap, requests, 1);
    assert_eq!(rt; items.as_slice(), [7].as_slice());
}

#[test]
fn shrinking_is_a_request(rt: HostRuntime) -> Result<(), Fail> {
    let heap = RefusingHeap::refusing_nth(rt.alloc(), 2);
    let mut items = Vec::with_capacity(&heap, 10)?;
    items.push_reserved(7u64);
    shrinks(&rt, &heap, &mut items, 10, 2);
    shrinks(&rt, &heap, &mut items, 1, 3);
    Ok(())
}

// Makes 50 requests, and returns how many were refused.
fn refused_of_fifty<A: Allocator + Copy>(alloc: A) -> u64 {
    let mut refused = 0u64;
    for item in 0..50u64 {
        if Box::new(alloc, item).is_err() {
            refused = refused.saturating_add(1);
        }
    }
    refused
}

/// Refusals, and how many of a hundred requests they refuse.
const SHARED: &[(Refusals, u64)] = &[
    (Refusals::Never, 0),
    (Refusals::Nth(60), 1),
    (Refusals::From(60), 41),
];

#[test]
fn two_threads_share_a_heap(rt: HostRuntime) {
    for (refusals, refused) in SHARED {
        let heap = RefusingHeap::new(rt.alloc(), *refusals);
        let shared = &heap;
        let (one, other) = thread::join(
            &rt,
            move || refused_of_fifty(shared),
            move || refused_of_fifty(shared),
        );
        assert_eq!(rt; one.saturating_add(other), *refused, "{refusals:?}");
        counts(&rt, &heap, 100, *refused);
    }
}

#[test]
fn a_thread_takes_a_leaked_heap(rt: HostRuntime) -> Result<(), Fail> {
    let alloc = rt.alloc();
    let heap: &'static RefusingHeap = Box::leak(Box::new(alloc, RefusingHeap::ample(alloc))?);
    let mut items = Vec::new(heap);
    items.push(7u64)?;
    let child = thread::spawn(&rt, move || {
        heap.refuse_from_now();
        (items, refused_of_fifty(heap))
    });
    let (items, refused) = child.map_err(|_| "no thread")?.join(&rt);
    assert_eq!(rt; items.as_slice(), [7].as_slice());
    assert_eq!(rt; refused, 50);
    counts(&rt, heap, 51, 50);
    Ok(())
}
