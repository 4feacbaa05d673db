//! Memory is refused in each call of a desk.
use super::desk::{COURSE, put};
use super::{Ask, Entry, book_of, equals_at, holds_at};
use radio_book::book::{Book, Usage};
use radio_book::event::Event::Open;
use radio_desk::desk::{Desk, DeskFault};
use radio_desk::seat::{Receipt, Seat};
use refusing_heap::RefusingHeap;
use sample_sites::{OTHER, THREE_CHANNELS};
use std::alloc::AllocError;
use std::process::Abort;
use std::test::Fail;

// What a desk and a seat show, which takes no memory.
fn shown(desk: &Desk<&RefusingHeap>, seat: &Seat) -> (usize, Usage, Usage, Option<Receipt>) {
    (
        desk.len(),
        desk.opening().usage(),
        desk.book().usage(),
        seat.last(),
    )
}

// Asks until memory is refused; then desk and seat are as they were. Whether it was.
fn asks_all(
    rt: &impl Abort,
    heap: &RefusingHeap,
    desk: &mut Desk<&RefusingHeap>,
    course: &[(Ask, Entry)],
) -> bool {
    let mut seat = Seat::new();
    for (ask, _) in course {
        let before = shown(desk, &seat);
        let refused = heap.refused();
        let answer = put(desk, &mut seat, *ask);
        equals_at(
            rt,
            answer == Err(DeskFault::NoMemory),
            heap.refused() != refused,
            ask,
        );
        if answer.is_err() {
            equals_at(rt, shown(desk, &seat), before, ask);
            return true;
        }
    }
    false
}

// A book with a call, of which a copy takes memory.
fn book_with_a_call<'a>(
    rt: &impl AllocGlobal,
    heap: &'a RefusingHeap,
) -> Result<Book<&'a RefusingHeap>, Fail> {
    let mut book = book_of(heap, rt.alloc(), THREE_CHANNELS)?;
    book.step(Open(5, OTHER))?;
    Ok(book)
}

// Asks the course of a desk that opens with the book, unless memory was refused for it. Whether it was refused.
fn is_refused_at(
    rt: &impl Abort,
    heap: &RefusingHeap,
    made: Result<Desk<&RefusingHeap>, AllocError>,
) -> bool {
    equals_at(rt, made.is_err(), heap.was_refused(), "a desk is made");
    match made {
        Ok(mut desk) => asks_all(rt, heap, &mut desk, COURSE),
        Err(_) => true,
    }
}

fn is_refused_on(rt: &(impl AllocGlobal + Abort), heap: &RefusingHeap) -> Result<bool, Fail> {
    let book = book_with_a_call(rt, heap)?;
    Ok(is_refused_at(rt, heap, Desk::new(heap, book)))
}

// Asks the course with a heap that refuses the n-th request after those of the book. Whether there was one.
fn meets_refusal(rt: &(impl AllocGlobal + Abort), made: u64, n: u64) -> Result<bool, Fail> {
    let heap = RefusingHeap::refusing_nth(rt.alloc(), made.saturating_add(n));
    is_refused_on(rt, &heap)
}

fn make_book(rt: &impl AllocGlobal, heap: &RefusingHeap) -> Result<(), Fail> {
    book_with_a_call(rt, heap)?;
    Ok(())
}

// How many requests make a book with a call.
fn requests_of_a_book(rt: &impl AllocGlobal) -> Result<u64, Fail> {
    let heap = RefusingHeap::ample(rt.alloc());
    make_book(rt, &heap)?;
    Ok(heap.requests())
}

#[test]
fn a_refused_request_changes_nothing(rt: HostRuntime) -> Result<(), Fail> {
    let made = requests_of_a_book(&rt)?;
    let mut refused = 0u64;
    for n in 1..100 {
        if !meets_refusal(&rt, made, n)? {
            break;
        }
        refused = n;
    }
    // Channels, calls and references are copied, each by one request at least; the history asks once.
    holds_at(&rt, 4 <= refused && refused < 99, refused);
    Ok(())
}
