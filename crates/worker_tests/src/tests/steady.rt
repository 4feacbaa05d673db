//! An office at a desk whose opening book has a call.
ghost use Rattle.std.specs.Prelude.{◌≡◌, [], IfOk};

use super::offices::{Ajar, Course, Hall, Left, at_a_desk, give_all, sent_lines, shared_site};
use crate::bag::Taken;
use radio_book::book::Book;
use radio_book::event::{Event, Reply};
use radio_desk::desk::Desk;
use sample_sites::{HOME, THREE_CHANNELS};
use std::alloc::{AllocError, Global};
use std::process::Abort;
use std::sync::{Arc, Wait};
use std::test::Fail;
use std::thread::Threads;

/// Call 1 is opened, and its channel confirmed.
fn open_call(book: &mut Book<Global>) -> Result<(), AllocError> {
    book.step(Event::Open(1, HOME))?;
    book.step(Event::Confirm(HOME))?;
    Ok(())
}

/// A desk that opens with call 1 on its channel, at which nothing was asked.
fn steady_desk(alloc: Global) -> Result<Desk<Global>, Fail>
    ensures empty { IfOk result (λ desk. desk.history ≡ []) }
{
    let mut book = Book::new(alloc, shared_site(alloc, alloc, THREE_CHANNELS)?)?;
    open_call(&mut book)?;
    Ok(Desk::new(alloc, book)?)
}

/// The entry at a place of the history.
fn entry_at<R: Wait + Drop>(left: &Left<R, Global>, place: usize) -> Option<(Event, Reply)> {
    left.desk.entry(place).copied()
}

/// The call was looked at and cleared, and nothing else was asked.
fn is_cleared<R: Wait + Abort + Drop>(rt: &R, left: &Left<R, Global>) {
    assert!(rt; left.desk.len() == 2 && left.front.is_empty());
    assert!(rt; matches!(entry_at(left, 0), Some((Event::Look(1), Reply::Record(..)))));
    assert!(rt; entry_at(left, 1) == Some((Event::Clear(1), Reply::Done)));
}

/// Its channel is released, and only then the input is done with.
fn is_released<R: Wait + Abort + AllocGlobal + Drop>(
    rt: &R,
    left: &Left<R, Global>,
) -> Result<(), Fail> {
    let worker = left.workers.first().ok_or("no worker")?;
    let sent = sent_lines(rt.alloc(), &worker.links.sent)?;
    assert!(rt; sent.as_str() == "out abis 0 0 082e010b\n", "{sent}");
    assert!(rt; worker.links.told == 1);
    Ok(())
}

/// The call is cleared.
struct Cleared;

impl Course for Cleared {
    fn give<R: Threads + Wait + Abort + AllocGlobal + Drop>(
        &self,
        rt: &R,
        hall: &mut Hall<R, Global>,
        _taken: &Taken,
    ) {
        give_all(rt, hall, "clear 1");
    }

    fn see<R: Wait + Abort + AllocGlobal + Drop>(
        &self,
        rt: &R,
        left: &Left<R, Global>,
    ) -> Result<(), Fail> {
        is_cleared(rt, left);
        is_released(rt, left)
    }
}

#[test]
fn a_call_of_the_opening_book_is_cleared(rt: HostRuntime) -> Result<(), Fail> {
    let gate = Arc::new(rt.alloc(), Ajar)?;
    at_a_desk(&rt, steady_desk(rt.alloc())?, gate, 1, &Cleared)
}
