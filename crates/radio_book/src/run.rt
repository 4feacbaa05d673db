//! Lists of events, one after another.
ghost use Rattle.std.specs.Prelude.{◌≡◌, IfOk};
ghost use Rattle.radio_book.specs.Run.{run_book, run_replies};

use crate::book::Book;
use crate::event::{Event, Reply};
use std::alloc::{AllocError, Allocator};

/// The book after the events, asked one after another of a copy, with the replies in their order.
pub fn run<A: Allocator + Copy>(
    alloc: A,
    book: &Book<A>,
    events: &[Event],
) -> Result<(Book<A>, Vec<Reply, A>), AllocError>
    ensures book { IfOk result (λ run. run.0 ≡ run_book book.now events.now) }
    ensures replies { IfOk result (λ run. run.1.items ≡ run_replies book.now events.now) }
{
    let mut after = book.copy()?;
    let mut replies = Vec::new(alloc);
    for event in events {
        let reply = after.step(*event)?;
        replies.push(reply)?;
    }
    Ok((after, replies))
}
