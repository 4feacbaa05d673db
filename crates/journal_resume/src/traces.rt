//! The events of a trace, asked of a book.
ghost use Rattle.std.specs.Prelude.{◌≡◌, ◌↔◌, OnOk, IfOk, IsTrue};
ghost use Rattle.radio_book.specs.Run.{run_book, run_replies};
ghost use Rattle.trace_entries.specs.Entries.{entries_of, events_of, HasReplies};

use radio_book::book::Book;
use radio_book::event::Reply;
use std::alloc::{AllocError, Allocator};
use trace_entries::entries::{Entry, entries_of, has_replies};

/// Asks the events of entries of a book, and gives its replies.
fn ask_all<A: Allocator + Copy>(
    alloc: A,
    book: &mut Book<A>,
    entries: &[Entry],
) -> Result<Vec<Reply, A>, AllocError>
    ensures book { OnOk result (book.new ≡ run_book book.old (events_of entries.now)) }
    ensures replies { IfOk result (λ replies.
        replies.items ≡ run_replies book.old (events_of entries.now)) }
{
    let mut replies = Vec::new(alloc);
    for entry in entries {
        let reply = book.step(entry.event)?;
        replies.push(reply)?;
    }
    Ok(replies)
}

/// Asks the events of a trace of a book. The answer is whether its replies are those that the trace has.
pub(crate) fn ask_trace<A: Allocator + Copy>(
    alloc: A,
    book: &mut Book<A>,
    trace: &str,
) -> Result<bool, AllocError>
    ensures book { OnOk result (book.new ≡ run_book book.old (events_of (entries_of trace.now))) }
    ensures same { IfOk result (λ same. IsTrue same ↔
        (HasReplies trace.now (run_replies book.old (events_of (entries_of trace.now))))) }
{
    let entries = entries_of(alloc, trace)?;
    let replies = ask_all(alloc, book, &entries)?;
    has_replies(alloc, trace, &replies)
}
