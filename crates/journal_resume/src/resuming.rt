//! The book to which a sequence of records leads.
ghost use Rattle.std.specs.Prelude.{◌≡◌, ◌+◌, None, OnOk, IfOk, IfErr, MatchOption};
ghost use Rattle.radio_book.specs.State.{State};
ghost use Rattle.radio_book.specs.Run.{run_book, run_replies};
ghost use Rattle.trace_entries.specs.Entries.{first_unreadable, entries_of, events_of, HasReplies};
ghost use Rattle.journal_records.specs.Records.{BeginsWith};
ghost use Rattle.journal_resume.specs.Ends.{IsLeft};
ghost use Rattle.journal_resume.specs.Resume.{IsReadable, IsResumed};
ghost use Rattle.journal_resume.specs.Refusals.{IsRecordReason, IsNextReason, IsReasonBehind};

use crate::ends::is_end;
use crate::traces::ask_trace;
use journal_records::{FileFault, Record, RecordFault, first_record};
use radio_book::book::Book;
use std::alloc::{AllocError, Allocator, Global};
use std::str;
use thiserror::Error;
use trace_entries::entries::first_unreadable;

/// Why a journal's records lead to no book. The number is that of the record, or of the record that should be there.
#[derive(Clone, Copy, Debug, PartialEq, Eq, Error)]
pub enum ResumeFault {
    /// The file isn't a journal of this version.
    #[error("{0}")]
    File(FileFault),
    /// It doesn't begin with a record.
    #[error("the head of the journal is damaged")]
    NoHead,
    /// The number in its head isn't that in the file's name.
    #[error("the number in the journal's head isn't that of the file's name")]
    Renamed,
    /// It belongs to a site with another checksum.
    #[error("the journal belongs to another site")]
    AnotherSite,
    /// Octets were changed: this is neither a record nor a record that was cut.
    #[error("record {0} is damaged")]
    Damaged(u64),
    /// The record has another number.
    #[error("record {0} isn't the next one")]
    Misplaced(u64),
    /// A line of the record begins like an event, but isn't one.
    #[error("record {0} can't be read")]
    Unreadable(u64),
    /// The book's reply isn't the one in the record.
    #[error("record {0} has another reply than the book gives")]
    OtherReply(u64),
    /// Memory was refused.
    #[error("memory was refused")]
    NoMemory,
}

impl From<AllocError> for ResumeFault {
    ghost use Rattle.std.specs.Prelude.{◌≡◌};
    ghost use Rattle.journal_resume.specs.declared.resuming.ResumeFault.TheVariants.{NoMemory};

    ghost from_gives = { λ _ fault. fault ≡ NoMemory };

    fn from(_: AllocError) -> ResumeFault {
        ResumeFault::NoMemory
    }
}

/// What a resume came to.
#[derive(Drop)]
pub struct Resumed<'a, A: Allocator = Global> {
    /// The book of the records' events.
    pub book: Book<A>,
    /// The number of the last record; if there is none, that of the head.
    pub last: u64,
    /// What follows the last record: nothing, or a record that was cut, with zeros after it.
    pub left: &'a [u8],
}

/// Asks a record's events, and compares each reply with that which the record has.
fn take_trace<A: Allocator + Copy>(
    alloc: A,
    book: &mut Book<A>,
    number: u64,
    trace: &str,
) -> Result<(), ResumeFault>
    ensures readable { OnOk result (first_unreadable trace.now ≡ None) }
    ensures book { OnOk result (book.new ≡ run_book book.old (events_of (entries_of trace.now))) }
    ensures replies { OnOk result (HasReplies trace.now
        (run_replies book.old (events_of (entries_of trace.now)))) }
    ensures reason { IfErr result (λ fault. IsRecordReason fault book.old number number trace.now) }
{
    if first_unreadable(trace).is_some() {
        return Err(ResumeFault::Unreadable(number));
    }
    if ask_trace(alloc, book, trace)? {
        Ok(())
    } else {
        Err(ResumeFault::OtherReply(number))
    }
}

/// Takes a record that should have this number.
pub(crate) fn take_record<A: Allocator + Copy>(
    alloc: A,
    book: &mut Book<A>,
    number: u64,
    taken: Record<'_>,
) -> Result<(), ResumeFault>
    ensures number { OnOk result (taken.entry.number ≡ number) }
    ensures readable { OnOk result (IsReadable taken.entry.body.now) }
    ensures book { OnOk result (book.new ≡ run_book book.old (events_of (entries_of taken.entry.body.now))) }
    ensures replies { OnOk result (HasReplies taken.entry.body.now
        (run_replies book.old (events_of (entries_of taken.entry.body.now)))) }
    ensures reason { IfErr result (λ fault.
        IsRecordReason fault book.old number taken.entry.number taken.entry.body.now) }
{
    if taken.number != number {
        return Err(ResumeFault::Misplaced(number));
    }
    match str::from_utf8(taken.body) {
        Ok(trace) => take_trace(alloc, book, number, trace),
        Err(_) => Err(ResumeFault::Unreadable(number)),
    }
}

/// The record that comes next, of this number; `None` at the end, and where a record was cut. `Damaged`, exactly elsewhere.
fn next_record<'a>(octets: &'a [u8], number: u64) -> Result<Option<Record<'a>>, ResumeFault>
    ensures next { IfOk result (λ next. MatchOption next
        (IsLeft octets.now)
        (λ r. BeginsWith octets.now r.number r.body.now r.behind.now)) }
    ensures reason { (b : State) → IfErr result (λ fault. IsNextReason fault b number octets.now) }
{
    match first_record(octets) {
        Ok(taken) => Ok(Some(taken)),
        Err(RecordFault::Cut | RecordFault::Damaged) if is_end(octets) => Ok(None),
        Err(RecordFault::Cut | RecordFault::Damaged) => Err(ResumeFault::Damaged(number)),
    }
}

/// The book to which the records of a journal lead, from the book with which it begins, reply by reply. The octets are all that
/// stands behind the head, whose number is given. A record that was cut is left.
///
/// A fault has the number of the first record that can't be taken: all before it can.
pub(crate) fn follow_records<'a, A: Allocator + Copy>(
    alloc: A,
    opening: Book<A>,
    number: u64,
    octets: &'a [u8],
) -> Result<Resumed<'a, A>, ResumeFault>
    ensures resumed { IfOk result (λ r. IsResumed opening number octets.now r.book r.last r.left.now) }
    ensures reason { IfErr result (λ fault. IsReasonBehind fault opening (number + 1) octets.now) }
{
    let Some(first) = number.checked_add(1) else {
        return Err(ResumeFault::Misplaced(number));
    };
    let mut resumed = Resumed {
        book: opening,
        last: number,
        left: octets,
    };
    for next in first..u64::MAX {
        let Some(taken) = next_record(resumed.left, next)? else {
            return Ok(resumed);
        };
        take_record(alloc, &mut resumed.book, next, taken)?;
        resumed.last = next;
        resumed.left = taken.behind;
    }
    Err(ResumeFault::Misplaced(u64::MAX))
}
