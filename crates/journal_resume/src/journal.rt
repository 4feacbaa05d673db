//! A journal's file as a whole.
ghost use Rattle.std.specs.Prelude.{◌≡◌, ◌↔◌, ◌-◌, [], length, take, IfOk, IfErr, IsTrue};
ghost use Rattle.radio_book.specs.State.{empty_book};
ghost use Rattle.radio_book.specs.Run.{run_book, run_replies};
ghost use Rattle.trace_entries.specs.Entries.{entries_of, events_of, HasReplies};
ghost use Rattle.journal_records.specs.Records.{BeginsWith};
ghost use Rattle.journal_resume.specs.Heads as heads;
ghost use Rattle.journal_resume.specs.Resume.{IsReadable, IsJournal};
ghost use Rattle.journal_resume.specs.Refusals.{IsReason, IsHeadReason, IsRecordReason};

use crate::head::site_line;
use crate::resuming::{ResumeFault, Resumed, follow_records, take_record};
use cell_table::Site;
use journal_records::{Record, RecordFault, behind_first_line, first_record};
use radio_book::book::Book;
use std::alloc::{AllocError, Allocator};
use std::sync::Arc;

/// Whether two texts are the same.
fn is_same(one: &[u8], other: &[u8]) -> bool
    ensures { IsTrue result ↔ (one.now ≡ other.now) }
{
    one == other
}

/// Whether a text begins with a line.
fn begins_with(line: &[u8], text: &[u8]) -> bool
    ensures { IsTrue result ↔ (heads.BeginsWithLine line.now text.now) }
{
    if text.len() < line.len() {
        return false;
    }
    let (front, _behind) = text.split_at(line.len());
    is_same(front, line)
}

/// The head with which the records of a file begin, and which has this number.
fn head_at<'a>(octets: &'a [u8], number: u64) -> Result<Record<'a>, ResumeFault>
    ensures head { IfOk result (λ r. BeginsWith octets.now number r.body.now r.behind.now) }
    ensures number { IfOk result (λ r. r.number ≡ number) }
    ensures reason { IfErr result (λ fault. IsHeadReason fault number octets.now) }
{
    let head = match first_record(octets) {
        Ok(head) => head,
        Err(RecordFault::Cut | RecordFault::Damaged) => return Err(ResumeFault::NoHead),
    };
    if head.number == number {
        Ok(head)
    } else {
        Err(ResumeFault::Renamed)
    }
}

/// Whether a head is of the site with a checksum.
fn is_of_site<A: Allocator + Copy>(
    alloc: A,
    site_sum: u32,
    head: Record<'_>,
) -> Result<bool, AllocError>
    ensures { IfOk result (λ is. IsTrue is ↔
        (heads.BeginsWithLine (heads.site_line site_sum) head.entry.body.now)) }
{
    let line = site_line(alloc, site_sum)?;
    Ok(begins_with(line.as_bytes(), head.body))
}

/// The book of a head: that of its events, from the empty book of the site on.
fn book_of_head<A: Allocator + Copy>(
    alloc: A,
    site: Arc<Site<A>, A>,
    head: Record<'_>,
) -> Result<Book<A>, ResumeFault>
    ensures book { IfOk result (λ book.
        book ≡ run_book (empty_book site.value) (events_of (entries_of head.entry.body.now))) }
    ensures readable { IfOk result (λ _. IsReadable head.entry.body.now) }
    ensures replies { IfOk result (λ _. HasReplies head.entry.body.now
        (run_replies (empty_book site.value) (events_of (entries_of head.entry.body.now)))) }
    ensures reason { IfErr result (λ fault.
        IsRecordReason fault (empty_book site.value) head.entry.number head.entry.number head.entry.body.now) }
{
    let mut book = Book::new(alloc, site)?;
    take_record(alloc, &mut book, head.number, head)?;
    Ok(book)
}

/// The book of a journal's file, which has this number in its name: the events of its head and of all its records lead to
/// it, in order, from the empty book of the site. The book's replies are those in the file. A record at the end that was
/// cut, with zeros after it, is left over.
///
/// If it is refused, the file has the fault that is returned. A fault has the number of the first record that can't be used;
/// all records before it can.
pub fn resume<'a, A: Allocator + Copy>(
    alloc: A,
    site: Arc<Site<A>, A>,
    site_sum: u32,
    number: u64,
    octets: &'a [u8],
) -> Result<Resumed<'a, A>, ResumeFault>
    ensures journal { IfOk result (λ r. IsJournal site_sum site.value number octets.now r.book r.last r.left.now) }
    // Without what was cut the file is a journal of the same book.
    ensures whole { IfOk result (λ r. IsJournal site_sum site.value number
        (take (length octets.now - length r.left.now) octets.now) r.book r.last []) }
    ensures reason { IfErr result (λ fault. IsReason fault site_sum site.value number octets.now) }
{
    let records = match behind_first_line(octets) {
        Ok(records) => records,
        Err(fault) => return Err(ResumeFault::File(fault)),
    };
    let head = head_at(records, number)?;
    if !is_of_site(alloc, site_sum, head)? {
        return Err(ResumeFault::AnotherSite);
    }
    let opening = book_of_head(alloc, site, head)?;
    follow_records(alloc, opening, number, head.behind)
}
