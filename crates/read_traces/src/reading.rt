//! Reads a trace back over the empty book of its site, from which all its replies come.
ghost use Rattle.std.specs.Prelude.{◌≡◌, IfOk, IfErr, IfSome, IfNone};
ghost use Rattle.radio_book.specs.State.{empty_book};
ghost use Rattle.radio_book.specs.Run.{run_replies};
ghost use Rattle.trace_entries.specs.Entries as said;

use cell_table::{Site, SiteFault};
use lab_runs::run::Status;
use radio_book::book::Book;
use radio_book::event::{Event, Reply};
use radio_book::run::run;
use run_listeners::LabFault;
use std::alloc::{AllocError, Allocator, Global};
use std::io::Write;
use std::sync::Arc;
use trace_entries::entries::{Entry, Foreign, entries_of, first_other, has_replies};

/// The contents of a trace.
#[derive(Drop)]
pub struct Told<A: Allocator = Global> {
    pub entries: Vec<Entry, A>,
    /// Their events, in the same order.
    pub events: Vec<Event, A>,
}

/// Refuses a line of the trace, and prints its number.
pub fn refuse_line<W: Write>(number: usize, out: &mut W) -> Result<Status, LabFault>
    ensures refused { IfOk result (λ status. status ≡ Status.Refused) }
    ensures write { IfErr result (λ fault. fault ≡ LabFault.Write) }
{
    writeln!(out, "line {number}")?;
    Ok(Status::Refused)
}

/// The empty book of a site.
pub fn fresh_book<A: Allocator + Copy>(alloc: A, site: Site<A>) -> Result<Book<A>, AllocError>
    ensures book { IfOk result (λ book. book ≡ empty_book site) }
{
    match Arc::new(alloc, site) {
        Ok(site) => Book::new(alloc, site),
        Err(error) => Err(AllocError::from(error)),
    }
}

/// The events of entries, in their order.
fn events_of<A: Allocator + Copy>(alloc: A, entries: &[Entry]) -> Result<Vec<Event, A>, AllocError>
    ensures { IfOk result (λ events. events.items ≡ said.events_of entries.now) }
{
    entries.iter().map(|entry| entry.event).collect(alloc)
}

/// What a trace tells whose lines can be read.
fn told_in<A: Allocator + Copy>(alloc: A, trace: &str) -> Result<Told<A>, AllocError>
    ensures entries { IfOk result (λ told. told.entries.items ≡ said.entries_of trace.now) }
    ensures events { IfOk result (λ told. told.events.items ≡ said.events_of (said.entries_of trace.now)) }
{
    let entries = entries_of(alloc, trace)?;
    let events = events_of(alloc, &entries)?;
    Ok(Told { entries, events })
}

/// Prints the number of the first entry's line that has another reply than the book gives.
fn refuse_foreign<A: Allocator + Copy, W: Write>(
    alloc: A,
    trace: &str,
    told: &Told<A>,
    replies: &[Reply],
    out: &mut W,
) -> Result<(), LabFault> {
    if let Some(foreign) = first_other(alloc, trace, &told.entries, replies)? {
        refuse_line(foreign.entry.line(), out)?;
    }
    Ok(())
}

/// The contents of a trace whose lines can be read. Nothing if it has another reply than the book gives; then the number of
/// the first such line was printed.
pub fn told_entries<A: Allocator + Copy, W: Write>(
    alloc: A,
    book: &Book<A>,
    trace: &str,
    out: &mut W,
) -> Result<Option<Told<A>>, LabFault>
    ensures entries { IfOk result (λ found. IfSome found (λ told.
        told.entries.items ≡ said.entries_of trace.now)) }
    ensures events { IfOk result (λ found. IfSome found (λ told.
        told.events.items ≡ said.events_of (said.entries_of trace.now))) }
    ensures replies { IfOk result (λ found. IfSome found (λ _.
        said.HasReplies trace.now (run_replies book.now (said.events_of (said.entries_of trace.now))))) }
    ensures none { IfOk result (λ found. IfNone found (¬
        said.HasReplies trace.now (run_replies book.now (said.events_of (said.entries_of trace.now))))) }
{
    let told = told_in(alloc, trace)?;
    let (_, replies) = run(alloc, book, &told.events)?;
    if has_replies(alloc, trace, &replies)? {
        return Ok(Some(told));
    }
    refuse_foreign(alloc, trace, &told, &replies, out)?;
    Ok(None)
}

/// The first entry of a trace whose lines can be read, that has another reply than the book gives.
fn foreign_in<A: Allocator + Copy>(
    alloc: A,
    book: &Book<A>,
    trace: &str,
) -> Result<Option<Foreign>, AllocError> {
    let told = told_in(alloc, trace)?;
    let (_, replies) = run(alloc, book, &told.events)?;
    first_other(alloc, trace, &told.entries, &replies)
}

/// The first entry of a trace with another reply than the book gives, beginning with the empty book of a site; nothing if
/// all replies are the book's. The lines of the trace can be read, and the text describes a site.
pub fn foreign_entry(alloc: Global, site: &str, trace: &str) -> Result<Option<Foreign>, LabFault> {
    let site = match Site::read(alloc, alloc, site) {
        Ok(site) => site,
        Err(SiteFault::NoMemory) => return Err(LabFault::NoMemory),
        Err(_) => return Ok(None),
    };
    let book = fresh_book(alloc, site)?;
    Ok(foreign_in(alloc, &book, trace)?)
}
