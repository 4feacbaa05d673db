//! Takes all settled attempts out of a trace.
ghost use Rattle.std.specs.Prelude.{◌≡◌, ◌≢◌, ◌++◌, ◌∷◌, [], Ok, Err, None, true, false, IfOk, OnOk};
ghost use Rattle.cell_table.specs.SiteFile.{IsBlankFile};
ghost use Rattle.radio_book.specs.State.{empty_book};
ghost use Rattle.radio_book.specs.Run.{run_replies};
ghost use Rattle.radio_desk.specs.Audit.{events_in, LeadsAlike};
ghost use Rattle.trace_entries.specs.Entries as said;
ghost use Rattle.audits.specs.Histories.{OfTheHistory, LeadsApart};
ghost use Rattle.audits.specs.Traces.{InWholeTrace};
ghost use Rattle.read_traces.specs.Rewound.{CantBeTold};

use crate::shown::{Asked, Beside, beside_of, print_audit};
use cell_table::Site;
use lab_runs::run::{Status, refuse_site};
use radio_book::book::Book;
use radio_book::event::Event;
use radio_book::run::run;
use radio_desk::audit::Audit;
use radio_desk::desk::{Desk, DeskFault};
use radio_desk::seat::Seat;
use read_traces::choices::{Texts, choices_of_trace, event_lines};
use read_traces::reading::{Told, fresh_book, refuse_line, told_entries};
use remainders::Choice;
use run_listeners::{LabFault, Printing};
use std::alloc::{AllocError, Allocator, Global};
use std::io::Write;
use trace_entries::entries::{Entry, first_unreadable};
use trace_text::trace::Mark;

/// A desk judges an event, from a new seat.
fn judge<A: Allocator + Copy>(desk: &mut Desk<A>, event: Event) -> Result<(), AllocError>
    ensures opening { OnOk result (desk.new.opening ≡ desk.old.opening) }
    ensures events { OnOk result (events_in desk.new.history ≡ events_in desk.old.history ++ event ∷ []) }
{
    match desk.judge(&mut Seat::new(), event) {
        Ok(_) => Ok(()),
        Err(DeskFault::NoMemory) => Err(AllocError),
        // a new seat has no receipt
        Err(DeskFault::Foreign(_)) => unreachable!(),
    }
}

/// A desk that opened with a book, and at which these events were asked.
fn desk_after<A: Allocator + Copy>(
    alloc: A,
    book: Book<A>,
    events: &[Event],
) -> Result<Desk<A>, AllocError>
    ensures opening { IfOk result (λ desk. desk.opening ≡ book) }
    ensures events { IfOk result (λ desk. events_in desk.history ≡ events.now) }
{
    let mut desk = Desk::new(alloc, book)?;
    for event in events {
        judge(&mut desk, *event)?;
    }
    Ok(desk)
}

/// What the audit of a desk comes to. Its contract also says that the history leads where the desk is.
fn audited<A: Allocator + Copy>(desk: &Desk<A>) -> Result<Audit, AllocError>
    ensures same { IfOk result (λ audit. audit.same ≡ true →
        OfTheHistory LeadsAlike desk.now.opening (events_in desk.now.history)) }
    ensures differs { IfOk result (λ audit. audit.same ≡ false →
        OfTheHistory LeadsApart desk.now.opening (events_in desk.now.history)) }
{
    // its contract hands out that the history is legal
    let _ = desk.len();
    desk.audit()
}

/// The number of the line of the first held entry, counted from 1.
fn held_line(audit: &Audit, entries: &[Entry]) -> Option<usize> {
    let entry = entries.get(audit.held?)?;
    Some(entry.line())
}

/// What the audit comes to of a desk that opens with a book, and at which the events of a trace are asked.
fn audited_after<A: Allocator + Copy>(
    alloc: A,
    book: Book<A>,
    told: &Told<A>,
) -> Result<Audit, AllocError>
    ensures same { IfOk result (λ audit. audit.same ≡ true →
        OfTheHistory LeadsAlike book told.now.events.items) }
    ensures differs { IfOk result (λ audit. audit.same ≡ false →
        OfTheHistory LeadsApart book told.now.events.items) }
{
    let desk = desk_after(alloc, book, &told.events)?;
    audited(&desk)
}

/// What is told of the audit of a trace's events beside what it found.
fn beside_told<A: Allocator + Copy>(
    alloc: A,
    book: &Book<A>,
    told: &Told<A>,
    choices: &[Choice],
    audit: &Audit,
) -> Result<Beside<A>, LabFault> {
    let (_, replies) = run(alloc, book, &told.events)?;
    let lines = event_lines(alloc, &told.entries)?;
    let asked = Asked {
        events: &told.events,
        replies: &replies,
        lines: &lines,
        choices,
    };
    beside_of(alloc, book, asked, audit)
}

/// Takes all settled attempts out of what the events of a trace come to from a book on, and prints what remains.
fn audit_told<A: Allocator + Copy, W: Write>(
    alloc: A,
    book: Book<A>,
    told: &Told<A>,
    choices: &[Choice],
    out: &mut W,
) -> Result<Status, LabFault>
    ensures done { result ≡ Ok Status.Done → OfTheHistory LeadsAlike book told.now.events.items }
    ensures differs { result ≡ Ok Status.Differs → OfTheHistory LeadsApart book told.now.events.items }
    ensures told { result ≢ Ok Status.Refused }
{
    let opening = book.copy()?;
    let audit = audited_after(alloc, book, told)?;
    let beside = beside_told(alloc, &opening, told, choices, &audit)?;
    let held = held_line(&audit, &told.entries);
    print_audit(out, Mark::Alone, &audit, held, &beside)?;
    if audit.same {
        Ok(Status::Done)
    } else {
        Ok(Status::Differs)
    }
}

/// Audits a trace that was read.
fn audit_read<A: Allocator + Copy, W: Write>(
    alloc: A,
    book: Book<A>,
    texts: Texts<'_>,
    told: &Told<A>,
    out: &mut W,
) -> Result<Status, LabFault>
    ensures done { result ≡ Ok Status.Done → OfTheHistory LeadsAlike book told.now.events.items }
    ensures differs { result ≡ Ok Status.Differs → OfTheHistory LeadsApart book told.now.events.items }
    ensures told { result ≢ Ok Status.Refused }
{
    let choices = choices_of_trace(alloc, texts, told)?;
    audit_told(alloc, book, told, &choices, out)
}

/// Takes all settled attempts out of a trace whose lines can be read.
fn audit_entries<A: Allocator + Copy, W: Write>(
    alloc: A,
    book: Book<A>,
    texts: Texts<'_>,
    out: &mut W,
) -> Result<Status, LabFault>
    ensures done { result ≡ Ok Status.Done →
        OfTheHistory LeadsAlike book (said.events_of (said.entries_of texts.entry.trace.now)) }
    ensures differs { result ≡ Ok Status.Differs →
        OfTheHistory LeadsApart book (said.events_of (said.entries_of texts.entry.trace.now)) }
    ensures replies { (result ≢ Ok Status.Refused) → OnOk result (said.HasReplies texts.entry.trace.now
        (run_replies book (said.events_of (said.entries_of texts.entry.trace.now)))) }
    ensures refused { result ≡ Ok Status.Refused → ¬ said.HasReplies texts.entry.trace.now
        (run_replies book (said.events_of (said.entries_of texts.entry.trace.now))) }
{
    match told_entries(alloc, &book, texts.trace, out)? {
        Some(told) => audit_read(alloc, book, texts, &told, out),
        None => Ok(Status::Refused),
    }
}

/// Takes all settled attempts out of a trace over a site that was read.
fn audit_over<A: Allocator + Copy, W: Write>(
    alloc: A,
    site: Site<A>,
    texts: Texts<'_>,
    out: &mut W,
) -> Result<Status, LabFault>
    ensures readable { (result ≢ Ok Status.Refused) → OnOk result (said.first_unreadable texts.entry.trace.now ≡ None) }
    ensures done { result ≡ Ok Status.Done →
        OfTheHistory LeadsAlike (empty_book site) (said.events_of (said.entries_of texts.entry.trace.now)) }
    ensures differs { result ≡ Ok Status.Differs →
        OfTheHistory LeadsApart (empty_book site) (said.events_of (said.entries_of texts.entry.trace.now)) }
    ensures replies { (result ≢ Ok Status.Refused) → OnOk result (said.HasReplies texts.entry.trace.now
        (run_replies (empty_book site) (said.events_of (said.entries_of texts.entry.trace.now)))) }
    ensures refused { result ≡ Ok Status.Refused → said.first_unreadable texts.entry.trace.now ≡ None →
        ¬ said.HasReplies texts.entry.trace.now
        (run_replies (empty_book site) (said.events_of (said.entries_of texts.entry.trace.now))) }
    ensures memory { result ≡ Err LabFault.NoMemory → said.first_unreadable texts.entry.trace.now ≡ None }
{
    if let Some(number) = first_unreadable(texts.trace) {
        return refuse_line(number, out);
    }
    let book = fresh_book(alloc, site)?;
    audit_entries(alloc, book, texts, out)
}

/// Takes all attempts that were undone and are settled out of a trace, together, and prints the result to `out`. The trace
/// is one that [`lab_run`](lab_runs::run::lab_run) prints, from the empty book on.
///
/// The trace's lines that begin with `event ` are its events. Four lines are printed: `attempts` and how many were taken
/// out; `held` and the line of the first event that was refused because of one of them, or `-`; `choices` and the lines of
/// those that would differ, or `-`; and `same` if the events that remain lead to the same book and get the same replies,
/// else `differs: ` and the first difference. The answer is `Done` or `Differs` accordingly. If no event is held, it is
/// `Done`: all settled attempts together leave no trace.
///
/// The site, and lines of the trace, are refused as by [`rewind_run`](read_traces::rewound::rewind_run). `scratch` serves
/// while the site is read, `alloc` for all else. Once memory was refused (`NoMemory`), or `out` can't be written to
/// (`Write`), nothing more is printed.
pub fn audit_run<A: Allocator + Copy, W: Write>(
    alloc: A,
    scratch: Global,
    site: &str,
    trace: &str,
    out: &mut W,
) -> Result<Status, LabFault>
    ensures done { result ≡ Ok Status.Done → InWholeTrace LeadsAlike site.now trace.now }
    ensures differs { result ≡ Ok Status.Differs → InWholeTrace LeadsApart site.now trace.now }
    ensures refused { result ≡ Ok Status.Refused → CantBeTold site.now trace.now }
    ensures memory { result ≡ Err LabFault.NoMemory → ¬ IsBlankFile site.now }
{
    match Site::read(alloc, scratch, site) {
        Ok(read) => {
            let texts = Texts {
                scratch,
                site,
                trace,
            };
            audit_over(alloc, read, texts, out)
        }
        Err(fault) => refuse_site::<A, _>(fault, &mut Printing::new(out)),
    }
}
