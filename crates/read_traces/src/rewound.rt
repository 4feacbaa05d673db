//! Takes an undone attempt out of a trace.
ghost use Rattle.std.specs.Prelude.{◌≡◌, ◌≢◌, ◌↔◌, ◌+◌, ◌<◌, ◌^◌, ℕ, Ok, Err, Some, None, IsTrue, IfOk, IfErr, OnOk, IfSome, IfNone, slice_get};
ghost use Rattle.cell_table.specs.SiteFile.{IsBlankFile};
ghost use Rattle.radio_book.specs.State.{empty_book};
ghost use Rattle.radio_book.specs.Run.{run_replies};
ghost use Rattle.radio_book.specs.NoTrace.{LeavesNoTrace};
ghost use Rattle.trace_entries.specs.Entries as said;
ghost use Rattle.read_traces.specs.Rewound.{AreSameReplies, IsSame, StandsIn, LeavesATrace, NoneOpens, InEntries, InTrace, CantBeTakenOut};

use crate::choices::{Texts, choices_of_trace, event_lines};
use crate::reading::{fresh_book, refuse_line, told_entries};
use cell_table::Site;
use lab_runs::run::{Status, refuse_site};
use radio_book::book::Book;
use radio_book::event::{Event, Reply};
use radio_book::rewind::{RewindFault, Rewound, rewind};
use radio_desk::entry::is_same_reply;
use remainders::{Choice, other_choices, print_choices, print_difference};
use run_listeners::{LabFault, Printing};
use std::alloc::{Allocator, Global};
use std::io::Write;
use trace_entries::entries::{Entry, first_unreadable};
use trace_text::trace::Mark;

/// What a trace tells, over a book: its entries, their events, and which of its lines are choices.
#[derive(Drop)]
struct Traced<'a, A: Allocator + Copy> {
    book: &'a Book<A>,
    entries: &'a [Entry],
    events: &'a [Event],
    choices: &'a [Choice],
}

/// Refuses a line in which no undone attempt opens, and prints so.
fn refuse_attempt<W: Write>(out: &mut W) -> Result<Status, LabFault>
    ensures refused { IfOk result (λ status. status ≡ Status.Refused) }
    ensures write { IfErr result (λ fault. fault ≡ LabFault.Write) }
{
    writeln!(out, "no attempt")?;
    Ok(Status::Refused)
}

/// Whether this reply is at this place.
pub fn is_reply_at(replies: &[Reply], place: usize, reply: &Reply) -> bool
    ensures same { IsTrue result ↔ (slice_get replies.now place ≡ Some reply.now) }
{
    match replies.get(place) {
        Some(found) => is_same_reply(found, reply),
        None => false,
    }
}

/// Whether the others got the same replies alone as among all events.
fn are_same_replies(whole: &[Reply], others: &[usize], without: &[Reply]) -> bool
    ensures same { IsTrue result ↔ AreSameReplies whole.now others.now without.now }
{
    let mut others = others;
    let mut without = without;
    while let ([place, places @ ..], [reply, replies @ ..]) = (others, without) {
        if !is_reply_at(whole, *place, reply) {
            return false;
        }
        others = places;
        without = replies;
    }
    others.is_empty() && without.is_empty()
}

/// Whether the attempt left no trace: both books are the same, and the other events got the same replies.
pub fn is_same<A: Allocator>(rewound: &Rewound<A>) -> bool
    ensures same { IsTrue result ↔ IsSame rewound.now }
{
    rewound.whole == rewound.without
        && are_same_replies(
            &rewound.whole_replies,
            &rewound.others,
            &rewound.without_replies,
        )
}

/// The number of the line of the first held refusal, counted from 1.
fn held_line<A: Allocator>(rewound: &Rewound<A>, entries: &[Entry]) -> Option<usize>
    ensures held { (at : ℕ) → rewound.now.held ≡ Some at → IfSome (slice_get entries.now at)
        (λ entry. entry.index + 1 < 2 ^ 64 → result ≡ Some (entry.index + 1)) }
    ensures none { rewound.now.held ≡ None → result ≡ None }
{
    let entry = entries.get(rewound.held?)?;
    Some(entry.line())
}

/// Prints which choices would come out otherwise without the attempt.
fn print_other_choices<A: Allocator + Copy, W: Write>(
    alloc: A,
    traced: &Traced<'_, A>,
    rewound: &Rewound<A>,
    out: &mut W,
) -> Result<(), LabFault> {
    let Traced {
        book,
        entries: _,
        events,
        choices,
    } = traced;
    let lines = other_choices(alloc, *book, *events, &rewound.others, *choices)?;
    Ok(print_choices(out, Mark::Alone, &lines)?)
}

/// Prints that the attempt left a trace, and the first that differs.
fn print_differs<A: Allocator + Copy, W: Write>(
    alloc: A,
    traced: &Traced<'_, A>,
    rewound: &Rewound<A>,
    out: &mut W,
) -> Result<(), LabFault> {
    let lines = event_lines(alloc, traced.entries)?;
    let others = &rewound.others;
    write!(out, "differs: ")?;
    print_difference(alloc, traced.book, traced.events, others, &lines, out)?;
    Ok(writeln!(out)?)
}

/// Prints what stays without the attempt.
fn print_remainder<A: Allocator + Copy, W: Write>(
    alloc: A,
    traced: &Traced<'_, A>,
    rewound: &Rewound<A>,
    out: &mut W,
) -> Result<(), LabFault> {
    writeln!(out, "others {}", rewound.others.len())?;
    let settled = if rewound.settled { "yes" } else { "no" };
    writeln!(out, "settled {settled}")?;
    match held_line(rewound, traced.entries) {
        Some(line) => writeln!(out, "held {line}")?,
        None => writeln!(out, "held -")?,
    }
    print_other_choices(alloc, traced, rewound, out)
}

/// Prints what stays without the attempt, and whether it left a trace.
fn print_rewound<A: Allocator + Copy, W: Write>(
    alloc: A,
    traced: &Traced<'_, A>,
    rewound: &Rewound<A>,
    out: &mut W,
) -> Result<Status, LabFault>
    ensures done { result ≡ Ok Status.Done → IsSame rewound.now }
    ensures differs { result ≡ Ok Status.Differs → IsSame rewound.now → ⊥ }
    ensures refused { result ≢ Ok Status.Refused }
{
    print_remainder(alloc, traced, rewound, out)?;
    if is_same(rewound) {
        writeln!(out, "same")?;
        Ok(Status::Done)
    } else {
        print_differs(alloc, traced, rewound, out)?;
        Ok(Status::Differs)
    }
}

/// The place of the entry in a line, counted from 1.
fn place_of(entries: &[Entry], line: usize) -> Option<usize>
    ensures place { IfSome result (λ at. StandsIn entries.now line at) }
    ensures none { IfNone result ((at : ℕ) → StandsIn entries.now line at → ⊥) }
{
    let index = line.checked_sub(1)?;
    entries.iter().position(|entry| entry.index == index)
}

/// Takes out the attempt that opens in a line, and prints what stays.
fn rewind_line<A: Allocator + Copy, W: Write>(
    alloc: A,
    traced: &Traced<'_, A>,
    line: usize,
    out: &mut W,
) -> Result<Status, LabFault>
    requires events { traced.now.events.now ≡ said.events_of traced.now.entries.now }
    ensures done { result ≡ Ok Status.Done → InEntries LeavesNoTrace traced.now.book.now traced.now.entries.now line }
    ensures differs { result ≡ Ok Status.Differs → InEntries LeavesATrace traced.now.book.now traced.now.entries.now line }
    ensures refused { result ≡ Ok Status.Refused → NoneOpens traced.now.book.now traced.now.entries.now line }
{
    let Some(at) = place_of(traced.entries, line) else {
        return refuse_attempt(out);
    };
    match rewind(alloc, traced.book, traced.events, at) {
        Ok(rewound) => print_rewound(alloc, traced, &rewound, out),
        Err(RewindFault::NoAttempt) => refuse_attempt(out),
        Err(RewindFault::NoMemory) => Err(LabFault::NoMemory),
    }
}

/// Takes an attempt out of a trace whose lines can be read.
fn rewind_entries<A: Allocator + Copy, W: Write>(
    alloc: A,
    book: &Book<A>,
    texts: Texts<'_>,
    line: usize,
    out: &mut W,
) -> Result<Status, LabFault>
    ensures done { result ≡ Ok Status.Done →
        InEntries LeavesNoTrace book.now (said.entries_of texts.entry.trace.now) line }
    ensures differs { result ≡ Ok Status.Differs →
        InEntries LeavesATrace book.now (said.entries_of texts.entry.trace.now) line }
    ensures replies { (result ≢ Ok Status.Refused) → OnOk result (said.HasReplies texts.entry.trace.now
        (run_replies book.now (said.events_of (said.entries_of texts.entry.trace.now)))) }
    ensures refused { result ≡ Ok Status.Refused → said.HasReplies texts.entry.trace.now
        (run_replies book.now (said.events_of (said.entries_of texts.entry.trace.now))) →
        NoneOpens book.now (said.entries_of texts.entry.trace.now) line }
{
    let Some(told) = told_entries(alloc, book, texts.trace, out)? else {
        return Ok(Status::Refused);
    };
    let choices = choices_of_trace(alloc, texts, &told)?;
    let traced = Traced {
        book,
        entries: &told.entries,
        events: &told.events,
        choices: &choices,
    };
    rewind_line(alloc, &traced, line, out)
}

/// Takes an attempt out of a trace over a site that was read.
fn rewind_trace<A: Allocator + Copy, W: Write>(
    alloc: A,
    site: Site<A>,
    texts: Texts<'_>,
    line: usize,
    out: &mut W,
) -> Result<Status, LabFault>
    ensures readable { (result ≢ Ok Status.Refused) → OnOk result (said.first_unreadable texts.entry.trace.now ≡ None) }
    ensures done { result ≡ Ok Status.Done →
        InEntries LeavesNoTrace (empty_book site) (said.entries_of texts.entry.trace.now) line }
    ensures differs { result ≡ Ok Status.Differs →
        InEntries LeavesATrace (empty_book site) (said.entries_of texts.entry.trace.now) line }
    ensures replies { (result ≢ Ok Status.Refused) → OnOk result (said.HasReplies texts.entry.trace.now
        (run_replies (empty_book site) (said.events_of (said.entries_of texts.entry.trace.now)))) }
    ensures refused { result ≡ Ok Status.Refused → said.first_unreadable texts.entry.trace.now ≡ None →
        said.HasReplies texts.entry.trace.now
        (run_replies (empty_book site) (said.events_of (said.entries_of texts.entry.trace.now))) →
        NoneOpens (empty_book site) (said.entries_of texts.entry.trace.now) line }
    ensures memory { result ≡ Err LabFault.NoMemory → said.first_unreadable texts.entry.trace.now ≡ None }
{
    if let Some(number) = first_unreadable(texts.trace) {
        return refuse_line(number, out);
    }
    let book = fresh_book(alloc, site)?;
    rewind_entries(alloc, &book, texts, line, out)
}

/// Takes an undone attempt out of a trace, and prints what stays to `out`. The trace is one that
/// [`lab_run`](lab_runs::run::lab_run) prints, from the empty book on.
///
/// The trace's lines that begin with `event ` are its events. The one in line `line`, counted from 1, opened the attempt.
/// Five lines are printed: `others` and how many events stay; `settled` and `yes` or `no`; `held` and the line of the first
/// held refusal, or `-`; `choices` and the lines in which a channel was chosen, or none was free, but the book without the
/// attempt would have given another one or one, or `-`; and `same` if the book after all events is the book after the others
/// alone, and the others got the same replies, else `differs: ` and the first difference. The answer is `Done` or `Differs`
/// accordingly.
///
/// One line is printed, and the answer is `Refused`, if the site is refused as by `lab_run`; if a line can't be read (`line`
/// and the number of the first such line, which is an event in another form than a trace has, or a line of a trace of two
/// controllers); if a reply isn't the book's (`line` and the number of the first such line); or if no undone attempt opens
/// in the line (`no attempt`). `scratch` serves while the site is read, `alloc` for all else. Once memory was refused
/// (`NoMemory`), or `out` can't be written to (`Write`), nothing more is printed.
pub fn rewind_run<A: Allocator + Copy, W: Write>(
    alloc: A,
    scratch: Global,
    site: &str,
    trace: &str,
    line: usize,
    out: &mut W,
) -> Result<Status, LabFault>
    ensures done { result ≡ Ok Status.Done → InTrace LeavesNoTrace site.now trace.now line }
    ensures differs { result ≡ Ok Status.Differs → InTrace LeavesATrace site.now trace.now line }
    ensures refused { result ≡ Ok Status.Refused → CantBeTakenOut site.now trace.now line }
    ensures memory { result ≡ Err LabFault.NoMemory → ¬ IsBlankFile site.now }
{
    match Site::read(alloc, scratch, site) {
        Ok(read) => {
            let texts = Texts {
                scratch,
                site,
                trace,
            };
            rewind_trace(alloc, read, texts, line, out)
        }
        Err(fault) => refuse_site::<A, _>(fault, &mut Printing::new(out)),
    }
}
