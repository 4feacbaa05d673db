//! The head of a new file of a journal: its site, and events that lead to the book with which the file begins.
ghost use Rattle.std.specs.Prelude.{◌≡◌, ◌≢◌, ◌⊎◌, ◌++◌, ◌↔◌, IsTrue, string_bytes, Err, IfOk};
ghost use Rattle.radio_book.specs.State.{empty_book};
ghost use Rattle.radio_book.specs.Run.{run_book};
ghost use Rattle.opening_events.specs.Opening.{opening_events};
ghost use Rattle.journal_resume.specs.Heads as spec;

use crate::traces::ask_trace;
use event_text::writing::EventText;
use opening_events::{OpeningFault, events_to};
use radio_book::book::Book;
use radio_book::event::{Event, Reply};
use std::alloc::{AllocError, Allocator};
use thiserror::Error;
use trace_entries::entries::first_unreadable;
use trace_entries::replies::ReplyText;

/// Why no head is made for a book.
#[derive(Clone, Copy, Debug, PartialEq, Eq, Error)]
pub enum HeadFault {
    /// The events that should lead to the book lead to another one.
    #[error("no events are known that lead to the book")]
    Differs,
    /// Memory was refused.
    #[error("memory was refused")]
    NoMemory,
}

impl From<AllocError> for HeadFault {
    ghost use Rattle.std.specs.Prelude.{◌≡◌};
    ghost use Rattle.journal_resume.specs.declared.head.HeadFault.TheVariants.{NoMemory};

    ghost from_gives = { λ _ fault. fault ≡ NoMemory };

    fn from(_: AllocError) -> HeadFault {
        HeadFault::NoMemory
    }
}

impl From<OpeningFault> for HeadFault {
    ghost use Rattle.std.specs.Prelude.{◌≡◌};
    ghost use Rattle.journal_resume.specs.Heads.{head_fault_of};

    ghost from_gives = { λ why fault. fault ≡ head_fault_of why };

    fn from(fault: OpeningFault) -> HeadFault {
        match fault {
            OpeningFault::Differs => HeadFault::Differs,
            OpeningFault::NoMemory => HeadFault::NoMemory,
        }
    }
}

/// The line that names a site by its checksum.
pub(crate) fn site_line<A: Allocator + Copy>(alloc: A, sum: u32) -> Result<String<A>, AllocError>
    ensures { IfOk result (λ line. string_bytes line ≡ spec.site_line sum) }
{
    format!(in alloc; "site {sum}\n")
}

/// A line, and what follows it.
fn joined<A: Allocator + Copy>(mut line: String<A>, behind: &str) -> Result<String<A>, AllocError>
    ensures { IfOk result (λ text. string_bytes text ≡ string_bytes line ++ behind.now) }
{
    line.push_str(behind)?;
    Ok(line)
}

/// Lines, and behind them that of an event with the book's reply to it, as a trace has it.
fn with_line<A: Allocator + Copy>(
    alloc: A,
    lines: String<A>,
    event: Event,
    reply: Reply,
) -> Result<String<A>, AllocError>
    ensures { IfOk result (λ text. string_bytes text ≡ string_bytes lines ++ spec.event_line event reply) }
{
    let line = format!(in alloc; "event {} -> {}\n", EventText(event), ReplyText(reply))?;
    joined(lines, line.as_str())
}

/// The lines of events, each with the reply of a book that is asked them one after another.
fn event_lines<A: Allocator + Copy>(
    alloc: A,
    book: &mut Book<A>,
    events: &[Event],
) -> Result<String<A>, AllocError>
    ensures { IfOk result (λ lines. string_bytes lines ≡ spec.event_lines book.old events.now) }
{
    let mut lines = String::new(alloc);
    for event in events {
        let reply = book.step(*event)?;
        lines = with_line(alloc, lines, *event, reply)?;
    }
    Ok(lines)
}

/// The text of a head: the line of the site, and those of the events that are known to lead to the book.
fn head_text<A: Allocator + Copy>(
    alloc: A,
    site_sum: u32,
    book: &Book<A>,
) -> Result<String<A>, HeadFault>
    ensures text { IfOk result (λ text. string_bytes text ≡ spec.head_text site_sum book.now) }
    ensures differs { result ≡ Err HeadFault.Differs →
        run_book (empty_book book.now.site) (opening_events book.now) ≢ book.now }
{
    let events = events_to(alloc, book)?;
    let mut asked = Book::new(alloc, book.site().clone()?)?;
    let lines = event_lines(alloc, &mut asked, &events)?;
    let line = site_line(alloc, site_sum)?;
    Ok(joined(line, lines.as_str())?)
}

/// Whether a trace leads from the empty book of a book's site to that book, reply by reply.
fn leads_to<A: Allocator + Copy>(alloc: A, trace: &str, book: &Book<A>) -> Result<bool, AllocError>
    ensures { IfOk result (λ leads. IsTrue leads ↔ (spec.LeadsTo trace.now book.now)) }
{
    if first_unreadable(trace).is_some() {
        return Ok(false);
    }
    let mut after = Book::new(alloc, book.site().clone()?)?;
    let same_replies = ask_trace(alloc, &mut after, trace)?;
    Ok(same_replies && after == *book)
}

/// The body of the first record of a file that begins with a book: the site's checksum, and a trace from the empty book of
/// the site to this book, each event with its reply.
///
/// The answer was read back, and its events were asked once more. `Differs` occurs only if these events, or the lines read
/// back, lead to another book.
pub fn head_body<A: Allocator + Copy>(
    alloc: A,
    site_sum: u32,
    book: &Book<A>,
) -> Result<String<A>, HeadFault>
    ensures text { IfOk result (λ body. string_bytes body ≡ spec.head_text site_sum book.now) }
    ensures site { IfOk result (λ body. spec.BeginsWithLine (spec.site_line site_sum) (string_bytes body)) }
    ensures leads { IfOk result (λ body. spec.LeadsTo (string_bytes body) book.now) }
    ensures differs { result ≡ Err HeadFault.Differs →
        (run_book (empty_book book.now.site) (opening_events book.now) ≢ book.now)
        ⊎ (spec.LeadsTo (spec.head_text site_sum book.now) book.now → ⊥) }
{
    let text = head_text(alloc, site_sum, book)?;
    if leads_to(alloc, text.as_str(), book)? {
        Ok(text)
    } else {
        Err(HeadFault::Differs)
    }
}
