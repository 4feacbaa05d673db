//! What differs without some events.
use line_words::StateLines;
use radio_book::book::Book;
use radio_book::event::{Event, Reply};
use radio_book::run::run;
use radio_desk::entry::is_same_reply;
use run_listeners::LabFault;
use std::alloc::{AllocError, Allocator};
use std::io::Write;
use std::str;
use trace_text::trace::{Mark, ReplyText, Step};

/// The events at some places.
fn events_at<A: Allocator>(
    alloc: A,
    events: &[Event],
    places: &[usize],
) -> Result<Vec<Event, A>, AllocError> {
    let mut found = Vec::new(alloc);
    for place in places {
        if let Some(event) = events.get(*place) {
            found.push(*event)?;
        }
    }
    Ok(found)
}

/// A reply that is another without some events: its place among all, and both.
#[derive(Clone, Copy)]
struct OtherReply {
    place: usize,
    whole: Reply,
    alone: Reply,
}

/// The first of the events that stay that gets another reply.
fn first_other(whole: &[Reply], kept: &[usize], alone: &[Reply]) -> Option<OtherReply> {
    for (place, reply) in kept.iter().zip(alone.iter()) {
        if let Some(found) = whole.get(*place)
            && !is_same_reply(found, reply)
        {
            return Some(OtherReply {
                place: *place,
                whole: *found,
                alone: *reply,
            });
        }
    }
    None
}

/// What a book holds, as lines; these events were asked.
fn held_by<A: Allocator + Copy>(
    alloc: A,
    book: &Book<A>,
    events: &[Event],
) -> Result<Vec<u8, A>, LabFault> {
    let mut states = StateLines::new(alloc);
    for event in events {
        states.note(Mark::Alone, Step::Asked(*event, Reply::Done))?;
    }
    let mut held = Vec::new(alloc);
    states.print(&mut held, Mark::Alone, book)?;
    Ok(held)
}

/// The words that say of what a line of a state is: `state`, its kind, and its name.
fn subject_of(line: &str) -> &str {
    let kind = line.strip_prefix("state ").unwrap_or(line);
    let names = if kind.starts_with("reference ") { 2 } else { 1 };
    let mut end: usize = 0;
    for (place, word) in line.split(' ').enumerate() {
        if place < 2 + names {
            end = end.saturating_add(word.len()).saturating_add(1);
        }
    }
    line.get(..end.saturating_sub(1)).unwrap_or(line)
}

/// The line of a subject among lines.
fn line_of<'a>(lines: &'a str, subject: &str) -> Option<&'a str> {
    lines.split('\n').find(|line| subject_of(*line) == subject)
}

/// The first line of some that isn't among others.
fn first_lost<'a>(lines: &'a str, others: &str) -> Option<&'a str> {
    lines.split('\n').find(|line| !line.is_empty()
        && !others.split('\n').any(|other| other == *line))
}

/// Prints what a book holds and another doesn't, the first such, and what the other has in its place.
fn print_states<W: Write>(out: &mut W, whole: &str, alone: &str) -> Result<(), LabFault> {
    let subject = match first_lost(whole, alone) {
        Some(line) => subject_of(line),
        None => match first_lost(alone, whole) {
            Some(line) => subject_of(line),
            None => return Ok(()),
        },
    };
    print_side(out, whole, subject)?;
    write!(out, "; without: ")?;
    print_side(out, alone, subject)
}

/// Prints what lines say of a subject; `no` and the subject where they say nothing.
fn print_side<W: Write>(out: &mut W, lines: &str, subject: &str) -> Result<(), LabFault> {
    match line_of(lines, subject) {
        Some(line) => write!(out, "{line}")?,
        None => write!(out, "no {subject}")?,
    }
    Ok(())
}

/// What was printed, which is text.
fn text_of(printed: &[u8]) -> &str {
    str::from_utf8(printed).unwrap_or("")
}

/// Prints what differs where only the events at some places are asked of a book, not all, behind which stands no line feed:
/// the first line whose reply differs, with both replies; or else the first channel, call, reference or timer, with both
/// states. `lines` are the numbers of the events' lines.
pub fn print_difference<A: Allocator + Copy, W: Write>(
    alloc: A,
    book: &Book<A>,
    events: &[Event],
    kept: &[usize],
    lines: &[usize],
    out: &mut W,
) -> Result<(), LabFault> {
    let (whole, whole_replies) = run(alloc, book, events)?;
    let others = events_at(alloc, events, kept)?;
    let (alone, alone_replies) = run(alloc, book, &others)?;
    if let Some(other) = first_other(&whole_replies, kept, &alone_replies) {
        let line = lines.get(other.place).copied().unwrap_or(0);
        let (before, after) = (ReplyText(other.whole), ReplyText(other.alone));
        write!(out, "line {line}: {before}; without: {after}")?;
        return Ok(());
    }
    let whole = held_by(alloc, &whole, events)?;
    let alone = held_by(alloc, &alone, events)?;
    print_states(out, text_of(&whole), text_of(&alone))
}
