//! The entries of a trace: its lines that begin with `event `. All other lines are passed over, but those of a trace of
//! two controllers, which begin with `1: ` or `2: `, can't be read.
ghost use Rattle.std.specs.Prelude.{◌≡◌, ◌↔◌, ◌+◌, ◌<◌, ◌^◌, codes, map, option_map, IfOk, IsTrue};
ghost use Rattle.std.specs.Str.Lines.{strip_carriage_return};
ghost use Rattle.trace_entries.specs.Entries as said;
ghost use Rattle.trace_entries.specs.Replies.{reply_text};

use crate::replies::ReplyText;
use event_text::reading::read_event;
use radio_book::event::{Event, Reply};
use std::alloc::{AllocError, Allocator};

/// An event of a trace.
#[derive(Clone, Copy, Debug, PartialEq, Eq)]
pub struct Entry {
    /// Where its line stands among all lines of the trace, counted from 0.
    pub index: usize,
    /// What was asked of the book.
    pub event: Event,
}

/// An entry that has another reply than the book gives.
#[derive(Clone, Copy, Debug, PartialEq, Eq)]
pub struct Foreign {
    /// The entry.
    pub entry: Entry,
    /// What the book replies.
    pub reply: Reply,
}

/// A line without the carriage return that may end it.
fn without_return(line: &str) -> &str
    ensures stripped { result.now ≡ strip_carriage_return line.now }
{
    line.strip_suffix('\r').unwrap_or(line)
}

/// What stands in an entry's line behind `event `: the text of the event, and that of its reply.
fn halves(text: &str) -> Option<(&str, &str)>
    ensures { option_map (λ cut. (cut.0.now, cut.1.now)) result ≡
        said.cut_text (codes " -> ") text.now }
{
    text.split_once(" -> ")
}

/// The event that an entry says, of what stands behind `event `.
fn entry_event(text: &str) -> Option<Event>
    ensures { result ≡ said.event_before text.now }
{
    let (event, _) = halves(text)?;
    read_event(event)
}

/// What stands in a line behind `event `; nothing if it is no entry.
fn entry_text(line: &str) -> Option<&str>
    ensures { option_map (λ text. text.now) result ≡ said.behind (codes "event ") line.now }
{
    line.strip_prefix("event ")
}

/// Whether a line is of a trace of two controllers.
fn is_of_two(line: &str) -> bool
    ensures { result ≡ said.is_of_two line.now }
{
    line.starts_with("1: ") || line.starts_with("2: ")
}

/// Whether a line, which a carriage return may end, can't be read.
fn is_unreadable(line: &str) -> bool
    ensures { result ≡ said.is_unreadable (strip_carriage_return line.now) }
{
    let line = without_return(line);
    match entry_text(line) {
        Some(text) => entry_event(text).is_none(),
        None => is_of_two(line),
    }
}

/// The number of the first line of a trace that can't be read, counted from 1: an entry that isn't `event `, the text of
/// an event, ` -> ` and any text, or a line of a trace of two controllers.
pub fn first_unreadable(trace: &str) -> Option<usize>
    ensures line { result ≡ said.first_unreadable trace.now }
{
    let index = trace.split('\n').position(|line| is_unreadable(line))?;
    Some(index + 1)
}

/// The entry that a line is, if it is one that can be read.
fn entry_at(index: usize, line: &str) -> Option<Entry>
    ensures { result ≡ said.entry_at index line.now }
{
    let event = entry_event(entry_text(without_return(line))?)?;
    Some(Entry { index, event })
}

/// The entries of a trace that can be read, in the order of their lines.
pub fn entries_of<A: Allocator + Copy>(alloc: A, trace: &str) -> Result<Vec<Entry, A>, AllocError>
    ensures entries { IfOk result (λ entries. entries.items ≡ said.entries_of trace.now) }
{
    trace
        .split('\n')
        .enumerate()
        .filter_map(|(index, line)| entry_at(index, line))
        .collect(alloc)
}

/// The text of the reply in a line that is an entry, which a carriage return may end.
pub fn reply_text(line: &str) -> Option<&str>
    ensures text { option_map (λ text. text.now) result ≡ said.reply_in (strip_carriage_return line.now) }
{
    let (_, reply) = halves(entry_text(without_return(line))?)?;
    Some(reply)
}

/// The texts of all replies of a trace, in the order of their lines.
fn reply_texts<'a, A: Allocator>(alloc: A, trace: &'a str) -> Result<Vec<&'a str, A>, AllocError>
    ensures { IfOk result (λ texts. map (λ text. text.now) texts.items ≡ said.replies_in trace.now) }
{
    let mut texts = Vec::new(alloc);
    for line in trace.split('\n') {
        if let Some(text) = reply_text(line) {
            texts.push(text)?;
        }
    }
    Ok(texts)
}

/// Whether a text is that of a reply.
fn is_reply<A: Allocator>(alloc: A, text: &str, reply: Reply) -> Result<bool, AllocError>
    ensures word { IfOk result (λ is. is ≡ said.is_reply text.now reply) }
    ensures text { IfOk result (λ is. IsTrue is ↔ (text.now ≡ reply_text reply)) }
{
    let said = ReplyText(reply).to_string(alloc)?;
    Ok(text == said.as_str())
}

/// The first of the entries, each with the text of its reply and with the book's reply, for which these differ.
fn first_among<A: Allocator + Copy>(
    alloc: A,
    entries: &[Entry],
    texts: &[&str],
    replies: &[Reply],
) -> Result<Option<Foreign>, AllocError>
    ensures { IfOk result (λ other. other ≡
        said.first_other entries.now (map (λ text. text.now) texts.now) replies.now) }
{
    let count = entries.len().min(texts.len()).min(replies.len());
    for place in 0..count {
        let reply = replies[place];
        if !is_reply(alloc, texts[place], reply)? {
            let entry = entries[place];
            return Ok(Some(Foreign { entry, reply }));
        }
    }
    Ok(None)
}

/// The first of the entries of a trace whose line doesn't have the text of its reply, by the book's replies to all of them.
pub fn first_other<A: Allocator + Copy>(
    alloc: A,
    trace: &str,
    entries: &[Entry],
    replies: &[Reply],
) -> Result<Option<Foreign>, AllocError>
    ensures first { IfOk result (λ other. other ≡
        said.first_other entries.now (said.replies_in trace.now) replies.now) }
{
    let texts = reply_texts(alloc, trace)?;
    first_among(alloc, entries, &texts, replies)
}

/// Whether texts are those of replies.
fn are_replies<A: Allocator + Copy>(
    alloc: A,
    texts: &[&str],
    replies: &[Reply],
) -> Result<bool, AllocError>
    ensures { IfOk result (λ are. IsTrue are ↔
        (map (λ text. text.now) texts.now ≡ map reply_text replies.now)) }
{
    if texts.len() != replies.len() {
        return Ok(false);
    }
    for place in 0..texts.len() {
        if !is_reply(alloc, texts[place], replies[place])? {
            return Ok(false);
        }
    }
    Ok(true)
}

/// Whether the replies of a trace are these: in the order of their lines, and no others.
pub fn has_replies<A: Allocator + Copy>(
    alloc: A,
    trace: &str,
    replies: &[Reply],
) -> Result<bool, AllocError>
    ensures replies { IfOk result (λ has. IsTrue has ↔ (said.HasReplies trace.now replies.now)) }
{
    let texts = reply_texts(alloc, trace)?;
    are_replies(alloc, &texts, replies)
}

impl Entry {
    /// The number of its line, counted from 1.
    pub fn line(&self) -> usize
        ensures line { self.now.index + 1 < 2 ^ 64 → result ≡ self.now.index + 1 }
    {
        // a text has fewer lines than a usize has values
        self.index.saturating_add(1)
    }
}
