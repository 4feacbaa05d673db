//! Reads a trace's lines back, as `run` prints them, as far as they are counted.
//!
//! No clause says which lines can be read: tests show it.
ghost use Rattle.std.specs.Prelude.{◌≡◌};

use crate::causes::cause_of;
use crate::lines::cell_of;
use crate::runs::RunSummary;
use event_text::reading::read_event;
use exchange::{Inbound, Outbound};
use lab_script::script::{Given, ScriptFault, read_script, without_return};
use line_words::content_of;
use radio_book::event::AttemptKind;
use run_counts::{Told, Way};
use std::alloc::{AllocError, Allocator, Global};
use trace_text::trace::{Mark, TraceLine};

/// Why a trace isn't counted.
#[derive(Clone, Copy, Debug, PartialEq, Eq)]
pub enum TraceFault {
    /// This line, counted from 1, is the first that can't be read.
    Line(usize),
    /// Memory was refused.
    NoMemory,
}

impl From<AllocError> for TraceFault {
    ghost use Rattle.run_summaries.specs.declared.traces.TraceFault.TheVariants.{NoMemory};

    ghost from_gives = { λ _ fault. fault ≡ NoMemory };

    fn from(_: AllocError) -> TraceFault {
        TraceFault::NoMemory
    }
}

/// A line's mark, and what stands behind it.
fn cut_mark(line: &str) -> (Mark, &str) {
    if let Some(text) = line.strip_prefix("1: ") {
        return (Mark::First, text);
    }
    match line.strip_prefix("2: ") {
        Some(text) => (Mark::Peer, text),
        None => (Mark::Alone, line),
    }
}

/// A line without the words behind it.
fn without_words(line: &str) -> &str {
    match line.split_once(" # ") {
        Some((text, _)) => text,
        None => line,
    }
}

/// The text of an input's line without the line of the script that gave it.
fn without_origin(line: &str) -> &str {
    match line.split_once(" @") {
        Some((text, _)) => text,
        None => line,
    }
}

/// The input that the text of a line gives, as that of a script.
fn input_of<A: Allocator + Copy>(alloc: A, text: &str) -> Result<Option<Inbound<A>>, AllocError> {
    match read_script(alloc, text, false) {
        Ok(mut items) => match items.pop() {
            Some(item) => Ok(input_in(item.given)),
            None => Ok(None),
        },
        Err(ScriptFault::Line(_)) => Ok(None),
        Err(ScriptFault::NoMemory) => Err(AllocError),
    }
}

/// The input among what a line of a script gives.
fn input_in<A: Allocator>(given: Given<A>) -> Option<Inbound<A>> {
    match given {
        Given::Input(input) => Some(input),
        Given::Attach
        | Given::Set(_)
        | Given::HangUp(_)
        | Given::Ask(_)
        | Given::MobileOf { .. }
        | Given::Restart(_) => None,
    }
}

/// The message that is sent where an input would come so.
fn sent_as<A: Allocator>(input: Inbound<A>) -> Option<Outbound<A>> {
    match input {
        Inbound::Abis { cell, trx, bytes } => Some(Outbound::Abis { cell, trx, bytes }),
        Inbound::A { call, bytes } => Some(Outbound::A { call, bytes }),
        Inbound::Expiry { .. } | Inbound::Operator(_) => None,
    }
}

/// The cell of a channel's text; nothing of `-`.
fn cell_in(text: &str) -> Option<u8> {
    let (cell, _) = text.split_once('/')?;
    cell.parse().ok()
}

/// The home cell of a record's text, `record SERVING STATE`, and behind that an attempt's `KIND STAGE TARGET REFERENCE`.
fn home_in(reply: &str) -> Option<u8> {
    let serving = reply.split(' ').nth(1)?;
    match cell_in(serving) {
        Some(cell) => Some(cell),
        None => cell_in(reply.split(' ').nth(5)?),
    }
}

/// The kind of an attempt, by its word.
fn kind_in(text: &str) -> Option<AttemptKind> {
    match text {
        "internal" => Some(AttemptKind::Internal),
        "incoming" => Some(AttemptKind::Incoming),
        "outgoing" => Some(AttemptKind::Outgoing),
        _ => None,
    }
}

/// Which way the attempt of a record's text leads, where it has one.
fn way_in(reply: &str) -> Option<Way> {
    let kind = kind_in(reply.split(' ').nth(3)?)?;
    let target = cell_in(reply.split(' ').nth(5)?);
    Some(Way { kind, target })
}

/// What an event's line tells, `event ` left out; nothing if it can't be read.
fn told_by_event(text: &str) -> Option<Told> {
    let (event, reply) = text.split_once(" -> ")?;
    let event = read_event(event)?;
    let (is_accepted, home, way) = match reply.split(' ').next()? {
        "done" | "owned" => (true, None, None),
        "record" => (true, home_in(reply), way_in(reply)),
        "refused" => (false, None, None),
        _ => return None,
    };
    Some(Told::Asked {
        event,
        is_accepted,
        home,
        way,
    })
}

/// Whether a link's name begins what stands behind `fault `.
fn is_fault(text: &str) -> bool {
    text.starts_with("abis ") || text.starts_with("a ") || text.starts_with("rr ")
}

/// What a line without a message tells; nothing if it can't be read. Lines that aren't counted tell nothing.
fn told_by_text(text: &str) -> Option<Told> {
    if let Some(event) = text.strip_prefix("event ") {
        return told_by_event(event);
    }
    if let Some(cell) = text.strip_prefix("none free ") {
        return Some(Told::NoneFree {
            cell: cell.parse().ok()?,
        });
    }
    match text.strip_prefix("fault ") {
        Some(fault) if is_fault(fault) => Some(Told::Fault),
        Some(_) => None,
        None => Some(Told::Nothing),
    }
}

impl<A: Allocator + Copy> RunSummary<A> {
    /// What an input's line tells, `in ` left out; nothing if it can't be read.
    fn told_by_input_text(&mut self, text: &str) -> Result<Option<Told>, AllocError> {
        let Some(input) = input_of(self.alloc, text)? else {
            return Ok(None);
        };
        let line = TraceLine::Input(&input);
        let content = content_of(self.alloc, &line)?;
        Ok(Some(self.told_by(&line, &content)?))
    }

    /// What a message's line tells that is sent, `out ` left out; nothing if it can't be read.
    fn told_by_sent_text(&mut self, text: &str) -> Result<Option<Told>, AllocError> {
        let Some(input) = input_of(self.alloc, text)? else {
            return Ok(None);
        };
        let Some(sent) = sent_as(input) else {
            return Ok(None);
        };
        let line = TraceLine::Sent(&sent);
        let content = content_of(self.alloc, &line)?;
        Ok(Some(self.told_by(&line, &content)?))
    }

    /// What a line tells of which the controller was given this in another's place, `for ` left out; nothing where it can't be
    /// read. No message came, so that none is counted.
    fn told_in_place(&mut self, text: &str) -> Result<Option<Told>, AllocError> {
        let Some(input) = input_of(self.alloc, text)? else {
            return Ok(None);
        };
        let content = content_of(self.alloc, &TraceLine::Input(&input))?;
        Ok(Some(Told::Input {
            cell: cell_of(&content),
            cause: cause_of(&input, &content),
            name: None,
        }))
    }

    /// What a line tells, without its mark and words; nothing if it can't be read.
    fn told_in(&mut self, text: &str) -> Result<Option<Told>, AllocError> {
        if let Some(input) = text.strip_prefix("in ") {
            return self.told_by_input_text(without_origin(input));
        }
        if let Some(input) = text.strip_prefix("for ") {
            return self.told_in_place(input);
        }
        match text.strip_prefix("out ") {
            Some(sent) => self.told_by_sent_text(sent),
            None => Ok(told_by_text(text)),
        }
    }

    /// Counts a line of a trace. The answer is whether it can be read. Of two controllers' traces each line that is counted has
    /// a mark.
    fn add_text(&mut self, line: &str) -> Result<bool, AllocError> {
        let (mark, text) = cut_mark(without_words(without_return(line)));
        match self.told_in(text)? {
            Some(told) if mark == Mark::Alone && self.peer.is_some() => Ok(matches!(
                told,
                Told::Nothing
            )),
            Some(told) => {
                self.add_told(mark, told)?;
                Ok(true)
            }
            None => Ok(false),
        }
    }
}

/// Whether a trace is of two controllers: whether one of its lines has a mark.
fn has_marks(trace: &str) -> bool {
    trace
        .split('\n')
        .any(|line| line.starts_with("1: ") || line.starts_with("2: "))
}

/// The counts of a trace: of its lines that begin with `in `, `for `, `event `, `none free `, `out ` or `fault `, behind a
/// controller's mark where there are two, and in front of words. All others are passed over.
pub fn summary_of_trace(alloc: Global, trace: &str) -> Result<RunSummary, TraceFault> {
    let mut run = RunSummary::new(alloc, has_marks(trace));
    for (index, line) in trace.split('\n').enumerate() {
        if !run.add_text(line)? {
            return Err(TraceFault::Line(index.saturating_add(1)));
        }
    }
    Ok(run)
}
