//! What the book of a controller holds, as lines.
//!
//! A book is read by a call or by a channel. Which ones to look for is known from the events that were asked, and from the
//! book with which they began.
use crate::held::{call_in, states_in};
use channel_fsm::{ChanId, ChanState};
use radio_book::book::Book;
use radio_book::event::{Attempt, CallRecord, Event, Reply, Timer};
use radio_book::facts::facts_of;
use run_listeners::LabFault;
use std::alloc::{AllocError, Allocator, Global};
use std::collections::BTreeSet;
use std::io::{self, Write};
use trace_text::trace::{Mark, ReplyText, Step};

/// What the events of a controller named so far, and what the book had with which they began.
#[derive(Drop)]
struct Named<A: Allocator + Copy = Global> {
    calls: BTreeSet<u16, A>,
    channels: BTreeSet<ChanId, A>,
    alloc: A,
}

/// The calls and channels that the events of one controller or two named so far, or that their books had at the beginning.
#[derive(Drop)]
pub struct StateLines<A: Allocator + Copy = Global> {
    first: Named<A>,
    peer: Named<A>,
}

/// The name of a timer.
fn timer_name(timer: Timer) -> &'static str {
    match timer {
        Timer::T3103 => "T3103",
        Timer::T7 => "T7",
        Timer::T8 => "T8",
    }
}

/// Prints a channel that isn't free.
fn print_channel<W: Write>(
    out: &mut W,
    mark: Mark,
    chan: ChanId,
    state: ChanState,
) -> io::Result<()> {
    let (word, call) = match state {
        ChanState::Free => return Ok(()),
        ChanState::Held(call) => ("held", call),
        ChanState::Pending(call) => ("pending", call),
        ChanState::On(call) => ("on", call),
        ChanState::Off => return writeln!(out, "{mark}state channel {chan} off"),
    };
    writeln!(out, "{mark}state channel {chan} {word} call {call}")
}

/// Prints the reference of an attempt.
fn print_reference<W: Write>(
    out: &mut W,
    mark: Mark,
    call: u16,
    attempt: Attempt,
) -> io::Result<()> {
    match (attempt.target, attempt.reference) {
        (Some(target), Some(number)) => {
            let cell = target.cell;
            writeln!(out, "{mark}state reference {cell} {number} call {call}")
        }
        (None, _) | (Some(_), None) => Ok(()),
    }
}

/// Prints those of these channels that aren't free.
fn print_channels<A: Allocator + Copy, W: Write>(
    out: &mut W,
    mark: Mark,
    channels: &BTreeSet<ChanId, A>,
    book: &Book<A>,
) -> Result<(), LabFault> {
    for chan in channels {
        print_channel(out, mark, *chan, book.state(*chan))?;
    }
    Ok(())
}

/// The state of the channel that serves a call.
fn serving_state<A: Allocator + Copy>(book: &Book<A>, found: CallRecord) -> Option<ChanState> {
    Some(book.state(found.serving?))
}

/// Prints a call, its reference and its timer.
fn print_call<A: Allocator + Copy, W: Write>(
    out: &mut W,
    mark: Mark,
    book: &Book<A>,
    call: u16,
    found: CallRecord,
) -> Result<(), LabFault> {
    let text = ReplyText(Reply::Record(found, serving_state(book, found)));
    writeln!(out, "{mark}state call {call} {text}")?;
    if let Some(attempt) = found.attempt {
        print_reference(out, mark, call, attempt)?;
    }
    if let Some(timer) = book.timer(call) {
        writeln!(out, "{mark}state timer {} call {call}", timer_name(timer))?;
    }
    Ok(())
}

/// Prints those of these calls that there are.
fn print_calls<A: Allocator + Copy, W: Write>(
    out: &mut W,
    mark: Mark,
    calls: &BTreeSet<u16, A>,
    book: &Book<A>,
) -> Result<(), LabFault> {
    for call in calls {
        if let Some(found) = book.record(*call) {
            print_call(out, mark, book, *call, found)?;
        }
    }
    Ok(())
}

impl<A: Allocator + Copy> Named<A> {
    /// Nothing was named.
    fn new(alloc: A) -> Named<A> {
        Named {
            calls: BTreeSet::new(alloc),
            channels: BTreeSet::new(alloc),
            alloc,
        }
    }

    /// What a book has was named.
    fn of_book(alloc: A, book: &Book<A>) -> Result<Named<A>, AllocError> {
        let mut named = Named::new(alloc);
        for (chan, state) in states_in(alloc, book)? {
            named.channels.insert(chan)?;
            if let Some(call) = call_in(state) {
                named.calls.insert(call)?;
            }
        }
        Ok(named)
    }

    /// An event was asked.
    fn note(&mut self, event: Event) -> Result<(), AllocError> {
        if let Some((call, chan)) = facts_of(event).gives {
            self.calls.insert(call)?;
            self.channels.insert(chan)?;
        }
        Ok(())
    }

    /// Prints all that a book holds.
    fn print<W: Write>(&self, out: &mut W, mark: Mark, book: &Book<A>) -> Result<(), LabFault> {
        let usage = book.usage();
        if usage.channels == 0 && usage.calls == 0 {
            return Ok(writeln!(out, "{mark}state empty")?);
        }
        print_channels(out, mark, &self.channels, book)?;
        print_calls(out, mark, &self.calls, book)
    }
}

impl<A: Allocator + Copy> StateLines<A> {
    /// Nothing has been asked of any book.
    pub fn new(alloc: A) -> StateLines<A> {
        StateLines {
            first: Named::new(alloc),
            peer: Named::new(alloc),
        }
    }

    /// The calls and channels of the book with which one controller begins.
    pub fn of_book(alloc: A, book: &Book<A>) -> Result<StateLines<A>, AllocError> {
        Ok(StateLines {
            first: Named::of_book(alloc, book)?,
            peer: Named::new(alloc),
        })
    }

    /// Keeps what an event of a controller names.
    pub fn note(&mut self, mark: Mark, step: Step) -> Result<(), AllocError> {
        match step {
            Step::Asked(event, _) => self.named(mark).note(event),
            Step::NoneFree(..) => Ok(()),
        }
    }

    /// What a controller's events named.
    fn named(&mut self, mark: Mark) -> &mut Named<A> {
        match mark {
            Mark::Alone | Mark::First => &mut self.first,
            Mark::Peer => &mut self.peer,
        }
    }

    /// Prints what the book of a controller holds, each line after its mark. Its events have to be noted. First come the
    /// channels that aren't free, by cell, TRX and timeslot; then the calls by number, as the book's replies give them, each
    /// with its handover reference (cell and number) and its timer. `state empty` if there is nothing.
    pub fn print<W: Write>(
        &mut self,
        out: &mut W,
        mark: Mark,
        book: &Book<A>,
    ) -> Result<(), LabFault> {
        self.named(mark).print(out, mark, book)
    }
}
