//! Which call a line is about.
use crate::content::Content;
use crate::held::{call_in, states_in};
use channel_fsm::ChanId;
use exchange::{Inbound, Line};
use radio_book::book::Book;
use radio_book::event::{Event, Reply};
use radio_book::facts::{About, facts_of};
use std::alloc::{AllocError, Allocator, Global};
use std::collections::BTreeMap;
use trace_text::trace::{Mark, Step, TraceLine};

/// The calls of one controller, as far as the book told them with which its lines begin, and these.
#[derive(Drop)]
struct Known<A: Allocator = Global> {
    /// The call of the input that was handled last.
    current: Option<u16>,
    /// The call that had a channel last.
    channels: BTreeMap<ChanId, u16, A>,
}

/// The call of what an operator asks for.
fn call_of_line(line: Line) -> u16 {
    match line {
        Line::Open { call, .. }
        | Line::Seize { call, .. }
        | Line::Handover { call, .. }
        | Line::Undo { call }
        | Line::Clear { call } => call,
    }
}

impl<A: Allocator + Copy> Known<A> {
    /// No call is known.
    fn new(alloc: A) -> Known<A> {
        Known {
            current: None,
            channels: BTreeMap::new(alloc),
        }
    }

    /// The calls that have a channel in a book are known.
    fn of_book(alloc: A, book: &Book<A>) -> Result<Known<A>, AllocError> {
        let mut known = Known::new(alloc);
        for (chan, state) in states_in(alloc, book)? {
            if let Some(call) = call_in(state) {
                known.channels.insert(chan, call)?;
            }
        }
        Ok(known)
    }

    /// The call that had a channel last.
    fn had(&self, chan: ChanId) -> Option<u16> {
        self.channels.get(&chan).copied()
    }

    /// The call of octets that come or are sent.
    fn of_content(&self, content: &Content<A>) -> Option<u16> {
        match content {
            Content::Abis(place, _) | Content::Rowless(place, _) => self.had(place.chan?),
            Content::A(call, _) => Some(*call),
            Content::Nothing => None,
        }
    }

    /// The call of an input.
    fn of_input(&self, input: &Inbound<A>, content: &Content<A>) -> Option<u16> {
        match input {
            Inbound::Abis { .. } | Inbound::A { .. } => self.of_content(content),
            Inbound::Expiry { call, .. } => Some(*call),
            Inbound::Operator(line) => Some(call_of_line(*line)),
        }
    }

    /// The call of an event. What it gives a call is kept.
    fn of_event(&mut self, event: Event, reply: Reply) -> Result<Option<u16>, AllocError> {
        let facts = facts_of(event);
        if let Some((call, chan)) = facts.gives
            && reply.is_accepted()
        {
            self.channels.insert(chan, call)?;
        }
        match facts.about {
            About::Call(call) => Ok(Some(call)),
            About::Channel(chan) => match reply {
                Reply::Owned(call) => Ok(Some(call)),
                Reply::Done | Reply::Record(..) | Reply::Refused(_) => Ok(self.had(chan)),
            },
        }
    }

    /// The call of a line.
    fn of_line(
        &mut self,
        line: &TraceLine<'_, A>,
        content: &Content<A>,
    ) -> Result<Option<u16>, AllocError> {
        match line {
            TraceLine::Input(input) => {
                self.current = self.of_input(*input, content);
                Ok(self.current)
            }
            TraceLine::Sent(_) => Ok(self.of_content(content)),
            TraceLine::Step(Step::Asked(event, reply)) => self.of_event(*event, *reply),
            TraceLine::Step(Step::NoneFree(..)) | TraceLine::Fault(_) => Ok(self.current),
            TraceLine::Limit | TraceLine::End(_) => Ok(None),
        }
    }
}

/// The calls of one controller or two, as far as the trace's lines, or the book with which the trace begins, show them.
#[derive(Drop)]
pub struct Calls<A: Allocator = Global> {
    first: Known<A>,
    peer: Known<A>,
}

impl<A: Allocator + Copy> Calls<A> {
    /// No call is known yet, at the beginning of a trace.
    pub fn new(alloc: A) -> Calls<A> {
        Calls {
            first: Known::new(alloc),
            peer: Known::new(alloc),
        }
    }

    /// The calls that have a channel in this book, with which the trace of one controller begins.
    pub fn of_book(alloc: A, book: &Book<A>) -> Result<Calls<A>, AllocError> {
        Ok(Calls {
            first: Known::of_book(alloc, book)?,
            peer: Known::new(alloc),
        })
    }

    /// The call that the next line of the trace is about, 0 to 65535: the call that the line names; for a channel or a
    /// message on Abis, the last call that had the channel; for a fault, or a cell without a free channel, the call of the
    /// input. `None` if neither the book at the beginning nor an earlier line showed one. `content` is the line's content.
    pub fn call_of(
        &mut self,
        mark: Mark,
        line: &TraceLine<'_, A>,
        content: &Content<A>,
    ) -> Result<Option<u16>, AllocError> {
        match mark {
            Mark::Alone | Mark::First => self.first.of_line(line, content),
            Mark::Peer => self.peer.of_line(line, content),
        }
    }
}
