//! The rows of a chart.
use crate::attempts::Attempts;
use crate::bars::{Marked, push_marked};
use crate::drawing::{Drawing, Drawn, Happening, Part, count, write_drawing};
use crate::lanes::Post;
use chart::{Frame, Side};
use event_text::writing::EventText;
use exchange::Inbound;
use line_words::{Content, Passed, Place, failure_name, message_name, passed_on};
use radio_book::event::{Event, Reply};
use run_listeners::LabFault;
use std::alloc::{AllocError, Allocator, Global};
use std::io::Write;
use trace_text::bad::BadText;
use trace_text::trace::{InboundText, Mark, ReplyText, Step, TraceLine, UsageText};

/// So many rows stand on a page.
const PAGE: u32 = 60;

/// What of a chart stands in a picture.
#[derive(Clone, Copy, Debug, PartialEq, Eq)]
pub(crate) enum Extent {
    /// All rows.
    Whole,
    /// Those of a page, counted from 1.
    Page(u32),
}

/// The chart of the lines that were added.
#[derive(Drop)]
pub struct RunChart<A: Allocator = Global> {
    title: String<A>,
    has_peer: bool,
    /// Whether what only looks something up is drawn, too.
    looks: bool,
    inputs: u64,
    rows: Vec<Drawn<A>, A>,
    first: Attempts<A>,
    peer: Attempts<A>,
    alloc: A,
}

/// Who stands at the other end of a message, where there is a message.
fn other_end<A: Allocator>(mark: Mark, content: &Content<A>) -> Option<Post> {
    match content {
        Content::Abis(place, _) | Content::Rowless(place, _) => {
            Some(Post::Station(mark, place.cell))
        }
        Content::A(..) => Some(Post::Centre),
        Content::Nothing => None,
    }
}

/// Appends where on Abis a message goes or comes from: its channel; its cell and TRX, where its octets name no channel.
fn push_place<A: Allocator>(text: &mut String<A>, place: Place) -> Result<(), AllocError> {
    match place.chan {
        Some(chan) => write!(text, "{chan} "),
        None => write!(text, "{}/{} ", place.cell, place.trx),
    }
}

/// Appends the name of the cause for which something fails, where there is one.
fn push_failure<A: Allocator>(
    text: &mut String<A>,
    failure: Option<&str>,
) -> Result<(), AllocError> {
    match failure {
        Some(cause) => write!(text, ": {cause}"),
        None => Ok(()),
    }
}

/// The text of a message's arrow between a controller and somebody else: on Abis where it goes or comes from; its name; its
/// call, where that is known; the name of its cause, where it says that something fails.
fn arrow_text<A: Allocator + Copy>(
    alloc: A,
    content: &Content<A>,
    name: &str,
    call: Option<u16>,
) -> Result<String<A>, AllocError> {
    let mut text = String::new(alloc);
    match content {
        Content::Abis(place, _) | Content::Rowless(place, _) => push_place(&mut text, *place)?,
        Content::A(..) | Content::Nothing => {}
    }
    text.push_str(name)?;
    if let Some(call) = call {
        write!(text, ", call {call}")?;
    }
    push_failure(&mut text, failure_name(content))?;
    Ok(text)
}

/// The text of the arrow of a radio resource message between a station and a mobile.
fn passed_text<A: Allocator + Copy>(alloc: A, passed: Passed) -> Result<String<A>, AllocError> {
    let mut text = String::from_str(alloc, passed.inner)?;
    push_failure(&mut text, passed.failure)?;
    Ok(text)
}

/// Whether an event only looks something up.
fn is_look(event: Event) -> bool {
    match event {
        Event::Look(_) | Event::Owner(_) => true,
        Event::Open(..)
        | Event::Clear(_)
        | Event::Take(..)
        | Event::Reserve(..)
        | Event::Activate(_)
        | Event::Command(_)
        | Event::Complete(_)
        | Event::Undo(..)
        | Event::Confirm(_)
        | Event::Refuse(_)
        | Event::Detect(_)
        | Event::Released(_)
        | Event::Require(_)
        | Event::Order(_)
        | Event::Left(_) => false,
    }
}

/// How an event is framed that got this reply.
fn frame_of(reply: Reply) -> Frame {
    if reply.is_accepted() {
        Frame::Thin
    } else {
        Frame::Thick
    }
}

/// The rows of a page, counted from 1.
fn page_of<A: Allocator>(rows: &[Drawn<A>], page: u32) -> Part<'_, A> {
    let first = page.saturating_sub(1).saturating_mul(PAGE);
    let behind = rows.get(first as usize..).unwrap_or(&[]);
    Part {
        first,
        rows: behind.get(..PAGE as usize).unwrap_or(behind),
    }
}

impl<A: Allocator + Copy> RunChart<A> {
    /// A chart without a row, of one controller or of two, with what only looks something up or without.
    pub fn new(alloc: A, has_peer: bool, looks: bool) -> RunChart<A> {
        RunChart {
            title: String::new(alloc),
            has_peer,
            looks,
            inputs: 0,
            rows: Vec::new(alloc),
            first: Attempts::new(alloc),
            peer: Attempts::new(alloc),
            alloc,
        }
    }

    /// Its title is this, and the call whose lines alone are drawn, where there is one.
    pub(crate) fn name(&mut self, title: &str, only: Option<u16>) -> Result<(), AllocError> {
        self.title = match only {
            Some(call) => format!(in self.alloc; "{title}, call {call}")?,
            None => String::from_str(self.alloc, title)?,
        };
        Ok(())
    }

    /// Adds a row.
    fn push(
        &mut self,
        heading: String<A>,
        happening: Happening,
        text: String<A>,
        onward: String<A>,
    ) -> Result<(), AllocError> {
        self.rows.push(Drawn {
            heading,
            happening,
            text,
            onward,
        })?;
        Ok(())
    }

    /// No text.
    fn blank(&self) -> String<A> {
        String::new(self.alloc)
    }

    /// Adds a row with a heading alone.
    fn head(&mut self, heading: String<A>) -> Result<(), AllocError> {
        let (text, onward) = (self.blank(), self.blank());
        self.push(heading, Happening::Nothing, text, onward)
    }

    /// Adds a note at a controller.
    fn note(&mut self, mark: Mark, text: String<A>, frame: Frame) -> Result<(), AllocError> {
        let at = Post::Controller(mark);
        let (heading, onward) = (self.blank(), self.blank());
        self.push(heading, Happening::Note { at, frame }, text, onward)
    }

    /// Adds the arrow of a message between a controller and somebody else.
    fn direct(
        &mut self,
        heading: String<A>,
        mark: Mark,
        is_sent: bool,
        other: Post,
        text: String<A>,
    ) -> Result<(), AllocError> {
        let own = Post::Controller(mark);
        let happening = if is_sent {
            Happening::Arrow {
                from: own,
                to: other,
            }
        } else {
            Happening::Arrow {
                from: other,
                to: own,
            }
        };
        let onward = self.blank();
        self.push(heading, happening, text, onward)
    }

    /// Adds the arrows of a message that a station passes on between a controller and a mobile.
    fn relayed(
        &mut self,
        heading: String<A>,
        mark: Mark,
        is_sent: bool,
        by: Post,
        outer: String<A>,
        inner: String<A>,
    ) -> Result<(), AllocError> {
        let (own, mobile) = (Post::Controller(mark), Post::Mobile(mark));
        if is_sent {
            let happening = Happening::Relayed {
                from: own,
                by,
                to: mobile,
            };
            self.push(heading, happening, outer, inner)
        } else {
            let happening = Happening::Relayed {
                from: mobile,
                by,
                to: own,
            };
            self.push(heading, happening, inner, outer)
        }
    }

    /// Adds the arrow of a message between a controller and somebody else, where there is a message.
    fn arrow(
        &mut self,
        heading: String<A>,
        mark: Mark,
        is_sent: bool,
        content: &Content<A>,
        call: Option<u16>,
    ) -> Result<(), AllocError> {
        let Some(other) = other_end(mark, content) else {
            return Ok(());
        };
        match passed_on(content) {
            Some(passed) => {
                let outer = arrow_text(self.alloc, content, passed.outer, call)?;
                let inner = passed_text(self.alloc, passed)?;
                self.relayed(heading, mark, is_sent, other, outer, inner)
            }
            None => {
                let name = message_name(self.alloc, content)?;
                let text = arrow_text(self.alloc, content, &name, call)?;
                self.direct(heading, mark, is_sent, other, text)
            }
        }
    }

    /// Adds an input: its number beside its arrow, or in a row of its own with its words.
    fn input(
        &mut self,
        mark: Mark,
        input: &Inbound<A>,
        content: &Content<A>,
        call: Option<u16>,
    ) -> Result<(), AllocError> {
        self.inputs = self.inputs.saturating_add(1);
        let number = self.inputs;
        match input {
            Inbound::Abis { .. } | Inbound::A { .. } => {
                let heading = format!(in self.alloc; "{number}")?;
                self.arrow(heading, mark, false, content, call)
            }
            Inbound::Expiry { .. } | Inbound::Operator(_) => {
                let heading = format!(in self.alloc; "{number} {mark}{}", InboundText(input))?;
                self.head(heading)
            }
        }
    }

    /// The attempts of a controller.
    fn attempts(&mut self, mark: Mark) -> &mut Attempts<A> {
        match mark {
            Mark::Alone | Mark::First => &mut self.first,
            Mark::Peer => &mut self.peer,
        }
    }

    /// Adds an event that a book was asked, with its reply. What only looks something up is left out, unless it is asked for or
    /// was refused.
    fn event(
        &mut self,
        mark: Mark,
        event: Event,
        reply: Reply,
        call: Option<u16>,
    ) -> Result<(), AllocError> {
        if is_look(event) && reply.is_accepted() && !self.looks {
            return Ok(());
        }
        let row = count(&self.rows);
        self.attempts(mark).ask(row, event, reply, call)?;
        let text = format!(in self.alloc; "{} -> {}", EventText(event), ReplyText(reply))?;
        self.note(mark, text, frame_of(reply))
    }

    /// Adds what was asked of a book.
    fn asked(&mut self, mark: Mark, step: Step, call: Option<u16>) -> Result<(), AllocError> {
        match step {
            Step::Asked(event, reply) => self.event(mark, event, reply, call),
            Step::NoneFree(cell, _) => {
                let text = format!(in self.alloc; "none free in cell {cell}")?;
                self.note(mark, text, Frame::Thick)
            }
        }
    }

    /// Adds a line of the controller with this mark, with this content, about this call. If memory is refused, the chart may
    /// lack a row of it.
    pub fn add_line(
        &mut self,
        mark: Mark,
        line: &TraceLine<'_, A>,
        content: &Content<A>,
        call: Option<u16>,
    ) -> Result<(), AllocError> {
        match line {
            TraceLine::Input(input) => self.input(mark, *input, content, call),
            TraceLine::Sent(_) => {
                let heading = self.blank();
                self.arrow(heading, mark, true, content, call)
            }
            TraceLine::Step(step) => self.asked(mark, *step, call),
            TraceLine::Fault(bad) => {
                let text = format!(in self.alloc; "fault {}", BadText(*bad))?;
                self.note(mark, text, Frame::Thick)
            }
            TraceLine::Limit => {
                let text = format!(in self.alloc; "{line}")?;
                self.head(text)
            }
            TraceLine::End(usage) => {
                let text = format!(in self.alloc; "{}", UsageText(*usage))?;
                self.note(mark, text, Frame::Thin)
            }
        }
    }

    /// Passes over a line that isn't shown: inputs keep their numbers.
    pub(crate) fn pass_line(&mut self, line: &TraceLine<'_, A>) {
        match line {
            TraceLine::Input(_) => self.inputs = self.inputs.saturating_add(1),
            TraceLine::Sent(_)
            | TraceLine::Step(_)
            | TraceLine::Fault(_)
            | TraceLine::Limit
            | TraceLine::End(_) => {}
        }
    }

    /// How many pages it has.
    pub(crate) fn pages(&self) -> u32 {
        count(&self.rows).div_ceil(PAGE).max(1)
    }

    /// The title of a picture.
    fn title_of(&self, extent: Extent) -> Result<String<A>, AllocError> {
        let title = self.title.as_str();
        match extent {
            Extent::Whole => String::from_str(self.alloc, title),
            Extent::Page(page) => {
                format!(in self.alloc; "{title}, page {page} of {}", self.pages())
            }
        }
    }

    /// The bars, with their texts.
    fn marked(&self) -> Result<Vec<Marked<A>, A>, AllocError> {
        let last = count(&self.rows).saturating_sub(1);
        let mut marked = Vec::new(self.alloc);
        push_marked(self.alloc, &self.first, Side::Left, last, &mut marked)?;
        push_marked(self.alloc, &self.peer, Side::Right, last, &mut marked)?;
        Ok(marked)
    }

    /// The rows of a picture.
    fn part(&self, extent: Extent) -> Part<'_, A> {
        match extent {
            Extent::Whole => Part {
                first: 0,
                rows: &self.rows,
            },
            Extent::Page(page) => page_of(&self.rows, page),
        }
    }

    /// Writes a picture as an SVG that stands alone. Nothing is written where memory is refused.
    pub(crate) fn write_to<W: Write>(&self, extent: Extent, out: &mut W) -> Result<(), LabFault> {
        let title = self.title_of(extent)?;
        let marked = self.marked()?;
        let drawing = Drawing {
            title: &title,
            has_peer: self.has_peer,
            part: self.part(extent),
            marked: &marked,
        };
        write_drawing(self.alloc, drawing, out)
    }
}
