//! Gathers as text what comes of the lines of a script.
//!
//! No clause says what is printed: tests show it.
use crate::heard::Came;
use cell_table::{Site, SiteFault};
use exchange::{Inbound, Outbound};
use lab_runs::course::Course;
use line_words::{StateLines, content_of, print_words};
use radio_book::book::Book;
use run_listeners::{Answer, LabFault, Listener, Printing, Turn};
use std::alloc::Allocator;
use std::io::{self, Write};
use std::str;
use trace_text::trace::{Mark, TraceLine, print_limit};

/// The lines of a trace, their messages in words, and what the books hold, as far as they were gathered.
#[derive(Drop)]
pub(crate) struct Gathered<A: Allocator + Copy> {
    trace: Vec<u8, A>,
    /// For each line of the trace one: the same with its message in words, or nothing where it is none.
    words: Vec<u8, A>,
    held: Vec<u8, A>,
    states: StateLines<A>,
    alloc: A,
}

/// What was printed, which is text.
fn text_of(printed: &[u8]) -> &str {
    str::from_utf8(printed).unwrap_or("")
}

/// What `print_words` begins with where no call is known.
const NO_CALL: &str = "no call; ";

/// Prints what stands before the octets of an input.
fn print_from<A: Allocator, W: Write>(out: &mut W, input: &Inbound<A>) -> io::Result<()> {
    match input {
        Inbound::Abis { cell, trx, .. } => write!(out, "in abis {cell} {trx} "),
        Inbound::A { call, .. } => write!(out, "in a {call} "),
        Inbound::Expiry { .. } | Inbound::Operator(_) => Ok(()),
    }
}

/// Prints what stands before the octets of a message that is sent.
fn print_to<A: Allocator, W: Write>(out: &mut W, sent: &Outbound<A>) -> io::Result<()> {
    match sent {
        Outbound::Abis { cell, trx, .. } => write!(out, "out abis {cell} {trx} "),
        Outbound::A { call, .. } => write!(out, "out a {call} "),
    }
}

/// Prints what stands before the octets of a line.
fn print_place<A: Allocator, W: Write>(
    out: &mut W,
    mark: Mark,
    line: &TraceLine<'_, A>,
) -> io::Result<()> {
    write!(out, "{mark}")?;
    match line {
        TraceLine::Input(input) => print_from(out, *input),
        TraceLine::Sent(sent) => print_to(out, *sent),
        TraceLine::Step(_) | TraceLine::Fault(_) | TraceLine::Limit | TraceLine::End(_) => Ok(()),
    }
}

/// Prints a line with octets with its message in words; nothing but the line's end where it is none.
fn print_said<A: Allocator + Copy>(
    alloc: A,
    out: &mut Vec<u8, A>,
    mark: Mark,
    line: &TraceLine<'_, A>,
) -> Result<(), LabFault> {
    let content = content_of(alloc, line)?;
    let mut words = Vec::new(alloc);
    print_words(&mut words, line, &content, None)?;
    if let Some(words) = text_of(&words).strip_prefix(NO_CALL) {
        print_place(out, mark, line)?;
        write!(out, "{words}")?;
    }
    Ok(writeln!(out)?)
}

/// Lines that are no message, in words: so many empty ones.
fn print_unsaid<W: Write>(out: &mut W, count: usize) -> io::Result<()> {
    for _ in 0..count {
        writeln!(out)?;
    }
    Ok(())
}

/// Prints a line for each TRX of a site.
fn print_trxs<A: Allocator + Copy, W: Write>(
    out: &mut W,
    mark: Mark,
    site: &Site<A>,
) -> io::Result<()> {
    for cell in 0..site.cells() {
        for trx in 0..site.trx(cell).unwrap_or(0) {
            writeln!(out, "{mark}state trx {cell}/{trx}")?;
        }
    }
    Ok(())
}

impl<A: Allocator + Copy> Gathered<A> {
    /// Nothing was gathered.
    pub(crate) fn new(alloc: A) -> Gathered<A> {
        Gathered {
            trace: Vec::new(alloc),
            words: Vec::new(alloc),
            held: Vec::new(alloc),
            states: StateLines::new(alloc),
            alloc,
        }
    }

    /// What was gathered since it was cleared last.
    pub(crate) fn came(&self) -> Came<'_> {
        Came {
            trace: text_of(&self.trace),
            words: text_of(&self.words),
            held: text_of(&self.held),
        }
    }

    /// What came, without the lines of the trace behind so many octets of it: those of its end.
    pub(crate) fn came_before(&self, end: usize) -> Came<'_> {
        Came {
            trace: text_of(self.trace.get(..end).unwrap_or(&[])),
            words: text_of(&self.words),
            held: text_of(&self.held),
        }
    }

    /// How many octets of the trace were gathered.
    pub(crate) fn end(&self) -> usize {
        self.trace.len()
    }

    /// Nothing is gathered any more, but the books are known.
    pub(crate) fn clear(&mut self) {
        self.trace.clear();
        self.words.clear();
        self.held.clear();
    }

    /// Gathers what the book of a controller holds, and which TRX its site has.
    fn hold_book(&mut self, mark: Mark, book: &Book<A>) -> Result<(), LabFault> {
        print_trxs(&mut self.held, mark, book.site())?;
        self.states.print(&mut self.held, mark, book)
    }

    /// Gathers what the books of a course hold.
    pub(crate) fn hold(&mut self, course: &Course<A>) -> Result<(), LabFault> {
        let controllers = &course.controllers;
        let first = controllers.first.view().desk().book();
        match &controllers.peer {
            None => self.hold_book(Mark::Alone, first),
            Some(peer) => {
                self.hold_book(Mark::First, first)?;
                self.hold_book(Mark::Peer, peer.view().desk().book())
            }
        }
    }

    /// Gathers the words of what came of an input.
    fn say(&mut self, mark: Mark, turn: &Turn<A>) -> Result<(), LabFault> {
        print_said(
            self.alloc,
            &mut self.words,
            mark,
            &TraceLine::Input(&turn.input),
        )?;
        print_unsaid(&mut self.words, turn.steps.len())?;
        match &turn.answer {
            Answer::Sent(sent) => self.say_all(mark, sent),
            Answer::Undecoded(_) => Ok(print_unsaid(&mut self.words, 1)?),
        }
    }

    /// Gathers the words of messages that are sent.
    fn say_all(&mut self, mark: Mark, sent: &[Outbound<A>]) -> Result<(), LabFault> {
        for message in sent {
            print_said(self.alloc, &mut self.words, mark, &TraceLine::Sent(message))?;
        }
        Ok(())
    }
}

impl<A: Allocator + Copy> Listener<A> for Gathered<A> {
    fn hear_turn(&mut self, mark: Mark, turn: &Turn<A>, book: &Book<A>) -> Result<(), LabFault> {
        for step in &turn.steps {
            self.states.note(mark, *step)?;
        }
        Printing::new(&mut self.trace).hear_turn(mark, turn, book)?;
        self.say(mark, turn)
    }

    fn hear_limit(&mut self) -> Result<(), LabFault> {
        print_unsaid(&mut self.words, 1)?;
        Ok(print_limit(&mut self.trace)?)
    }

    fn hear_end(&mut self, mark: Mark, book: &Book<A>) -> Result<(), LabFault> {
        print_unsaid(&mut self.words, 1)?;
        Printing::new(&mut self.trace).hear_end(mark, book)
    }

    fn hear_no_site(&mut self, _fault: SiteFault) -> io::Result<()> {
        Ok(())
    }

    fn hear_unreadable(&mut self, _line: usize) -> io::Result<()> {
        Ok(())
    }
}
