//! The trace: what one controller or two were given, what each asked of its book, and what it sent, as lines of text.
//!
//! `docs/PROGRAM.md` lists the lines and their words.
use crate::bad::BadText;
use crate::text::HexText;
use channel_fsm::{ChanId, Rate, Sub};
use event_text::writing::EventText;
use exchange::{Bad, Inbound, Line, Outbound};
use radio_book::book::Usage;
use radio_book::event::{Event, Reply, Timer};
use std::alloc::{Allocator, Global};
use std::fmt;
use std::io::{self, Write};
pub use trace_entries::replies::{ReplyText, refusal_number};

/// What stands in front of a controller's lines.
#[derive(Clone, Copy, Debug, PartialEq, Eq)]
pub enum Mark {
    /// Nothing: there is one controller.
    Alone,
    /// `1: `: the first of two.
    First,
    /// `2: `: its peer.
    Peer,
}

impl fmt::Display for Mark {
    fn fmt<W: fmt::Write>(&self, f: &mut fmt::Formatter<W>) -> fmt::Result {
        f.write_str(match self {
            Mark::Alone => "",
            Mark::First => "1: ",
            Mark::Peer => "2: ",
        })
    }
}

/// What a controller asked of its book.
#[derive(Clone, Copy, Debug, PartialEq, Eq)]
pub enum Step {
    /// An event, and its reply.
    Asked(Event, Reply),
    /// A channel of this cell that is free at this rate, and there was none. (The line has the cell alone.)
    NoneFree(u8, Rate),
}

impl fmt::Display for Step {
    fn fmt<W: fmt::Write>(&self, f: &mut fmt::Formatter<W>) -> fmt::Result {
        match *self {
            Step::Asked(event, reply) => {
                write!(f, "event {} -> {}", EventText(event), ReplyText(reply))
            }
            Step::NoneFree(cell, _) => write!(f, "none free {cell}"),
        }
    }
}

/// A channel in a line of a script: its cell, its TRX and its timeslot, and behind that `/0` or `/1` for a half.
#[derive(Clone, Copy)]
struct ChannelWords(ChanId);

impl fmt::Display for ChannelWords {
    fn fmt<W: fmt::Write>(&self, f: &mut fmt::Formatter<W>) -> fmt::Result {
        let ChanId { cell, trx, tn, sub } = self.0;
        match sub {
            Sub::Full => write!(f, "{cell} {trx} {tn}"),
            Sub::Half0 => write!(f, "{cell} {trx} {tn}/0"),
            Sub::Half1 => write!(f, "{cell} {trx} {tn}/1"),
        }
    }
}

/// The line of a script that asks for something.
#[derive(Clone, Copy)]
struct LineText(Line);

impl fmt::Display for LineText {
    fn fmt<W: fmt::Write>(&self, f: &mut fmt::Formatter<W>) -> fmt::Result {
        match self.0 {
            Line::Open { call, chan } => write!(f, "open {call} {}", ChannelWords(chan)),
            Line::Seize { call, cell, rate } => write!(f, "seize {call} {cell} {}", RateText(rate)),
            Line::Handover { call, cell } => write!(f, "handover {call} {cell}"),
            Line::Undo { call } => write!(f, "undo {call}"),
            Line::Clear { call } => write!(f, "clear {call}"),
        }
    }
}

/// The name of a rate in a line of a script.
#[derive(Clone, Copy)]
struct RateText(Rate);

impl fmt::Display for RateText {
    fn fmt<W: fmt::Write>(&self, f: &mut fmt::Formatter<W>) -> fmt::Result {
        f.write_str(match self.0 {
            Rate::Full => "full",
            Rate::Half => "half",
        })
    }
}

/// The name of a timer in a line of a script.
#[derive(Clone, Copy)]
struct TimerText(Timer);

impl fmt::Display for TimerText {
    fn fmt<W: fmt::Write>(&self, f: &mut fmt::Formatter<W>) -> fmt::Result {
        f.write_str(match self.0 {
            Timer::T3103 => "T3103",
            Timer::T7 => "T7",
            Timer::T8 => "T8",
        })
    }
}

/// The line of a script that gives an input, as it stands behind `in`.
#[derive(Drop)]
pub struct InboundText<'a, A: Allocator>(pub &'a Inbound<A>);

impl<A: Allocator> fmt::Display for InboundText<'_, A> {
    fn fmt<W: fmt::Write>(&self, f: &mut fmt::Formatter<W>) -> fmt::Result {
        match self.0 {
            Inbound::Abis { cell, trx, bytes } => {
                write!(f, "abis {cell} {trx} {}", HexText(bytes.as_slice()))
            }
            Inbound::A { call, bytes } => write!(f, "a {call} {}", HexText(bytes.as_slice())),
            Inbound::Expiry { call, timer } => write!(f, "expire {call} {}", TimerText(*timer)),
            Inbound::Operator(line) => write!(f, "{}", LineText(*line)),
        }
    }
}

/// A message that is sent: `abis CELL TRX HEX` or `a CALL HEX`.
#[derive(Drop)]
struct OutboundText<'a, A: Allocator>(&'a Outbound<A>);

impl<A: Allocator> fmt::Display for OutboundText<'_, A> {
    fn fmt<W: fmt::Write>(&self, f: &mut fmt::Formatter<W>) -> fmt::Result {
        match self.0 {
            Outbound::Abis { cell, trx, bytes } => {
                write!(f, "abis {cell} {trx} {}", HexText(bytes.as_slice()))
            }
            Outbound::A { call, bytes } => write!(f, "a {call} {}", HexText(bytes.as_slice())),
        }
    }
}

/// What a book holds, as it stands behind `end`.
#[derive(Clone, Copy)]
pub struct UsageText(pub Usage);

impl fmt::Display for UsageText {
    fn fmt<W: fmt::Write>(&self, f: &mut fmt::Formatter<W>) -> fmt::Result {
        let usage = self.0;
        write!(
            f,
            "channels={} calls={} references={} timers={}",
            usage.channels, usage.calls, usage.references, usage.timers
        )
    }
}

/// A line of the trace, behind its controller's mark.
#[derive(Drop)]
pub enum TraceLine<'a, A: Allocator = Global> {
    /// An input is handled.
    Input(&'a Inbound<A>),
    /// The book was asked.
    Step(Step),
    /// A message is sent.
    Sent(&'a Outbound<A>),
    /// The input's octets are no message of their link.
    Fault(Bad),
    /// So many answers of what is simulated were handled for one line that the rest are dropped.
    Limit,
    /// What the book holds at the end.
    End(Usage),
}

impl<A: Allocator> fmt::Display for TraceLine<'_, A> {
    fn fmt<W: fmt::Write>(&self, f: &mut fmt::Formatter<W>) -> fmt::Result {
        match self {
            TraceLine::Input(input) => write!(f, "in {}", InboundText(*input)),
            TraceLine::Step(step) => write!(f, "{step}"),
            TraceLine::Sent(message) => write!(f, "out {}", OutboundText(*message)),
            TraceLine::Fault(bad) => write!(f, "fault {}", BadText(*bad)),
            TraceLine::Limit => write!(f, "sim limit"),
            TraceLine::End(usage) => write!(f, "end {}", UsageText(*usage)),
        }
    }
}

/// Prints a line behind its controller's mark.
fn print_line<A: Allocator, W: Write>(
    out: &mut W,
    mark: Mark,
    line: &TraceLine<'_, A>,
) -> io::Result<()> {
    writeln!(out, "{mark}{line}")
}

/// Prints that an input is handled.
pub fn print_input<A: Allocator, W: Write>(
    out: &mut W,
    mark: Mark,
    input: &Inbound<A>,
) -> io::Result<()> {
    print_line(out, mark, &TraceLine::Input(input))
}

/// Prints what was asked of the book, in its order.
pub fn print_steps<W: Write>(out: &mut W, mark: Mark, steps: &[Step]) -> io::Result<()> {
    for step in steps {
        writeln!(out, "{mark}{step}")?;
    }
    Ok(())
}

/// Prints the messages that are sent, in their order.
pub fn print_sent<A: Allocator, W: Write>(
    out: &mut W,
    mark: Mark,
    sent: &[Outbound<A>],
) -> io::Result<()> {
    for message in sent {
        print_line(out, mark, &TraceLine::Sent(message))?;
    }
    Ok(())
}

/// Prints why octets are no message of their link.
pub fn print_fault<W: Write>(out: &mut W, mark: Mark, fault: Bad) -> io::Result<()> {
    print_line::<Global, _>(out, mark, &TraceLine::Fault(fault))
}

/// Prints that so many answers of what is simulated were handled for one line that the rest are dropped.
pub fn print_limit<W: Write>(out: &mut W) -> io::Result<()> {
    print_line::<Global, _>(out, Mark::Alone, &TraceLine::Limit)
}

/// Prints what the book holds at the end.
pub fn print_end<W: Write>(out: &mut W, mark: Mark, usage: Usage) -> io::Result<()> {
    print_line::<Global, _>(out, mark, &TraceLine::End(usage))
}
