//! Listeners to a run, and one that prints the trace.
use crate::fault::LabFault;
use crate::turn::{Answer, Turn};
use crate::unmet::Unmet;
use bts_model::Setting;
use cell_table::SiteFault;
use exchange::Outbound;
use radio_book::book::Book;
use std::alloc::Allocator;
use std::io::{self, Write};
use trace_text::trace::{
    Mark, print_end, print_fault, print_input, print_limit, print_sent, print_steps,
};

/// A listener to a run. It is told what comes of each input, in order, and what the books hold at the end; or that nothing
/// is run, and why.
pub trait Listener<A: Allocator + Copy> {
    /// A line gives something. What is told up to the next call of this comes of it.
    fn hear_item(&mut self) -> Result<(), LabFault> {
        Ok(())
    }

    /// Why a line that asks its controller's book has no effect. A listener may ignore it.
    fn hear_unmet(&mut self, _unmet: Unmet) -> Result<(), LabFault> {
        Ok(())
    }

    /// What a line asks of the mobile of a call, once its channel is known. A listener may ignore it.
    fn hear_set(&mut self, _setting: Setting) -> Result<(), LabFault> {
        Ok(())
    }

    /// What came of an input, with the controller's mark, and its book as it is now.
    fn hear_turn(&mut self, mark: Mark, turn: &Turn<A>, book: &Book<A>) -> Result<(), LabFault>;

    /// Memory was refused, so what came of an input isn't told. The controller with this mark still owes these messages, in
    /// this order. A listener that sends nothing may ignore it.
    fn hear_owed(&mut self, _mark: Mark, _messages: &[Outbound<A>]) -> Result<(), LabFault> {
        Ok(())
    }

    /// Too many answers of simulators came to one line of the script. The rest are dropped.
    fn hear_limit(&mut self) -> Result<(), LabFault>;

    /// The run has ended, with this book of the controller with this mark.
    fn hear_end(&mut self, mark: Mark, book: &Book<A>) -> Result<(), LabFault>;

    /// A text describes no site.
    fn hear_no_site(&mut self, fault: SiteFault) -> io::Result<()>;

    /// This line of the script, counted from 1, is the first that can't be read.
    fn hear_unreadable(&mut self, line: usize) -> io::Result<()>;
}

/// A listener that prints the trace.
#[derive(Drop)]
pub struct Printing<'a, W: Write> {
    out: &'a mut W,
}

impl<'a, W: Write> Printing<'a, W> {
    /// A listener that prints the trace to `out`.
    pub fn new(out: &'a mut W) -> Printing<'a, W> {
        Printing { out }
    }
}

/// Prints what came of an input, each line behind its controller's mark.
fn print_turn<A: Allocator, W: Write>(out: &mut W, mark: Mark, turn: &Turn<A>) -> io::Result<()> {
    print_input(out, mark, &turn.input)?;
    print_steps(out, mark, &turn.steps)?;
    match &turn.answer {
        Answer::Sent(sent) => print_sent(out, mark, sent),
        Answer::Undecoded(bad) => print_fault(out, mark, *bad),
    }
}

/// Prints why a text describes no site: the fault's number and argument. If memory was refused, it prints nothing.
pub fn print_no_site<W: Write>(out: &mut W, fault: SiteFault) -> io::Result<()> {
    match fault {
        SiteFault::Toml => writeln!(out, "site 1"),
        SiteFault::Missing(key) => writeln!(out, "site 2 {key}"),
        SiteFault::Range(key) => writeln!(out, "site 3 {key}"),
        SiteFault::Twice(what) => writeln!(out, "site 4 {what}"),
        SiteFault::NoTraffic(cell) => writeln!(out, "site 5 {cell}"),
        SiteFault::NoMemory => Ok(()),
    }
}

/// Prints which line of a script can't be read.
pub fn print_unreadable<W: Write>(out: &mut W, line: usize) -> io::Result<()> {
    writeln!(out, "line {line}")
}

impl<W: Write, A: Allocator + Copy> Listener<A> for Printing<'_, W> {
    fn hear_turn(&mut self, mark: Mark, turn: &Turn<A>, _book: &Book<A>) -> Result<(), LabFault> {
        Ok(print_turn(self.out, mark, turn)?)
    }

    fn hear_limit(&mut self) -> Result<(), LabFault> {
        Ok(print_limit(self.out)?)
    }

    fn hear_end(&mut self, mark: Mark, book: &Book<A>) -> Result<(), LabFault> {
        Ok(print_end(self.out, mark, book.usage())?)
    }

    fn hear_no_site(&mut self, fault: SiteFault) -> io::Result<()> {
        print_no_site(self.out, fault)
    }

    fn hear_unreadable(&mut self, line: usize) -> io::Result<()> {
        print_unreadable(self.out, line)
    }
}
