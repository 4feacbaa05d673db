//! The line numbers of the events of a run in its trace.
use crate::runs::AllBeside;
use cell_table::SiteFault;
use exchange::Outbound;
use lab_script::script::Side;
use radio_book::book::Book;
use remainders::AskedLines;
use run_listeners::{LabFault, Listener, Turn, Unmet};
use std::alloc::{AllocError, Allocator, Global};
use std::cell::Cell;
use std::io;
use trace_text::trace::{Mark, Step};

/// In which lines the events of a controller stand, and its cells without a free channel, in their order: their numbers,
/// counted from 1.
#[derive(Drop)]
struct SideLines<A: Allocator = Global> {
    events: Vec<usize, A>,
    none_free: Vec<usize, A>,
}

impl<A: Allocator + Copy> SideLines<A> {
    /// No step yet.
    fn new(alloc: A) -> SideLines<A> {
        SideLines {
            events: Vec::new(alloc),
            none_free: Vec::new(alloc),
        }
    }

    /// A step stands in a line.
    fn note(&mut self, step: Step, line: usize) -> Result<(), AllocError> {
        match step {
            Step::Asked(..) => Ok(self.events.push(line)?),
            Step::NoneFree(..) => Ok(self.none_free.push(line)?),
        }
    }
}

/// The line numbers of the events of each controller.
#[derive(Drop)]
pub struct EventLines<A: Allocator = Global> {
    first: SideLines<A>,
    peer: SideLines<A>,
}

impl<A: Allocator + Copy> EventLines<A> {
    /// No event yet.
    fn new(alloc: A) -> EventLines<A> {
        EventLines {
            first: SideLines::new(alloc),
            peer: SideLines::new(alloc),
        }
    }

    /// A step of a controller stands in a line.
    fn note(&mut self, side: Side, step: Step, line: usize) -> Result<(), AllocError> {
        match side {
            Side::First => self.first.note(step, line),
            Side::Peer => self.peer.note(step, line),
        }
    }

    /// What came of an input, behind so many lines: the line of the input is the next, and each step has one.
    fn note_turn(&mut self, turn: &Turn<A>, before: usize) -> Result<(), AllocError> {
        let mut line = before.saturating_add(1);
        for step in &turn.steps {
            line = line.saturating_add(1);
            self.note(turn.side, *step, line)?;
        }
        Ok(())
    }

    /// The lines of a controller.
    fn of(&self, side: Side) -> &SideLines<A> {
        match side {
            Side::First => &self.first,
            Side::Peer => &self.peer,
        }
    }

    /// The lines of what a controller asked.
    pub fn asked(&self, side: Side) -> AskedLines<'_> {
        let SideLines { events, none_free } = self.of(side);
        AskedLines { events, none_free }
    }

    /// The line of a controller's event at a place, counted from 0.
    pub fn line_of(&self, side: Side, place: usize) -> Option<usize> {
        self.of(side).events.get(place).copied()
    }
}

/// Passes what comes of a run on to a listener that prints it, and notes the lines of the events.
#[derive(Drop)]
pub struct Noting<'a, L, A: Allocator + Copy = Global> {
    listener: &'a mut L,
    /// How many lines were printed.
    printed: &'a Cell<usize>,
    lines: EventLines<A>,
    /// What is printed with the audits of the run once it has ended.
    beside: Option<AllBeside<A>>,
}

impl<'a, L: Listener<A>, A: Allocator + Copy> Noting<'a, L, A> {
    /// Passes on to a listener. `printed` counts the lines that this listener prints.
    pub fn new(alloc: A, listener: &'a mut L, printed: &'a Cell<usize>) -> Noting<'a, L, A> {
        Noting {
            listener,
            printed,
            lines: EventLines::new(alloc),
            beside: None,
        }
    }

    /// What is told beside the audits of the run.
    pub(crate) fn tell_beside(&mut self, beside: AllBeside<A>) {
        self.beside = Some(beside);
    }

    /// What is told beside the audits, once the run ended.
    pub(crate) fn into_beside(self) -> Option<AllBeside<A>> {
        let Noting {
            listener: _,
            printed: _,
            lines: _,
            beside,
        } = self;
        beside
    }

    /// The lines of the events so far.
    pub fn lines(&self) -> &EventLines<A> {
        &self.lines
    }
}

impl<L: Listener<A>, A: Allocator + Copy> Listener<A> for Noting<'_, L, A> {
    fn hear_item(&mut self) -> Result<(), LabFault> {
        self.listener.hear_item()
    }

    fn hear_unmet(&mut self, unmet: Unmet) -> Result<(), LabFault> {
        self.listener.hear_unmet(unmet)
    }

    fn hear_turn(&mut self, mark: Mark, turn: &Turn<A>, book: &Book<A>) -> Result<(), LabFault> {
        self.lines.note_turn(turn, self.printed.get())?;
        self.listener.hear_turn(mark, turn, book)
    }

    fn hear_owed(&mut self, mark: Mark, messages: &[Outbound<A>]) -> Result<(), LabFault> {
        self.listener.hear_owed(mark, messages)
    }

    fn hear_limit(&mut self) -> Result<(), LabFault> {
        self.listener.hear_limit()
    }

    fn hear_end(&mut self, mark: Mark, book: &Book<A>) -> Result<(), LabFault> {
        self.listener.hear_end(mark, book)
    }

    fn hear_no_site(&mut self, fault: SiteFault) -> io::Result<()> {
        self.listener.hear_no_site(fault)
    }

    fn hear_unreadable(&mut self, line: usize) -> io::Result<()> {
        self.listener.hear_unreadable(line)
    }
}
