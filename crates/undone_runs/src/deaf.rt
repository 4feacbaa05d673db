//! Listeners that ignore most of a run.
use cell_table::SiteFault;
use radio_book::book::Book;
use run_listeners::{LabFault, Listener, Turn};
use std::alloc::{AllocError, Allocator};
use std::io;
use trace_text::trace::Mark;

/// A listener that passes all over but which line of a script can't be read.
#[derive(Drop)]
pub(crate) struct Deaf {
    pub(crate) unreadable: Option<usize>,
}

impl Deaf {
    /// One that heard nothing yet.
    pub(crate) fn new() -> Deaf {
        Deaf { unreadable: None }
    }
}

impl<A: Allocator + Copy> Listener<A> for Deaf {
    fn hear_turn(&mut self, _mark: Mark, _turn: &Turn<A>, _book: &Book<A>) -> Result<(), LabFault> {
        Ok(())
    }

    fn hear_limit(&mut self) -> Result<(), LabFault> {
        Ok(())
    }

    fn hear_end(&mut self, _mark: Mark, _book: &Book<A>) -> Result<(), LabFault> {
        Ok(())
    }

    fn hear_no_site(&mut self, _fault: SiteFault) -> io::Result<()> {
        Ok(())
    }

    fn hear_unreadable(&mut self, line: usize) -> io::Result<()> {
        self.unreadable = Some(line);
        Ok(())
    }
}

/// A listener that hears where the inputs of each line begin among all, and which line of a script can't be read.
#[derive(Drop)]
pub(crate) struct LineStarts<A: Allocator + Copy> {
    /// Of each line that gives something: how many inputs were handled before it.
    pub(crate) starts: Vec<usize, A>,
    handled: usize,
    pub(crate) unreadable: Option<usize>,
}

impl<A: Allocator + Copy> LineStarts<A> {
    /// One that heard nothing yet.
    pub(crate) fn new(alloc: A) -> LineStarts<A> {
        LineStarts {
            starts: Vec::new(alloc),
            handled: 0,
            unreadable: None,
        }
    }
}

impl<A: Allocator + Copy> Listener<A> for LineStarts<A> {
    fn hear_item(&mut self) -> Result<(), LabFault> {
        Ok(self.starts.push(self.handled).map_err(AllocError::from)?)
    }

    fn hear_turn(&mut self, _mark: Mark, _turn: &Turn<A>, _book: &Book<A>) -> Result<(), LabFault> {
        self.handled = self.handled.saturating_add(1);
        Ok(())
    }

    fn hear_limit(&mut self) -> Result<(), LabFault> {
        Ok(())
    }

    fn hear_end(&mut self, _mark: Mark, _book: &Book<A>) -> Result<(), LabFault> {
        Ok(())
    }

    fn hear_no_site(&mut self, _fault: SiteFault) -> io::Result<()> {
        Ok(())
    }

    fn hear_unreadable(&mut self, line: usize) -> io::Result<()> {
        self.unreadable = Some(line);
        Ok(())
    }
}
