//! The reasons why a script isn't met, in the order of its lines: so a cause stands before what follows from it.
//!
//! No clause says what is printed: that is shown by tests.
use crate::nearest::Nearest;
use crate::printed::{Miss, print_missing, print_reason};
use run_listeners::LabFault;
use std::alloc::{AllocError, Allocator};
use std::io::{self, Write};

/// A reason, as it is printed.
#[derive(Drop)]
struct Reason<A: Allocator> {
    /// The line of the script, counted from 1, that it is about; 0 where it is about the whole script.
    line: usize,
    printed: Vec<u8, A>,
}

/// The reasons why a script isn't met, of each line the first that was told.
#[derive(Drop)]
pub struct Reasons<A: Allocator> {
    alloc: A,
    /// In the order of their lines.
    told: Vec<Reason<A>, A>,
}

/// How something was printed to memory, which is all that can be lacking.
fn in_memory(printed: io::Result<()>) -> Result<(), LabFault> {
    printed.map_err(|_| LabFault::NoMemory)
}

impl<A: Allocator + Copy> Reasons<A> {
    /// None.
    pub fn new(alloc: A) -> Reasons<A> {
        Reasons {
            alloc,
            told: Vec::new(alloc),
        }
    }

    /// Whether there is none.
    pub fn is_empty(&self) -> bool {
        self.told.is_empty()
    }

    /// Puts a reason behind those of lines before its line, unless there is one of its line.
    fn put(&mut self, line: usize, printed: Vec<u8, A>) -> Result<(), LabFault> {
        let before = self.told.iter().rposition(|reason| reason.line <= line);
        let place = match before {
            Some(place)
                if self
                    .told
                    .get(place)
                    .is_some_and(|reason| reason.line == line) => {
                return Ok(());
            }
            Some(place) => place.saturating_add(1),
            None => 0,
        };
        let reason = Reason { line, printed };
        let place = place.min(self.told.len());
        self.told.insert(place, reason).map_err(AllocError::from)?;
        Ok(())
    }

    /// Tells why the script isn't met.
    pub fn tell(&mut self, miss: Miss<'_>) -> Result<(), LabFault> {
        let mut printed = Vec::new(self.alloc);
        in_memory(print_reason(&mut printed, miss))?;
        self.put(miss.line(), printed)
    }

    /// Tells that a line of the script, counted from 1, expects a line that isn't among so many that came, and which of these is
    /// nearest to it.
    pub(crate) fn tell_missing(
        &mut self,
        line: usize,
        expected: &str,
        nearest: Option<Nearest<'_, '_>>,
        count: usize,
    ) -> Result<(), LabFault> {
        let mut printed = Vec::new(self.alloc);
        in_memory(print_missing(&mut printed, line, expected, nearest, count))?;
        self.put(line, printed)
    }

    /// Prints them, in the order of the script's lines. What is about the whole script stands first.
    pub fn print<W: Write>(&self, out: &mut W) -> io::Result<()> {
        for reason in &self.told {
            out.write_all(&reason.printed)?;
        }
        Ok(())
    }
}
