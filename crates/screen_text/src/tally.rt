//! Counts what passes.
ghost use Rattle.std.specs.Prelude.{◌≡◌, ◌↔◌, IsTrue, []};
ghost use Rattle.screen_text.specs.Lines.{is_counted, with_octet, with_text, at_begin};
ghost use Rattle.screen_text.specs.Tallies.{stand_of};

use arrayvec::ArrayVec;
use std::{fmt, io};

/// What is counted of what passes.
#[derive(Clone, Copy, Debug, PartialEq, Eq)]
pub enum Counted {
    /// Lines.
    Lines,
    /// Scripts that were tested: the lines of TAP that say a result, which begin with `ok ` or `not ok `.
    Scripts,
}

/// How many lines that count have ended.
#[derive(Drop)]
pub(crate) struct Tally {
    counted: Counted,
    /// It stays at the highest number of its type.
    number: u64,
    /// How the line begins that hasn't ended: as many octets of it as tell whether it counts.
    begun: ArrayVec<u8, 7>,
}

/// Whether a line counts that begins so.
fn counts(counted: Counted, begun: &[u8]) -> bool
    ensures { result ≡ is_counted counted begun.now }
{
    match counted {
        Counted::Lines => true,
        Counted::Scripts => begun.starts_with(b"ok ") || begun.starts_with(b"not ok "),
    }
}

impl Tally {
    /// Nothing has passed yet.
    pub(crate) fn new(counted: Counted) -> Tally
        ensures counted { result.counted ≡ counted }
        ensures stand { stand_of result ≡ at_begin }
    {
        Tally {
            counted,
            number: 0,
            begun: ArrayVec::new(),
        }
    }

    /// Whether nothing has come yet of the line that hasn't ended.
    pub(crate) fn is_at_line_begin(&self) -> bool
        ensures { IsTrue result ↔ ((stand_of self.now).begun ≡ []) }
    {
        self.begun.is_empty()
    }

    /// An octet passes.
    fn pass(&mut self, octet: u8)
        ensures counted { self.new.counted ≡ self.old.counted }
        ensures stand { stand_of self.new ≡ with_octet self.old.counted (stand_of self.old) octet }
    {
        if octet == b'\n' {
            if counts(self.counted, self.begun.as_slice()) {
                self.number = self.number.saturating_add(1);
            }
            self.begun.clear();
        } else if !self.begun.is_full() {
            self.begun.push(octet);
        }
    }

    /// Octets pass.
    pub(crate) fn pass_all(&mut self, octets: &[u8])
        ensures counted { self.new.counted ≡ self.old.counted }
        ensures stand { stand_of self.new ≡ with_text self.old.counted (stand_of self.old) octets.now }
    {
        let mut left = octets;
        while let [octet, rest @ ..] = left {
            self.pass(*octet);
            left = rest;
        }
    }

    /// How many lines that count have ended.
    pub(crate) fn number(&self) -> u64
        ensures { result ≡ (stand_of self.now).number }
    {
        self.number
    }

    /// Says the number in place of what stands in the line of the terminal, and leaves the cursor at the line's begin. Where
    /// that can't be written, nothing comes of it.
    pub(crate) fn say<E: io::Write>(&self, terminal: &mut E) {
        match write!(terminal, "\r\x1b[K{self}\r") {
            Ok(()) | Err(_) => {}
        }
    }
}

/// Takes what stands in the line of the terminal off it.
pub(crate) fn erase<E: io::Write>(terminal: &mut E) {
    match write!(terminal, "\r\x1b[K") {
        Ok(()) | Err(_) => {}
    }
}

impl fmt::Display for Tally {
    fn fmt<W: fmt::Write>(&self, f: &mut fmt::Formatter<W>) -> fmt::Result {
        let name = match self.counted {
            Counted::Lines => "lines",
            Counted::Scripts => "scripts",
        };
        write!(f, "{name}: {}", self.number)
    }
}
