//! Prints the tests of attempts that were undone, as TAP.
//!
//! No clause says what is printed: tests show it.
use crate::points::Point;
use crate::verdict::{Difference, Verdict};
use event_text::writing::EventText;
use lab_script::script::Side;
use radio_book::event::{Event, Reply};
use std::fmt;
use std::io::{self, Write};
use tested_scripts::TestName;
use trace_text::trace::ReplyText;

/// How many attempts were undone, by their results.
#[derive(Clone, Copy, Debug, PartialEq, Eq)]
pub struct Tally {
    /// All tests so far, also those of refused scripts.
    pub tests: usize,
    pub same: usize,
    /// An event was refused because of what the attempt held.
    pub held: usize,
    /// The release of its channel is still awaited.
    pub unsettled: usize,
    /// Something differs, and neither of these two is the case.
    pub differing: usize,
}

impl Tally {
    /// None yet.
    pub fn new() -> Tally {
        Tally {
            tests: 0,
            same: 0,
            held: 0,
            unsettled: 0,
            differing: 0,
        }
    }

    /// The number of the next test.
    pub fn next(&mut self) -> usize {
        self.tests = self.tests.saturating_add(1);
        self.tests
    }

    /// Counts the result of an attempt, which is `None` if it wasn't undone.
    pub fn count(&mut self, verdict: Option<Verdict>) {
        let count = match Sort::of(verdict) {
            Sort::Same => &mut self.same,
            Sort::Held => &mut self.held,
            Sort::Unsettled => &mut self.unsettled,
            Sort::Differs => &mut self.differing,
        };
        *count = count.saturating_add(1);
    }
}

/// What an attempt is counted as.
#[derive(Clone, Copy, Debug, PartialEq, Eq)]
pub enum Sort {
    Same,
    Held,
    Unsettled,
    Differs,
}

impl Sort {
    /// What a result is counted as. It is `None` if the attempt wasn't undone.
    pub fn of(verdict: Option<Verdict>) -> Sort {
        match verdict {
            None => Sort::Differs,
            Some(verdict) if !verdict.settled => Sort::Unsettled,
            Some(verdict) if verdict.held.is_some() => Sort::Held,
            Some(verdict) if verdict.difference.is_some() => Sort::Differs,
            Some(_) => Sort::Same,
        }
    }
}

/// The line of a script that takes an attempt back at a point.
#[derive(Clone, Copy)]
struct UndoText(Point);

impl fmt::Display for UndoText {
    fn fmt<W: fmt::Write>(&self, f: &mut fmt::Formatter<W>) -> fmt::Result {
        match self.0.undo.side {
            Side::First => write!(f, "undo {}", self.0.undo.call),
            Side::Peer => write!(f, "2: undo {}", self.0.undo.call),
        }
    }
}

/// What differs.
#[derive(Clone, Copy)]
struct DifferenceText(Option<Difference>);

impl fmt::Display for DifferenceText {
    fn fmt<W: fmt::Write>(&self, f: &mut fmt::Formatter<W>) -> fmt::Result {
        match self.0 {
            None => write!(f, "same"),
            Some(Difference::Book) => write!(f, "the book differs"),
            Some(Difference::Reply(event)) => {
                write!(f, "the reply to {} differs", EventText(event))
            }
        }
    }
}

/// The result of an attempt that was undone, with the entry of the event that was refused because of what it held.
#[derive(Clone, Copy)]
pub struct VerdictText {
    pub verdict: Option<Verdict>,
    pub held: Option<(Event, Reply)>,
}

impl fmt::Display for VerdictText {
    fn fmt<W: fmt::Write>(&self, f: &mut fmt::Formatter<W>) -> fmt::Result {
        let Some(verdict) = self.verdict else {
            return write!(f, "nothing was undone");
        };
        if !verdict.settled {
            write!(f, "not settled, ")?;
        }
        if let Some((event, reply)) = self.held {
            write!(f, "held {} -> {}, ", EventText(event), ReplyText(reply))?;
        }
        write!(f, "{}", DifferenceText(verdict.difference))
    }
}

/// Prints the result of an attempt that was undone at a point of a script.
pub fn print_verdict<W: Write>(
    out: &mut W,
    number: usize,
    name: &str,
    point: Point,
    text: VerdictText,
) -> io::Result<()> {
    let ok = match Sort::of(text.verdict) {
        Sort::Same | Sort::Held | Sort::Unsettled => "ok",
        Sort::Differs => "not ok",
    };
    let behind = point.undo.behind;
    let undo = UndoText(point);
    writeln!(
        out,
        "{ok} {number} - {}: {undo} after input {behind}: {text}",
        TestName(name)
    )
}

/// Prints the number of tests, and their results.
pub fn print_tally<W: Write>(out: &mut W, tally: &Tally) -> io::Result<()> {
    writeln!(out, "1..{}", tally.tests)?;
    let Tally {
        tests: _,
        same,
        held,
        unsettled,
        differing,
    } = *tally;
    writeln!(
        out,
        "# same {same}, held {held}, not settled {unsettled}, differ {differing}"
    )
}
