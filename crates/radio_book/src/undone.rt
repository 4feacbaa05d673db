//! Lists of steps, in which attempts are undone. Ours, of no standard.
ghost use Rattle.radio_book.specs.Undone.{UndoneIsUnique};

use crate::event::{Event, Reply};

/// A step of a list of events: one event with its reply.
#[derive(Clone, Copy, Debug, PartialEq, Eq)]
pub struct StepAt {
    /// Where it stands in the list, counted from 0.
    pub place: usize,
    /// What was asked.
    pub event: Event,
    /// What the book answered.
    pub reply: Reply,
}

/// A list of events has at most one undone attempt that opens at a place.
pub fn undone_attempts_are_unique()
    ensures unique { UndoneIsUnique }
{}
