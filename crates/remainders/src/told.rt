//! The choices of a run, and what is printed of them.
use crate::choices::Choice;
use channel_fsm::{ChanId, Rate};
use exchange::{Inbound, Line};
use lab_script::script::Side;
use radio_book::event::Event;
use radio_book::facts::facts_of;
use run_listeners::Turn;
use std::alloc::{AllocError, Allocator};
use std::io::{self, Write};
use trace_text::trace::{Mark, Step};

/// The lines of what a controller asked, in their order: of its events, and of each cell without a free channel.
#[derive(Clone, Copy, Debug, PartialEq, Eq)]
pub struct AskedLines<'a> {
    pub events: &'a [usize],
    pub none_free: &'a [usize],
}

/// The choices of a controller, as far as its turns were told.
#[derive(Drop)]
struct Choices<'a, A: Allocator> {
    lines: AskedLines<'a>,
    /// How many events were asked, and how often none was free.
    asked: usize,
    none: usize,
    choices: Vec<Choice, A>,
}

/// Whether an input asks for a free channel to open a call on.
fn is_seize<A: Allocator>(input: &Inbound<A>) -> bool {
    matches!(input, Inbound::Operator(Line::Seize { .. }))
}

/// The channel that an event takes because it was free.
fn chosen_by(event: Event, is_seize: bool) -> Option<ChanId> {
    let facts = facts_of(event);
    let (_, chan) = facts.gives?;
    if facts.opens.is_some() || is_seize {
        Some(chan)
    } else {
        None
    }
}

impl<A: Allocator> Choices<'_, A> {
    /// An event was asked. What no line tells is left out.
    fn ask(&mut self, event: Event, is_seize: bool) -> Result<(), AllocError> {
        if let Some(chan) = chosen_by(event, is_seize)
            && let Some(line) = self.lines.events.get(self.asked).copied()
        {
            self.choices.push(Choice {
                line,
                before: self.asked,
                cell: chan.cell,
                rate: chan.sub.rate(),
                chosen: Some(chan),
            })?;
        }
        self.asked = self.asked.saturating_add(1);
        Ok(())
    }

    /// None was free in a cell at a rate. What no line tells is left out.
    fn find_none(&mut self, cell: u8, rate: Rate) -> Result<(), AllocError> {
        if let Some(line) = self.lines.none_free.get(self.none).copied() {
            self.choices.push(Choice {
                line,
                before: self.asked,
                cell,
                rate,
                chosen: None,
            })?;
        }
        self.none = self.none.saturating_add(1);
        Ok(())
    }

    /// A step was taken for an input.
    fn step(&mut self, step: Step, is_seize: bool) -> Result<(), AllocError> {
        match step {
            Step::Asked(event, _) => self.ask(event, is_seize),
            Step::NoneFree(cell, rate) => self.find_none(cell, rate),
        }
    }

    /// What came of an input.
    fn turn<B: Allocator>(&mut self, turn: &Turn<B>) -> Result<(), AllocError> {
        let is_seize = is_seize(&turn.input);
        for step in &turn.steps {
            self.step(*step, is_seize)?;
        }
        Ok(())
    }
}

/// The choices of a controller in a run, in their order: each Take, the Open of each `seize`, and where none was free.
pub fn choices_in<A: Allocator + Copy>(
    alloc: A,
    turns: &[Turn<A>],
    side: Side,
    lines: AskedLines<'_>,
) -> Result<Vec<Choice, A>, AllocError> {
    let mut choices = Choices {
        lines,
        asked: 0,
        none: 0,
        choices: Vec::new(alloc),
    };
    for turn in turns {
        if turn.side == side {
            choices.turn(turn)?;
        }
    }
    Ok(choices.choices)
}

/// The choices of events of which nothing else is known: those that take a channel for an attempt.
pub fn taken_in<A: Allocator + Copy>(
    alloc: A,
    events: &[Event],
    lines: AskedLines<'_>,
) -> Result<Vec<Choice, A>, AllocError> {
    let mut choices = Choices {
        lines,
        asked: 0,
        none: 0,
        choices: Vec::new(alloc),
    };
    for event in events {
        choices.ask(*event, false)?;
    }
    Ok(choices.choices)
}

/// Prints the lines of choices that would come out otherwise, behind a controller's mark: `choices -` if there is none.
pub fn print_choices<W: Write>(out: &mut W, mark: Mark, lines: &[usize]) -> io::Result<()> {
    write!(out, "{mark}choices")?;
    if lines.is_empty() {
        write!(out, " -")?;
    }
    for line in lines {
        write!(out, " {line}")?;
    }
    writeln!(out)
}
