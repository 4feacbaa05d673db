//! The choices of channels in a trace.
//!
//! A trace doesn't say at which rate a channel was asked for. So its inputs are handled again. If the same comes of them,
//! the choices are those of that run. In any other trace, such as one that a person wrote, or one that begins with a book,
//! the events that take a channel are its choices.
use crate::reading::Told;
use cell_table::SiteFault;
use lab_runs::course::Run;
use lab_runs::run::{play, read_sites};
use lab_script::script::{Side, without_return};
use radio_book::event::Event;
use remainders::{AskedLines, Choice, choices_in, taken_in};
use run_listeners::{LabFault, Printing};
use std::alloc::{AllocError, Allocator, Global};
use std::io;
use trace_entries::entries::Entry;
use trace_text::trace::Step;

/// The texts of a site and of a trace, and memory for reading the site.
#[derive(Clone, Copy)]
pub struct Texts<'a> {
    pub scratch: Global,
    pub site: &'a str,
    pub trace: &'a str,
}

/// The text of an input without the line of the script that gave it, which may stand behind it.
fn without_origin(input: &str) -> &str {
    match input.split_once(" @") {
        Some((input, _)) => input,
        None => input,
    }
}

/// The inputs of a trace, as a script. A last line without its line feed may have been cut: nothing that came of it is told.
fn script_of<A: Allocator>(alloc: A, trace: &str) -> Result<String<A>, AllocError> {
    let mut script = String::new(alloc);
    let (whole, _cut) = trace.rsplit_once('\n').unwrap_or(("", ""));
    for line in whole.split('\n') {
        if let Some(input) = without_return(line).strip_prefix("in ") {
            script.push_str(without_origin(input))?;
            script.push('\n')?;
        }
    }
    Ok(script)
}

/// The numbers of the lines that say that no channel was free, counted from 1.
fn none_free_lines<A: Allocator>(alloc: A, trace: &str) -> Result<Vec<usize, A>, AllocError> {
    let mut lines = Vec::new(alloc);
    for (index, line) in trace.split('\n').enumerate() {
        if line.starts_with("none free ") {
            lines.push(index.saturating_add(1))?;
        }
    }
    Ok(lines)
}

/// The numbers of the lines of entries.
pub fn event_lines<A: Allocator>(alloc: A, entries: &[Entry]) -> Result<Vec<usize, A>, AllocError> {
    let mut lines = Vec::new(alloc);
    for entry in entries {
        lines.push(entry.line())?;
    }
    Ok(lines)
}

/// What comes of the inputs of a trace over the empty book of a site; nothing if they can't be handled.
fn run_of<A: Allocator + Copy>(alloc: A, texts: Texts<'_>) -> Result<Option<Run<A>>, LabFault> {
    let sites = match read_sites(alloc, texts.scratch, texts.site, None) {
        Ok(sites) => sites,
        Err(SiteFault::NoMemory) => return Err(LabFault::NoMemory),
        Err(_) => return Ok(None),
    };
    let script = script_of(alloc, texts.trace)?;
    play(alloc, sites, &script, &mut Printing::new(&mut io::sink()))
}

/// Whether a step asks this event.
fn asks(step: &Step, event: &Event) -> bool {
    match step {
        Step::Asked(asked, _) => asked == event,
        Step::NoneFree(..) => false,
    }
}

/// What a trace tells behind some of its lines: its events, and how often none was free.
#[derive(Clone, Copy)]
struct Rest<'a> {
    events: &'a [Event],
    none_free: usize,
}

impl<'a> Rest<'a> {
    /// Whether nothing is told.
    fn is_empty(self) -> bool {
        self.events.is_empty() && self.none_free == 0
    }

    /// What is told behind a step; nothing if that isn't told next.
    fn behind(self, step: &Step) -> Option<Rest<'a>> {
        match (step, self.events) {
            (Step::NoneFree(..), events) => Some(Rest {
                events,
                none_free: self.none_free.checked_sub(1)?,
            }),
            (Step::Asked(..), [event, events @ ..]) if asks(step, event) => Some(Rest {
                events,
                none_free: self.none_free,
            }),
            (Step::Asked(..), _) => None,
        }
    }
}

/// How far the steps of a turn are told.
enum Followed<'a> {
    /// All are, and this behind them.
    Whole(Rest<'a>),
    /// The first of them, and nothing behind these.
    Cut,
    /// Others are.
    Others,
}

/// How far these steps are told.
fn follow<'a>(steps: &[Step], told: Rest<'a>) -> Followed<'a> {
    let mut rest = told;
    for step in steps {
        if rest.is_empty() {
            return Followed::Cut;
        }
        match rest.behind(step) {
            Some(behind) => rest = behind,
            None => return Followed::Others,
        }
    }
    Followed::Whole(rest)
}

/// Whether what is told came of a run. In its last turn it may end before that does: the trace was cut, or is still written.
fn came_of<A: Allocator + Copy>(run: &Run<A>, told: Rest<'_>) -> bool {
    let mut rest = told;
    for (place, turn) in run.turns.iter().enumerate() {
        match follow(&turn.steps, rest) {
            Followed::Whole(behind) => rest = behind,
            Followed::Cut => return place.saturating_add(1) == run.turns.len(),
            Followed::Others => return false,
        }
    }
    rest.is_empty()
}

/// The choices in a trace over the empty book of a site, in order. The trace's lines can be read.
pub fn choices_of_trace<A: Allocator + Copy>(
    alloc: A,
    texts: Texts<'_>,
    told: &Told<A>,
) -> Result<Vec<Choice, A>, LabFault> {
    let events = event_lines(alloc, &told.entries)?;
    let none_free = none_free_lines(alloc, texts.trace)?;
    let lines = AskedLines {
        events: &events,
        none_free: &none_free,
    };
    let rest = Rest {
        events: &told.events,
        none_free: none_free.len(),
    };
    match run_of(alloc, texts)? {
        Some(run) if came_of(&run, rest) => {
            Ok(choices_in(alloc, &run.turns, Side::First, lines)?)
        }
        _ => Ok(taken_in(alloc, &told.events, lines)?),
    }
}
