//! Plays a script, and gathers what comes of each of its lines.
use crate::inputs::{has_effect, lack_of, opened_in, taken_in};
use crate::lack::Lack;
use crate::lines::{Line, lines_of};
use bts_model::Setting;
use cell_table::{Site, SiteFault};
use lab_runs::run::{Sites, play, read_sites};
use lab_script::script::Side;
use radio_book::book::Book;
use run_listeners::{LabFault, Listener, Printing, Turn, Unmet};
use std::alloc::{AllocError, Allocator, Global};
use std::io::{self, ErrorKind, Write};
use trace_text::trace::Mark;

/// The texts of a controller's site and of its peer's, if there is one, and memory for reading them.
#[derive(Clone, Copy)]
pub struct Texts<'a> {
    pub scratch: Global,
    pub first: &'a str,
    pub peer: Option<&'a str>,
}

impl Texts<'_> {
    /// The sites; nothing if a text describes none.
    pub(crate) fn sites<A: Allocator + Copy>(self, alloc: A) -> Result<Option<Sites<A>>, LabFault> {
        match read_sites(alloc, self.scratch, self.first, self.peer) {
            Ok(sites) => Ok(Some(sites)),
            Err(SiteFault::NoMemory) => Err(LabFault::NoMemory),
            Err(_) => Ok(None),
        }
    }
}

/// A writer to which nothing else may be written than what is expected: it fails at the first octet that is another.
#[derive(Drop)]
struct Matching<'a> {
    expected: &'a [u8],
}

impl Write for Matching<'_> {
    fn write(&mut self, octets: &[u8]) -> io::Result<usize> {
        if !self.expected.starts_with(octets) {
            return Err(io::Error::from(ErrorKind::InvalidData));
        }
        self.expected = self.expected.get(octets.len()..).unwrap_or(&[]);
        Ok(octets.len())
    }

    fn flush(&mut self) -> io::Result<()> {
        Ok(())
    }
}

/// A call that a script opened under a number for which the simulated switching centre then asks.
#[derive(Clone, Copy, Debug, PartialEq, Eq)]
pub struct Taken {
    /// The number of the line that opened it, counted from 1.
    pub line: usize,
    pub call: u16,
    /// The number of the line behind which the centre asks first.
    pub asked: usize,
}

/// A call that a line opened.
#[derive(Clone, Copy)]
pub(crate) struct Opened {
    line: usize,
    side: Side,
    call: u16,
}

/// What was noted of lines, by their numbers.
#[derive(Drop)]
pub(crate) struct Asked<A: Allocator = Global> {
    /// What lines asked of the mobile of a call.
    pub settings: Vec<(usize, Setting), A>,
    /// Why nothing came of those that asked in vain.
    pub unmet: Vec<(usize, Unmet), A>,
    /// What there isn't, where nothing could come of an input.
    pub inputs: Vec<(usize, Lack), A>,
    /// The numbers of lines that gave an input of which something came.
    pub effects: Vec<usize, A>,
    /// The calls that were opened.
    opened: Vec<Opened, A>,
    /// Those for which the switching centre asked.
    pub taken: Vec<Taken, A>,
}

impl<A: Allocator + Copy> Asked<A> {
    /// Nothing yet.
    pub(crate) fn new(alloc: A) -> Asked<A> {
        Asked {
            settings: Vec::new(alloc),
            unmet: Vec::new(alloc),
            inputs: Vec::new(alloc),
            effects: Vec::new(alloc),
            opened: Vec::new(alloc),
            taken: Vec::new(alloc),
        }
    }

    /// The line that opened a call last.
    fn line_of(&self, side: Side, call: u16) -> Option<usize> {
        let mut opened = self.opened.iter().rev();
        let found = opened.find(|opened| opened.side == side && opened.call == call)?;
        Some(found.line)
    }

    /// Notes that the switching centre asked for a call which a line opened, the first time.
    fn note_taken(&mut self, side: Side, call: u16, asked: usize) -> Result<(), AllocError> {
        match self.line_of(side, call) {
            Some(line) if self.taken.iter().all(|taken| taken.line != line) => {
                Ok(self.taken.push(Taken { line, call, asked })?)
            }
            Some(_) | None => Ok(()),
        }
    }

    /// Notes what a turn, behind the line of a number, says of its line, and of calls.
    fn note(&mut self, number: usize, turn: &Turn<A>, book: &Book<A>) -> Result<(), AllocError> {
        let alloc = *self.unmet.allocator();
        match lack_of(alloc, book, turn)? {
            Some(lack) => self.inputs.push((number, lack))?,
            None if has_effect(turn) && self.effects.last().copied() != Some(number) => {
                self.effects.push(number)?;
            }
            None => {}
        }
        if let Some(call) = opened_in(turn) {
            self.opened.push(Opened {
                line: number,
                side: turn.side,
                call,
            })?;
        }
        match taken_in(alloc, turn)? {
            Some(call) => self.note_taken(turn.side, call, number),
            None => Ok(()),
        }
    }
}

/// A listener that prints to `out` what comes of each input, behind the number of the line of which it comes, and notes what lines
/// asked.
#[derive(Drop)]
struct Hearing<'o, 'l, 's, W: Write, A: Allocator + Copy> {
    out: &'o mut W,
    /// Those of the lines that give something which didn't begin yet.
    lines: &'l [Line],
    /// The number of the line that began last.
    number: usize,
    asked: &'s mut Asked<A>,
}

impl<W: Write, A: Allocator + Copy> Hearing<'_, '_, '_, W, A> {
    /// Prints the number of the line that began last.
    fn print_number(&mut self) -> io::Result<()> {
        let number = self.number;
        write!(self.out, "{number} ")
    }
}

impl<W: Write, A: Allocator + Copy> Listener<A> for Hearing<'_, '_, '_, W, A> {
    fn hear_item(&mut self) -> Result<(), LabFault> {
        if let [line, behind @ ..] = self.lines {
            self.number = line.number;
            self.lines = behind;
        }
        Ok(())
    }

    fn hear_unmet(&mut self, unmet: Unmet) -> Result<(), LabFault> {
        let number = self.number;
        Ok(
            self.asked
                .unmet
                .push((number, unmet))
                .map_err(AllocError::from)?,
        )
    }

    fn hear_set(&mut self, setting: Setting) -> Result<(), LabFault> {
        let number = self.number;
        let kept = self.asked.settings.push((number, setting));
        Ok(kept.map_err(AllocError::from)?)
    }

    fn hear_turn(&mut self, mark: Mark, turn: &Turn<A>, book: &Book<A>) -> Result<(), LabFault> {
        self.asked.note(self.number, turn, book)?;
        self.print_number()?;
        Printing::new(self.out).hear_turn(mark, turn, book)
    }

    fn hear_limit(&mut self) -> Result<(), LabFault> {
        self.print_number()?;
        Ok(writeln!(self.out, "limit")?)
    }

    fn hear_end(&mut self, _mark: Mark, _book: &Book<A>) -> Result<(), LabFault> {
        Ok(())
    }

    fn hear_no_site(&mut self, _fault: SiteFault) -> io::Result<()> {
        Ok(())
    }

    fn hear_unreadable(&mut self, _line: usize) -> io::Result<()> {
        Ok(())
    }
}

/// Plays a script, whose lines that give something are these, prints what comes of them, and notes what they ask. Answers whether
/// it was run: the texts describe sites, and its lines can be read.
fn play_to<A: Allocator + Copy, W: Write>(
    alloc: A,
    sites: Texts<'_>,
    script: &str,
    lines: &[Line],
    out: &mut W,
    asked: &mut Asked<A>,
) -> Result<bool, LabFault> {
    let Some(sites) = sites.sites(alloc)? else {
        return Ok(false);
    };
    let mut hearing = Hearing {
        out,
        lines,
        number: 0,
        asked,
    };
    Ok(play(alloc, sites, script, &mut hearing)?.is_some())
}

/// What comes of the lines of a script, which are these; what they ask is noted. Nothing if it isn't run.
pub(crate) fn trace_of<A: Allocator + Copy>(
    alloc: A,
    sites: Texts<'_>,
    script: &str,
    lines: &[Line],
    asked: &mut Asked<A>,
) -> Result<Option<Vec<u8, A>>, LabFault> {
    let mut trace = Vec::new(alloc);
    let ended = play_to(alloc, sites, script, lines, &mut trace, asked);
    let is_run = ended.map_err(|_| LabFault::NoMemory)?;
    Ok(if is_run { Some(trace) } else { None })
}

/// Whether this comes of the lines of a script.
pub(crate) fn gives_trace<A: Allocator + Copy>(
    alloc: A,
    sites: Texts<'_>,
    script: &str,
    trace: &[u8],
) -> Result<bool, LabFault> {
    let lines = lines_of(alloc, script, sites.peer.is_some())?;
    let mut matching = Matching { expected: trace };
    let mut asked = Asked::new(alloc);
    match play_to(alloc, sites, script, &lines, &mut matching, &mut asked) {
        Ok(is_run) => Ok(is_run && matching.expected.is_empty()),
        Err(LabFault::Write) => Ok(false),
        Err(LabFault::NoMemory) => Err(LabFault::NoMemory),
    }
}
