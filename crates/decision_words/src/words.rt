//! The lines of a decision.
use crate::noted::Noted;
use cell_table::Site;
use cell_table::limits::FIRST_OUTSIDE;
use channel_fsm::Rate;
use decisions::{Lack, LeastSums, Named, judge, named_by};
use ho_candidates::Candidate;
use measurements::Window;
use radio_book::event::{Event, Reply};
use radio_book::facts::facts_of;
use rr_elements::Ncell;
use std::alloc::Allocator;
use std::fmt;
use std::io::{self, Write};
use trace_text::trace::{Mark, Step};

/// A report of a call without an attempt, and the call's last reports, of which it is one.
#[derive(Clone, Copy)]
pub(crate) struct Case<'a, A: Allocator + Copy> {
    pub(crate) mark: Mark,
    pub(crate) site: &'a Site<A>,
    pub(crate) window: &'a Window<A>,
    pub(crate) noted: &'a Noted,
    /// What was asked once the report had been noted.
    pub(crate) behind: &'a [Step],
    /// What is asked of a neighbour's sum.
    pub(crate) asked: LeastSums,
}

/// What each line of a case begins with.
#[derive(Clone, Copy)]
struct Head {
    mark: Mark,
    call: u16,
}

impl fmt::Display for Head {
    fn fmt<W: fmt::Write>(&self, f: &mut fmt::Formatter<W>) -> fmt::Result {
        write!(f, "{}decision call {}", self.mark, self.call)
    }
}

/// What a sum lacks.
#[derive(Clone, Copy)]
struct LackText(Lack);

impl fmt::Display for LackText {
    fn fmt<W: fmt::Write>(&self, f: &mut fmt::Formatter<W>) -> fmt::Result {
        f.write_str(match self.0 {
            Lack::Nothing => "",
            Lack::Margin => ", margin asks more",
            Lack::Minimum => ", minimum asks more",
            Lack::Both => ", margin and minimum ask more",
        })
    }
}

impl<A: Allocator + Copy> Case<'_, A> {
    fn head(&self) -> Head {
        Head {
            mark: self.mark,
            call: self.noted.call,
        }
    }

    /// The cell that serves the call.
    fn serving(&self) -> u8 {
        self.noted.chan.cell
    }

    /// Prints how many reports there are, and what is asked of the sum of a candidate.
    fn print_window<W: Write>(&self, out: &mut W) -> io::Result<()> {
        let (head, count, width) = (self.head(), self.window.len(), self.site.window());
        if !self.noted.report.head().valid {
            return writeln!(
                out,
                "{head} window {count} of {width}: the report isn't valid, and doesn't count"
            );
        }
        let LeastSums { margin, minimum } = self.asked;
        let serving = self.window.serving_sum();
        writeln!(
            out,
            "{head} window {count} of {width}: serving {serving}, margin asks {margin}, minimum asks {minimum}"
        )
    }

    /// Prints the sum of a neighbour, and what it lacks.
    fn print_sum<W: Write>(&self, out: &mut W, cell: u8) -> io::Result<()> {
        match judge(self.window, self.site, self.serving(), cell, self.asked) {
            Some(judged) => {
                let lack = LackText(judged.lack);
                writeln!(out, "cell {cell}, sum {}{lack}", judged.sum)
            }
            None => writeln!(out, "cell {cell}"),
        }
    }

    /// Prints what a report names by a position and a code.
    fn print_named<W: Write>(&self, out: &mut W, neighbour: Ncell) -> io::Result<()> {
        let Ncell { position, bsic, .. } = neighbour;
        match named_by(self.site, self.serving(), position, bsic) {
            Named::Cell(cell) => self.print_sum(out, cell),
            Named::Serving => writeln!(out, "none: the serving cell itself"),
            Named::NoPosition => writeln!(out, "none: ba has no carrier at this position"),
            Named::NoCell(carrier) => writeln!(out, "none: no cell has carrier {carrier}"),
            Named::OtherCode(carrier) => {
                writeln!(out, "none: no cell with carrier {carrier} has this code")
            }
        }
    }

    /// Prints a neighbour of the report, with those before it.
    fn print_neighbour<W: Write>(
        &self,
        out: &mut W,
        neighbour: Ncell,
        before: &[Ncell],
    ) -> io::Result<()> {
        let Ncell {
            level,
            position,
            bsic,
        } = neighbour;
        let head = self.head();
        write!(out, "{head} neighbour {position}/{bsic} level {level}: ")?;
        if before
            .iter()
            .any(|other| is_named_as(*other, position, bsic))
        {
            return writeln!(out, "named twice, the first counts");
        }
        self.print_named(out, neighbour)
    }

    /// Prints the neighbours of the report, in its order.
    fn print_neighbours<W: Write>(&self, out: &mut W) -> io::Result<()> {
        let all = self.noted.report.neighbours();
        for (place, neighbour) in all.iter().enumerate() {
            self.print_neighbour(out, *neighbour, all.get(..place).unwrap_or(&[]))?;
        }
        Ok(())
    }

    /// Whether the report has a level of the neighbour with this position and code.
    fn names(&self, position: u8, bsic: u8) -> bool {
        let all = self.noted.report.neighbours();
        all.iter().any(|other| is_named_as(*other, position, bsic))
    }

    /// Whether a cell that no report names may be a candidate.
    fn asks_nothing(&self) -> bool {
        self.asked.margin == 0 && self.asked.minimum == 0
    }

    /// Prints a cell of which this report hasn't a level, where those before it have one, or none is asked for.
    fn print_unnamed<W: Write>(&self, out: &mut W, cell: u8) -> io::Result<()> {
        let Some((position, bsic)) = self.site.reported_as(self.serving(), cell) else {
            return Ok(());
        };
        let is_heard = self.window.sum_of(position, bsic) > 0;
        if self.names(position, bsic) || !(is_heard || self.asks_nothing()) {
            return Ok(());
        }
        write!(
            out,
            "{} neighbour {position}/{bsic} no level: ",
            self.head()
        )?;
        self.print_sum(out, cell)
    }

    /// Prints the cells that this report doesn't name and that may be candidates all the same, in the order of their numbers.
    fn print_others<W: Write>(&self, out: &mut W) -> io::Result<()> {
        let _cells = self.site.cells();
        for cell in 0..FIRST_OUTSIDE + self.site.outside_cells() {
            if cell != self.serving() {
                self.print_unnamed(out, cell)?;
            }
        }
        Ok(())
    }

    /// Prints which candidates were tried, in their order.
    fn print_candidates<W: Write>(&self, out: &mut W, found: &[Candidate]) -> io::Result<()> {
        let mut steps = self.behind;
        for candidate in found {
            let (outcome, behind) = tried(steps, candidate.cell);
            steps = behind;
            writeln!(
                out,
                "{} candidate {}: {outcome}",
                self.head(),
                candidate.cell
            )?;
        }
        Ok(())
    }

    /// Prints why there is no candidate.
    fn print_none<W: Write>(&self, out: &mut W) -> io::Result<()> {
        let why = if self.window.len() < usize::from(self.site.window()) {
            "the window isn't full"
        } else {
            "no neighbour has what margin and minimum ask"
        };
        writeln!(out, "{} no candidate: {why}", self.head())
    }
}

/// Whether a neighbour of a report has this position and code.
fn is_named_as(neighbour: Ncell, position: u8, bsic: u8) -> bool {
    neighbour.position == position && neighbour.bsic == bsic
}

/// Whether an event asks for a handover: of a channel of an own cell, or of the switching centre.
fn begins(event: Event) -> Option<&'static str> {
    match facts_of(event).opens {
        Some((_, Some(_))) => Some("tried, a channel is taken"),
        Some((_, None)) => Some("tried, the centre is asked"),
        None => None,
    }
}

/// What the trial of a cell came to.
fn outcome_of(event: Event, reply: Reply) -> &'static str {
    match begins(event) {
        Some(_) if !reply.is_accepted() => "tried, and refused",
        Some(words) => words,
        None => "not tried",
    }
}

/// That a cell has no channel for the call, which keeps its rate.
fn none_free(rate: Rate) -> &'static str {
    match rate {
        Rate::Full => "tried, no channel is free at full rate",
        Rate::Half => "tried, no channel is free at half rate",
    }
}

/// What became of the next candidate, this cell, by the steps from there on; and those behind that.
fn tried(steps: &[Step], cell: u8) -> (&'static str, &[Step]) {
    match steps {
        [Step::NoneFree(none, rate), behind @ ..] if *none == cell => (none_free(*rate), behind),
        [Step::Asked(event, reply), ..] => (outcome_of(*event, *reply), &[]),
        [] | [Step::NoneFree(..), ..] => ("not tried", &[]),
    }
}

/// Prints what was decided; these are the candidates.
pub(crate) fn print_case<A: Allocator + Copy, W: Write>(
    out: &mut W,
    case: &Case<'_, A>,
    found: &[Candidate],
) -> io::Result<()> {
    case.print_window(out)?;
    if !case.noted.report.head().valid {
        return Ok(());
    }
    case.print_neighbours(out)?;
    case.print_others(out)?;
    if found.is_empty() {
        case.print_none(out)
    } else {
        case.print_candidates(out, found)
    }
}
