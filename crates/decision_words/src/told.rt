//! What was decided, turn by turn.
use crate::kept::Kept;
use crate::noted::{Noted, behind_noted, noted_by};
use crate::words::{Case, print_case};
use cell_table::Site;
use decisions::asked_of;
use ho_candidates::candidates;
use line_words::content_of;
use run_listeners::{LabFault, Turn};
use std::alloc::{Allocator, Global};
use std::io::Write;
use trace_text::trace::{Mark, Step, TraceLine};

/// The decisions after the reports of the calls of one controller, or of two.
#[derive(Drop)]
pub struct Decisions<A: Allocator + Copy = Global> {
    first: Kept<A>,
    peer: Kept<A>,
    alloc: A,
}

impl<A: Allocator + Copy> Decisions<A> {
    /// Nothing came yet.
    pub fn new(alloc: A) -> Decisions<A> {
        Decisions {
            first: Kept::new(alloc),
            peer: Kept::new(alloc),
            alloc,
        }
    }

    /// Prints the decision after the report in the next turn of the controller with this mark and this site, if the turn has
    /// a report of a call without an attempt (and of the call `only`, if it is given). Each turn has to be told.
    pub fn print<W: Write>(
        &mut self,
        out: &mut W,
        mark: Mark,
        turn: &Turn<A>,
        site: &Site<A>,
        only: Option<u16>,
    ) -> Result<(), LabFault> {
        let alloc = self.alloc;
        let kept = match mark {
            Mark::Alone | Mark::First => &mut self.first,
            Mark::Peer => &mut self.peer,
        };
        kept.follow(&turn.steps);
        let Some(noted) = noted_in(alloc, turn)? else {
            return Ok(());
        };
        let _cells = site.cells();
        let width = usize::from(site.window());
        kept.note(alloc, width, noted.call, &noted.report)?;
        if !noted.is_steady || (only.is_some() && only != Some(noted.call)) {
            return Ok(());
        }
        print_decision(alloc, out, mark, site, kept, &noted, &turn.steps)
    }
}

/// The report in a turn, where its controller notes it.
fn noted_in<A: Allocator + Copy>(alloc: A, turn: &Turn<A>) -> Result<Option<Noted>, LabFault> {
    let content = content_of(alloc, &TraceLine::Input(&turn.input))?;
    Ok(noted_by(&content, &turn.steps))
}

/// Prints what was decided by the report in a turn with these steps, with the last reports of its call, of which it is one.
fn print_decision<A: Allocator + Copy, W: Write>(
    alloc: A,
    out: &mut W,
    mark: Mark,
    site: &Site<A>,
    kept: &Kept<A>,
    noted: &Noted,
    steps: &[Step],
) -> Result<(), LabFault> {
    let Some(window) = kept.window(usize::from(site.window()), noted.call) else {
        return Ok(());
    };
    let case = Case {
        mark,
        site,
        window,
        noted,
        behind: behind_noted(steps),
        asked: asked_of(window, site),
    };
    let found = if noted.report.head().valid {
        candidates(alloc, window, site, noted.chan.cell)?
    } else {
        Vec::new(alloc)
    };
    Ok(print_case(out, &case, found.as_slice())?)
}
