//! Counts the lines of a run.
use crate::causes::cause_of;
use crate::runs::RunSummary;
use exchange::Inbound;
use line_words::Content;
use run_counts::{Told, asked};
use std::alloc::{AllocError, Allocator};
use trace_text::trace::{Mark, Step, TraceLine};

/// The cell of what comes or is sent on Abis.
pub(crate) fn cell_of<A: Allocator>(content: &Content<A>) -> Option<u8> {
    match content {
        Content::Abis(place, _) | Content::Rowless(place, _) => Some(place.cell),
        Content::A(..) | Content::Nothing => None,
    }
}

/// What is told where the book was asked.
fn told_by_step(step: Step) -> Told {
    match step {
        Step::Asked(event, reply) => asked(event, reply),
        Step::NoneFree(cell, _) => Told::NoneFree { cell },
    }
}

impl<A: Allocator + Copy> RunSummary<A> {
    /// What an input tells, which carries this.
    fn told_by_input(
        &mut self,
        input: &Inbound<A>,
        content: &Content<A>,
    ) -> Result<Told, AllocError> {
        Ok(Told::Input {
            cell: cell_of(content),
            cause: cause_of(input, content),
            name: self.name_of(content)?,
        })
    }

    /// What a message tells that is sent.
    fn told_by_sent(&mut self, content: &Content<A>) -> Result<Told, AllocError> {
        match self.name_of(content)? {
            Some(name) => Ok(Told::Sent {
                cell: cell_of(content),
                name,
            }),
            None => Ok(Told::Nothing),
        }
    }

    /// What a line tells that carries this.
    pub(crate) fn told_by(
        &mut self,
        line: &TraceLine<'_, A>,
        content: &Content<A>,
    ) -> Result<Told, AllocError> {
        match line {
            TraceLine::Input(input) => self.told_by_input(*input, content),
            TraceLine::Sent(_) => self.told_by_sent(content),
            TraceLine::Step(step) => Ok(told_by_step(*step)),
            TraceLine::Fault(_) => Ok(Told::Fault),
            TraceLine::Limit | TraceLine::End(_) => Ok(Told::Nothing),
        }
    }

    /// Counts a line of the controller with this mark, with this content. If memory is refused, it isn't counted.
    pub fn add_line(
        &mut self,
        mark: Mark,
        line: &TraceLine<'_, A>,
        content: &Content<A>,
    ) -> Result<(), AllocError> {
        let told = self.told_by(line, content)?;
        self.add_told(mark, told)
    }
}
