//! The counts of one controller or two.
use line_words::{Content, message_name};
use run_counts::{Names, Summary, Told};
use std::alloc::{AllocError, Allocator, Global};
use trace_text::trace::Mark;

/// The counts of the lines so far, of one controller or two.
#[derive(Drop)]
pub struct RunSummary<A: Allocator = Global> {
    pub(crate) names: Names<A>,
    pub(crate) first: Summary<A>,
    /// That of the peer, if there are two.
    pub(crate) peer: Option<Summary<A>>,
    pub(crate) alloc: A,
}

impl<A: Allocator + Copy> RunSummary<A> {
    /// The counts of one controller or two before the first line.
    pub fn new(alloc: A, has_peer: bool) -> RunSummary<A> {
        RunSummary {
            names: Names::new(alloc),
            first: Summary::new(alloc),
            peer: has_peer.then(|| Summary::new(alloc)),
            alloc,
        }
    }

    /// Whether nothing came that is counted.
    pub fn is_empty(&self) -> bool {
        match &self.peer {
            Some(peer) => self.first.is_empty() && peer.is_empty(),
            None => self.first.is_empty(),
        }
    }

    /// The place of the name of what octets are; nothing if there are no octets.
    pub(crate) fn name_of(&mut self, content: &Content<A>) -> Result<Option<usize>, AllocError> {
        match content {
            Content::Abis(..) | Content::A(..) | Content::Rowless(..) => {
                let name = message_name(self.alloc, content)?;
                Ok(Some(self.names.place(self.alloc, &name)?))
            }
            Content::Nothing => Ok(None),
        }
    }

    /// Counts what a line of the controller with this mark tells. If memory is refused it isn't counted.
    pub(crate) fn add_told(&mut self, mark: Mark, told: Told) -> Result<(), AllocError> {
        match mark {
            Mark::Alone | Mark::First => self.first.add(told),
            Mark::Peer => match &mut self.peer {
                Some(peer) => peer.add(told),
                None => Ok(()),
            },
        }
    }
}
