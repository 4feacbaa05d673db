//! Attempts at handover, as far as the lines of a trace show them.
use channel_fsm::ChanId;
use radio_book::event::{Event, Reply};
use std::alloc::{AllocError, Allocator, Global};
use std::collections::BTreeMap;

/// How far an attempt came.
#[derive(Clone, Copy)]
enum Extent {
    /// It is open; whether the activation of its channel was sent and not refused.
    Open { is_sent: bool },
    /// The call has moved.
    Complete,
    /// It was undone, and the release of its channel is awaited.
    Awaited,
    /// It was undone, and this was its last row.
    Undone(u32),
}

/// An attempt.
#[derive(Clone, Copy)]
pub(crate) struct Attempt {
    pub(crate) call: u16,
    /// The row in which it opened.
    pub(crate) first: u32,
    /// Its channel; none of one to another controller.
    target: Option<ChanId>,
    extent: Extent,
}

impl Attempt {
    /// The last row of one that was undone. While the release of its channel is awaited that is the last of all rows.
    pub(crate) fn last_of(&self, last_of_all: u32) -> Option<u32> {
        match self.extent {
            Extent::Open { .. } | Extent::Complete => None,
            Extent::Awaited => Some(last_of_all),
            Extent::Undone(row) => Some(row),
        }
    }

    /// The channel whose release is awaited where it is undone now.
    fn awaited(&self) -> Option<ChanId> {
        match self.extent {
            Extent::Open { is_sent: true } => self.target,
            Extent::Open { is_sent: false }
            | Extent::Complete
            | Extent::Awaited
            | Extent::Undone(_) => None,
        }
    }
}

/// The attempts of one controller.
#[derive(Drop)]
pub(crate) struct Attempts<A: Allocator = Global> {
    /// All, in the order in which they opened.
    all: Vec<Attempt, A>,
    /// The place of each call's open one.
    open: BTreeMap<u16, usize, A>,
    /// The place of the one that was undone, and whose channel's release is awaited.
    awaited: BTreeMap<ChanId, usize, A>,
}

impl<A: Allocator + Copy> Attempts<A> {
    /// No attempt.
    pub(crate) fn new(alloc: A) -> Attempts<A> {
        Attempts {
            all: Vec::new(alloc),
            open: BTreeMap::new(alloc),
            awaited: BTreeMap::new(alloc),
        }
    }

    /// All, in the order in which they opened.
    pub(crate) fn all(&self) -> &[Attempt] {
        &self.all
    }

    /// An attempt opens.
    fn begin(&mut self, row: u32, call: u16, target: Option<ChanId>) -> Result<(), AllocError> {
        self.open.insert(call, self.all.len())?;
        self.all.push(Attempt {
            call,
            first: row,
            target,
            extent: Extent::Open { is_sent: false },
        })?;
        Ok(())
    }

    /// The attempt at a place came so far.
    fn advance(&mut self, place: usize, extent: Extent) {
        if let Some(attempt) = self.all.get_mut(place) {
            attempt.extent = extent;
        }
    }

    /// The activation of an attempt's channel is sent.
    fn send(&mut self, call: u16) {
        if let Some(place) = self.open.get(&call).copied() {
            self.advance(place, Extent::Open { is_sent: true });
        }
    }

    /// The station refused to activate a channel: no release of it is awaited.
    fn refuse(&mut self, call: Option<u16>, chan: ChanId) {
        let Some(call) = call else {
            return;
        };
        if let Some(place) = self.open.get(&call).copied()
            && let Some(attempt) = self.all.get_mut(place)
            && attempt.target == Some(chan)
        {
            attempt.extent = Extent::Open { is_sent: false };
        }
    }

    /// The call of an attempt has moved.
    fn complete(&mut self, call: u16) {
        if let Some(place) = self.open.remove(&call) {
            self.advance(place, Extent::Complete);
        }
    }

    /// An attempt is undone.
    fn undo(&mut self, row: u32, call: u16) -> Result<(), AllocError> {
        let Some(place) = self.open.remove(&call) else {
            return Ok(());
        };
        let awaited = match self.all.get(place) {
            Some(attempt) => attempt.awaited(),
            None => None,
        };
        match awaited {
            Some(chan) => {
                self.awaited.insert(chan, place)?;
                self.advance(place, Extent::Awaited);
            }
            None => self.advance(place, Extent::Undone(row)),
        }
        Ok(())
    }

    /// A channel is released.
    fn release(&mut self, row: u32, chan: ChanId) {
        if let Some(place) = self.awaited.remove(&chan) {
            self.advance(place, Extent::Undone(row));
        }
    }

    /// An event was accepted in a row, about this call.
    fn accept(&mut self, row: u32, event: Event, call: Option<u16>) -> Result<(), AllocError> {
        match event {
            Event::Take(call, _, chan) => self.begin(row, call, Some(chan)),
            Event::Require(call) => self.begin(row, call, None),
            Event::Activate(call) => {
                self.send(call);
                Ok(())
            }
            Event::Refuse(chan) => {
                self.refuse(call, chan);
                Ok(())
            }
            Event::Undo(call, _) => self.undo(row, call),
            Event::Complete(call) | Event::Left(call) => {
                self.complete(call);
                Ok(())
            }
            Event::Released(chan) => {
                self.release(row, chan);
                Ok(())
            }
            Event::Open(..)
            | Event::Clear(_)
            | Event::Look(_)
            | Event::Reserve(..)
            | Event::Command(_)
            | Event::Confirm(_)
            | Event::Detect(_)
            | Event::Owner(_)
            | Event::Order(_) => Ok(()),
        }
    }

    /// An event was asked in a row, about this call, and this was replied.
    pub(crate) fn ask(
        &mut self,
        row: u32,
        event: Event,
        reply: Reply,
        call: Option<u16>,
    ) -> Result<(), AllocError> {
        if reply.is_accepted() {
            self.accept(row, event, call)?;
        }
        Ok(())
    }
}
