//! Who is told how far a storm is.

/// What the calls of a storm are asked to do, one phase after the other.
#[derive(Clone, Copy)]
pub(crate) enum Phase {
    /// They are opened.
    Opening,
    /// They try to move to the next cell.
    Moving,
    /// The switching centre hangs them up.
    HangingUp,
}

/// How far a storm is: what its calls were asked to do so far.
#[derive(Clone, Copy, Debug, PartialEq, Eq)]
pub struct Reached {
    /// So many calls were opened.
    pub opened: u16,
    /// So many were asked to move to another cell.
    pub moved: u16,
    /// So many were hung up.
    pub hung_up: u16,
}

impl Reached {
    /// Nothing was asked yet.
    pub(crate) fn none() -> Reached {
        Reached {
            opened: 0,
            moved: 0,
            hung_up: 0,
        }
    }

    /// One more call was asked for what it does in a phase.
    pub(crate) fn count(&mut self, phase: Phase) {
        let count = match phase {
            Phase::Opening => &mut self.opened,
            Phase::Moving => &mut self.moved,
            Phase::HangingUp => &mut self.hung_up,
        };
        *count = count.saturating_add(1);
    }
}

/// Who watches a storm. It is told on the front's thread, which holds no lock then.
pub trait Watch {
    /// The storm has got so far, or goes on at it.
    fn see(&mut self, reached: Reached);

    /// The storm has ended, maybe early.
    fn end(&mut self);
}

/// Nobody.
#[derive(Clone, Copy)]
pub struct Unwatched;

impl Watch for Unwatched {
    fn see(&mut self, _reached: Reached) {}

    fn end(&mut self) {}
}
