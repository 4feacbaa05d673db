//! Callers at a desk, and what they get there.
ghost use Rattle.std.specs.Prelude.{◌≡◌, None, Some};

use radio_book::undone::StepAt;
use std::marker::Model;

/// What a caller keeps when it is answered: an entry of the history as a step. Its place is the number of entries before it.
pub type Receipt = StepAt;

/// One caller's place at a desk. Contracts see it as its last receipt.
#[derive(Drop)]
pub struct Seat {
    last: Option<Receipt>,
}

impl Model for Seat {
    ghost use Rattle.std.specs.Prelude.{Option};
    ghost use Rattle.radio_desk.specs.Receipts.{Receipt};

    ghost Value = { Option Receipt };

    ghost view = { λ seat. seat.last };
}

impl Seat {
    /// A seat that has got no receipt yet.
    pub fn new() -> Seat
        ensures none { result ≡ None }
    {
        Seat { last: None }
    }

    /// The last receipt that it got, at whatever desk.
    pub fn last(&self) -> Option<Receipt>
        ensures last { result ≡ self.now }
    {
        self.last
    }

    pub(crate) fn keep(&mut self, receipt: Receipt)
        ensures { self.new ≡ Some receipt }
    {
        self.last = Some(receipt);
    }
}
