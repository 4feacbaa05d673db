//! Questions to a book.

use crate::event::{Event, Kind};
use channel_fsm::Rate;

/// A question to a book: an event, or an event on something that is free in the book. A call is named by its number, 0 to
/// 65535.
#[derive(Clone, Copy, Debug, PartialEq, Eq)]
pub enum Ask {
    /// This event.
    Event(Event),
    /// The call's [`Event::Take`] of this kind, of some channel of the cell that is free at the rate.
    Take(u16, Kind, u8, Rate),
    /// The call's [`Event::Open`] on some channel of the cell that is free at the rate.
    Open(u16, u8, Rate),
    /// The call's [`Event::Reserve`] of some Handover Reference that is free in the cell of its target.
    Reserve(u16),
}
