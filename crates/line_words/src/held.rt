//! What a book holds.
use channel_fsm::{ChanId, ChanState};
use radio_book::book::Book;
use std::alloc::{AllocError, Allocator};

/// The channels of a controller that aren't free, each with its state.
pub(crate) fn states_in<A: Allocator + Copy>(
    alloc: A,
    book: &Book<A>,
) -> Result<Vec<(ChanId, ChanState), A>, AllocError> {
    let site = book.site();
    let mut states = Vec::new(alloc);
    for place in 0..site.channels() {
        if let Some(chan) = site.chan_at(place) {
            let state = book.state(chan);
            if state.is_used() {
                states.push((chan, state))?;
            }
        }
    }
    Ok(states)
}

/// The call that has a channel in this state.
pub(crate) fn call_in(state: ChanState) -> Option<u16> {
    match state {
        ChanState::Held(call) | ChanState::Pending(call) | ChanState::On(call) => Some(call),
        ChanState::Free | ChanState::Off => None,
    }
}
