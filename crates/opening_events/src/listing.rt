//! The whole list, and that it leads to the book.
ghost use Rattle.std.specs.Prelude.{◌≡◌, ◌≢◌, ◌++◌, Err, IfOk, OnOk, slice_get};
ghost use Rattle.std.specs.List.{flat_map};
ghost use Rattle.std.specs.Option.{option_to_list};
ghost use Rattle.cell_table.specs.Site as site_spec;
ghost use Rattle.radio_book.specs.State.{state_of, empty_book};
ghost use Rattle.radio_book.specs.Run.{run_book};
ghost use Rattle.radio_book.specs.Table.{channel_row};
ghost use Rattle.opening_events.specs.Opening.{off_events, events_at, opening_events};

use crate::calls::add_calls;
use cell_table::Site;
use channel_fsm::{ChanId, ChanState};
use radio_book::book::Book;
use radio_book::event::Event;
use radio_book::run::run;
use std::alloc::{AllocError, Allocator};
use thiserror::Error;

/// Why there is no list of events that leads to a book.
#[derive(Clone, Copy, Debug, PartialEq, Eq, Error)]
pub enum OpeningFault {
    /// The events lead to another book.
    #[error("the events of an opening lead to another book")]
    Differs,
    /// Memory was refused.
    #[error("memory was refused")]
    NoMemory,
}

impl From<AllocError> for OpeningFault {
    ghost use Rattle.std.specs.Prelude.{◌≡◌};
    ghost use Rattle.opening_events.specs.declared.listing.OpeningFault.TheVariants.{NoMemory};

    ghost from_gives = { λ _ fault. fault ≡ NoMemory };

    fn from(_: AllocError) -> OpeningFault {
        OpeningFault::NoMemory
    }
}

/// Appends the channel that has a place among the traffic channels of a site, if one has.
fn push_at<A: Allocator + Copy>(
    all: &mut Vec<ChanId, A>,
    site: &Site<A>,
    place: usize,
) -> Result<(), AllocError>
    ensures { OnOk result (all.new.items ≡ all.old.items
        ++ option_to_list (slice_get (site_spec.channels site.now) place)) }
{
    if let Some(chan) = site.chan_at(place) {
        all.push(chan)?;
    }
    Ok(())
}

/// The traffic channels of a site, in their order.
fn channels_of<A: Allocator + Copy>(alloc: A, site: &Site<A>) -> Result<Vec<ChanId, A>, AllocError>
    ensures { IfOk result (λ all. all.items ≡ site_spec.channels site.now) }
{
    let mut all = Vec::new(alloc);
    for place in 0..site.channels() {
        push_at(&mut all, site, place)?;
    }
    Ok(all)
}

/// Whether the release of a channel is awaited in this state.
fn is_off(state: ChanState) -> bool
    ensures { result ≡ (channel_row state).off }
{
    match state {
        ChanState::Off => true,
        ChanState::Free | ChanState::Held(_) | ChanState::Pending(_) | ChanState::On(_) => false,
    }
}

/// A channel comes to be off, if its release is awaited.
fn add_if_off<A: Allocator + Copy>(
    events: &mut Vec<Event, A>,
    book: &Book<A>,
    chan: ChanId,
) -> Result<(), AllocError>
    ensures { OnOk result (events.new.items ≡ events.old.items
        ++ off_events chan (state_of book.now chan)) }
{
    if is_off(book.state(chan)) {
        events.extend_from_slice(&[Event::Open(0, chan), Event::Clear(0)])?;
    }
    Ok(())
}

/// The channels whose release is awaited come to be off.
fn add_off<A: Allocator + Copy>(
    events: &mut Vec<Event, A>,
    book: &Book<A>,
    channels: &[ChanId],
) -> Result<(), AllocError>
    ensures { OnOk result (events.new.items ≡ events.old.items
        ++ flat_map (λ x. off_events x (state_of book.now x)) channels.now) }
{
    for chan in channels {
        add_if_off(events, book, *chan)?;
    }
    Ok(())
}

/// The events in their order: those of channels first.
fn listed_events<A: Allocator + Copy>(alloc: A, book: &Book<A>) -> Result<Vec<Event, A>, AllocError>
    ensures { IfOk result (λ events. events.items ≡ opening_events book.now) }
{
    let channels = channels_of(alloc, book.site())?;
    let mut events = Vec::new(alloc);
    add_off(&mut events, book, &channels)?;
    add_calls(&mut events, book, &channels)?;
    Ok(events)
}

/// The events that lead from the empty book of its site to a book. They are asked of that one, and what comes of them is
/// compared with the book: where it is another, no events are answered.
pub fn events_to<A: Allocator + Copy>(
    alloc: A,
    book: &Book<A>,
) -> Result<Vec<Event, A>, OpeningFault>
    ensures events { IfOk result (λ events. events.items ≡ opening_events book.now) }
    ensures leads { IfOk result (λ events.
        run_book (empty_book book.now.site) events.items ≡ book.now) }
    ensures differs { result ≡ Err OpeningFault.Differs →
        run_book (empty_book book.now.site) (opening_events book.now) ≢ book.now }
{
    let events = listed_events(alloc, book)?;
    let empty = Book::new(alloc, book.site().clone()?)?;
    let (after, _replies) = run(alloc, &empty, &events)?;
    if after == *book {
        Ok(events)
    } else {
        Err(OpeningFault::Differs)
    }
}
