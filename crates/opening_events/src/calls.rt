//! The events by which calls come to where they are, call by call.
ghost use Rattle.std.specs.Prelude.{◌≡◌, ◌++◌, OnOk, option_map};
ghost use Rattle.std.specs.List.{flat_map};
ghost use Rattle.channel_fsm.specs.Keys.{same_chan};
ghost use Rattle.radio_book.specs.State.{state_of};
ghost use Rattle.radio_book.specs.Table.{is_target};
ghost use Rattle.radio_book.specs.Sound.{target_in};
ghost use Rattle.opening_events.specs.Opening as spec;

use crate::attempts::add_opened;
use channel_fsm::{ChanId, ChanState};
use radio_book::book::Book;
use radio_book::event::{CallRecord, Event};
use std::alloc::{AllocError, Allocator};

/// A call comes to be served on a channel in this state.
fn add_serving<A: Allocator>(
    events: &mut Vec<Event, A>,
    call: u16,
    chan: ChanId,
    state: ChanState,
) -> Result<(), AllocError>
    ensures { OnOk result (events.new.items ≡ events.old.items ++ spec.serving_events call chan state) }
{
    let open = Event::Open(call, chan);
    match state {
        ChanState::Held(_) => events.extend_from_slice(&[open, Event::Refuse(chan)]),
        ChanState::Pending(_) => events.extend_from_slice(&[open]),
        ChanState::On(_) => events.extend_from_slice(&[open, Event::Confirm(chan)]),
        ChanState::Free | ChanState::Off => Ok(()),
    }
}

/// A call comes to be served on a channel, where one serves it.
fn add_served<A: Allocator>(
    events: &mut Vec<Event, A>,
    call: u16,
    serving: Option<ChanId>,
    state: Option<ChanState>,
) -> Result<(), AllocError>
    ensures { OnOk result (events.new.items ≡ events.old.items ++ spec.served_events call serving state) }
{
    match (serving, state) {
        (Some(chan), Some(state)) => add_serving(events, call, chan, state),
        (Some(_), None) | (None, _) => Ok(()),
    }
}

/// A call comes to where its record has it.
fn add_call<A: Allocator>(
    events: &mut Vec<Event, A>,
    call: u16,
    found: CallRecord,
    state: Option<ChanState>,
) -> Result<(), AllocError>
    ensures { OnOk result (events.new.items ≡ events.old.items ++ spec.call_events call found state) }
{
    add_served(events, call, found.serving, state)?;
    add_opened(events, call, found.attempt)
}

fn is_same_chan(one: ChanId, other: ChanId) -> bool
    ensures { result ≡ same_chan one other }
{
    one == other
}

/// The target of the attempt that is open.
fn target_in(found: CallRecord) -> Option<ChanId>
    ensures { result ≡ target_in found }
{
    found.attempt?.target
}

/// The channel by which a call stands in the list.
fn listed_by(found: CallRecord) -> Option<ChanId>
    ensures { result ≡ spec.listed_by found }
{
    match found.serving {
        Some(serving) => Some(serving),
        None => target_in(found),
    }
}

/// Whether a call stands in the list by this channel.
fn is_listed_by(found: CallRecord, chan: ChanId) -> bool
    ensures { result ≡ is_target chan (spec.listed_by found) }
{
    match listed_by(found) {
        Some(listed) => is_same_chan(listed, chan),
        None => false,
    }
}

/// The state of the channel that serves a call.
fn serving_state<A: Allocator + Copy>(book: &Book<A>, found: CallRecord) -> Option<ChanState>
    ensures { result ≡ option_map (state_of book.now) found.serving }
{
    Some(book.state(found.serving?))
}

/// The call that a channel is in use for comes to where it is, if it stands in the list by this channel.
fn add_owner<A: Allocator + Copy>(
    events: &mut Vec<Event, A>,
    book: &Book<A>,
    chan: ChanId,
    call: u16,
) -> Result<(), AllocError>
    ensures { OnOk result (events.new.items ≡ events.old.items
        ++ spec.events_of_shown chan call (spec.shown book.now call)) }
{
    let Some(found) = book.record(call) else {
        return Ok(());
    };
    if !is_listed_by(found, chan) {
        return Ok(());
    }
    add_call(events, call, found, serving_state(book, found))
}

fn add_at<A: Allocator + Copy>(
    events: &mut Vec<Event, A>,
    book: &Book<A>,
    chan: ChanId,
) -> Result<(), AllocError>
    ensures { OnOk result (events.new.items ≡ events.old.items ++ spec.events_at book.now chan) }
{
    match book.owner(chan) {
        Some(call) => add_owner(events, book, chan, call),
        None => Ok(()),
    }
}

/// All calls come to where they are, in the order of these channels.
pub(crate) fn add_calls<A: Allocator + Copy>(
    events: &mut Vec<Event, A>,
    book: &Book<A>,
    channels: &[ChanId],
) -> Result<(), AllocError>
    ensures { OnOk result (events.new.items ≡ events.old.items
        ++ flat_map (spec.events_at book.now) channels.now) }
{
    for chan in channels {
        add_at(events, book, *chan)?;
    }
    Ok(())
}
