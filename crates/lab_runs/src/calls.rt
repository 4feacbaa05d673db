//! The channels of calls, by a desk's book and history.
ghost use Rattle.std.specs.Prelude.{◌≡◌, ◌<◌, ◌+◌, ◌-◌, ◌||◌, ℕ, true, drop, IfOk, IfSome};
ghost use Rattle.std.specs.List.{list_any};
ghost use Rattle.std.specs.Option.{option_or};
ghost use Rattle.std.specs.Result.{result_ok};
ghost use Rattle.channel_fsm.specs.declared.ChanId.{ChanId};
ghost use Rattle.radio_book.specs.State.{record_of, state_of};
ghost use Rattle.radio_tables.specs.States.{channel_row};
ghost use Rattle.lab_runs.specs.Asked as said;

use bts_model::Answer;
use channel_fsm::{ChanId, ChanState};
use radio_book::book::Book;
use radio_book::event::{CallRecord, Event, Reply};
use radio_book::facts::facts_of;
use radio_desk::desk::Desk;
use run_listeners::Unmet;
use std::alloc::Allocator;

/// Does nothing; its contract hands out that channels in use lie on the eight timeslots of a TRX (TS 45.002 clause 4.3.2).
fn timeslots<A: Allocator + Copy>(book: &Book<A>)
    ensures serving { (call : ℕ) →
        IfSome (said.serving_channel (record_of book.now call)) (λ x. x.tn < 8) }
    ensures target { (call : ℕ) →
        IfSome (said.target_channel (record_of book.now call)) (λ x. x.tn < 8) }
    ensures off { (x : ChanId) → (channel_row (state_of book.now x)).off ≡ true → x.tn < 8 }
{
    let _ = (book.calls(), book.site().cells());
}

/// The channel that a call is on.
pub(crate) fn serving_channel<A: Allocator + Copy>(
    book: &Book<A>,
    call: u16,
) -> Result<ChanId, Unmet>
    ensures channel { result_ok result ≡ said.serving_channel (record_of book.now call) }
    ensures timeslot { IfOk result (λ chan. chan.tn < 8) }
{
    timeslots(book);
    match book.record(call) {
        Some(known) => known.serving.ok_or(Unmet::NoChannel(call)),
        None => Err(Unmet::NoCall(call)),
    }
}

/// The channel that a record's call is to move to; if it isn't, the one that it is on.
fn target_of(known: CallRecord) -> Option<ChanId>
    ensures { result ≡ said.target_of known }
{
    match known.attempt {
        Some(attempt) => attempt.target.or(known.serving),
        None => known.serving,
    }
}

/// The channel that a call is to move to; if it isn't, the one that it is on.
fn target_channel<A: Allocator + Copy>(book: &Book<A>, call: u16) -> Result<ChanId, Unmet>
    ensures channel { result_ok result ≡ said.target_channel (record_of book.now call) }
    ensures timeslot { IfOk result (λ chan. chan.tn < 8) }
{
    timeslots(book);
    match book.record(call) {
        Some(known) => target_of(known).ok_or(Unmet::NoChannel(call)),
        None => Err(Unmet::NoCall(call)),
    }
}

/// Whether a call is on a channel.
pub(crate) fn is_on<A: Allocator + Copy>(book: &Book<A>, chan: ChanId) -> bool
    ensures on { result ≡ said.is_on book.now chan }
    ensures timeslot { result ≡ true → chan.tn < 8 }
{
    let Some(call) = book.owner(chan) else {
        return false;
    };
    match serving_channel(book, call) {
        Ok(serving) => serving == chan,
        Err(_) => false,
    }
}

/// The call to which an entry of a history gave a channel, and that channel. An event that was refused gave none.
fn given_in(entry: &(Event, Reply)) -> Option<(u16, ChanId)>
    ensures { result ≡ said.given_in entry.now }
{
    let (event, reply) = *entry;
    if reply.is_accepted() {
        facts_of(event).gives
    } else {
        None
    }
}

/// The channel that an entry gave a call.
fn taken_by(entry: &(Event, Reply), call: u16) -> Option<ChanId>
    ensures { result ≡ said.taken_by call entry.now }
{
    let (taker, chan) = given_in(entry)?;
    if taker == call { Some(chan) } else { None }
}

/// Whether an entry gave a channel to a call.
fn takes(entry: &(Event, Reply), chan: ChanId) -> bool
    ensures { result ≡ said.takes chan entry.now }
{
    match given_in(entry) {
        Some((_, taken)) => taken == chan,
        None => false,
    }
}

/// Whether the entry at a place gave a channel to a call.
fn is_taken_at<A: Allocator + Copy>(desk: &Desk<A>, place: usize, chan: ChanId) -> bool
    ensures { list_any (said.takes chan) (drop place desk.now.history) ≡
        result || list_any (said.takes chan) (drop (place + 1) desk.now.history) }
{
    match desk.entry(place) {
        Some(entry) => takes(entry, chan),
        None => false,
    }
}

/// Whether entries from this place on gave a channel to a call.
fn is_taken_from<A: Allocator + Copy>(desk: &Desk<A>, first: usize, chan: ChanId) -> bool
    ensures { result ≡ list_any (said.takes chan) (drop first desk.now.history) }
{
    for place in first..desk.len() {
        if is_taken_at(desk, place, chan) {
            return true;
        }
    }
    false
}

/// Whether the release of a channel is awaited.
fn is_off<A: Allocator + Copy>(book: &Book<A>, chan: ChanId) -> bool
    ensures off { result ≡ (channel_row (state_of book.now chan)).off }
{
    match book.state(chan) {
        ChanState::Off => true,
        ChanState::Free | ChanState::Held(_) | ChanState::Pending(_) | ChanState::On(_) => false,
    }
}

/// Whether no entry from a place on gave a channel to a call, and its release is awaited.
fn is_left<A: Allocator + Copy>(desk: &Desk<A>, place: usize, chan: ChanId) -> bool
    ensures left { result ≡ said.is_left desk.now.book (drop place desk.now.history) chan }
{
    !is_taken_from(desk, place, chan) && is_off(desk.book(), chan)
}

/// The channel that the last entry before this place gave the call, where none from there on gave it to anyone, and its
/// release is awaited.
fn released_before<A: Allocator + Copy>(desk: &Desk<A>, place: usize, call: u16) -> Option<ChanId>
    requires { 0 < place }
    ensures channel { said.released_in desk.now.book call (drop (place - 1) desk.now.history) ≡
        option_or (said.released_in desk.now.book call (drop place desk.now.history)) result }
    ensures timeslot { IfSome result (λ chan. chan.tn < 8) }
{
    let Some(entry) = desk.entry(place - 1) else {
        return None;
    };
    let Some(chan) = taken_by(entry, call) else {
        return None;
    };
    timeslots(desk.book());
    if is_left(desk, place, chan) {
        Some(chan)
    } else {
        None
    }
}

/// The channel that a call got last of those that nobody got since, and whose release is awaited.
fn released_channel<A: Allocator + Copy>(desk: &Desk<A>, call: u16) -> Result<ChanId, Unmet>
    ensures channel { result_ok result ≡ said.released_channel desk.now call }
    ensures timeslot { IfOk result (λ chan. chan.tn < 8) }
{
    let mut place = desk.len();
    while place > 0 {
        if let Some(chan) = released_before(desk, place, call) {
            return Ok(chan);
        }
        place -= 1;
    }
    Err(Unmet::NoRelease(call))
}

/// The channel of a call that an answer is about.
pub(crate) fn channel_of<A: Allocator + Copy>(
    desk: &Desk<A>,
    call: u16,
    answer: Answer,
) -> Result<ChanId, Unmet>
    ensures channel { result_ok result ≡ said.channel_of desk.now call answer }
    ensures timeslot { IfOk result (λ chan. chan.tn < 8) }
{
    match answer {
        Answer::ReleaseAck => released_channel(desk, call),
        Answer::Failure => serving_channel(desk.book(), call),
        Answer::ActivationAck | Answer::ActivationNack | Answer::Detection | Answer::Complete => {
            target_channel(desk.book(), call)
        }
    }
}

/// The channel whose mobile is a call's: the one that it is on; where it is on none, the one that it is to move to.
pub(crate) fn mobile_channel<A: Allocator + Copy>(
    desk: &Desk<A>,
    call: u16,
) -> Result<ChanId, Unmet>
    ensures channel { result_ok result ≡ said.mobile_channel desk.now.book call }
{
    match serving_channel(desk.book(), call) {
        Ok(chan) => Ok(chan),
        Err(_) => target_channel(desk.book(), call),
    }
}
