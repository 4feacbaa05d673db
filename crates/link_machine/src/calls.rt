//! What is known of calls besides the book.
ghost use Rattle.std.specs.Prelude.{◌≡◌};
ghost use Rattle.link_machine.specs.Calls.{facts_of, is_served_on, leaves_by, arrives_by, use_of, whose, holder_by};
ghost use Rattle.radio_book.specs.Table.{is_target};

use crate::channel::Bar;
use channel_fsm::{ChanId, ChanState};
use link_tables::{Holder, Use};
use radio_book::book::Book;
use radio_book::event::{CallRecord, Timer};
use std::alloc::Allocator;

/// What is known of a call besides the book: what it is for, and where its mobile is. The owner of the call's links says all
/// of this but its timer. It is forgotten with the call.
#[derive(Clone, Copy, Debug, PartialEq, Eq)]
pub struct CallFacts {
    /// Whether its mobile was told to leave its serving channel, and wasn't heard since.
    pub is_away: bool,
    /// Whether its measurement reports are used.
    pub reports: bool,
    /// Whether it came from the air. This is said before the call is opened for a mobile.
    pub is_from_air: bool,
    /// The timer that runs for it.
    pub timer: Option<Timer>,
}

impl CallFacts {
    /// What is known of a call about which nothing was said: an operator's call, with its mobile there.
    pub const PLAIN: CallFacts = CallFacts {
        is_away: false,
        reports: true,
        is_from_air: false,
        timer: None,
    };
}

/// What is known of a call.
pub fn facts_of(calls: &[CallFacts], call: u16) -> CallFacts
    ensures facts { result ≡ facts_of calls.now call }
{
    match calls.get(usize::from(call)) {
        Some(facts) => *facts,
        None => CallFacts::PLAIN,
    }
}

/// Whether a channel is this one.
pub(crate) fn is_target(chan: ChanId, target: Option<ChanId>) -> bool
    ensures { result ≡ is_target chan target }
{
    match target {
        Some(target) => target == chan,
        None => false,
    }
}

/// Whether a call is served on a channel.
fn is_served_on(chan: ChanId, found: Option<CallRecord>) -> bool
    ensures { result ≡ is_served_on chan found }
{
    match found {
        Some(record) => is_target(chan, record.serving),
        None => false,
    }
}

/// Whether a call is served on a channel, and has an attempt at handover.
fn leaves(chan: ChanId, found: Option<CallRecord>) -> bool
    ensures { result ≡ leaves_by chan found }
{
    match found {
        Some(record) => is_target(chan, record.serving) && record.attempt.is_some(),
        None => false,
    }
}

/// Whether a call is to move to a channel.
fn arrives(chan: ChanId, found: Option<CallRecord>) -> bool
    ensures { result ≡ arrives_by chan found }
{
    match found {
        Some(record) => match record.attempt {
            Some(attempt) => is_target(chan, attempt.target),
            None => false,
        },
        None => false,
    }
}

/// What a call has a channel for.
fn use_of<A: Allocator + Copy>(book: &Book<A>, calls: &[CallFacts], call: u16, chan: ChanId) -> Use
    ensures { result ≡ use_of book.now calls.now call chan }
{
    let found = book.record(call);
    let facts = facts_of(calls, call);
    Use {
        leaves: leaves(chan, found),
        arrives: arrives(chan, found) && facts.is_away,
        returns: is_served_on(chan, found) && facts.is_away,
        reports: facts.reports,
    }
}

/// What a call is that has a channel with this bar: the bar itself, or another call.
fn whose<A: Allocator + Copy>(
    book: &Book<A>,
    calls: &[CallFacts],
    chan: ChanId,
    bar: Option<Bar>,
    call: u16,
) -> Holder
    ensures { result ≡ whose book.now calls.now chan bar call }
{
    match bar {
        Some(bar) if bar.call == call => Holder::Barred(bar.kind),
        Some(_) | None => Holder::Call(use_of(book, calls, call, chan)),
    }
}

/// Who has a channel with this bar, by the book.
pub fn holder_of<A: Allocator + Copy>(
    book: &Book<A>,
    calls: &[CallFacts],
    chan: ChanId,
    bar: Option<Bar>,
) -> Holder
    ensures holder { result ≡ holder_by book.now calls.now chan bar }
{
    match book.state(chan) {
        ChanState::Free => Holder::Nobody,
        ChanState::Off => Holder::Past,
        ChanState::Held(call) | ChanState::Pending(call) | ChanState::On(call) => {
            whose(book, calls, chan, bar, call)
        }
    }
}
