//! A book is read as its events left it, and an event is by itself.
use super::{
    ACTIVATE, COMMAND, CONFIRM, RESERVE, STEADY, TAKE, UNDO, at_a_new_book, equals_at, step_all,
};
use channel_fsm::ChanId;
use channel_fsm::ChanState::{self, Free, Off, On, Pending};
use radio_book::book::Book;
use radio_book::event::Event::Open;
use radio_book::event::{Attempt, AttemptKind, CallRecord, Event, Stage, Timer};
use radio_book::facts::{About, EventFacts, Growth, Milestone, facts_of};
use sample_sites::{HOME, OTHER, TARGET, THREE_CHANNELS};
use std::alloc::Global;
use std::process::Abort;
use std::test::Fail;

// Call 1 was sent to the channel of cell 1, and call 2 begins.
const MOVING: &[Event] = &[TAKE, RESERVE, ACTIVATE, CONFIRM, COMMAND, Open(2, OTHER)];

fn at_rest(serving: ChanId) -> CallRecord {
    CallRecord {
        serving: Some(serving),
        attempt: None,
    }
}

fn sent() -> CallRecord {
    CallRecord {
        serving: Some(HOME),
        attempt: Some(Attempt {
            kind: AttemptKind::Internal,
            stage: Stage::Commanded,
            target: Some(TARGET),
            reference: Some(0),
        }),
    }
}

// A channel's state, and the call whose it is.
fn has(rt: &impl Abort, book: &Book<Global>, chan: ChanId, state: ChanState, owner: Option<u16>) {
    equals_at(rt, book.state(chan), state, chan);
    equals_at(rt, book.owner(chan), owner, chan);
}

// A call's record, and its timer.
fn knows(
    rt: &impl Abort,
    book: &Book<Global>,
    call: u16,
    record: Option<CallRecord>,
    timer: Option<Timer>,
) {
    equals_at(rt, book.record(call), record, call);
    equals_at(rt, book.timer(call), timer, call);
}

fn is_read(rt: &impl Abort, book: &mut Book<Global>) -> Result<(), Fail> {
    step_all(book, STEADY)?;
    step_all(book, MOVING)?;
    has(rt, book, HOME, On(1), Some(1));
    has(rt, book, TARGET, On(1), Some(1));
    has(rt, book, OTHER, Pending(2), Some(2));
    knows(rt, book, 1, Some(sent()), Some(Timer::T3103));
    knows(rt, book, 2, Some(at_rest(OTHER)), None);
    knows(rt, book, 3, None, None);
    book.step(UNDO)?;
    has(rt, book, TARGET, Off, None);
    knows(rt, book, 1, Some(at_rest(HOME)), None);
    Ok(())
}

#[test]
fn a_book_says_what_it_has(rt: HostRuntime) -> Result<(), Fail> {
    at_a_new_book(&rt, THREE_CHANNELS, |rt, book| {
        has(rt, book, HOME, Free, None);
        is_read(rt, book)
    })
}

// What is said of a Take of call 1 that moves to the channel of cell 1: it opens an attempt, for which a call that is there
// gets a channel.
const TAKEN: EventFacts = EventFacts {
    about: About::Call(1),
    gives: Some((1, TARGET)),
    opens: Some((1, Some(TARGET))),
    reserves: None,
    ends: None,
    undoes: None,
    releases: None,
    drops: None,
    milestone: Some(Milestone::Began),
    grows: Some(Growth::InPlace),
    is_question: false,
};

#[test]
fn an_event_says_what_it_is(rt: HostRuntime) -> Result<(), Fail> {
    equals_at(&rt, facts_of(TAKE), TAKEN, TAKE);
    equals_at(&rt, facts_of(TAKE).about.call(), Some(1), TAKE);
    equals_at(
        &rt,
        facts_of(CONFIRM).about.channel(),
        Some(TARGET),
        CONFIRM,
    );
    Ok(())
}
