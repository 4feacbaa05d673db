//! The result of an attempt that was undone.
ghost use Rattle.std.specs.Prelude.{◌≡◌, ◌≢◌, ◌↔◌, ◌++◌, Ok, Some, None, true, slice_get, IfOk, OnOk, IfSome};
ghost use Rattle.radio_book.specs.NoTrace.{LeavesNoTrace};
ghost use Rattle.radio_book.specs.Undone.{Undone, OpensUndone, IsUndoneAt, is_settled, first_held};
ghost use Rattle.radio_desk.specs.Audit.{events_in};
ghost use Rattle.read_traces.specs.Rewound.{IsSame, OfTheUndone, LeavesATrace};
ghost use Rattle.undone_runs.specs.Events.{event_at};

use radio_book::event::Event;
use radio_book::rewind::{RewindFault, Rewound, rewind};
use radio_desk::desk::Desk;
use read_traces::rewound::{is_reply_at, is_same};
use std::alloc::{AllocError, Allocator};

/// What differs without an attempt.
#[derive(Clone, Copy, Debug, PartialEq, Eq)]
pub enum Difference {
    /// This event is the first of the others that gets another reply.
    Reply(Event),
    /// The replies are the same, but the book differs.
    Book,
}

/// The result of an attempt that was undone and is taken out of what its controller was asked.
#[derive(Clone, Copy, Debug, PartialEq, Eq)]
pub struct Verdict {
    /// No release of its channel is awaited.
    pub settled: bool,
    /// The place of the first of the other events that was refused because of what it held, among all that was asked,
    /// counted from 0.
    pub held: Option<usize>,
    /// What differs without it, if anything does.
    pub difference: Option<Difference>,
}

/// Appends what was asked at a place, if anything was.
fn push_event<A: Allocator + Copy>(
    events: &mut Vec<Event, A>,
    desk: &Desk<A>,
    place: usize,
) -> Result<(), AllocError>
    ensures { OnOk result (events.new.items ≡ events.old.items
        ++ event_at (slice_get desk.now.history place)) }
{
    match desk.entry(place) {
        Some((event, _)) => Ok(events.push(*event)?),
        None => Ok(()),
    }
}

/// What a desk was asked.
fn events_of<A: Allocator + Copy>(alloc: A, desk: &Desk<A>) -> Result<Vec<Event, A>, AllocError>
    ensures { IfOk result (λ events. events.items ≡ events_in desk.now.history) }
{
    let mut events = Vec::new(alloc);
    for place in 0..desk.len() {
        push_event(&mut events, desk, place)?;
    }
    Ok(events)
}

/// The first of the others that gets another reply alone, if one does.
fn first_other<A: Allocator>(rewound: &Rewound<A>, events: &[Event]) -> Option<Event> {
    let replies = rewound.without_replies.as_slice();
    let index = rewound.others.iter().zip(replies.iter()).position(|(place, reply)| !is_reply_at(
        &rewound.whole_replies,
        *place,
        reply,
    ))?;
    events.get(*rewound.others.get(index)?).copied()
}

/// What differs without the attempt, if anything does.
fn difference_of<A: Allocator>(rewound: &Rewound<A>, events: &[Event]) -> Option<Difference>
    ensures same { (result ≡ None) ↔ IsSame rewound.now }
{
    if is_same(rewound) {
        None
    } else {
        Some(match first_other(rewound, events) {
            Some(event) => Difference::Reply(event),
            None => Difference::Book,
        })
    }
}

/// Takes the attempt that opens at this place, counted from 0, out of what a desk was asked; nothing if no undone attempt
/// opens there. If no release of its channel is awaited, and no event was refused because of what it held, nothing differs
/// without it: it leaves no trace.
pub fn verdict_of<A: Allocator + Copy>(
    alloc: A,
    desk: &Desk<A>,
    opening: usize,
) -> Result<Option<Verdict>, AllocError>
    ensures same { IfOk result (λ found. IfSome found (λ verdict. verdict.difference ≡ None →
        OfTheUndone LeavesNoTrace desk.now.opening (events_in desk.now.history) opening)) }
    ensures differs { IfOk result (λ found. IfSome found (λ verdict. verdict.difference ≢ None →
        OfTheUndone LeavesATrace desk.now.opening (events_in desk.now.history) opening)) }
    ensures settled { IfOk result (λ found. IfSome found (λ verdict. (u : Undone) →
        IsUndoneAt desk.now.opening (events_in desk.now.history) opening u →
        verdict.settled ≡ is_settled u)) }
    ensures held { IfOk result (λ found. IfSome found (λ verdict. (u : Undone) →
        IsUndoneAt desk.now.opening (events_in desk.now.history) opening u →
        verdict.held ≡ first_held u)) }
    ensures no_trace { IfOk result (λ found. IfSome found (λ verdict.
        verdict.settled ≡ true → verdict.held ≡ None → verdict.difference ≡ None)) }
    ensures none { result ≡ Ok None →
        OpensUndone desk.now.opening (events_in desk.now.history) opening → ⊥ }
{
    let events = events_of(alloc, desk)?;
    match rewind(alloc, desk.opening(), &events, opening) {
        Ok(rewound) => Ok(Some(Verdict {
            settled: rewound.settled,
            held: rewound.held,
            difference: difference_of(&rewound, &events),
        })),
        Err(RewindFault::NoAttempt) => Ok(None),
        Err(RewindFault::NoMemory) => Err(AllocError),
    }
}
