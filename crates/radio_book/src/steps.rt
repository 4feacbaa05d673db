//! Lists of events with their replies as steps, each with its place.
ghost use Rattle.std.specs.Prelude.{◌≡◌, ℕ, map, zip, IfOk};
ghost use Rattle.std.specs.List.{enumerate_from};
ghost use Rattle.radio_book.specs.Undone.{places_of, events_of};
ghost use Rattle.radio_book.specs.Found.{first_place};
ghost use Rattle.radio_book.specs.declared.undone.StepAt.{StepAt};

use crate::event::{Event, Reply};
use crate::undone::StepAt;
use std::alloc::{AllocError, Allocator};

/// The events as steps, each with its place and its reply.
pub fn steps_of<A: Allocator + Copy>(
    alloc: A,
    events: &[Event],
    replies: &[Reply],
) -> Result<Vec<StepAt, A>, AllocError>
    ensures { IfOk result (λ steps. steps.items ≡ map
        (λ (p : ℕ × (Event × Reply)). record { place = p.0; event = p.1.0; reply = p.1.1 })
        (enumerate_from 0 (zip events.now replies.now))) }
{
    events
        .iter()
        .zip(replies.iter())
        .enumerate()
        .map(|(place, (event, reply))| StepAt {
            place,
            event: *event,
            reply: *reply,
        })
        .collect(alloc)
}

/// Where the steps stand.
pub fn places_of<A: Allocator + Copy>(
    alloc: A,
    steps: &[StepAt],
) -> Result<Vec<usize, A>, AllocError>
    ensures { IfOk result (λ places. places.items ≡ places_of steps.now) }
{
    steps.iter().map(|step| step.place).collect(alloc)
}

/// What was asked.
pub fn events_of<A: Allocator + Copy>(
    alloc: A,
    steps: &[StepAt],
) -> Result<Vec<Event, A>, AllocError>
    ensures { IfOk result (λ events. events.items ≡ events_of steps.now) }
{
    steps.iter().map(|step| step.event).collect(alloc)
}

/// Where the first of the steps stands.
pub fn first_place(steps: &[StepAt]) -> Option<usize>
    ensures { result ≡ first_place steps.now }
{
    steps.first().map(|step| step.place)
}
