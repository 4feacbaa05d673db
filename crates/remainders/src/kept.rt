//! Which events stay without all attempts that were undone and are settled.
use radio_book::event::{Event, Reply};
use radio_book::following::{Followed, opening_of};
use radio_book::undone::StepAt;
use std::alloc::{AllocError, Allocator};

/// An attempt at the end of the steps behind its opening.
fn at_end(opening: Followed, behind: &[StepAt]) -> Followed {
    let mut followed = opening;
    for step in behind {
        if followed.is_over() {
            return followed;
        }
        followed = followed.after(step);
    }
    followed
}

/// The steps that don't stay without an attempt are marked, from its opening on.
fn mark_own(opening: Followed, steps: &[StepAt], own: &mut [bool]) {
    let mut followed = opening;
    for step in steps {
        if !followed.stays(step)
            && let Some(mark) = own.get_mut(step.place)
        {
            *mark = true;
        }
        if followed.is_over() {
            return;
        }
        followed = followed.after(step);
    }
}

/// The steps that don't stay without the attempt that opens with the first, where it is settled, are marked.
fn mark_settled(steps: &[StepAt], own: &mut [bool]) {
    let [first, behind @ ..] = steps else {
        return;
    };
    let Some(opening) = opening_of(first) else {
        return;
    };
    if at_end(opening, behind).is_settled() {
        if let Some(mark) = own.get_mut(first.place) {
            *mark = true;
        }
        mark_own(opening, behind, own);
    }
}

/// Events with their replies as steps, each at its place.
fn steps_of<A: Allocator>(
    alloc: A,
    events: &[Event],
    replies: &[Reply],
) -> Result<Vec<StepAt, A>, AllocError> {
    let mut steps = Vec::new(alloc);
    for (event, reply) in events.iter().zip(replies.iter()) {
        steps.push(StepAt {
            place: steps.len(),
            event: *event,
            reply: *reply,
        })?;
    }
    Ok(steps)
}

/// The places of what isn't marked.
fn unmarked<A: Allocator>(alloc: A, marks: &[bool]) -> Result<Vec<usize, A>, AllocError> {
    let mut places = Vec::new(alloc);
    for (place, is_marked) in marks.iter().enumerate() {
        if !*is_marked {
            places.push(place)?;
        }
    }
    Ok(places)
}

/// The places of the events that stay without all attempts that were undone and are settled, by the replies to all events.
pub fn kept_places<A: Allocator + Copy>(
    alloc: A,
    events: &[Event],
    replies: &[Reply],
) -> Result<Vec<usize, A>, AllocError> {
    let steps = steps_of(alloc, events, replies)?;
    let mut own = Vec::new(alloc);
    for _ in 0..steps.len() {
        own.push(false)?;
    }
    let mut rest = steps.as_slice();
    while let [_, behind @ ..] = rest {
        mark_settled(rest, &mut own);
        rest = behind;
    }
    unmarked(alloc, &own)
}
