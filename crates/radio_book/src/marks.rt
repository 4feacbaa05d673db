//! Which events stay of a list without an attempt that was undone, and which of them were refused for what it held.
ghost use Rattle.std.specs.Prelude.{◌≡◌, Err, IfOk, OnOk};
ghost use Rattle.radio_book.specs.Undone.{Undone, IsUndoneAt, OpensUndone, others, places_of, is_settled, held_refusals};

use crate::book::Book;
use crate::event::Event;
use crate::marked::Marks;
use crate::remainder::remainder_at;
use crate::rewind::RewindFault;
use crate::run::run;
use crate::steps::{places_of, steps_of};
use std::alloc::Allocator;

/// Marks the events by the attempt whose opening stands at a place, counted from 0, and that was undone. They are asked of a
/// copy of the book, one after another.
///
/// `NoAttempt` where no undone attempt opens there, as at a place past the end.
pub fn marks<A: Allocator + Copy>(
    alloc: A,
    book: &Book<A>,
    events: &[Event],
    at: usize,
) -> Result<Marks<A>, RewindFault>
    ensures attempt { OnOk result (OpensUndone book.now events.now at) }
    ensures no_attempt { result ≡ Err RewindFault.NoAttempt →
        OpensUndone book.now events.now at → ⊥ }
    ensures others { IfOk result (λ marks. (u : Undone) →
        IsUndoneAt book.now events.now at u → marks.others.items ≡ places_of (others u)) }
    ensures settled { IfOk result (λ marks. (u : Undone) →
        IsUndoneAt book.now events.now at u → marks.settled ≡ is_settled u) }
    ensures held { IfOk result (λ marks. (u : Undone) →
        IsUndoneAt book.now events.now at u → marks.held.items ≡ places_of (held_refusals u)) }
{
    book.sound();
    let (_, replies) = run(alloc, book, events)?;
    let steps = steps_of(alloc, events, &replies)?;
    let Some(remainder) = remainder_at(alloc, &steps, at)? else {
        return Err(RewindFault::NoAttempt);
    };
    let others = places_of(alloc, &remainder.kept)?;
    let held = places_of(alloc, &remainder.held)?;
    Ok(Marks {
        others,
        settled: remainder.settled,
        held,
    })
}
