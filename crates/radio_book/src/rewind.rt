//! An attempt that was undone, taken out of a list of events.
ghost use Rattle.std.specs.Prelude.{◌≡◌, true, map, slice_get, Some, None, Err, IfOk, OnOk};
ghost use Rattle.radio_book.specs.Run.{run_book, run_replies};
ghost use Rattle.radio_book.specs.Undone.{Undone, IsUndoneAt, OpensUndone, others, places_of, events_of, is_settled, first_held};

use crate::book::Book;
use crate::event::{Event, Reply};
use crate::remainder::remainder_at;
use crate::run::run;
use crate::steps::{events_of, first_place, places_of, steps_of};
use std::alloc::{AllocError, Allocator, Global};
use thiserror::Error;

/// A list of events with an attempt that was undone, and without it.
#[derive(Drop)]
pub struct Rewound<A: Allocator = Global> {
    /// The book after all events.
    pub whole: Book<A>,
    /// The replies to all events.
    pub whole_replies: Vec<Reply, A>,
    /// The book after the others alone.
    pub without: Book<A>,
    /// The replies to the others alone.
    pub without_replies: Vec<Reply, A>,
    /// Where the others stand among all events, upwards.
    pub others: Vec<usize, A>,
    /// No release of the attempt's channel is still awaited.
    pub settled: bool,
    /// Where the first of the others stands that was refused because the attempt's target was in the way, or because it had
    /// the reference.
    pub held: Option<usize>,
}

/// Why an attempt can't be taken out of a list of events.
#[derive(Clone, Copy, Debug, PartialEq, Eq, Error)]
pub enum RewindFault {
    /// No attempt that was undone opens at the place.
    #[error("no undone attempt")]
    NoAttempt,
    /// Memory was refused.
    #[error("out of memory")]
    NoMemory,
}

impl From<AllocError> for RewindFault {
    ghost use Rattle.std.specs.Prelude.{◌≡◌};
    ghost use Rattle.radio_book.specs.declared.rewind.RewindFault.TheVariants.{NoMemory};

    ghost from_gives = { λ _ fault. fault ≡ NoMemory };

    fn from(_: AllocError) -> RewindFault {
        RewindFault::NoMemory
    }
}

/// Takes out of a list of events the attempt whose opening stands at a place, counted from 0, and that was undone. The
/// events are asked of copies of the book, one after another: all of them, and those that stay without the attempt. Where
/// the attempt is settled and no refusal is held, both come to one book, and the others got the same replies.
///
/// `NoAttempt` where no undone attempt opens there, as at a place past the end.
pub fn rewind<A: Allocator + Copy>(
    alloc: A,
    book: &Book<A>,
    events: &[Event],
    at: usize,
) -> Result<Rewound<A>, RewindFault>
    ensures attempt { OnOk result (OpensUndone book.now events.now at) }
    ensures no_attempt { result ≡ Err RewindFault.NoAttempt →
        OpensUndone book.now events.now at → ⊥ }
    ensures whole { IfOk result (λ rewound. rewound.whole ≡ run_book book.now events.now) }
    ensures whole_replies { IfOk result (λ rewound.
        rewound.whole_replies.items ≡ run_replies book.now events.now) }
    ensures others { IfOk result (λ rewound. (u : Undone) →
        IsUndoneAt book.now events.now at u → rewound.others.items ≡ places_of (others u)) }
    ensures without { IfOk result (λ rewound. (u : Undone) →
        IsUndoneAt book.now events.now at u →
        rewound.without ≡ run_book book.now (events_of (others u))) }
    ensures without_replies { IfOk result (λ rewound. (u : Undone) →
        IsUndoneAt book.now events.now at u →
        rewound.without_replies.items ≡ run_replies book.now (events_of (others u))) }
    ensures settled { IfOk result (λ rewound. (u : Undone) →
        IsUndoneAt book.now events.now at u → rewound.settled ≡ is_settled u) }
    ensures held { IfOk result (λ rewound. (u : Undone) →
        IsUndoneAt book.now events.now at u → rewound.held ≡ first_held u) }

    // A settled attempt leaves no trace where none of the others was refused for what it held.
    ensures no_trace { IfOk result (λ rewound. rewound.settled ≡ true → rewound.held ≡ None →
        (rewound.whole ≡ rewound.without) ×
        (map (slice_get rewound.whole_replies.items) rewound.others.items ≡
        map Some rewound.without_replies.items)) }
{
    book.sound();
    let (whole, whole_replies) = run(alloc, book, events)?;
    let steps = steps_of(alloc, events, &whole_replies)?;
    let Some(remainder) = remainder_at(alloc, &steps, at)? else {
        return Err(RewindFault::NoAttempt);
    };
    let kept = events_of(alloc, &remainder.kept)?;
    let others = places_of(alloc, &remainder.kept)?;
    let (without, without_replies) = run(alloc, book, &kept)?;
    Ok(Rewound {
        whole,
        whole_replies,
        without,
        without_replies,
        others,
        settled: remainder.settled,
        held: first_place(&remainder.held),
    })
}
