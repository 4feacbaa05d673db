//! Which openings in a list are undone, what is left out of the list with them, and which refusals are held.
use super::{
    ACTIVATE, CONFIRM, RELEASED, RESERVE, STEADY, TAKE, UNDO, all_but, at_a_new_book, at_places,
    equals_at, holds_at, step_all,
};
use radio_book::book::Book;
use radio_book::event::Event;
use radio_book::event::Event::{
    Activate, Command, Complete, Confirm, Left, Open, Order, Owner, Refuse, Released, Require,
    Reserve, Take, Undo,
};
use radio_book::event::Kind::{Incoming, Internal};
use radio_book::event::Timer::T8;
use radio_book::event::Why::{Asked, Expired};
use radio_book::rewind::{RewindFault, Rewound, rewind};
use sample_sites::{HALVED, LOWER, OTHER, TARGET, THREE_CHANNELS, UPPER, changed};
use std::alloc::{AllocError, Global};
use std::process::Abort;
use std::test::Fail;

const EVENTS: &[Event] = &[
    // 0: call 2 is refused for the target, and comes to it once the attempt is undone and its release awaited no more
    TAKE,
    Open(2, TARGET),
    UNDO,
    // 3
    TAKE,
    Reserve(1, 5),
    ACTIVATE,
    UNDO,
    Open(2, TARGET),
    CONFIRM,
    RELEASED,
    Open(2, TARGET),
    CONFIRM,
    // 12: refused
    TAKE,
    // 13: back by its timer
    Require(1),
    Order(1),
    Undo(1, Expired(T8)),
    // 16: completed
    Take(2, Internal, OTHER),
    Reserve(2, 0),
    Activate(2),
    Confirm(OTHER),
    Command(2),
    Complete(2),
    Undo(2, Asked),
    RELEASED,
    // 24: the release is awaited in the end, and call 2 leaves meanwhile
    TAKE,
    Require(2),
    Order(2),
    Left(2),
    RESERVE,
    ACTIVATE,
    UNDO,
    Open(3, TARGET),
    Owner(TARGET),
    Released(OTHER),
    // 34: call 8 comes, is forgotten, and comes again to the same channel and number
    Take(8, Incoming, OTHER),
    Reserve(8, 5),
    TAKE,
    Undo(8, Asked),
    Take(8, Incoming, OTHER),
    Reserve(8, 5),
    // 40: open to the end
    Require(1),
];

// No attempt opens here, or none that is undone: other events, a refused Take, one that was completed, one that left, two
// that are open, and places past the end.
const NONE: &[usize] = &[1, 2, 12, 16, 25, 36, 38, 40, 41, 99];

// The opening of an undone attempt, the places that are left out with it, whether no release is awaited, and the place of
// the first held refusal.
type Opening = (usize, &'static [usize], bool, Option<usize>);

const OPENINGS: &[Opening] = &[
    (0, &[0, 2], true, Some(1)),
    (3, &[3, 4, 5, 6, 8, 9], true, Some(7)),
    (13, &[13, 14, 15], true, None),
    (24, &[24, 28, 29, 30, 32], false, Some(31)),
    (34, &[34, 35, 37], true, None),
];

// Lists of events behind call 1 at rest, each with the attempt that opens first.
const WORKED: &[(&[Event], Opening)] = &[
    // a call begins between the steps of the attempt
    (
        &[
            TAKE,
            RESERVE,
            ACTIVATE,
            CONFIRM,
            Open(2, OTHER),
            Command(1),
            UNDO,
            RELEASED,
        ],
        (0, &[0, 1, 2, 3, 5, 6, 7], true, None),
    ),
    // a call begins on a target that the station refused
    (
        &[
            TAKE,
            RESERVE,
            ACTIVATE,
            Refuse(TARGET),
            UNDO,
            Open(2, TARGET),
        ],
        (0, &[0, 1, 2, 3, 4], true, None),
    ),
    // the station's confirmation comes too late
    (
        &[TAKE, RESERVE, ACTIVATE, UNDO, CONFIRM, RELEASED],
        (0, &[0, 1, 2, 3, 4, 5], true, None),
    ),
    // a call is refused for the target
    (&[TAKE, Open(2, TARGET), UNDO], (0, &[0, 2], true, Some(1))),
    // a call begins while the attempt asks another controller
    (
        &[Require(1), Open(2, OTHER), Order(1), UNDO],
        (0, &[0, 2, 3], true, None),
    ),
];

// The lower half of a timeslot is the target; the upper half is in the way of the whole timeslot, with and without the attempt.
const BESIDE: &[Event] = &[
    Take(1, Internal, LOWER),
    Open(2, UPPER),
    UNDO,
    Take(3, Incoming, TARGET),
];

fn finds_none(
    rt: &(impl AllocGlobal + Abort),
    book: &Book<Global>,
    events: &[Event],
    places: &[usize],
) {
    for at in places {
        let fault = rewind(rt.alloc(), book, events, *at).err();
        equals_at(rt, fault, Some(RewindFault::NoAttempt), (at, events));
    }
}

// Where no refusal is held and no release awaited, the book is the one without the attempt, and so are the replies.
fn leaves_no_trace(
    rt: &(impl AllocGlobal + Abort),
    rewound: &Rewound<Global>,
    at: usize,
) -> Result<(), AllocError> {
    let replies = at_places(rt.alloc(), &rewound.whole_replies, &rewound.others)?;
    let are_same = replies.as_slice() == rewound.without_replies.as_slice();
    holds_at(rt, are_same, (at, "the replies"));
    holds_at(rt, rewound.whole == rewound.without, (at, "the books"));
    Ok(())
}

fn is_taken_out(
    rt: &(impl AllocGlobal + Abort),
    rewound: &Rewound<Global>,
    others: &[usize],
    opening: Opening,
) -> Result<(), AllocError> {
    let (at, _, settled, held) = opening;
    equals_at(rt, rewound.settled, settled, (at, "settled"));
    equals_at(rt, rewound.held, held, (at, "held"));
    holds_at(rt, rewound.others.as_slice() == others, (at, "the others"));
    if settled && held.is_none() {
        leaves_no_trace(rt, rewound, at)
    } else {
        Ok(())
    }
}

fn rewinds(
    rt: &(impl AllocGlobal + Abort),
    book: &Book<Global>,
    events: &[Event],
    opening: Opening,
) -> Result<(), AllocError> {
    let (at, left_out, _, _) = opening;
    let others = all_but(rt.alloc(), events.len(), left_out)?;
    match rewind(rt.alloc(), book, events, at) {
        Ok(rewound) => is_taken_out(rt, &rewound, &others, opening),
        Err(fault) => panic!(rt; "{at}: {fault}"),
    }
}

fn each_is_found(
    rt: &(impl AllocGlobal + Abort),
    book: &mut Book<Global>,
    openings: &[Opening],
) -> Result<(), Fail> {
    step_all(book, STEADY)?;
    finds_none(rt, book, EVENTS, NONE);
    for opening in openings {
        rewinds(rt, book, EVENTS, *opening)?;
    }
    Ok(())
}

#[test]
fn undone_openings_and_held_refusals_are_found(rt: HostRuntime) -> Result<(), Fail> {
    at_a_new_book(&rt, THREE_CHANNELS, |rt, book| {
        each_is_found(rt, book, OPENINGS)
    })
}

fn each_worked_one_is_found(
    rt: &(impl AllocGlobal + Abort),
    book: &mut Book<Global>,
) -> Result<(), Fail> {
    step_all(book, STEADY)?;
    for (events, opening) in WORKED {
        rewinds(rt, book, *events, *opening)?;
    }
    Ok(())
}

#[test]
fn others_of_worked_attempts_are_listed(rt: HostRuntime) -> Result<(), Fail> {
    at_a_new_book(&rt, THREE_CHANNELS, |rt, book| {
        each_worked_one_is_found(rt, book)
    })
}

// A timeslot with halves counts as three channels, and as one while a half of it is held.
fn halves_are_apart(rt: &(impl AllocGlobal + Abort), book: &mut Book<Global>) -> Result<(), Fail> {
    step_all(book, STEADY)?;
    rewinds(rt, book, BESIDE, (0, &[0, 2], true, None))?;
    equals_at(rt, book.free_in(1), 3, "none is held");
    step_all(book, &[Take(1, Internal, LOWER)])?;
    equals_at(rt, book.free_in(1), 1, "a half is held");
    Ok(())
}

#[test]
fn halves_are_counted_and_left_to_others(rt: HostRuntime) -> Result<(), Fail> {
    let (whole, halved) = HALVED;
    let site = changed(rt.alloc(), THREE_CHANNELS, whole, halved)?.expect(&rt, whole);
    at_a_new_book(&rt, &site, |rt, book| halves_are_apart(rt, book))
}
