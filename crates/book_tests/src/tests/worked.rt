//! Courses that a person worked out by the table of the book, asked of both kinds of tables.
use super::both_tables::{Sound, dense, trees};
use super::{ACTIVATE, COMMAND, CONFIRM, RELEASED, RESERVE, TAKE, UNDO, equals_at, holds};
use cell_table::Site;
use channel_fsm::ChanState::On;
use radio_book::event::Event::{Clear, Confirm, Look, Open, Refuse, Released, Reserve, Take};
use radio_book::event::Kind::Incoming;
use radio_book::event::Refusal::{ChannelBusy, RefBusy, Unexpected};
use radio_book::event::Reply::{Done, Owned, Record, Refused};
use radio_book::event::{Attempt, AttemptKind, CallRecord, Event, Reply, Stage};
use radio_tables::tables::CopyTables;
use sample_sites::{HOME, OTHER, TARGET, THREE_CHANNELS};
use std::alloc::{AllocError, Global};
use std::process::Abort;
use std::sync::Arc;
use std::test::Fail;

// What is asked, and what comes of it.
#[derive(Clone, Copy, Debug)]
enum Turn {
    Asked(Event, Reply),
    // The undo of the attempt of call 1, which shows it in this stage, with this reference.
    Undone(Stage, Option<u8>),
    // The number that is chosen for a call.
    Chosen(u16, u8),
}

use Turn::{Asked, Chosen, Undone};

// What is asked of tables in which nothing is in use, and how many channels, calls and references are in use then.
struct Course {
    turns: &'static [Turn],
    held: (usize, usize, usize),
}

const ONE_OPENS: Turn = Asked(Open(1, HOME), Done);

const ONE_IS_ON: Turn = Asked(Confirm(HOME), Owned(1));

const ONE_TAKES: Turn = Asked(TAKE, Done);

const ONE_RESERVES: Turn = Asked(RESERVE, Done);

const ONE_ACTIVATES: Turn = Asked(ACTIVATE, Done);

const UNEXPECTED: Reply = Refused(Unexpected(TARGET));

const AT_REST: Reply = Record(
    CallRecord {
        serving: Some(HOME),
        attempt: None,
    },
    Some(On(1)),
);

const COURSES: &[Course] = &[
    // a call begins and ends
    Course {
        turns: &[
            ONE_OPENS,
            ONE_IS_ON,
            Asked(Look(1), AT_REST),
            Asked(Look(1), AT_REST),
            Asked(Clear(1), Done),
            Asked(Released(HOME), Done),
        ],
        held: (0, 0, 0),
    },
    // a call begins between the steps of an attempt, which is undone
    Course {
        turns: &[
            ONE_OPENS,
            ONE_IS_ON,
            ONE_TAKES,
            ONE_RESERVES,
            ONE_ACTIVATES,
            Asked(CONFIRM, Owned(1)),
            Asked(Open(2, OTHER), Done),
            Asked(COMMAND, Done),
            Undone(Stage::Commanded, Some(0)),
            Asked(RELEASED, Done),
        ],
        held: (2, 2, 0),
    },
    // no release is awaited of a target that the station refused
    Course {
        turns: &[
            ONE_OPENS,
            ONE_IS_ON,
            ONE_TAKES,
            ONE_RESERVES,
            ONE_ACTIVATES,
            Asked(Refuse(TARGET), Owned(1)),
            Undone(Stage::Refused, Some(0)),
            Asked(Open(2, TARGET), Done),
        ],
        held: (2, 2, 0),
    },
    // an acknowledgement comes after the undo
    Course {
        turns: &[
            ONE_OPENS,
            ONE_IS_ON,
            ONE_TAKES,
            ONE_RESERVES,
            ONE_ACTIVATES,
            Undone(Stage::Sent, Some(0)),
            Asked(CONFIRM, UNEXPECTED),
            Asked(RELEASED, Done),
            Asked(RELEASED, UNEXPECTED),
        ],
        held: (1, 1, 0),
    },
    // a call is refused for the target
    Course {
        turns: &[
            ONE_OPENS,
            ONE_IS_ON,
            ONE_TAKES,
            Asked(Open(2, TARGET), Refused(ChannelBusy(TARGET))),
            Undone(Stage::Taken, None),
        ],
        held: (1, 1, 0),
    },
    // two calls come, and a reference that is in use is refused
    Course {
        turns: &[
            Asked(Take(8, Incoming, OTHER), Done),
            Asked(Take(9, Incoming, HOME), Done),
            Asked(Reserve(8, 5), Done),
            Asked(Reserve(9, 5), Refused(RefBusy(0, 5))),
            Chosen(9, 0),
            Asked(Reserve(9, 0), Done),
        ],
        held: (2, 2, 2),
    },
];

// Call 1 as it was before its undo.
fn undone(stage: Stage, reference: Option<u8>) -> Reply {
    let attempt = Attempt {
        kind: AttemptKind::Internal,
        stage,
        target: Some(TARGET),
        reference,
    };
    let before = CallRecord {
        serving: Some(HOME),
        attempt: Some(attempt),
    };
    Record(before, Some(On(1)))
}

// The tables answer as it was worked out.
fn answers<T: CopyTables>(
    rt: &impl Abort,
    tables: &mut Sound<T>,
    turn: Turn,
) -> Result<(), AllocError> {
    match turn {
        Asked(event, reply) => equals_at(rt, tables.step(event)?, reply, turn),
        Undone(stage, reference) => {
            equals_at(rt, tables.step(UNDO)?, undone(stage, reference), turn)
        }
        Chosen(call, number) => equals_at(rt, tables.chosen(call), number, turn),
    }
    Ok(())
}

// A copy answers what the tables answer behind it, which it leaves as they are.
fn answers_twice<T: CopyTables>(
    rt: &impl Abort,
    tables: &mut Sound<T>,
    turn: Turn,
) -> Result<(), AllocError> {
    answers(rt, &mut tables.copy()?, turn)?;
    answers(rt, tables, turn)
}

fn is_worked_out<T: CopyTables>(
    rt: &impl Abort,
    tables: &mut Sound<T>,
    course: &Course,
) -> Result<(), AllocError> {
    for turn in course.turns {
        answers_twice(rt, tables, *turn)?;
    }
    let (channels, calls, references) = course.held;
    let wanted = holds(channels, calls, references, 0);
    equals_at(rt, tables.usage(), wanted, course.turns);
    Ok(())
}

fn site_of(alloc: Global) -> Result<Arc<Site<Global>>, Fail> {
    let site = Site::read(alloc, alloc, THREE_CHANNELS)?;
    Ok(Arc::new(alloc, site)?)
}

fn both_answer(
    rt: &(impl AllocGlobal + Abort),
    site: &Arc<Site<Global>>,
    course: &Course,
) -> Result<(), AllocError> {
    is_worked_out(rt, &mut trees(rt.alloc(), site.clone()?), course)?;
    is_worked_out(rt, &mut dense(rt.alloc(), site.clone()?)?, course)
}

#[test]
fn both_kinds_of_tables_answer_worked_courses(rt: HostRuntime) -> Result<(), Fail> {
    let site = site_of(rt.alloc())?;
    for course in COURSES {
        both_answer(&rt, &site, course)?;
    }
    Ok(())
}
