//! A simulated world: what comes of each course, also where memory is refused. All octets are worked out by hand from
//! TS 48.058 clauses 8 and 9 and TS 44.018 clauses 9 and 10.
use super::{courses, halves, holds_at, restarts};
use bts_model::{Act, Habit, Held, Restart, Setting, StationOut, World};
use cell_table::Site;
use channel_fsm::ChanId;
use refusing_heap::RefusingHeap;
use sample_sites::{HOME, TARGET, THREE_CHANNELS};
use std::alloc::{AllocError, Allocator, Global};
use std::process::Abort;
use std::sync::Arc;
use std::test::Fail;

/// What is done: octets that a controller sends a TRX of a cell, an act at a channel of a controller, or the restart of its
/// station in a cell, or of one TRX.
#[derive(Clone, Copy, Debug)]
pub(super) enum Ask {
    Send(usize, u8, u8, &'static [u8]),
    Set(usize, ChanId, Act),
    Restarts(usize, u8, Option<u8>),
}

use Ask::{Restarts, Send, Set};

/// A message from a station: its controller, cell and TRX, and the octets.
pub(super) type Out = (usize, u8, u8, &'static [u8]);

/// What is done, and all that comes of it.
pub(super) type Row = (Ask, &'static [Out]);

/// What is played in a new world of so many controllers, and how many requests for memory it takes at least: one for each
/// message that comes.
pub(super) struct Course {
    pub(super) controllers: usize,
    pub(super) rows: &'static [Row],
    pub(super) least: u64,
}

// CHANNEL ACTIVATION of timeslots 3 and 2, for an immediate assignment; and of timeslot 3 for a handover with reference 42.
pub(super) const ACTIVATE: &[u8] = b"\x08\x21\x01\x0b\x03\x00\x06\x04\x00\x01\x08\x01";

pub(super) const ACTIVATE_2: &[u8] = b"\x08\x21\x01\x0a\x03\x00\x06\x04\x00\x01\x08\x01";

pub(super) const ACTIVATE_42: &[u8] = b"\x08\x21\x01\x0b\x03\x02\x06\x04\x00\x01\x08\x01\x09\x2a";

// RF CHANNEL RELEASE of timeslot 3.
pub(super) const RELEASE: &[u8] = b"\x08\x2e\x01\x0b";

// What a station says of timeslots 3 and 2: CHANNEL ACTIVATION ACKNOWLEDGE with frame 0, NEGATIVE ACKNOWLEDGE with cause
// 20, RF CHANNEL RELEASE ACKNOWLEDGE.
pub(super) const ACK: &[u8] = b"\x08\x22\x01\x0b\x08\x00\x00";

pub(super) const ACK_2: &[u8] = b"\x08\x22\x01\x0a\x08\x00\x00";

pub(super) const NACK: &[u8] = b"\x08\x23\x01\x0b\x1a\x01\x20";

pub(super) const RELEASED: &[u8] = b"\x08\x33\x01\x0b";

// DATA REQUEST on timeslot 3 with a HANDOVER COMMAND to the target, reference 42.
pub(super) const COMMAND: &[u8] =
    b"\x03\x01\x01\x0b\x02\x00\x0b\x00\x09\x06\x2b\xd5\x67\x0b\xa3\x6b\x2a\x05";

// HANDOVER DETECTION with delay 0, and DATA INDICATIONs with HANDOVER COMPLETE 0 and HANDOVER FAILURE 1, all of timeslot 3.
pub(super) const DETECTION: &[u8] = b"\x08\x27\x01\x0b\x11\x00";

pub(super) const COMPLETE: &[u8] = b"\x03\x02\x01\x0b\x02\x00\x0b\x00\x03\x06\x2c\x00";

pub(super) const FAILURE: &[u8] = b"\x03\x02\x01\x0b\x02\x00\x0b\x00\x03\x06\x28\x01";

/// The site of each controller.
fn site_of<A: Allocator + Copy>(alloc: A, scratch: Global) -> Result<Arc<Site<A>, A>, Fail> {
    let site = Site::read(alloc, scratch, THREE_CHANNELS)?;
    Ok(Arc::new(alloc, site)?)
}

/// So many controllers with one site.
fn sites_of<A: Allocator + Copy>(
    alloc: A,
    site: &Arc<Site<A>, A>,
    controllers: usize,
) -> Result<Vec<Arc<Site<A>, A>, A>, AllocError> {
    let mut sites = Vec::new(alloc);
    for _ in 0..controllers {
        sites.push(site.clone()?)?;
    }
    Ok(sites)
}

/// The world of controllers that all have the same site.
fn world_of<A: Allocator + Copy>(
    alloc: A,
    site: &Arc<Site<A>, A>,
    controllers: usize,
) -> Result<World<A>, AllocError> {
    let sites = sites_of(alloc, site, controllers)?;
    World::new(alloc, sites.as_slice())
}

fn put<A: Allocator + Copy>(
    world: &mut World<A>,
    asked: Ask,
) -> Result<Vec<StationOut<A>, A>, AllocError> {
    match asked {
        Send(controller, cell, trx, octets) => world.step(controller, cell, trx, octets),
        Set(controller, chan, act) => world.set(Setting::of(controller, chan, act)),
        Restarts(controller, cell, trx) => world.restart(Restart {
            controller,
            cell,
            trx,
        }),
    }
}

/// The message is this one.
fn is_out<A: Allocator + Copy>(out: &StationOut<A>, wanted: &Out) -> bool {
    let (controller, cell, trx, octets) = *wanted;
    let is_there = out.controller == controller && out.cell == cell && out.trx == trx;
    is_there && out.bytes.as_slice() == octets
}

/// The messages are these.
fn hold_outs<A: Allocator + Copy>(
    rt: &impl Abort,
    asked: Ask,
    outs: &[StationOut<A>],
    wanted: &[Out],
) {
    holds_at(rt, outs.len() == wanted.len(), asked);
    for (out, wanted) in outs.iter().zip(wanted) {
        holds_at(rt, is_out(out, wanted), asked);
    }
}

// Each kind of answer, and each act.
const COURSE: &[Row] = &[
    (Set(0, HOME, Act::Refuse), &[]),
    (Send(0, 0, 0, ACTIVATE), &[(0, 0, 0, NACK)]),
    (Send(0, 0, 0, ACTIVATE), &[(0, 0, 0, ACK)]),
    (Send(0, 0, 0, COMMAND), &[(0, 0, 0, FAILURE)]),
    (Set(0, TARGET, Act::Hold(Held::Acknowledgement)), &[]),
    (Send(0, 1, 1, ACTIVATE_42), &[]),
    (
        Send(0, 0, 0, COMMAND),
        &[(0, 1, 1, DETECTION), (0, 1, 1, COMPLETE)],
    ),
    (Set(0, TARGET, Act::Hold(Held::Acknowledgement)), &[]),
    (Send(0, 1, 1, RELEASE), &[]),
    (
        Set(0, TARGET, Act::Release),
        &[(0, 1, 1, ACK), (0, 1, 1, RELEASED)],
    ),
    (Set(1, HOME, Act::Mobile(Habit::Return)), &[]),
    (Send(1, 0, 0, ACTIVATE), &[(1, 0, 0, ACK)]),
    (Send(1, 0, 0, COMMAND), &[(1, 0, 0, FAILURE)]),
    (Send(0, 0, 0, RELEASE), &[(0, 0, 0, RELEASED)]),
    (Send(0, 0, 0, b"\x08\x2e\x01"), &[]),
    (Set(0, HOME, Act::Cut(7)), &[]),
    (Set(0, HOME, Act::Double), &[]),
    (Send(0, 0, 0, ACTIVATE), &[(0, 0, 0, ACK), (0, 0, 0, ACK)]),
    (Send(0, 1, 1, ACTIVATE_42), &[(0, 1, 1, ACK)]),
    (Set(0, TARGET, Act::Double), &[]),
    (
        Send(0, 0, 0, COMMAND),
        &[
            (0, 1, 1, DETECTION),
            (0, 1, 1, DETECTION),
            (0, 1, 1, COMPLETE),
        ],
    ),
];

/// All courses in which no station restarts.
const COURSES: &[Course] = &[
    // each message takes some, and so do what is known of three channels, the holds, and the world itself
    Course {
        controllers: 2,
        rows: COURSE,
        least: 27,
    },
    courses::ACTIVATED,
    courses::OF_NOBODY,
    courses::MOVED,
    courses::OF_TWO,
    halves::ACTIVATED,
    halves::MOVED,
];

/// All courses in which a station restarts.
const RESTARTS: &[Course] = &[restarts::FORGOTTEN, restarts::OF_ONE];

/// Asks one row: the answer is an allocation failure exactly where memory was refused. Asked again, the world, which is as
/// it was, gives what the row says.
fn asks(rt: &impl Abort, heap: &RefusingHeap, world: &mut World<&RefusingHeap>, row: &Row) {
    let (asked, wanted) = *row;
    let before = heap.refused();
    let mut answer = put(world, asked);
    let is_refused = before < heap.refused();
    holds_at(rt, answer.is_err() == is_refused, asked);
    if is_refused {
        answer = put(world, asked);
    }
    let outs = answer.expect(rt, "memory");
    hold_outs(rt, asked, outs.as_slice(), wanted);
}

/// Asks all rows in a new world, unless that is refused its memory.
fn asks_all(
    rt: &impl Abort,
    heap: &RefusingHeap,
    made: Result<World<&RefusingHeap>, AllocError>,
    course: &Course,
) {
    holds_at(rt, made.is_err() == heap.was_refused(), course.least);
    if let Ok(mut world) = made {
        for row in course.rows {
            asks(rt, heap, &mut world, row);
        }
    }
}

/// Plays a course with a heap that refuses the n-th request behind those that make the site. Whether there was one.
fn meets_refusal(
    rt: &(impl AllocGlobal + Abort),
    course: &Course,
    made: u64,
    n: u64,
) -> Result<bool, Fail> {
    let heap = RefusingHeap::refusing_nth(rt.alloc(), made.saturating_add(n));
    let site = site_of(&heap, rt.alloc())?;
    asks_all(
        rt,
        &heap,
        world_of(&heap, &site, course.controllers),
        course,
    );
    Ok(heap.was_refused())
}

/// Each request of a course is refused in turn, until one meets no refusal.
fn meets_each_refusal(
    rt: &(impl AllocGlobal + Abort),
    course: &Course,
    made: u64,
) -> Result<(), Fail> {
    let mut refused = 0u64;
    for n in 1..200 {
        if !meets_refusal(rt, course, made, n)? {
            break;
        }
        refused = n;
    }
    holds_at(rt, course.least <= refused && refused < 199, refused);
    Ok(())
}

/// How many requests make the site.
fn requests_of_a_site(rt: &impl AllocGlobal) -> Result<u64, Fail> {
    let heap = RefusingHeap::ample(rt.alloc());
    let _site = site_of(&heap, rt.alloc())?;
    Ok(heap.requests())
}

#[test]
fn each_row_comes_also_behind_a_refusal_of_memory(rt: HostRuntime) -> Result<(), Fail> {
    let made = requests_of_a_site(&rt)?;
    for course in COURSES {
        meets_each_refusal(&rt, course, made)?;
    }
    Ok(())
}

#[test]
fn each_restart_comes_also_behind_a_refusal_of_memory(rt: HostRuntime) -> Result<(), Fail> {
    let made = requests_of_a_site(&rt)?;
    for course in RESTARTS {
        meets_each_refusal(&rt, course, made)?;
    }
    Ok(())
}
