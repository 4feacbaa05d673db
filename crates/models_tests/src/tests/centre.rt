//! A simulated switching centre: what comes of each course, also where memory is refused. All octets are worked out by hand
//! from TS 48.008 clause 3.2.
use super::{holds_at, moves};
use cell_table::Site;
use msc_model::{Centre, CentreOut};
use refusing_heap::RefusingHeap;
use sample_sites::{PEER, THREE_CHANNELS};
use std::alloc::{AllocError, Allocator, Global};
use std::process::Abort;
use std::sync::Arc;
use std::test::Fail;

/// What is done: octets that a controller sends for a call, or the centre hangs up a call of a controller.
#[derive(Clone, Copy, Debug)]
pub(super) enum Ask {
    Send(usize, u16, &'static [u8]),
    HangUp(usize, u16),
}

use Ask::{HangUp, Send};

/// A message from the centre: its controller and call, and the octets.
pub(super) type Out = (usize, u16, &'static [u8]);

/// What is done, and all that comes of it.
pub(super) type Row = (Ask, &'static [Out]);

/// What is played in a new centre between so many controllers, and how many requests for memory it takes at least: one for
/// each message that comes.
pub(super) struct Course {
    pub(super) controllers: usize,
    pub(super) rows: &'static [Row],
    pub(super) least: u64,
}

/// The site of the third: cells 200 and 102 in location area 24.
const FAR: &str = "[handover]
window = 2
margin = 3
minimum = 10
[[cell]]
lac = 24
ci = 200
bcch = 70
ncc = 4
bcc = 1
power = 7
ba = []
trx = [{ arfcn = 70, tch = [1] }]
[[cell]]
lac = 24
ci = 102
bcch = 71
ncc = 4
bcc = 2
power = 7
ba = []
trx = [{ arfcn = 71, tch = [1] }]
";

/// Of the first, the second and the third controller: the second has cell 102 in location area 23, the first cells 100 and 101
/// there.
const SITES: &[&str] = &[THREE_CHANNELS, PEER, FAR];

// HANDOVER REQUIRED, cause 'better cell', for cell 102 and for cell 101, with a response asked for.
pub(super) const REQUIRED_102: &[u8] = b"\x00\x0c\x11\x04\x01\x0c\x1b\x1a\x05\x01\x00\x17\x00\x66";

pub(super) const REQUIRED_101: &[u8] = b"\x00\x0c\x11\x04\x01\x0c\x1b\x1a\x05\x01\x00\x17\x00\x65";

// HANDOVER REQUEST from cell 100 to cell 102, and from 102 to 101.
pub(super) const REQUEST_102: &[u8] =
    b"\x00\x19\x10\x0b\x03\x01\x08\x01\x0a\x01\x01\x1d\x33\x05\x05\x01\x00\x17\x00\x64\x05\x05\x01\x00\x17\x00\x66";

pub(super) const REQUEST_101: &[u8] =
    b"\x00\x19\x10\x0b\x03\x01\x08\x01\x0a\x01\x01\x1d\x33\x05\x05\x01\x00\x17\x00\x66\x05\x05\x01\x00\x17\x00\x65";

// HANDOVER REQUIRED REJECT, cause 'no radio resource available'.
pub(super) const REJECT_21: &[u8] = b"\x00\x04\x1a\x04\x01\x21";

// HANDOVER REQUEST ACKNOWLEDGE and HANDOVER COMMAND with one radio resource message.
pub(super) const ACK: &[u8] = b"\x00\x0c\x12\x17\x09\x06\x2b\xd5\x67\x0b\xa3\x6b\x00\x05";

pub(super) const COMMAND: &[u8] = b"\x00\x0c\x13\x17\x09\x06\x2b\xd5\x67\x0b\xa3\x6b\x00\x05";

pub(super) const DETECT: &[u8] = b"\x00\x01\x1b";

pub(super) const COMPLETE: &[u8] = b"\x00\x03\x14\x15\x00";

// HANDOVER FAILURE: 'ciphering algorithm not supported', and 'reversion to old channel' with an RR cause.
pub(super) const FAILURE_40: &[u8] = b"\x00\x04\x16\x04\x01\x40";

pub(super) const FAILURE_0A: &[u8] = b"\x00\x06\x16\x04\x01\x0a\x15\x00";

const REJECT_40: &[u8] = b"\x00\x04\x1a\x04\x01\x40";

// CLEAR REQUEST, 'radio interface failure', and CLEAR COMMANDs.
pub(super) const CLEAR_REQUEST: &[u8] = b"\x00\x04\x22\x04\x01\x01";

pub(super) const CLEAR_01: &[u8] = b"\x00\x04\x20\x04\x01\x01";

pub(super) const CLEAR_09: &[u8] = b"\x00\x04\x20\x04\x01\x09";

const CLEAR_0A: &[u8] = b"\x00\x04\x20\x04\x01\x0a";

pub(super) const CLEAR_0B: &[u8] = b"\x00\x04\x20\x04\x01\x0b";

pub(super) const CLEARED: &[u8] = b"\x00\x01\x21";

/// The first so many sites.
fn sites_of<A: Allocator + Copy>(
    alloc: A,
    scratch: Global,
    controllers: usize,
) -> Result<Vec<Arc<Site<A>, A>, A>, Fail> {
    let mut sites = Vec::new(alloc);
    for text in SITES.iter().take(controllers) {
        let site = Site::read(alloc, scratch, text)?;
        sites.push(Arc::new(alloc, site)?)?;
    }
    Ok(sites)
}

fn put<A: Allocator + Copy>(
    centre: &mut Centre<A>,
    asked: Ask,
) -> Result<Vec<CentreOut<A>, A>, AllocError> {
    match asked {
        Send(controller, call, octets) => centre.step(controller, call, octets),
        HangUp(controller, call) => centre.hangup(controller, call),
    }
}

/// The message is this one.
fn is_out<A: Allocator + Copy>(out: &CentreOut<A>, wanted: &Out) -> bool {
    let (controller, call, octets) = *wanted;
    out.controller == controller && out.call == call && out.bytes.as_slice() == octets
}

/// The messages are these.
fn hold_outs<A: Allocator + Copy>(
    rt: &impl Abort,
    asked: Ask,
    outs: &[CentreOut<A>],
    wanted: &[Out],
) {
    holds_at(rt, outs.len() == wanted.len(), asked);
    for (out, wanted) in outs.iter().zip(wanted) {
        holds_at(rt, is_out(out, wanted), asked);
    }
}

// Each answer of the centre, and messages that take no memory.
const COURSE: &[Row] = &[
    (Send(0, 1, REQUIRED_102), &[(1, 40000, REQUEST_102)]),
    (Send(1, 40000, ACK), &[(0, 1, COMMAND)]),
    (Send(1, 40000, DETECT), &[]),
    (Send(1, 40000, COMPLETE), &[(0, 1, CLEAR_0B)]),
    (Send(1, 40000, COMPLETE), &[]),
    (Send(1, 40000, ACK), &[]),
    (Send(0, 1, REQUIRED_101), &[(0, 1, REJECT_21)]),
    (Send(1, 7, REQUIRED_101), &[(0, 40000, REQUEST_101)]),
    (Send(0, 40000, FAILURE_40), &[(1, 7, REJECT_40)]),
    (Send(1, 7, REQUIRED_101), &[(0, 40001, REQUEST_101)]),
    (Send(1, 7, FAILURE_0A), &[(0, 40001, CLEAR_0A)]),
    (Send(1, 7, FAILURE_0A), &[]),
    (Send(0, 2, REQUIRED_102), &[(1, 40001, REQUEST_102)]),
    (
        Send(0, 2, CLEAR_REQUEST),
        &[(0, 2, CLEAR_01), (1, 40001, CLEAR_01)],
    ),
    (HangUp(0, 2), &[(0, 2, CLEAR_09)]),
    (Send(0, 2, b"\x00\x03\x22\x04\x00"), &[]),
];

/// All courses.
const COURSES: &[Course] = &[
    // each of the thirteen messages takes some, and so do joins, the calls that have stood in one, and the list of cells
    Course {
        controllers: 2,
        rows: COURSE,
        least: 29,
    },
    moves::MOVED,
    moves::TO_FIRST_CELLS,
    moves::TO_A_THIRD,
    moves::BETWEEN_ONE,
    moves::BETWEEN_NONE,
];

/// Asks one row: the answer is an allocation failure exactly where memory was refused. Asked again, the centre, which is as
/// it was, gives what the row says.
fn asks(rt: &impl Abort, heap: &RefusingHeap, centre: &mut Centre<&RefusingHeap>, row: &Row) {
    let (asked, wanted) = *row;
    let before = heap.refused();
    let mut answer = put(centre, asked);
    let is_refused = before < heap.refused();
    holds_at(rt, answer.is_err() == is_refused, asked);
    if is_refused {
        answer = put(centre, asked);
    }
    let outs = answer.expect(rt, "memory");
    hold_outs(rt, asked, outs.as_slice(), wanted);
}

/// Asks all rows in a new centre, unless that is refused its memory.
fn asks_all(
    rt: &impl Abort,
    heap: &RefusingHeap,
    made: Result<Centre<&RefusingHeap>, AllocError>,
    course: &Course,
) {
    holds_at(rt, made.is_err() == heap.was_refused(), course.least);
    if let Ok(mut centre) = made {
        for row in course.rows {
            asks(rt, heap, &mut centre, row);
        }
    }
}

/// Plays a course with a heap that refuses the n-th request behind those that make the sites. Whether there was one.
fn meets_refusal(
    rt: &(impl AllocGlobal + Abort),
    course: &Course,
    made: u64,
    n: u64,
) -> Result<bool, Fail> {
    let heap = RefusingHeap::refusing_nth(rt.alloc(), made.saturating_add(n));
    let sites = sites_of(&heap, rt.alloc(), course.controllers)?;
    asks_all(rt, &heap, Centre::new(&heap, sites.as_slice()), course);
    Ok(heap.was_refused())
}

/// How many requests make so many sites.
fn requests_of_sites(rt: &impl AllocGlobal, controllers: usize) -> Result<u64, Fail> {
    let heap = RefusingHeap::ample(rt.alloc());
    let _sites = sites_of(&heap, rt.alloc(), controllers)?;
    Ok(heap.requests())
}

/// Each request of a course is refused in turn, until one meets no refusal.
fn meets_each_refusal(rt: &(impl AllocGlobal + Abort), course: &Course) -> Result<(), Fail> {
    let made = requests_of_sites(rt, course.controllers)?;
    let mut refused = 0u64;
    for n in 1..200 {
        if !meets_refusal(rt, course, made, n)? {
            break;
        }
        refused = n;
    }
    holds_at(rt, course.least <= refused && refused < 199, refused);
    Ok(())
}

#[test]
fn each_row_comes_also_behind_a_refusal_of_memory(rt: HostRuntime) -> Result<(), Fail> {
    for course in COURSES {
        meets_each_refusal(&rt, course)?;
    }
    Ok(())
}
