//! Courses in which a station restarts, worked out by hand from TS 48.058 clauses 4.10, 8 and 9.
use super::stations::Ask::{Restarts, Send, Set};
use super::stations::{
    ACK, ACK_2, ACTIVATE, ACTIVATE_2, ACTIVATE_42, COMMAND, COMPLETE, Course, DETECTION, RELEASE,
    RELEASED, Row,
};
use bts_model::{Act, Habit, Held};
use sample_sites::{HOME, TARGET};

// CONNECTION FAILURE INDICATION of timeslots 3 and 2 with cause 20, 'equipment failure'.
const FAILED: &[u8] = b"\x08\x24\x01\x0b\x1a\x01\x20";

const FAILED_2: &[u8] = b"\x08\x24\x01\x0a\x1a\x01\x20";

// What was asked about its channels is forgotten: a refusal, a hold that waits and one that has kept an answer, what mobiles do,
// and what befalls the next answer.
const FORGETS: &[Row] = &[
    (Restarts(0, 0, None), &[]),
    (Set(0, HOME, Act::Refuse), &[]),
    (Set(0, HOME, Act::Mobile(Habit::Vanish)), &[]),
    (Restarts(0, 0, None), &[]),
    (Set(0, HOME, Act::Hold(Held::Acknowledgement)), &[]),
    (Set(0, HOME, Act::Hold(Held::Acknowledgement)), &[]),
    (Send(0, 0, 0, ACTIVATE), &[]),
    (Set(0, HOME, Act::Double), &[]),
    (Restarts(0, 0, None), &[(0, 0, 0, FAILED)]),
    (Set(0, HOME, Act::Release), &[]),
    (Send(0, 0, 0, RELEASE), &[(0, 0, 0, RELEASED)]),
    (Send(0, 0, 0, ACTIVATE), &[(0, 0, 0, ACK)]),
    (Send(0, 1, 1, ACTIVATE_42), &[(0, 1, 1, ACK)]),
    (
        Send(0, 0, 0, COMMAND),
        &[(0, 1, 1, DETECTION), (0, 1, 1, COMPLETE)],
    ),
];

/// Each message takes some memory.
pub(super) const FORGOTTEN: Course = Course {
    controllers: 1,
    rows: FORGETS,
    least: 6,
};

// Only the station that is named restarts: not that of another controller, cell or TRX. Its channels fail by timeslot, and are
// inactive then. One that the world lacks is passed over.
const ONE: &[Row] = &[
    (Send(0, 0, 0, ACTIVATE), &[(0, 0, 0, ACK)]),
    (Send(0, 0, 0, ACTIVATE_2), &[(0, 0, 0, ACK_2)]),
    (Send(0, 1, 1, ACTIVATE_42), &[(0, 1, 1, ACK)]),
    (Send(1, 0, 0, ACTIVATE), &[(1, 0, 0, ACK)]),
    (Set(0, TARGET, Act::Hold(Held::Acknowledgement)), &[]),
    (Restarts(0, 1, Some(0)), &[]),
    (Restarts(0, 0, Some(1)), &[]),
    (Restarts(0, 2, None), &[]),
    (Restarts(2, 0, None), &[]),
    (
        Restarts(0, 0, Some(0)),
        &[(0, 0, 0, FAILED_2), (0, 0, 0, FAILED)],
    ),
    (Restarts(0, 0, None), &[]),
    (Send(0, 1, 1, RELEASE), &[]),
    (Set(0, TARGET, Act::Release), &[(0, 1, 1, RELEASED)]),
    (Restarts(1, 0, None), &[(1, 0, 0, FAILED)]),
    (Send(0, 0, 0, ACTIVATE), &[(0, 0, 0, ACK)]),
];

/// The same.
pub(super) const OF_ONE: Course = Course {
    controllers: 2,
    rows: ONE,
    least: 9,
};
