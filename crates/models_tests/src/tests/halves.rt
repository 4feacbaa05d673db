//! Courses through a simulated world whose timeslots carry half-rate channels: a timeslot is whole, or two halves. In channel
//! numbers (TS 48.058 clause 9.3.1) and channel descriptions (TS 44.018 clause 10.5.2.5a) timeslot 3 is 0b at full rate,
//! and 13 and 1b at half rate.
use super::stations::Ask::{Send, Set};
use super::stations::{
    ACK, ACK_2, ACTIVATE, ACTIVATE_2, ACTIVATE_42, COMMAND, COMPLETE, Course, DETECTION, FAILURE,
    NACK, Out, RELEASE, RELEASED, Row,
};
use bts_model::{Act, Habit, Held};
use channel_fsm::{ChanId, Sub};
use sample_sites::{HOME, UPPER};

// The lower half of the first cell's channel.
const HALF_0: ChanId = ChanId {
    sub: Sub::Half0,
    ..HOME
};

const ACTIVATE_HALF_0: &[u8] = b"\x08\x21\x01\x13\x03\x00\x06\x04\x00\x01\x09\x01";

const ACTIVATE_HALF_1: &[u8] = b"\x08\x21\x01\x1b\x03\x00\x06\x04\x00\x01\x09\x01";

const ACK_HALF_0: &[u8] = b"\x08\x22\x01\x13\x08\x00\x00";

const ACK_HALF_1: &[u8] = b"\x08\x22\x01\x1b\x08\x00\x00";

const NACK_HALF_0: &[u8] = b"\x08\x23\x01\x13\x1a\x01\x20";

const RELEASE_HALF_0: &[u8] = b"\x08\x2e\x01\x13";

const RELEASE_HALF_1: &[u8] = b"\x08\x2e\x01\x1b";

const RELEASED_HALF_0: &[u8] = b"\x08\x33\x01\x13";

const RELEASED_HALF_1: &[u8] = b"\x08\x33\x01\x1b";

const CONFLICTS: &[Row] = &[
    // the halves don't conflict, the whole timeslot does with each; other timeslots don't count
    (Send(0, 0, 0, ACTIVATE_HALF_0), &[(0, 0, 0, ACK_HALF_0)]),
    (Send(0, 0, 0, ACTIVATE_HALF_1), &[(0, 0, 0, ACK_HALF_1)]),
    (Send(0, 0, 0, ACTIVATE), &[(0, 0, 0, NACK)]),
    (Send(0, 0, 0, ACTIVATE_HALF_0), &[(0, 0, 0, NACK_HALF_0)]),
    (Send(0, 0, 0, ACTIVATE_2), &[(0, 0, 0, ACK_2)]),
    (Send(0, 1, 1, ACTIVATE_42), &[(0, 1, 1, ACK)]),
    (Send(1, 0, 0, ACTIVATE), &[(1, 0, 0, ACK)]),
    // a refusal of the whole timeslot isn't used up while a half is active
    (Set(0, HOME, Act::Refuse), &[]),
    (Send(0, 0, 0, ACTIVATE), &[(0, 0, 0, NACK)]),
    (Send(0, 0, 0, RELEASE_HALF_0), &[(0, 0, 0, RELEASED_HALF_0)]),
    (Send(0, 0, 0, ACTIVATE), &[(0, 0, 0, NACK)]),
    (Send(0, 0, 0, RELEASE_HALF_1), &[(0, 0, 0, RELEASED_HALF_1)]),
    (Send(0, 0, 0, ACTIVATE), &[(0, 0, 0, NACK)]),
    (Send(0, 0, 0, ACTIVATE), &[(0, 0, 0, ACK)]),
    // nor that of a half while the whole timeslot is
    (Set(0, HALF_0, Act::Refuse), &[]),
    (Send(0, 0, 0, ACTIVATE_HALF_0), &[(0, 0, 0, NACK_HALF_0)]),
    (Send(0, 0, 0, RELEASE), &[(0, 0, 0, RELEASED)]),
    (Send(0, 0, 0, ACTIVATE_HALF_1), &[(0, 0, 0, ACK_HALF_1)]),
    (Send(0, 0, 0, ACTIVATE_HALF_0), &[(0, 0, 0, NACK_HALF_0)]),
    (Send(0, 0, 0, ACTIVATE_HALF_0), &[(0, 0, 0, ACK_HALF_0)]),
    // holds and what befalls an answer are a channel's own
    (Set(0, HALF_0, Act::Hold(Held::Acknowledgement)), &[]),
    (Set(0, HALF_0, Act::Double), &[]),
    (Send(0, 0, 0, RELEASE_HALF_1), &[(0, 0, 0, RELEASED_HALF_1)]),
    (Send(0, 0, 0, RELEASE_HALF_0), &[]),
    (Set(0, HOME, Act::Release), &[]),
    (
        Set(0, HALF_0, Act::Release),
        &[(0, 0, 0, RELEASED_HALF_0), (0, 0, 0, RELEASED_HALF_0)],
    ),
];

/// A timeslot is whole or two halves.
pub(super) const ACTIVATED: Course = Course {
    controllers: 2,
    rows: CONFLICTS,
    least: 21,
};

// The target's halves for a handover with reference 42.
const ACTIVATE_HALF_0_42: &[u8] = b"\x08\x21\x01\x13\x03\x02\x06\x04\x00\x01\x09\x01\x09\x2a";

const ACTIVATE_HALF_1_42: &[u8] = b"\x08\x21\x01\x1b\x03\x02\x06\x04\x00\x01\x09\x01\x09\x2a";

// HANDOVER COMMAND to half 1 of the target: on the whole timeslot 3, and on half 0 of it.
const COMMAND_TO_HALF_1: &[u8] =
    b"\x03\x01\x01\x0b\x02\x00\x0b\x00\x09\x06\x2b\xd5\x67\x1b\xa3\x6b\x2a\x05";

const COMMAND_ON_HALF_0: &[u8] =
    b"\x03\x01\x01\x13\x02\x00\x0b\x00\x09\x06\x2b\xd5\x67\x1b\xa3\x6b\x2a\x05";

const FAILURE_ON_HALF_0: &[u8] = b"\x03\x02\x01\x13\x02\x00\x0b\x00\x03\x06\x28\x01";

const ARRIVAL_ON_HALF_1: &[Out] = &[
    (0, 1, 1, b"\x08\x27\x01\x1b\x11\x00"),
    (0, 1, 1, b"\x03\x02\x01\x1b\x02\x00\x0b\x00\x03\x06\x2c\x00"),
];

const MOVES: &[Row] = &[
    (Send(0, 0, 0, ACTIVATE), &[(0, 0, 0, ACK)]),
    // the whole timeslot is active with the reference, and not the half
    (Send(0, 1, 1, ACTIVATE_42), &[(0, 1, 1, ACK)]),
    (Send(0, 0, 0, COMMAND_TO_HALF_1), &[(0, 0, 0, FAILURE)]),
    (
        Send(0, 0, 0, COMMAND),
        &[(0, 1, 1, DETECTION), (0, 1, 1, COMPLETE)],
    ),
    (Send(0, 1, 1, RELEASE), &[(0, 1, 1, RELEASED)]),
    // the other half is, and then the half itself
    (Send(0, 1, 1, ACTIVATE_HALF_0_42), &[(0, 1, 1, ACK_HALF_0)]),
    (Send(0, 0, 0, COMMAND_TO_HALF_1), &[(0, 0, 0, FAILURE)]),
    (Send(0, 0, 0, COMMAND), &[(0, 0, 0, FAILURE)]),
    (Send(0, 1, 1, ACTIVATE_HALF_1_42), &[(0, 1, 1, ACK_HALF_1)]),
    (Send(0, 0, 0, COMMAND_TO_HALF_1), ARRIVAL_ON_HALF_1),
    // a mobile on a half
    (Send(0, 0, 0, COMMAND_ON_HALF_0), &[]),
    (Send(0, 0, 0, RELEASE), &[(0, 0, 0, RELEASED)]),
    (Send(0, 0, 0, ACTIVATE_HALF_0), &[(0, 0, 0, ACK_HALF_0)]),
    (Send(0, 0, 0, COMMAND_ON_HALF_0), ARRIVAL_ON_HALF_1),
    // a habit is of one half
    (Set(0, UPPER, Act::Mobile(Habit::Return)), &[]),
    (Set(0, HOME, Act::Mobile(Habit::Return)), &[]),
    (Send(0, 0, 0, COMMAND_ON_HALF_0), ARRIVAL_ON_HALF_1),
    (Set(0, HALF_0, Act::Mobile(Habit::Return)), &[]),
    (
        Send(0, 0, 0, COMMAND_ON_HALF_0),
        &[(0, 0, 0, FAILURE_ON_HALF_0)],
    ),
];

/// A mobile goes to the half that it is sent to.
pub(super) const MOVED: Course = Course {
    controllers: 1,
    rows: MOVES,
    least: 19,
};
