//! Courses through a simulated world: what is sent or set, and what comes back.
use super::stations::Ask::{Send, Set};
use super::stations::{
    ACK, ACK_2, ACTIVATE, ACTIVATE_2, ACTIVATE_42, COMMAND, COMPLETE, Course, DETECTION, FAILURE,
    NACK, Out, RELEASE, RELEASED, Row,
};
use bts_model::{Act, Habit, Held};
use channel_fsm::ChanId;
use sample_sites::{HOME, TARGET};

const ACTIVATIONS: &[Row] = &[
    // at first each channel is inactive, and its release is acknowledged
    (Send(0, 0, 0, RELEASE), &[(0, 0, 0, RELEASED)]),
    (Send(0, 0, 0, ACTIVATE), &[(0, 0, 0, ACK)]),
    // an active channel isn't activated again
    (Send(0, 0, 0, ACTIVATE_42), &[(0, 0, 0, NACK)]),
    // other timeslots, TRX, cells and controllers have channels of their own
    (Send(0, 0, 0, ACTIVATE_2), &[(0, 0, 0, ACK_2)]),
    (Send(0, 1, 1, ACTIVATE_42), &[(0, 1, 1, ACK)]),
    (Send(1, 0, 0, ACTIVATE), &[(1, 0, 0, ACK)]),
    // a released channel is inactive
    (Send(0, 0, 0, RELEASE), &[(0, 0, 0, RELEASED)]),
    (Send(0, 0, 0, ACTIVATE), &[(0, 0, 0, ACK)]),
    // a refusal is used up by the next activation of an inactive channel, and by nothing else
    (Set(0, HOME, Act::Refuse), &[]),
    (Send(0, 0, 0, ACTIVATE), &[(0, 0, 0, NACK)]),
    (Send(0, 0, 0, RELEASE), &[(0, 0, 0, RELEASED)]),
    (Send(0, 0, 0, ACTIVATE), &[(0, 0, 0, NACK)]),
    (Send(0, 0, 0, ACTIVATE), &[(0, 0, 0, ACK)]),
    // messages that a station doesn't get, or that are none
    (Send(0, 0, 0, ACK), &[]),
    (Send(0, 0, 0, DETECTION), &[]),
    (Send(0, 0, 0, b"\x08\x2e\x01"), &[]),
    (Send(0, 0, 0, &[0x03; 1025]), &[]),
    // a message for the mobile that is none, and one that it doesn't answer
    (
        Send(0, 0, 0, b"\x03\x01\x01\x0b\x02\x00\x0b\x00\x01\x06"),
        &[],
    ),
    (
        Send(0, 0, 0, b"\x03\x01\x01\x0b\x02\x00\x0b\x00\x03\x06\x0d\x00"),
        &[],
    ),
    // channels that the world lacks
    (Send(0, 0, 1, ACTIVATE), &[]),
    (Send(0, 64, 0, ACTIVATE), &[]),
    (Send(usize::MAX, 0, 0, RELEASE), &[]),
    (
        Set(
            0,
            ChanId { tn: 8, ..HOME },
            Act::Hold(Held::Acknowledgement),
        ),
        &[],
    ),
];

/// Channels are activated and released.
pub(super) const ACTIVATED: Course = Course {
    controllers: 2,
    rows: ACTIVATIONS,
    least: 12,
};

/// A world without controllers.
pub(super) const OF_NOBODY: Course = Course {
    controllers: 0,
    rows: &[(Send(0, 0, 0, ACTIVATE), &[])],
    least: 0,
};

const ARRIVAL: &[Out] = &[(0, 1, 1, DETECTION), (0, 1, 1, COMPLETE)];

const ARRIVAL_AT_PEER: &[Out] = &[(1, 1, 1, DETECTION), (1, 1, 1, COMPLETE)];

// The command with another timeslot, carrier or reference.
const TO_TIMESLOT_2: &[u8] =
    b"\x03\x01\x01\x0b\x02\x00\x0b\x00\x09\x06\x2b\xd5\x67\x0a\xa3\x6b\x2a\x05";

const TO_CARRIER_871: &[u8] =
    b"\x03\x01\x01\x0b\x02\x00\x0b\x00\x09\x06\x2b\xd5\x67\x0b\xa3\x67\x2a\x05";

const WITH_REFERENCE_43: &[u8] =
    b"\x03\x01\x01\x0b\x02\x00\x0b\x00\x09\x06\x2b\xd5\x67\x0b\xa3\x6b\x2b\x05";

// The command to another cell, by its network colour code.
const TO_NCC_3: &[u8] = b"\x03\x01\x01\x0b\x02\x00\x0b\x00\x09\x06\x2b\xdd\x67\x0b\xa3\x6b\x2a\x05";

// The command with another training sequence and power.
const WITH_TSC_0_AND_POWER_31: &[u8] =
    b"\x03\x01\x01\x0b\x02\x00\x0b\x00\x09\x06\x2b\xd5\x67\x0b\x03\x6b\x2a\x9f";

const HABITS: &[Row] = &[
    // there is no mobile on an inactive channel
    (Send(0, 0, 0, COMMAND), &[]),
    (Send(0, 0, 0, ACTIVATE), &[(0, 0, 0, ACK)]),
    // the target is inactive; active for no handover; active with the reference
    (Send(0, 0, 0, COMMAND), &[(0, 0, 0, FAILURE)]),
    (Send(0, 1, 1, ACTIVATE), &[(0, 1, 1, ACK)]),
    (Send(0, 0, 0, COMMAND), &[(0, 0, 0, FAILURE)]),
    (Send(0, 1, 1, RELEASE), &[(0, 1, 1, RELEASED)]),
    (Send(0, 1, 1, ACTIVATE_42), &[(0, 1, 1, ACK)]),
    (Send(0, 0, 0, COMMAND), ARRIVAL),
    // a target that isn't quite that; what the command says beside doesn't count
    (Send(0, 0, 0, TO_TIMESLOT_2), &[(0, 0, 0, FAILURE)]),
    (Send(0, 0, 0, TO_CARRIER_871), &[(0, 0, 0, FAILURE)]),
    (Send(0, 0, 0, WITH_REFERENCE_43), &[(0, 0, 0, FAILURE)]),
    (Send(0, 0, 0, TO_NCC_3), &[(0, 0, 0, FAILURE)]),
    (Send(0, 0, 0, WITH_TSC_0_AND_POWER_31), ARRIVAL),
    // a habit stays with its channel; that of the target has no part in it
    (Set(0, HOME, Act::Mobile(Habit::Return)), &[]),
    (Send(0, 0, 0, COMMAND), &[(0, 0, 0, FAILURE)]),
    (Set(0, HOME, Act::Mobile(Habit::Vanish)), &[]),
    (Send(0, 0, 0, COMMAND), &[]),
    (Send(0, 0, 0, RELEASE), &[(0, 0, 0, RELEASED)]),
    (Send(0, 0, 0, ACTIVATE), &[(0, 0, 0, ACK)]),
    (Send(0, 0, 0, COMMAND), &[]),
    (Set(0, HOME, Act::Mobile(Habit::Arrive)), &[]),
    (Set(0, TARGET, Act::Mobile(Habit::Vanish)), &[]),
    (Send(0, 0, 0, COMMAND), ARRIVAL),
];

/// A mobile goes by the habit of its channel.
pub(super) const MOVED: Course = Course {
    controllers: 1,
    rows: HABITS,
    least: 19,
};

const TWO_CONTROLLERS: &[Row] = &[
    (Send(0, 0, 0, ACTIVATE), &[(0, 0, 0, ACK)]),
    (Send(1, 0, 0, ACTIVATE), &[(1, 0, 0, ACK)]),
    // the second controller's cell has the channel
    (Send(1, 1, 1, ACTIVATE_42), &[(1, 1, 1, ACK)]),
    (Send(0, 0, 0, COMMAND), ARRIVAL_AT_PEER),
    // both have it
    (Send(0, 1, 1, ACTIVATE_42), &[(0, 1, 1, ACK)]),
    (Send(1, 0, 0, COMMAND), ARRIVAL),
    // a mobile that comes back is heard of by its own controller
    (Set(1, HOME, Act::Mobile(Habit::Return)), &[]),
    (Send(1, 0, 0, COMMAND), &[(1, 0, 0, FAILURE)]),
];

/// Where both of two controllers have a cell of the colour, the first has the mobile.
pub(super) const OF_TWO: Course = Course {
    controllers: 2,
    rows: TWO_CONTROLLERS,
    least: 9,
};
