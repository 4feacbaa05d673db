//! Courses through a simulated switching centre: what controllers send, and what comes back.
use super::centre::Ask::Send;
use super::centre::{
    ACK, CLEAR_0B, CLEAR_01, CLEAR_09, CLEAR_REQUEST, CLEARED, COMMAND, COMPLETE, Course, DETECT,
    FAILURE_0A, FAILURE_40, REJECT_21, REQUEST_101, REQUEST_102, REQUIRED_101, REQUIRED_102, Row,
};

const MOVES: &[Row] = &[
    // a call in no join has no other side
    (Send(0, 1, ACK), &[]),
    (Send(0, 1, CLEAR_REQUEST), &[(0, 1, CLEAR_01)]),
    (Send(0, 1, REQUIRED_102), &[(1, 40000, REQUEST_102)]),
    // what comes to nothing: messages that a centre sends, and octets that are none
    (Send(0, 1, CLEAR_09), &[]),
    (Send(1, 40000, REQUEST_102), &[]),
    (Send(1, 40000, b"\x00\x02\x14\x15"), &[]),
    (Send(1, 40000, &[0; 256]), &[]),
    (Send(0, 1, b"\x00\x07\x11\x04\x01\x0c\x1a\x01\x01"), &[]),
    (Send(1, 40000, ACK), &[(0, 1, COMMAND)]),
    (Send(1, 40000, DETECT), &[]),
    (Send(1, 40000, COMPLETE), &[(0, 1, CLEAR_0B)]),
    (Send(0, 1, CLEARED), &[]),
    // the calls are joined no more
    (Send(1, 40000, ACK), &[]),
    (Send(0, 1, FAILURE_0A), &[]),
    // a call of the same number elsewhere has no part in a join
    (Send(1, 7, REQUIRED_101), &[(0, 40000, REQUEST_101)]),
    (Send(1, 40000, FAILURE_40), &[]),
    (Send(0, 40000, ACK), &[(1, 7, COMMAND)]),
    (Send(0, 40000, COMPLETE), &[(1, 7, CLEAR_0B)]),
    // and back again, as a call that was made for a handover: the lowest number that has stood in no join
    (Send(0, 40000, REQUIRED_102), &[(1, 40001, REQUEST_102)]),
    // a later HANDOVER REQUIRED ends the join first
    (Send(0, 40000, REQUIRED_102), &[(1, 40002, REQUEST_102)]),
    (Send(1, 40001, ACK), &[]),
    (Send(1, 40002, ACK), &[(0, 40000, COMMAND)]),
];

/// A call moves to the other controller.
pub(super) const MOVED: Course = Course {
    controllers: 2,
    rows: MOVES,
    least: 10,
};

// HANDOVER REQUIRED for cells 102 and 101, of which the first counts, and for 101 and 102.
const REQUIRED_102_101: &[u8] =
    b"\x00\x10\x11\x04\x01\x0c\x1b\x1a\x09\x01\x00\x17\x00\x66\x00\x17\x00\x65";

const REQUIRED_101_102: &[u8] =
    b"\x00\x10\x11\x04\x01\x0c\x1b\x1a\x09\x01\x00\x17\x00\x65\x00\x17\x00\x66";

// For cell 102 without a location area code, and in another location area; for a cell that no site has.
const REQUIRED_CI_102: &[u8] = b"\x00\x0a\x11\x04\x01\x0c\x1b\x1a\x03\x02\x00\x66";

const REQUIRED_FAR_102: &[u8] = b"\x00\x0b\x11\x04\x01\x0c\x1a\x05\x01\x00\x18\x00\x66";

const REQUIRED_103: &[u8] = b"\x00\x0c\x11\x04\x01\x0c\x1b\x1a\x05\x01\x00\x17\x00\x67";

const CELLS: &[Row] = &[
    (Send(0, 1, REQUIRED_102_101), &[(1, 40000, REQUEST_102)]),
    (Send(0, 1, REQUIRED_101_102), &[(0, 1, REJECT_21)]),
    (Send(0, 1, REQUIRED_CI_102), &[(1, 40001, REQUEST_102)]),
    (Send(0, 1, REQUIRED_103), &[(0, 1, REJECT_21)]),
    (Send(1, 1, REQUIRED_CI_102), &[(1, 1, REJECT_21)]),
    // a controller that the centre lacks has no cell from which a call could move
    (Send(2, 1, REQUIRED_102), &[(2, 1, REJECT_21)]),
];

// HANDOVER REQUEST from cell 100 to cell 102 of location area 24.
const REQUEST_FAR_102: &[u8] =
    b"\x00\x19\x10\x0b\x03\x01\x08\x01\x0a\x01\x01\x1d\x33\x05\x05\x01\x00\x17\x00\x64\x05\x05\x01\x00\x18\x00\x66";

// Among three controllers a cell identity alone names the first cell that has it.
const THREE: &[Row] = &[
    (Send(0, 1, REQUIRED_FAR_102), &[(2, 40000, REQUEST_FAR_102)]),
    (Send(0, 3, REQUIRED_CI_102), &[(1, 40000, REQUEST_102)]),
];

/// The first cell is asked for where the other controller has it.
pub(super) const TO_FIRST_CELLS: Course = Course {
    controllers: 2,
    rows: CELLS,
    least: 6,
};

pub(super) const TO_A_THIRD: Course = Course {
    controllers: 3,
    rows: THREE,
    least: 2,
};

/// A centre that has no second controller, or none.
pub(super) const BETWEEN_ONE: Course = Course {
    controllers: 1,
    rows: &[(Send(0, 1, REQUIRED_102), &[(0, 1, REJECT_21)])],
    least: 1,
};

pub(super) const BETWEEN_NONE: Course = Course {
    controllers: 0,
    rows: &[(Send(0, 1, CLEAR_REQUEST), &[(0, 1, CLEAR_01)])],
    least: 1,
};
