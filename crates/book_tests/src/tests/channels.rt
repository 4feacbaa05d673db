use channel_fsm::ChanEvent::{Begin, Confirm, Drop, Refuse, Released, Send, SwitchOff, Take};
use channel_fsm::ChanState::{Free, Held, Off, On, Pending};
use channel_fsm::{ChanEvent, ChanId, ChanState, Sub, conflicts, next};
use std::process::Abort;

/// Every event, two of them for another call than the channel's.
const EVENTS: [ChanEvent; 11] = [
    Take(1),
    Begin(1),
    Send(1),
    Confirm,
    Refuse,
    SwitchOff,
    Drop,
    Released,
    Take(2),
    Begin(2),
    Send(2),
];

/// A state, and the state after each event.
struct Row {
    state: ChanState,
    after: [Option<ChanState>; 11],
}

const ROWS: [Row; 5] = [
    Row {
        state: Free,
        after: [
            Some(Held(1)),
            Some(Pending(1)),
            None,
            None,
            None,
            None,
            None,
            None,
            Some(Held(2)),
            Some(Pending(2)),
            None,
        ],
    },
    Row {
        state: Held(1),
        after: [
            None,
            None,
            Some(Pending(1)),
            None,
            None,
            None,
            Some(Free),
            None,
            None,
            None,
            None,
        ],
    },
    Row {
        state: Pending(1),
        after: [
            None,
            None,
            None,
            Some(On(1)),
            Some(Held(1)),
            Some(Off),
            None,
            None,
            None,
            None,
            None,
        ],
    },
    Row {
        state: On(1),
        after: [
            None,
            None,
            None,
            None,
            None,
            Some(Off),
            None,
            None,
            None,
            None,
            None,
        ],
    },
    Row {
        state: Off,
        after: [
            None,
            None,
            None,
            None,
            None,
            None,
            None,
            Some(Free),
            None,
            None,
            None,
        ],
    },
];

fn plays(rt: &impl Abort, row: &Row) {
    for (event, after) in EVENTS.iter().zip(row.after.iter()) {
        assert_eq!(rt; next(row.state, *event), *after);
    }
}

#[test]
fn every_state_meets_every_event(rt: HostRuntime) {
    for row in &ROWS {
        plays(&rt, row);
    }
}

fn channel(tn: u8, sub: Sub) -> ChanId {
    ChanId {
        cell: 63,
        trx: 3,
        tn,
        sub,
    }
}

const SUBS: [Sub; 3] = [Sub::Full, Sub::Half0, Sub::Half1];

/// What conflicts with each part of a timeslot.
const CONFLICTS: [[bool; 3]; 3] = [
    [false, true, true],
    [true, false, false],
    [true, false, false],
];

fn conflicts_with(rt: &impl Abort, sub: Sub, row: &[bool; 3]) {
    for (other, expected) in SUBS.iter().zip(row.iter()) {
        assert_eq!(rt; conflicts(channel(3, sub), channel(3, *other)), *expected);
        assert!(rt; !conflicts(channel(3, sub), channel(4, *other)));
    }
}

#[test]
fn a_timeslot_is_whole_or_two_halves(rt: HostRuntime) {
    for (sub, row) in SUBS.iter().zip(CONFLICTS.iter()) {
        conflicts_with(&rt, *sub, row);
    }
}
