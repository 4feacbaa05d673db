use attempt_journal::Inverse::{
    Disarm, DropReference, Forget, FreeChannel, Rearm, SwitchOff, Undetect,
};
use attempt_journal::{Inverse, Journal, Timer};
use channel_fsm::{ChanId, Sub};
use std::process::Abort;

const TARGET: ChanId = ChanId {
    cell: 1,
    trx: 1,
    tn: 3,
    sub: Sub::Full,
};

const PUSHED: [Inverse; 7] = [
    Forget,
    FreeChannel(TARGET),
    DropReference(255),
    SwitchOff(TARGET),
    Undetect,
    Disarm(Timer::T3103),
    Rearm(Timer::T7),
];

const POPPED: [Inverse; 7] = [
    Rearm(Timer::T7),
    Disarm(Timer::T3103),
    Undetect,
    SwitchOff(TARGET),
    DropReference(255),
    FreeChannel(TARGET),
    Forget,
];

fn pushes(rt: &impl Abort, journal: &mut Journal) {
    for inverse in &PUSHED {
        assert!(rt; journal.len() < 7);
        journal.push(*inverse);
    }
}

fn pops(rt: &impl Abort, journal: &mut Journal) {
    for inverse in &POPPED {
        assert_eq!(rt; journal.pop(), Some(*inverse));
    }
    assert_eq!(rt; journal.pop(), None);
}

#[test]
fn seven_come_back_last_first(rt: HostRuntime) {
    let mut journal = Journal::new();
    assert!(rt; journal.is_empty());
    pushes(&rt, &mut journal);
    let mut again = journal;
    pops(&rt, &mut journal);
    assert_eq!(rt; again.len(), 7);
    pops(&rt, &mut again);
}
