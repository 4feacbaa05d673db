//! Sixteen workers with four calls each, whose schedule a gate shakes: it holds each call for a while of its own, on its way.
//! Every call tries to move. Those of even numbers arrive, those of odd ones are taken back.
//!
//! The calls of a worker, the cells that they are in and those that they go to have one remainder by 16. So whoever has a
//! channel by then, its messages go to one worker, in their order, and nothing is waited for.
use super::offices::{Course, Hall, Left, are_ok, at_a_desk, empty_desk, give_one};
use crate::bag::Taken;
use call_worker::{Gate, Point};
use channel_fsm::{ChanId, Sub};
use exchange::{Inbound, Line};
use octet_elements::Octets;
use radio_book::book::Usage;
use radio_desk::audit::Audit;
use radio_desk::tally::Tally;
use sample_sites::site_of_cells;
use std::alloc::Global;
use std::process::Abort;
use std::sync::{Arc, Wait};
use std::test::Fail;
use std::thread;
use std::thread::Threads;
use std::time::{Clock, Duration};

/// How many cells there are, with a call in each.
const CELLS: u16 = 64;

/// Holds each call for up to three milliseconds.
#[derive(Drop)]
struct Shaking<R: Clock + Drop> {
    rt: R,
}

impl<R: Clock + Drop> Gate for Shaking<R> {
    fn pass(&self, call: u16, point: Point) {
        let turn = match point {
            Point::Commanded => 7_919u64,
            Point::Answered => 6_841u64,
        };
        let micros = u64::from(call).wrapping_mul(turn) % 3_000;
        thread::sleep(&self.rt, Duration::from_micros(micros));
    }
}

/// The channel of a call: the last of its cell.
fn home_of(call: u16) -> ChanId {
    ChanId {
        cell: (call % CELLS) as u8,
        trx: 0,
        tn: 7,
        sub: Sub::Full,
    }
}

/// The channel that it is to move to: the first of a cell sixteen further on.
fn target_of(call: u16) -> ChanId {
    ChanId {
        cell: ((call % CELLS + 16) % CELLS) as u8,
        trx: 0,
        tn: 1,
        sub: Sub::Full,
    }
}

/// What happens to each call, one after the other.
#[derive(Clone, Copy)]
enum Phase {
    Opened,
    Confirmed,
    Moved,
    Commanded,
    Detected,
    Answered,
    Released,
}

const PHASES: &[Phase] = &[
    Phase::Opened,
    Phase::Confirmed,
    Phase::Moved,
    Phase::Commanded,
    Phase::Detected,
    Phase::Answered,
    Phase::Released,
];

/// A message of a station about a channel: its octets but for the third and fourth, which name the timeslot.
fn told(rt: &impl Abort, alloc: Global, chan: ChanId, kind: &[u8], rest: &[u8]) -> Inbound<Global> {
    let mut octets = Vec::from_slice(alloc, kind).expect(rt, "octets");
    let named = [0x01, 0x08 | chan.tn];
    octets.extend_from_slice(&named).expect(rt, "octets");
    octets.extend_from_slice(rest).expect(rt, "octets");
    Inbound::Abis {
        cell: chan.cell,
        trx: chan.trx,
        bytes: Octets::new(alloc, &octets).expect(rt, "octets"),
    }
}

/// A channel is active (TS 48.058 clause 8.4.2).
fn is_active(rt: &impl Abort, alloc: Global, chan: ChanId) -> Inbound<Global> {
    told(rt, alloc, chan, &[0x08, 0x22], &[0x08, 0x00, 0x00])
}

/// The mobile is seen (TS 48.058 clause 8.4.7).
fn is_seen(rt: &impl Abort, alloc: Global, chan: ChanId) -> Inbound<Global> {
    told(rt, alloc, chan, &[0x08, 0x27], &[0x11, 0x02])
}

/// The mobile says that it has arrived (TS 44.018 clause 9.1.16).
fn has_arrived(rt: &impl Abort, alloc: Global, chan: ChanId) -> Inbound<Global> {
    let complete = [0x02, 0x00, 0x0b, 0x00, 0x03, 0x06, 0x2c, 0x00];
    told(rt, alloc, chan, &[0x03, 0x02], &complete)
}

/// A channel is released (TS 48.058 clause 8.4.19).
fn is_released(rt: &impl Abort, alloc: Global, chan: ChanId) -> Inbound<Global> {
    told(rt, alloc, chan, &[0x08, 0x33], &[])
}

/// What happens to a call that arrives.
fn arrives(rt: &impl Abort, alloc: Global, call: u16, phase: Phase) -> Inbound<Global> {
    let (home, target) = (home_of(call), target_of(call));
    match phase {
        Phase::Opened => Inbound::Operator(Line::Open { call, chan: home }),
        Phase::Confirmed => is_active(rt, alloc, home),
        Phase::Moved => Inbound::Operator(Line::Handover {
            call,
            cell: target.cell,
        }),
        Phase::Commanded => is_active(rt, alloc, target),
        Phase::Detected => is_seen(rt, alloc, target),
        Phase::Answered => has_arrived(rt, alloc, target),
        Phase::Released => is_released(rt, alloc, home),
    }
}

/// What happens to one that is taken back.
fn goes_back(rt: &impl Abort, alloc: Global, call: u16, phase: Phase) -> Inbound<Global> {
    match phase {
        Phase::Answered => Inbound::Operator(Line::Undo { call }),
        Phase::Released => is_released(rt, alloc, target_of(call)),
        Phase::Opened | Phase::Confirmed | Phase::Moved | Phase::Commanded | Phase::Detected => {
            arrives(rt, alloc, call, phase)
        }
    }
}

/// What happens to a call.
fn input_of(rt: &impl Abort, alloc: Global, call: u16, phase: Phase) -> Inbound<Global> {
    if call % 2 == 0 {
        arrives(rt, alloc, call, phase)
    } else {
        goes_back(rt, alloc, call, phase)
    }
}

/// All calls come to a phase.
fn give_phase<R: Threads + Wait + Abort + AllocGlobal + Drop>(
    rt: &R,
    hall: &mut Hall<R, Global>,
    phase: Phase,
) {
    for call in 0..CELLS {
        give_one(rt, hall, input_of(rt, rt.alloc(), call, phase));
    }
}

fn give_phases<R: Threads + Wait + Abort + AllocGlobal + Drop>(rt: &R, hall: &mut Hall<R, Global>) {
    for phase in PHASES {
        give_phase(rt, hall, *phase);
    }
}

/// Each worker handled its four calls, with seven inputs each.
fn are_done<R: Wait + Abort + Drop>(rt: &R, left: &Left<R, Global>) {
    assert!(rt; left.workers.len() == 16 && left.front.len() == 288);
    for worker in &left.workers {
        assert!(rt; worker.given.len() == 28 && worker.taken.len() == 28);
        are_ok(rt, &worker.taken);
    }
}

/// All calls moved or were taken back, and none left a trace.
fn is_told<R: Wait + Abort + Drop>(rt: &R, left: &Left<R, Global>) -> Result<(), Fail> {
    let tally = Tally {
        calls: 64,
        attempts: 64,
        completed: 32,
        undone: 32,
    };
    let usage = Usage {
        channels: 64,
        calls: 64,
        references: 0,
        timers: 0,
    };
    let audit = Audit {
        attempts: 32,
        held: None,
        same: true,
    };
    let found = left.desk.audit()?;
    assert!(rt; left.desk.tally() == tally && left.desk.book().usage() == usage);
    assert!(rt; found == audit, "{found:?}");
    Ok(())
}

/// All calls, none of which waits for another.
struct Shaken;

impl Course for Shaken {
    fn give<R: Threads + Wait + Abort + AllocGlobal + Drop>(
        &self,
        rt: &R,
        hall: &mut Hall<R, Global>,
        _taken: &Taken,
    ) {
        give_phases(rt, hall);
    }

    fn see<R: Wait + Abort + AllocGlobal + Drop>(
        &self,
        rt: &R,
        left: &Left<R, Global>,
    ) -> Result<(), Fail> {
        are_done(rt, left);
        is_told(rt, left)
    }
}

#[test]
fn a_shaken_schedule_changes_nothing(rt: HostRuntime) -> Result<(), Fail> {
    let site = site_of_cells(rt.alloc(), CELLS, 1, 0)?;
    let gate = Arc::new(rt.alloc(), Shaking { rt: rt.clone()? })?;
    let desk = empty_desk(rt.alloc(), rt.alloc(), &site)?;
    at_a_desk(&rt, desk, gate, 16, &Shaken)
}
