//! The largest office: 16 workers, at a site of 64 cells with four TRX each, with 1,024 calls.
use super::offices::{Course, Hall, Left, are_ok, at_an_office, give_one};
use crate::bag::{Bag, Taken};
use call_worker::WorkerEnd;
use channel_fsm::{ChanId, Sub};
use exchange::{Inbound, Line};
use octet_elements::Octets;
use radio_book::book::Usage;
use sample_sites::site_of_cells;
use std::alloc::Global;
use std::process::Abort;
use std::sync::Wait;
use std::test::Fail;
use std::thread::Threads;

/// How many calls there are: 16 in each cell.
const CALLS: u16 = 1024;

/// How many cells.
const CELLS: u16 = 64;

/// Where a call is: in cell `call mod 64`, one of its second and third TRX, eight calls on each.
fn chan_of(call: u16) -> ChanId {
    let place = call / CELLS;
    ChanId {
        cell: (call % CELLS) as u8,
        trx: (1 + place / 8 % 2) as u8,
        tn: (place % 8) as u8,
        sub: Sub::Full,
    }
}

/// A station says that the channel of a call is active (TS 48.058 clause 8.4.2).
fn is_active(rt: &impl Abort, alloc: Global, chan: ChanId) -> Inbound<Global> {
    let octets = [0x08, 0x22, 0x01, 0x08 | chan.tn, 0x08, 0x00, 0x00];
    Inbound::Abis {
        cell: chan.cell,
        trx: chan.trx,
        bytes: Octets::new(alloc, &octets).expect(rt, "octets"),
    }
}

/// Every call is opened, and its channel confirmed.
fn open_calls<R: Threads + Wait + Abort + AllocGlobal + Drop>(rt: &R, hall: &mut Hall<R, Global>) {
    for call in 0..CALLS {
        let chan = chan_of(call);
        give_one(rt, hall, Inbound::Operator(Line::Open { call, chan }));
        give_one(rt, hall, is_active(rt, rt.alloc(), chan));
    }
}

/// A worker handled all that it was given: 64 calls, with two inputs each.
fn is_done<R: Wait + Abort + Drop>(rt: &R, worker: &WorkerEnd<Bag<R, Global>>) {
    assert!(rt; worker.given.len() == 128 && worker.taken.len() == 128);
    assert!(rt; worker.receipts.len() == 192 && worker.links.sent.len() == 64);
    are_ok(rt, &worker.taken);
}

fn are_done<R: Wait + Abort + Drop>(rt: &R, left: &Left<R, Global>) {
    for worker in &left.workers {
        is_done(rt, worker);
    }
}

/// Every call is on its channel. The events of each are Open and, once its office asked Owner, Confirm and Look.
fn are_on<R: Wait + Abort + Drop>(rt: &R, left: &Left<R, Global>) {
    assert!(rt; left.workers.len() == 16 && left.front.len() == 1024);
    assert!(rt; left.desk.len() == 4096 && left.desk.tally().calls == 1024);
    let usage = left.desk.book().usage();
    let wanted = Usage {
        channels: 1024,
        calls: 1024,
        references: 0,
        timers: 0,
    };
    assert!(rt; usage == wanted);
}

/// All calls of the largest office.
struct Largest;

impl Course for Largest {
    fn give<R: Threads + Wait + Abort + AllocGlobal + Drop>(
        &self,
        rt: &R,
        hall: &mut Hall<R, Global>,
        _taken: &Taken,
    ) {
        open_calls(rt, hall);
    }

    fn see<R: Wait + Abort + AllocGlobal + Drop>(
        &self,
        rt: &R,
        left: &Left<R, Global>,
    ) -> Result<(), Fail> {
        are_on(rt, left);
        are_done(rt, left);
        Ok(())
    }
}

#[test]
fn sixteen_workers_have_1024_calls(rt: HostRuntime) -> Result<(), Fail> {
    let site = site_of_cells(rt.alloc(), CELLS, 4, 0)?;
    at_an_office(&rt, &site, 16, &Largest)
}
