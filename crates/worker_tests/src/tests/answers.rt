//! Octets that aren't read: on Abis the office says so, on A, or inside a message on Abis, the worker.
use super::offices::{Course, Hall, Left, at_an_office, give_all, input_of};
use crate::bag::{Bag, Taken};
use call_worker::{GiveFault, Turn, WorkerEnd};
use rsl_messages::RslFault;
use sample_sites::THREE_CHANNELS;
use std::alloc::Global;
use std::process::Abort;
use std::sync::Wait;
use std::test::Fail;
use std::thread::Threads;

/// A message on A, and a radio resource message inside one on Abis, that end too soon.
const UNREADABLE: &str = "a 1 00051b
abis 0 0 0302010b02000b00020615";

/// The office doesn't take a message on Abis that ends too soon; it takes the others.
fn give_unreadable<R: Threads + Wait + Abort + AllocGlobal + Drop>(
    rt: &R,
    hall: &mut Hall<R, Global>,
) {
    let answer = hall.give(input_of(rt, rt.alloc(), "abis 0 0 082201"));
    assert!(rt; answer == Err(GiveFault::Undecoded(RslFault::Torn(2))));
    give_all(rt, hall, UNREADABLE);
}

/// Both inputs were passed over.
fn are_passed_over(rt: &impl Abort, taken: &[Turn<Global>]) {
    assert!(rt; taken.len() == 2);
    for turn in taken {
        assert!(rt; !turn.ok && turn.upto == 0);
    }
}

/// The worker asked nothing, and sent nothing.
fn did_nothing<R: Wait + Abort + Drop>(rt: &R, worker: &WorkerEnd<Bag<R, Global>>) {
    assert!(rt; worker.receipts.is_empty() && worker.links.sent.is_empty());
    assert!(rt; worker.links.refused == 0);
    are_passed_over(rt, &worker.taken);
}

/// The worker passed over what it was given. The office asked whose the channel is.
fn asked_nothing<R: Wait + Abort + Drop>(rt: &R, left: &Left<R, Global>) {
    assert!(rt; left.front.len() == 1 && left.workers.len() == 1);
    for worker in &left.workers {
        did_nothing(rt, worker);
    }
}

/// Octets that aren't read.
struct Unreadable;

impl Course for Unreadable {
    fn give<R: Threads + Wait + Abort + AllocGlobal + Drop>(
        &self,
        rt: &R,
        hall: &mut Hall<R, Global>,
        _taken: &Taken,
    ) {
        give_unreadable(rt, hall);
    }

    fn see<R: Wait + Abort + AllocGlobal + Drop>(
        &self,
        rt: &R,
        left: &Left<R, Global>,
    ) -> Result<(), Fail> {
        asked_nothing(rt, left);
        Ok(())
    }
}

#[test]
fn what_is_not_read_asks_nothing(rt: HostRuntime) -> Result<(), Fail> {
    at_an_office(&rt, THREE_CHANNELS, 1, &Unreadable)
}
