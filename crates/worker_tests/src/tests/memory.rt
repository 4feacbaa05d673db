//! Allocation failures in an office: each request for memory is refused in turn, of whichever thread it is.
ghost use Rattle.std.specs.Prelude.{◌≡◌, []};

use super::offices::{Ajar, Hall, Left, are_told_once, empty_desk, have_ended, inputs_of, opened};
use crate::bag::{Bag, Taken};
use call_worker::{CloseFault, GiveFault, StartFault, Turn, Unclosed, WorkerEnd};
use exchange::Inbound;
use radio_desk::desk::Desk;
use refusing_heap::{Refusals, RefusingHeap};
use sample_sites::THREE_CHANNELS;
use std::alloc::{AllocError, Global};
use std::process::Abort;
use std::sync::{Arc, Wait};
use std::test::Fail;
use std::thread::Threads;

/// What threads may hold: it is never freed.
type Heap = &'static RefusingHeap<Global>;

fn heap_of(alloc: Global, refusals: Refusals) -> Result<Heap, AllocError> {
    Ok(Box::leak(Box::new(alloc, RefusingHeap::new(alloc, refusals))?))
}

/// A handover that arrives, beside another call.
const INPUTS: &str = "open 1 0 0 3
abis 0 0 0822010b081234
open 2 0 0 2
abis 0 0 0822010a081234
handover 1 1
abis 1 1 0822010b080000
abis 1 1 0827010b1102
abis 1 1 0302010b02000b0003062c00
clear 2";

/// How inputs are given.
#[derive(Clone, Copy)]
enum Pace {
    /// Each once those before it were taken.
    InTurn,
    /// All without waiting.
    AtOnce,
}

impl Pace {
    /// Waits for so many inputs, where each is waited for.
    fn keep<R: Wait>(self, rt: &R, taken: &Taken, given: u64) {
        match self {
            Pace::InTurn => taken.wait_for(rt, given),
            Pace::AtOnce => {}
        }
    }
}

/// How many of these turns weren't ok.
fn told_by_turns(taken: &[Turn<Heap>]) -> u64 {
    let mut told = 0u64;
    for turn in taken {
        if !turn.ok {
            told = told.saturating_add(1);
        }
    }
    told
}

/// How many answers of a worker name a refusal: messages that were lost, a turn that isn't ok, and that it took no more.
fn told_by_worker<R: Wait + Drop>(worker: &WorkerEnd<Bag<R, Heap>, Heap>) -> u64 {
    let told = told_by_turns(&worker.taken).saturating_add(worker.links.refused);
    if worker.taken.len() < worker.given.len() {
        told.saturating_add(1)
    } else {
        told
    }
}

fn told_by_workers<R: Wait + Drop>(left: &Left<R, Heap>) -> u64 {
    let mut told = 0u64;
    for worker in &left.workers {
        told = told.saturating_add(told_by_worker(worker));
    }
    told
}

/// Gives an input. False: memory was refused.
fn is_given<R: Threads + Wait + Abort + Drop>(
    rt: &R,
    hall: &mut Hall<R, Heap>,
    input: Inbound<Heap>,
) -> bool {
    match hall.give(input) {
        Ok(()) => true,
        Err(fault) => {
            assert!(rt; fault == GiveFault::NoMemory);
            false
        }
    }
}

/// Gives all: how many answers name a refusal.
fn told_by_give<R: Threads + Wait + Abort + Drop>(
    rt: &R,
    hall: &mut Hall<R, Heap>,
    taken: &Taken,
    pace: Pace,
    inputs: Vec<Inbound<Heap>, Heap>,
) -> u64 {
    let (mut told, mut given) = (0u64, 0u64);
    for input in inputs {
        if is_given(rt, hall, input) {
            given = given.saturating_add(1);
            pace.keep(rt, taken, given);
        } else {
            told = told.saturating_add(1);
        }
    }
    told
}

/// An office that closed named each refusal once.
fn are_told<R: Wait + Abort + Drop>(rt: &R, heap: Heap, left: &Left<R, Heap>, told: u64) {
    let told = told.saturating_add(told_by_workers(left));
    assert!(rt; told == heap.refused(), "{told}");
}

/// How many receipts an office and its workers got.
fn receipts_of<R: Wait + Drop>(left: &Left<R, Heap>) -> usize {
    let mut count = left.front.len();
    for worker in &left.workers {
        count = count.saturating_add(worker.receipts.len());
    }
    count
}

/// One that didn't was refused memory as it closed, once. The desk that it hands out is its own: there is a receipt of each
/// entry.
fn is_unclosed<R: Wait + Abort + Drop>(
    rt: &R,
    heap: Heap,
    unclosed: &Unclosed<Bag<R, Heap>, Heap>,
    told: u64,
) {
    assert!(rt; matches!(unclosed.fault, CloseFault::NoMemory));
    assert!(rt; told == 0 && heap.refused() == 1);
    let entries = unclosed.left.desk.len();
    assert!(rt; 0 < entries && entries == receipts_of(&unclosed.left));
}

/// Closes: each refusal has one answer that names it.
fn is_told<R: Threads + Wait + Abort + Drop>(
    rt: &R,
    heap: Heap,
    hall: Hall<R, Heap>,
    taken: &Taken,
    told: u64,
) {
    match hall.close() {
        Ok(left) => {
            are_told_once(rt, &left, taken);
            are_told(rt, heap, &left, told);
        }
        Err(unclosed) => is_unclosed(rt, heap, &unclosed, told),
    }
}

/// Gives all inputs and closes.
fn plays<R: Threads + Wait + Abort + Drop>(
    rt: &R,
    heap: Heap,
    mut hall: Hall<R, Heap>,
    taken: &Taken,
    pace: Pace,
    inputs: Vec<Inbound<Heap>, Heap>,
) {
    let told = told_by_give(rt, &mut hall, taken, pace, inputs);
    is_told(rt, heap, hall, taken, told);
}

/// An office that wasn't started was refused memory, once.
fn is_not_started(rt: &impl Abort, heap: Heap, fault: StartFault) {
    assert!(rt; fault == StartFault::NoMemory && heap.refused() == 1);
}

/// Starts an office, gives it all and closes it. Whether it starts and closes or not, its workers have ended then. How many
/// requests its heap had before?
fn starts<R: Threads + Wait + Abort + Clone + Drop + Send + 'static>(
    rt: &R,
    heap: Heap,
    desk: Desk<Heap>,
    gate: Arc<Ajar, Heap>,
    taken: &Arc<Taken, Heap>,
    pace: Pace,
) -> u64
    requires { desk.history ≡ [] }
{
    let inputs = inputs_of(rt, heap, INPUTS);
    let before = heap.requests();
    match opened(rt, heap, desk, gate, taken, 2) {
        Ok(hall) => plays(rt, heap, hall, taken, pace, inputs),
        Err(fault) => is_not_started(rt, heap, fault),
    }
    have_ended(rt, taken);
    before
}

/// How many requests a heap had before the office was started, and then each refusal has its answer.
fn run_refused<R: Threads + Wait + Abort + Clone + Drop + Send + 'static>(
    rt: &R,
    scratch: Global,
    heap: Heap,
    pace: Pace,
) -> Result<u64, Fail> {
    let taken = Arc::new(heap, Taken::new())?;
    let gate = Arc::new(heap, Ajar)?;
    let desk = empty_desk(heap, scratch, THREE_CHANNELS)?;
    Ok(starts(rt, heap, desk, gate, &taken, pace))
}

/// Each request for memory is refused in turn, until there is none more.
fn run_each<R: Threads + Wait + Abort + Clone + Drop + Send + 'static>(
    rt: &R,
    alloc: Global,
    pace: Pace,
) -> Result<(), Fail> {
    let first = run_refused(rt, alloc, heap_of(alloc, Refusals::Never)?, pace)?;
    let mut refused = 0u64;
    for n in 1..1000 {
        let heap = heap_of(alloc, Refusals::Nth(first.saturating_add(n)))?;
        run_refused(rt, alloc, heap, pace)?;
        if !heap.was_refused() {
            break;
        }
        refused = n;
    }
    assert!(rt; 30 < refused && refused < 999, "{refused}");
    Ok(())
}

#[test]
fn each_refusal_is_answered(rt: HostRuntime) -> Result<(), Fail> {
    run_each(&rt, rt.alloc(), Pace::InTurn)
}

#[test]
fn each_refusal_is_answered_without_waiting(rt: HostRuntime) -> Result<(), Fail> {
    run_each(&rt, rt.alloc(), Pace::AtOnce)
}
