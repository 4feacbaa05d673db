//! Workers run beside each other: a gate holds one on its way until the other has come further.
use super::offices::{Course, Hall, Left, are_ok, at_a_desk, empty_desk, give_all, give_each};
use crate::bag::Taken;
use call_worker::{Gate, Point};
use radio_desk::audit::Audit;
use sample_sites::THREE_CHANNELS;
use std::alloc::Global;
use std::process::Abort;
use std::sync::{Arc, Condvar, CondvarTimeouts, Mutex, Wait, WaitMethods};
use std::test::Fail;
use std::thread::Threads;
use std::time::{Clock, Duration};

/// How many timed waits of a millisecond the gate holds a call at most.
const TURNS: u32 = 10_000;

/// What a gate saw: how often a call came past, that call 1 came to be commanded, that call 2 had its answer, that call 1 was
/// let go without it, and that call 1 had its own answer after its command.
#[derive(Drop)]
struct Seen {
    passes: u32,
    commanded: bool,
    answered: bool,
    gave_up: bool,
    arrived: bool,
}

/// Holds call 1 where its mobile is to be sent to the target, until an attempt of call 2 has ended.
#[derive(Drop)]
struct Holding<R: Wait + Clock + Drop> {
    rt: R,
    seen: Mutex<Seen>,
    moved: Condvar,
}

impl<R: Wait + Clock + Drop> Holding<R> {
    fn new(rt: R) -> Holding<R> {
        Holding {
            rt,
            seen: Mutex::new(Seen {
                passes: 0,
                commanded: false,
                answered: false,
                gave_up: false,
                arrived: false,
            }),
            moved: Condvar::new(),
        }
    }

    /// Call 1 was held, and let go in time; the gate was told of that command and of one answer to each call, and of nothing
    /// that was refused.
    fn is_good(&self) -> bool {
        let seen = self.seen.lock(&self.rt);
        seen.passes == 3 && seen.commanded && seen.answered && seen.arrived && !seen.gave_up
    }

    fn count(&self) {
        let mut seen = self.seen.lock(&self.rt);
        seen.passes = seen.passes.saturating_add(1);
    }

    fn hold(&self) {
        let mut seen = self.seen.lock(&self.rt);
        seen.commanded = true;
        for _ in 0..TURNS {
            if seen.answered {
                return;
            }
            let (next, _) = self
                .moved
                .wait_timeout(&self.rt, seen, Duration::from_millis(1));
            seen = next;
        }
        seen.gave_up = true;
    }

    fn let_go(&self) {
        self.seen.lock(&self.rt).answered = true;
        self.moved.notify_all();
    }

    fn arrive(&self) {
        let mut seen = self.seen.lock(&self.rt);
        seen.arrived = seen.commanded;
    }
}

impl<R: Wait + Clock + Drop> Gate for Holding<R> {
    fn pass(&self, call: u16, point: Point) {
        self.count();
        match point {
            Point::Commanded => {
                if call == 1 {
                    self.hold();
                }
            }
            Point::Answered => {
                if call == 2 {
                    self.let_go();
                }
                if call == 1 {
                    self.arrive();
                }
            }
        }
    }
}

/// Two calls are opened and confirmed, and call 1 is to be handed over to the other cell. Call 2 has no attempt that could
/// be taken back.
const BEFORE: &str = "open 1 0 0 3
abis 0 0 0822010b081234
open 2 0 0 2
abis 0 0 0822010a081234
undo 2
handover 1 1";

/// The other cell has the channel of call 1 active.
const ACTIVE: &str = "abis 1 1 0822010b080000";

/// What waits for the worker of call 1 meanwhile: as many inputs as its inbox has room for.
const WAITING: usize = 64;

/// Call 2 is to go to another controller, and stays.
const BESIDE: &str = "handover 2 64
undo 2";

/// The mobile of call 1 arrives in the other cell.
const AFTER: &str = "abis 1 1 0827010b1102
abis 1 1 0302010b02000b0003062c00";

/// Every input was handled: so many.
fn is_done<R: Wait + Abort + Drop>(
    rt: &R,
    left: &Left<R, Global>,
    worker: usize,
    count: usize,
) -> Result<(), Fail> {
    let worker = left.workers.get(worker).ok_or("no worker")?;
    assert!(rt; worker.taken.len() == count && worker.given.len() == count);
    are_ok(rt, &worker.taken);
    Ok(())
}

/// Each worker had its call.
fn are_done<R: Wait + Abort + Drop>(rt: &R, left: &Left<R, Global>) -> Result<(), Fail> {
    assert!(rt; left.front.len() == 5);
    is_done(rt, left, 0, 5)?;
    is_done(rt, left, 1, WAITING.saturating_add(6))
}

/// The attempt of call 2 was taken back, and nothing was refused for what it held. That of call 1 was completed.
fn is_audited<R: Wait + Abort + Drop>(rt: &R, left: &Left<R, Global>) -> Result<(), Fail> {
    let wanted = Audit {
        attempts: 1,
        held: None,
        same: true,
    };
    let audit = left.desk.audit()?;
    assert!(rt; audit == wanted, "{audit:?}");
    Ok(())
}

/// Call 1 is held, and an inbox filled, before call 2 goes on. Then call 1 goes on, too.
fn give_beside<R: Threads + Wait + Abort + AllocGlobal + Drop>(
    rt: &R,
    hall: &mut Hall<R, Global>,
    taken: &Taken,
) {
    give_each(rt, hall, taken, BEFORE);
    give_all(rt, hall, ACTIVE);
    for _ in 0..WAITING {
        give_all(rt, hall, "expire 1 T8");
    }
    give_all(rt, hall, BESIDE);
    give_all(rt, hall, AFTER);
}

/// Two calls, the first of which is held.
struct Beside;

impl Course for Beside {
    fn give<R: Threads + Wait + Abort + AllocGlobal + Drop>(
        &self,
        rt: &R,
        hall: &mut Hall<R, Global>,
        taken: &Taken,
    ) {
        give_beside(rt, hall, taken);
    }

    fn see<R: Wait + Abort + AllocGlobal + Drop>(
        &self,
        rt: &R,
        left: &Left<R, Global>,
    ) -> Result<(), Fail> {
        are_done(rt, left)?;
        is_audited(rt, left)
    }
}

#[test]
fn a_call_waits_for_another_workers_call(rt: HostRuntime) -> Result<(), Fail> {
    let gate = Arc::new(rt.alloc(), Holding::new(rt.clone()?))?;
    let held = Arc::try_clone(&gate)?;
    let desk = empty_desk(rt.alloc(), rt.alloc(), THREE_CHANNELS)?;
    at_a_desk(&rt, desk, held, 2, &Beside)?;
    assert!(rt; gate.is_good());
    Ok(())
}
