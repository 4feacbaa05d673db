//! An inbox has room for 64 letters and no more: who gives another waits.
use super::offices::{Course, Hall, Left, are_ok, at_a_desk, empty_desk, give_all, give_each};
use crate::bag::Taken;
use call_worker::{Gate, Point};
use sample_sites::THREE_CHANNELS;
use std::alloc::Global;
use std::process::Abort;
use std::sync::{Arc, Condvar, CondvarTimeouts, Mutex, Wait, WaitMethods};
use std::test::Fail;
use std::thread::Threads;
use std::time::{Clock, Duration};

/// How many letters an inbox has room for.
const ROOM: u32 = 64;

/// How many are given while the worker is held: some more.
const LETTERS: u32 = 70;

/// How many milliseconds are waited at most for as many letters as there is room for, and how many for one more. The first is
/// waited for in vain only where there is less room; the second always, where there isn't more.
const MOST: u32 = 10_000;

const IN_VAIN: u32 = 300;

/// What is known while a worker is held: how many letters were given, that they filled its inbox, and that there was room for
/// one more.
#[derive(Drop)]
struct Seen {
    given: u32,
    is_filled: bool,
    has_more: bool,
}

/// Holds a call where its mobile is to be sent to the target, until it is seen how many letters its worker's inbox takes.
#[derive(Drop)]
struct Filling<R: Wait + Clock + Drop> {
    rt: R,
    seen: Mutex<Seen>,
    moved: Condvar,
}

impl<R: Wait + Clock + Drop> Filling<R> {
    fn new(rt: R) -> Filling<R> {
        Filling {
            rt,
            seen: Mutex::new(Seen {
                given: 0,
                is_filled: false,
                has_more: false,
            }),
            moved: Condvar::new(),
        }
    }

    /// One more letter was given.
    fn add(&self) {
        let mut seen = self.seen.lock(&self.rt);
        seen.given = seen.given.saturating_add(1);
        self.moved.notify_all();
    }

    /// Whether so many letters were given within so many milliseconds.
    fn has_come_to(&self, wanted: u32, millis: u32) -> bool {
        let mut seen = self.seen.lock(&self.rt);
        for _ in 0..millis {
            if wanted <= seen.given {
                return true;
            }
            let (next, _) = self
                .moved
                .wait_timeout(&self.rt, seen, Duration::from_millis(1));
            seen = next;
        }
        false
    }

    fn hold(&self) {
        let is_filled = self.has_come_to(ROOM, MOST);
        let has_more = self.has_come_to(ROOM + 1, IN_VAIN);
        let mut seen = self.seen.lock(&self.rt);
        seen.is_filled = is_filled;
        seen.has_more = has_more;
    }

    /// The inbox was filled while the worker was held, and took no more.
    fn is_good(&self) -> bool {
        let seen = self.seen.lock(&self.rt);
        seen.is_filled && !seen.has_more
    }
}

impl<R: Wait + Clock + Drop> Gate for Filling<R> {
    fn pass(&self, _call: u16, point: Point) {
        match point {
            Point::Commanded => self.hold(),
            Point::Answered => {}
        }
    }
}

/// Call 1 is to be handed over.
const BEFORE: &str = "open 1 0 0 3
abis 0 0 0822010b081234
handover 1 1";

/// Its target is active: its worker is held.
const ACTIVE: &str = "abis 1 1 0822010b080000";

/// A timer that doesn't run.
const LETTER: &str = "expire 1 T8";

/// A worker that is held while letters are given, which the gate counts.
#[derive(Drop)]
struct Filled<R: Wait + Clock + Drop> {
    gate: Arc<Filling<R>>,
}

impl<G: Wait + Clock + Drop> Course for Filled<G> {
    fn give<R: Threads + Wait + Abort + AllocGlobal + Drop>(
        &self,
        rt: &R,
        hall: &mut Hall<R, Global>,
        taken: &Taken,
    ) {
        give_each(rt, hall, taken, BEFORE);
        give_all(rt, hall, ACTIVE);
        for _ in 0..LETTERS {
            give_all(rt, hall, LETTER);
            self.gate.add();
        }
    }

    fn see<R: Wait + Abort + AllocGlobal + Drop>(
        &self,
        rt: &R,
        left: &Left<R, Global>,
    ) -> Result<(), Fail> {
        let worker = left.workers.first().ok_or("no worker")?;
        assert!(rt; worker.taken.len() == LETTERS as usize + 4);
        are_ok(rt, &worker.taken);
        Ok(())
    }
}

#[test]
fn an_inbox_has_room_for_64_letters(rt: HostRuntime) -> Result<(), Fail> {
    let gate = Arc::new(rt.alloc(), Filling::new(rt.clone()?))?;
    let held = Arc::try_clone(&gate)?;
    let filled = Filled {
        gate: Arc::try_clone(&gate)?,
    };
    let desk = empty_desk(rt.alloc(), rt.alloc(), THREE_CHANNELS)?;
    at_a_desk(&rt, desk, held, 1, &filled)?;
    assert!(&rt; gate.is_good());
    Ok(())
}
