//! What lies between the workers of a storm and its front.
ghost use Rattle.std.specs.Prelude.{◌≡◌, ◌↔◌, ◌<◌, ◌∷◌, ◌++◌, [], IsTrue, MatchOption, OnOk, OnErr};
ghost use Rattle.call_worker.specs.Sending.{one_more};

use exchange::Outbound;
use std::alloc::{AllocError, Allocator, Global};
use std::collections::VecDeque;
use std::sync::{Condvar, Mutex, Wait};

/// What lies on a tray.
#[derive(Drop)]
struct Load<A: Allocator = Global> {
    /// The messages that nobody has taken up yet, the first in front.
    waiting: VecDeque<Outbound<A>, A>,
    /// How many inputs the workers are done with.
    done: u64,
}

impl<A: Allocator + Copy> Load<A> {
    /// Lays a message behind all others. `Err`: there was no memory for it, and the message is lost.
    fn lay(&mut self, message: Outbound<A>) -> Result<(), AllocError>
        ensures laid { OnOk result (self.new.waiting.items ≡
            self.old.waiting.items ++ message ∷ []) }
        ensures lost { OnErr result (self.new.waiting.items ≡ self.old.waiting.items) }
        ensures done { self.new.done ≡ self.old.done }
    {
        self.waiting.push_back(message)?;
        Ok(())
    }

    /// Takes up the first message.
    fn take_up(&mut self) -> Option<Outbound<A>>
        ensures taken { MatchOption result
            ((self.old.waiting.items ≡ []) × (self.new.waiting.items ≡ []))
            (λ message. self.old.waiting.items ≡ message ∷ self.new.waiting.items) }
        ensures done { self.new.done ≡ self.old.done }
    {
        self.waiting.pop_front()
    }

    /// The workers are done with one more input.
    fn count_done(&mut self)
        ensures waiting { self.new.waiting.items ≡ self.old.waiting.items }
        ensures done { self.new.done ≡ one_more self.old.done }
    {
        self.done = self.done.saturating_add(1);
    }

    /// Whether nothing lies here, and more may come, since the workers aren't done with so many inputs.
    fn is_awaited(&self, given: u64) -> bool
        ensures { IsTrue result ↔ ((self.now.waiting.items ≡ []) × (self.now.done < given)) }
    {
        self.waiting.is_empty() && self.done < given
    }
}

/// A tray on which workers lay what they send, and say that they are done with an input: all under one lock. It takes a
/// message whether anybody takes it up or not, so no worker ever waits for the front.
#[derive(Drop)]
pub struct Tray<A: Allocator = Global> {
    load: Mutex<Load<A>>,
    changed: Condvar,
}

impl<A: Allocator + Copy> Tray<A> {
    /// An empty tray.
    pub fn new(alloc: A) -> Tray<A> {
        Tray {
            load: Mutex::new(Load {
                waiting: VecDeque::new(alloc),
                done: 0,
            }),
            changed: Condvar::new(),
        }
    }

    /// Lays a message behind all others. `Err`: there was no memory for it, and the message is lost.
    pub fn lay<R: Wait>(&self, rt: &R, message: Outbound<A>) -> Result<(), AllocError> {
        self.load.lock(rt).lay(message)?;
        self.changed.notify_one();
        Ok(())
    }

    /// A worker is done with one more input: all that it sends for it lies here.
    pub fn count_done<R: Wait>(&self, rt: &R) {
        self.load.lock(rt).count_done();
        self.changed.notify_one();
    }

    /// Takes up the first message. It waits while none lies here and the workers are done with fewer inputs than were given;
    /// nothing once no message is left and none can come, since they are done with all.
    pub fn take_up<R: Wait>(&self, rt: &R, given: u64) -> Option<Outbound<A>> {
        let mut load = self
            .changed
            .wait_while(rt, self.load.lock(rt), |load| load.is_awaited(given));
        load.take_up()
    }
}
