//! Links for tests: they keep what they pass on, and tell how many inputs were taken.
ghost use Rattle.std.specs.Prelude.{◌≡◌, ◌∷◌, ◌++◌, [], All, IfOk, OnOk, OnErr, vec_len};
ghost use Rattle.ho_procedure.specs.Sent.{sent, all_sent};
ghost use Rattle.call_worker.specs.Sending.{one_more};

use call_worker::{Links, copy_of};
use exchange::Outbound;
use std::alloc::{AllocError, Allocator};
use std::sync::{Arc, Condvar, Mutex, Wait};

/// How many inputs all workers of an office have taken.
#[derive(Drop)]
pub struct Taken {
    count: Mutex<u64>,
    moved: Condvar,
}

impl Taken {
    /// None was taken.
    pub fn new() -> Taken {
        Taken {
            count: Mutex::new(0),
            moved: Condvar::new(),
        }
    }

    fn add<R: Wait>(&self, rt: &R) {
        let mut count = self.count.lock(rt);
        *count = count.saturating_add(1);
        self.moved.notify_all();
    }

    /// How many were taken so far.
    pub fn so_far<R: Wait>(&self, rt: &R) -> u64 {
        *self.count.lock(rt)
    }

    /// Waits until so many inputs were taken.
    pub fn wait_for<R: Wait>(&self, rt: &R, wanted: u64) {
        let _count = self
            .moved
            .wait_while(rt, self.count.lock(rt), |count| *count < wanted);
    }
}

/// The links of one worker. A message is refused where there is no room to keep it.
#[derive(Drop)]
pub struct Bag<R: Wait + Drop, A: Allocator> {
    rt: R,
    alloc: A,
    taken: Arc<Taken, A>,
    /// What was passed on, in its order.
    pub sent: Vec<Outbound<A>, A>,
    /// How many messages were refused.
    pub refused: u64,
    /// How many it had passed on when it was told of the last input that was taken.
    pub told: usize,
}

impl<R: Wait + Drop, A: Allocator + Copy> Bag<R, A> {
    /// Links that have passed nothing on.
    pub fn new(rt: R, alloc: A, taken: Arc<Taken, A>) -> Bag<R, A>
        ensures fresh { result.refused ≡ 0 }
    {
        Bag {
            rt,
            alloc,
            taken,
            sent: Vec::new(alloc),
            refused: 0,
            told: 0,
        }
    }
}

impl<R: Wait + Drop, A: Allocator + Copy> Bag<R, A> {
    /// Keeps a copy of a message.
    #[tactic(auto, using(crate::proofs::Passing::passed_more))]
    fn keep<B: Allocator>(&mut self, message: &Outbound<B>) -> Result<(), AllocError>
        ensures kept { OnOk result (all_sent self.new.sent.items ≡
            all_sent self.old.sent.items ++ sent message.now ∷ []) }
        ensures refused { self.new.refused ≡ self.old.refused }
        ensures lost { OnErr result (self.new.sent.items ≡ self.old.sent.items) }
    {
        let kept = copy_of(self.alloc, message)?;
        self.sent.push(kept).map_err(AllocError::from)
    }
}

impl<R: Wait + Drop, A: Allocator + Copy> Links for Bag<R, A> {
    ghost use Rattle.ho_procedure.specs.Sent.{all_sent};

    ghost passed = { λ bag. all_sent bag.sent.items };

    ghost refused = { λ bag. bag.refused };

    fn send<B: Allocator>(&mut self, message: Outbound<B>) -> Result<(), AllocError>
        ensures ok { OnOk result (all_sent self.new.sent.items ≡
            all_sent self.old.sent.items ++ sent message ∷ []) }
        ensures kept { OnOk result (self.new.refused ≡ self.old.refused) }
        ensures lost { OnErr result (all_sent self.new.sent.items ≡
            all_sent self.old.sent.items) }
        ensures counted { OnErr result (self.new.refused ≡ one_more self.old.refused) }
    {
        match self.keep(&message) {
            Ok(()) => Ok(()),
            Err(AllocError) => {
                self.refused = self.refused.saturating_add(1);
                Err(AllocError)
            }
        }
    }

    fn done(&mut self)
        ensures passed { all_sent self.new.sent.items ≡ all_sent self.old.sent.items }
        ensures refused { self.new.refused ≡ self.old.refused }
    {
        self.told = self.sent.len();
        self.taken.add(&self.rt);
    }
}

/// The links of so many workers.
pub fn bags<R: Wait + Clone + Drop, A: Allocator + Copy>(
    rt: &R,
    alloc: A,
    taken: &Arc<Taken, A>,
    workers: usize,
) -> Result<Vec<Bag<R, A>, A>, AllocError>
    ensures count { IfOk result (λ bags. vec_len bags ≡ workers) }
    ensures fresh { IfOk result (λ bags. All (λ bag. bag.refused ≡ 0) bags.items) }
{
    let mut bags = Vec::new(alloc);
    for _ in 0..workers {
        bags.push(Bag::new(rt.clone()?, alloc, Arc::try_clone(taken)?))?;
    }
    Ok(bags)
}
