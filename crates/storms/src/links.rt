//! What the workers of a storm send by.
ghost use Rattle.std.specs.Prelude.{◌≡◌, ◌↔◌, ◌+◌, ◌≤◌, vec_len, vec_capacity, IfOk, IsTrue, OnOk};
ghost use Rattle.ho_procedure.specs.Sent.{sent};

use crate::tray::Tray;
use call_worker::{Links, copy_of};
use exchange::Outbound;
use std::alloc::{AllocError, Allocator, Global};
use std::sync::{Arc, Wait};

/// A worker's way to the tray. It keeps a copy of each message that it passed on, since what lies on a tray that several
/// threads share can't be named in a contract.
#[derive(Drop)]
pub struct TrayLinks<R: Drop, A: Allocator = Global> {
    rt: R,
    alloc: A,
    tray: Arc<Tray<A>, A>,
    passed: Vec<Outbound<A>, A>,
    refused: u64,
}

impl<R: Drop, A: Allocator + Copy> TrayLinks<R, A> {
    /// Links to this tray, which have passed nothing on yet.
    pub fn new(rt: R, alloc: A, tray: Arc<Tray<A>, A>) -> TrayLinks<R, A>
        ensures refused { result.refused ≡ 0 }
    {
        TrayLinks {
            rt,
            alloc,
            tray,
            passed: Vec::new(alloc),
            refused: 0,
        }
    }

    /// Whether no message was lost.
    pub fn passed_all(&self) -> bool
        ensures { IsTrue result ↔ (self.now.refused ≡ 0) }
    {
        self.refused == 0
    }
}

impl<R: Wait + Drop, A: Allocator + Copy> TrayLinks<R, A> {
    /// Lays a copy of a message on the tray. The answer is another copy, for which there is room among those that are kept.
    fn offer<B: Allocator>(&mut self, message: &Outbound<B>) -> Result<Outbound<A>, AllocError>
        ensures room { OnOk result (vec_len self.new.passed + 1 ≤ vec_capacity self.new.passed) }
        ensures copy { IfOk result (λ copy. sent copy ≡ sent message.now) }
        ensures passed { self.new.passed.items ≡ self.old.passed.items }
        ensures refused { self.new.refused ≡ self.old.refused }
    {
        self.passed.reserve(1)?;
        let kept = copy_of(self.alloc, message)?;
        let laid = copy_of(self.alloc, message)?;
        self.tray.lay(&self.rt, laid)?;
        Ok(kept)
    }
}

impl<R: Wait + Drop, A: Allocator + Copy> Links for TrayLinks<R, A> {
    ghost use Rattle.std.specs.Prelude.{◌≡◌, ◌∷◌, ◌++◌, [], OnOk, OnErr};
    ghost use Rattle.ho_procedure.specs.Sent.{all_sent, sent};
    ghost use Rattle.call_worker.specs.Sending.{one_more};

    ghost passed = { λ links. all_sent links.passed.items };

    ghost refused = { λ links. links.refused };

    #[tactic(auto, using(crate::proofs::Passing::passed_more))]
    fn send<B: Allocator>(&mut self, message: Outbound<B>) -> Result<(), AllocError>
        ensures ok { OnOk result (all_sent self.new.passed.items ≡
            all_sent self.old.passed.items ++ sent message ∷ []) }
        ensures kept { OnOk result (self.new.refused ≡ self.old.refused) }
        ensures lost { OnErr result (all_sent self.new.passed.items ≡ all_sent self.old.passed.items) }
        ensures counted { OnErr result (self.new.refused ≡ one_more self.old.refused) }
    {
        match self.offer(&message) {
            Ok(kept) => {
                self.passed.push_reserved(kept);
                Ok(())
            }
            Err(AllocError) => {
                self.refused = self.refused.saturating_add(1);
                Err(AllocError)
            }
        }
    }

    fn done(&mut self)
        ensures passed { all_sent self.new.passed.items ≡ all_sent self.old.passed.items }
        ensures refused { self.new.refused ≡ self.old.refused }
    {
        self.tray.count_done(&self.rt);
    }
}
