//! A desk that threads share.
ghost use Rattle.std.specs.Prelude.{◌≡◌, ◌∷◌, ◌++◌, [], ℕ, length, Err, IfOk, IfSome, MatchOption, OnErr};
ghost use Rattle.radio_desk.specs.Receipts.{IsRising, Joined, receipted};
ghost use Rattle.ho_procedure.specs.Claims.{IsFor, SaysNone, SaysChosen};
ghost use Rattle.ho_procedure.specs.Seats.{IsLastPlace};

use crate::view::DeskView;
use radio_book::ask::Ask;
use radio_desk::desk::{Desk, DeskFault};
use radio_desk::seat::{Receipt, Seat};
use std::alloc::{Allocator, Global};
use std::marker::Model;
use std::sync::{Arc, Mutex, Wait};

/// One thread's seat at a desk that threads share under one lock, with its receipts. Contracts see it as these receipts, in
/// order.
///
/// Each call takes the lock, and may wait for another thread to give it back. Between two calls others may have asked the
/// desk. So it says nothing of the desk's book: any call may find no channel free. Once the seat has a receipt, it may meet
/// a desk that doesn't know the last one.
pub struct Shared<R: Drop, A: Allocator = Global> {
    rt: R,
    lock: Arc<Mutex<Desk<A>>, A>,
    seat: Seat,
    receipts: Vec<Receipt, A>,
}

// By hand, as that of a controller.
impl<R: Drop, A: Allocator> Drop for Shared<R, A> {
    fn drop(self) {
        let Shared {
            rt: _,
            lock: _,
            seat: _,
            receipts: _,
        } = self;
    }
}

impl<R: Drop, A: Allocator> Model for Shared<R, A> {
    ghost use Rattle.std.specs.Prelude.{List};
    ghost use Rattle.radio_desk.specs.Receipts.{Receipt, IsSeated};

    ghost Value = { List Receipt };

    ghost view = { λ shared. shared.receipts.items };

    ghost invariant = { λ shared. IsSeated shared.receipts.items shared.seat };
}

impl<R: Drop, A: Allocator + Copy> Shared<R, A> {
    /// A new seat at the desk under the lock. It has no receipt yet, and takes no memory: `alloc` serves for the receipts
    /// to come.
    pub fn new(rt: R, alloc: A, lock: Arc<Mutex<Desk<A>>, A>) -> Shared<R, A>
        ensures none { result ≡ [] }
    {
        Shared {
            rt,
            lock,
            seat: Seat::new(),
            receipts: Vec::new(alloc),
        }
    }

    /// How many receipts it has.
    pub fn len(&self) -> usize
        ensures len { result ≡ length self.now }
    {
        self.receipts.len()
    }

    /// Its receipts: one for each event that was answered, in their order, so that their places rise.
    pub fn into_receipts(self) -> Vec<Receipt, A>
        ensures receipts { result.items ≡ self }
        ensures rising { IsRising result.items }
    {
        let Shared {
            rt: _,
            lock: _,
            seat: _,
            receipts,
        } = self;
        receipts
    }
}

impl<R: Wait + Drop, A: Allocator + Copy> DeskView for Shared<R, A> {
    ghost use Rattle.radio_desk.specs.Receipts.{Joined, receipted};

    ghost log = { λ shared. receipted shared };

    ghost says = { λ shared log claim. Unit {0} };

    ghost judged = { λ before receipt after. Joined before receipt after };

    // Room for the receipt is made before the event is asked: what was judged is kept. Each clause says more than the
    // trait's: where nothing was answered the receipts are the same, each at its place, and a foreign desk is one that
    // doesn't know the last of them.
    #[tactic(auto, using(crate::proofs::Seats::receipted_more))]
    fn ask(&mut self, ask: Ask) -> Result<Option<Receipt>, DeskFault>
        ensures ok { IfOk result (λ answer. MatchOption answer
            ((self.new ≡ self.old) × SaysNone (λ claim. Unit {0}) ask)
            (λ r. IsFor ask r.event × SaysChosen (λ claim. Unit {0}) ask r.event ×
            (receipted self.new ≡ receipted self.old ++ (r.event, r.reply) ∷ []))) }
        ensures receipt { IfOk result (λ answer. IfSome answer (λ r. Joined self.old r self.new)) }
        ensures err { OnErr result (self.new ≡ self.old) }
        ensures place { (place : ℕ) → result ≡ Err (DeskFault.Foreign place) →
            IsLastPlace self.old place }
    {
        self.receipts.reserve(1)?;
        let found = self.lock.lock(&self.rt).ask(&mut self.seat, ask)?;
        if let Some(receipt) = found {
            self.receipts.push_reserved(receipt);
        }
        Ok(found)
    }
}
