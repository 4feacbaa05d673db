//! A worker as its office holds it.
ghost use Rattle.std.specs.Prelude.{◌≡◌, ◌≢◌, ◌∷◌, ◌++◌, [], ℕ, true, false, IfOk, OnOk, OnErr, Err};
ghost use Rattle.crossbeam_channel.specs.Claims.{view, IsSeatAt};
ghost use Rattle.crossbeam_channel.specs.Ends.{receives_on};
ghost use Rattle.rsl_messages.specs.declared.fault.RslFault.{RslFault};
ghost use Rattle.worker_inbox.specs.Inbox.{log};
ghost use Rattle.call_worker.specs.States.{new_worker, with_input};
ghost use Rattle.call_worker.specs.Finishing.{Finishes};
ghost use Rattle.call_worker.specs.Ending.{IsEnd};

use crate::fault::{GiveFault, StartFault};
use crate::gate::{Gate, Gated};
use crate::letter::{Letter, send_input, send_last};
use crate::links::Links;
use crate::worker::{Finished, Turn, work};
use cell_table::Site;
use exchange::Inbound;
use ho_procedure::shared::Shared;
use radio_desk::desk::Desk;
use radio_desk::seat::Receipt;
use std::alloc::{AllocError, Allocator, Global};
use std::marker::Model;
use std::snapshot::Snapshot;
use std::sync::{Arc, Mutex, Wait};
use std::thread;
use std::thread::{Promise, PromisedHandle, Threads};
use worker_inbox::{Inbox, InboxPass, Post, open_inbox, settle};

/// How many letters wait in an inbox at most.
const ROOM: usize = 64;

/// What one worker did.
#[derive(Drop)]
pub struct WorkerEnd<L, A: Allocator = Global> {
    /// The receipts that it got, in their order.
    pub receipts: Vec<Receipt, A>,
    /// The inputs that it was given, in that order.
    pub given: Vec<Inbound<A>, A>,
    /// Those that it took, and what came of each: the first of `given`. The others it dropped, for want of memory.
    pub taken: Vec<Turn<A>, A>,
    /// The links that it sent its messages by.
    pub links: L,
}

/// What a worker is held to once it has ended: at this inbox, of this site, with these links as they were.
#[derive(Drop)]
pub struct Pledge<L, A: Allocator> {
    inbox: Snapshot<Inbox<Letter<A>, A>>,
    site: Snapshot<Arc<Site<A>, A>>,
    links: Snapshot<L>,
}

impl<L: Links, A: Allocator> Promise<Finished<L, A>> for Pledge<L, A> {
    ghost use Rattle.crossbeam_channel.specs.Claims.{IsSeatAt};
    ghost use Rattle.crossbeam_channel.specs.Ends.{receives_on};
    ghost use Rattle.call_worker.specs.Finishing.{Finishes};

    ghost kept_by = { λ p r. Finishes L.passed L.refused (IsSeatAt (receives_on p.inbox.value))
        p.site.value.value p.links.value r };
}

/// A worker's thread, and the end of its inbox that inputs are sent to. Contracts see what its office knows of it.
#[derive(Drop)]
pub struct Posted<L: Links + Drop, A: Allocator = Global> {
    end: Post<Letter<A>, A>,
    pass: InboxPass<Letter<A>>,
    given: Vec<Inbound<A>, A>,
    child: PromisedHandle<Finished<L, A>, Pledge<L, A>>,
}

impl<L: Links + Drop, A: Allocator> Model for Posted<L, A> {
    ghost use Rattle.std.specs.Prelude.{◌≡◌, true};
    ghost use Rattle.crossbeam_channel.specs.Claims.{view as pass_view, IsSeatAt};
    ghost use Rattle.crossbeam_channel.specs.Ends.{sends_on, receives_on};
    ghost use Rattle.call_worker.specs.States.{WorkerState};
    ghost use Rattle.call_worker.specs.Turns.{inputs_of};

    ghost Value = { WorkerState L A };

    ghost view = { λ p. record {
      site = p.child.promise.site.value.value;
      given = p.given.items;
      links = p.child.promise.links.value;
    } };

    ghost invariant = { λ p. (receives_on p.child.promise.inbox.value ≡ sends_on p.end) ×
        IsSeatAt (sends_on p.end) p.pass × ((pass_view p.pass).sends ≡ true) ×
        (inputs_of (pass_view p.pass).sent ≡ p.given.items) };
}

/// A runtime for the worker's seat, and one for its loop.
fn two<R: Clone + Drop>(rt: &R) -> Result<(R, R), AllocError> {
    Ok((rt.clone()?, rt.clone()?))
}

impl<L: Links + Drop, A: Allocator + Copy> Posted<L, A> {
    /// Starts a worker, with an empty inbox and a new seat at the desk.
    pub(crate) fn start<
        R: Threads + Wait + Clone + Drop + Send + 'static,
        G: Gate + Drop + Send + Sync + 'static,
    >(
        rt: &R,
        alloc: A,
        site: Arc<Site<A>, A>,
        lock: Arc<Mutex<Desk<A>>, A>,
        gate: Arc<G, A>,
        links: L,
    ) -> Result<Posted<L, A>, StartFault>
    where
        L: Send + 'static,
        A: Send + Sync + 'static,
        requires { L.refused links ≡ 0 }
        ensures { IfOk result (λ posted. posted ≡ new_worker site.value links) }
    {
        let Ok((own, other)) = two(rt) else {
            return Err(StartFault::NoMemory);
        };
        let Ok((end, inbox, pass, worker_pass)) = open_inbox::<Letter<A>, A>(alloc, ROOM) else {
            return Err(StartFault::NoMemory);
        };
        let seat = Gated::new(Shared::new(own, alloc, lock), gate);
        let pledge = Pledge {
            inbox: Snapshot::of(&inbox),
            site: Snapshot::of(&site),
            links: Snapshot::of(&links),
        };
        let child = thread::spawn_with(
            rt,
            pledge,
            move || -> Finished<L, A>
                requires { IsSeatAt (receives_on inbox) worker_pass ×
                    (view worker_pass ≡ log false true [] []) ×
                    (seat ≡ []) × (L.refused links ≡ 0) }
                ensures { Finishes L.passed L.refused (IsSeatAt (receives_on inbox))
                    site.value links result }
            { work(&other, alloc, site, seat, inbox, worker_pass, links) },
        );
        match child {
            Ok(child) => Ok(Posted {
                end,
                pass,
                given: Vec::new(alloc),
                child,
            }),
            Err(_) => Err(StartFault::Thread),
        }
    }

    /// Sends it an input, and waits while its inbox is full. At `Err` nothing was sent. Where it has ended, its number among
    /// the workers is told.
    pub(crate) fn give<R: Wait>(
        &mut self,
        rt: &R,
        alloc: A,
        number: usize,
        input: Inbound<A>,
    ) -> Result<(), GiveFault>
        ensures ok { OnOk result (self.new ≡ with_input input self.old) }
        ensures err { OnErr result (self.new ≡ self.old) }
        ensures read { (f : RslFault) → result ≢ Err (GiveFault.Undecoded f) }
        ensures ended { (n : ℕ) → result ≡ Err (GiveFault.Ended n) → n ≡ number }
    {
        if self.given.reserve(1).is_err() {
            return Err(GiveFault::NoMemory);
        }
        let Ok(copy) = input.copy(alloc) else {
            return Err(GiveFault::NoMemory);
        };
        if !send_input(rt, &self.end, &mut self.pass, copy) {
            return Err(GiveFault::Ended(number));
        }
        self.given.push_reserved(input);
        Ok(())
    }

    /// Ends the worker, waits for it, and compares what was sent to its inbox with what it took from there.
    pub(crate) fn close<R: Wait + Threads>(self, rt: &R) -> WorkerEnd<L, A>
        ensures { IsEnd L.passed L.refused self result }
    {
        let Posted {
            end,
            mut pass,
            given,
            child,
        } = self;
        send_last(rt, &end, &mut pass);
        let Finished {
            receipts,
            taken,
            links,
            pass: other,
        } = child.join(rt);
        settle(&end, &mut pass, other);
        WorkerEnd {
            receipts,
            given,
            taken,
            links,
        }
    }
}
