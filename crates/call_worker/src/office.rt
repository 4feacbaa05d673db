//! The office: it starts the workers, gives them their inputs, and closes.
ghost use Rattle.std.specs.Prelude.{◌≡◌, ◌↔◌, ◌++◌, ◌<◌, ◌≤◌, [], ℕ, List, map, All, Err, IfOk, IfErr, OnOk, OnErr, vec_len, vec_capacity};
ghost use Rattle.std.specs.List.{flat_map};
ghost use Rattle.radio_book.specs.Run.{Leads};
ghost use Rattle.radio_desk.specs.Receipts.{Receipt, IsRising};
ghost use Rattle.rsl_messages.specs.declared.fault.RslFault.{RslFault};
ghost use Rattle.receipt_check.specs.Gathering.{Gathers};
ghost use Rattle.call_worker.specs.States.{new_worker};
ghost use Rattle.call_worker.specs.Giving.{IsFor, IsGiven, IsUnreadableHere, MayBeAsked};
ghost use Rattle.call_worker.specs.Closing.{AreEnds, ClosesNot};

use crate::closing::{close_all, is_whole};
use crate::fault::{GiveFault, StartFault};
use crate::finding::number_of;
use crate::gate::Gate;
use crate::links::Links;
use crate::posted::{Posted, WorkerEnd};
use crate::starting::{Ready, prepare, start_all};
use exchange::Inbound;
use ho_procedure::shared::Shared;
use radio_book::book::Book;
use radio_desk::desk::Desk;
use radio_desk::seat::Receipt;
use receipt_check::CloseFault;
use std::alloc::{Allocator, Global};
use std::marker::Model;
use std::mem;
use std::sync::{Arc, Mutex, Wait};
use std::thread::Threads;

/// What is left of an office when it has closed.
#[derive(Drop)]
pub struct Closed<L, A: Allocator = Global> {
    /// The desk. Its history leads from the book that it opened with to its book.
    pub desk: Desk<A>,
    /// The receipts of the office's own seat, in their order: one `Owner` for each message on Abis that was asked about.
    pub front: Vec<Receipt, A>,
    /// What each worker did, in the order of the links that the office was started with.
    pub workers: Vec<WorkerEnd<L, A>, A>,
}

/// Why an office isn't closed, and what is left of it. Its workers have ended.
#[derive(Drop)]
pub struct Unclosed<L, A: Allocator = Global> {
    /// What is wrong with the desk or the receipts.
    pub fault: CloseFault,
    /// The desk, and what the office and its workers did there.
    pub left: Closed<L, A>,
}

/// Workers at one desk, each on a thread of its own. Only the thread that owns the office gives them inputs. Contracts see
/// the book with which the desk opened, the receipts of the office's own seat, and for each worker its site, its inputs, and
/// its links as they were at the start.
#[derive(Drop)]
pub struct Office<R: Threads + Wait + Drop, L: Links + Drop, A: Allocator = Global> {
    rt: R,
    alloc: A,
    opening: Book<A>,
    lock: Arc<Mutex<Desk<A>>, A>,
    spare: Desk<A>,
    front: Shared<R, A>,
    posts: Vec<Posted<L, A>, A>,
    ends: Vec<WorkerEnd<L, A>, A>,
}

impl<R: Threads + Wait + Drop, L: Links + Drop, A: Allocator> Model for Office<R, L, A> {
    ghost use Rattle.std.specs.Prelude.{◌≡◌, ◌<◌, ◌≤◌, [], vec_len, vec_capacity};
    ghost use Rattle.std.specs.Coded.{codes};
    ghost use Rattle.radio_book.specs.State.{state_code};
    ghost use Rattle.call_worker.specs.States.{OfficeState};

    ghost Value = { OfficeState L A };

    ghost coded = { Prim.hlevel (codes, state_code) };

    ghost view = { λ office. record {
      opening = office.opening;
      front = office.front;
      workers = office.posts.items;
    } };

    ghost invariant = { λ office. (0 < vec_len office.posts) × (office.ends.items ≡ []) ×
        (vec_len office.posts ≤ vec_capacity office.ends) };
}

/// An office of workers that were started.
fn opened<R: Threads + Wait + Drop, L: Links + Drop, A: Allocator + Copy>(
    rt: R,
    alloc: A,
    ready: Ready<R, L, A>,
    posts: Vec<Posted<L, A>, A>,
) -> Office<R, L, A>
    requires some { 0 < vec_len posts }
    requires empty { ready.ends.items ≡ [] }
    requires room { vec_len posts ≤ vec_capacity ready.ends }
    ensures opening { result.opening ≡ ready.opening }
    ensures front { result.front ≡ ready.front }
    ensures workers { result.workers ≡ posts.items }
{
    let Ready {
        opening,
        spare,
        lock,
        front,
        ends,
    } = ready;
    Office {
        rt,
        alloc,
        opening,
        lock,
        spare,
        front,
        posts,
        ends,
    }
}

impl<R: Threads + Wait + Drop, L: Links + Drop, A: Allocator + Copy> Office<R, L, A> {
    /// Starts an office at a desk: one worker, with a thread of its own, for each of the links, 1 to 16. The desk's history
    /// is empty, and the links have refused no message. `gate` is told how far calls have come.
    ///
    /// Each worker is a controller of the site of the desk's book, with a seat of its own at the desk and no report of any
    /// call.
    ///
    /// `Thread`: the system refused a worker its thread, as where the user has as many processes and threads as it may have
    /// (`RLIMIT_NPROC`). After a fault the workers that were started have ended. It waits only for this.
    pub fn start<G: Gate + Drop + Send + Sync + 'static>(
        rt: R,
        alloc: A,
        desk: Desk<A>,
        gate: Arc<G, A>,
        links: Vec<L, A>,
    ) -> Result<Office<R, L, A>, StartFault>
    where
        R: Clone + Send + 'static,
        L: Send + 'static,
        A: Send + Sync + 'static,
        requires count { (0 < vec_len links) × (vec_len links ≤ 16) }
        requires fresh { All (λ l. L.refused l ≡ 0) links.items }
        requires empty { desk.history ≡ [] }
        ensures opening { IfOk result (λ office. office.opening ≡ desk.opening) }
        ensures front { IfOk result (λ office. office.front ≡ []) }
        ensures workers { IfOk result (λ office. office.workers ≡
            map (new_worker desk.opening.site) links.items) }
    {
        let Ok(ready) = prepare(&rt, alloc, desk, links.len()) else {
            return Err(StartFault::NoMemory);
        };
        match start_all(&rt, alloc, &ready.opening, &ready.lock, &gate, links) {
            Ok(posts) => Ok(opened(rt, alloc, ready, posts)),
            Err(fault) => Err(fault),
        }
    }

    /// Gives an input to a worker: the one with the call's number modulo the number of workers. For a message on Abis the
    /// office asks the desk for the call of the channel that the message names. If no call has the channel, or the desk
    /// doesn't know the office's own last receipt, the worker is the one with the cell's number.
    ///
    /// It waits while the worker's inbox is full. After a fault no worker was given anything.
    pub fn give(&mut self, input: Inbound<A>) -> Result<(), GiveFault>
        ensures opening { self.new.opening ≡ self.old.opening }
        ensures ok { OnOk result (IsGiven input self.old self.new) }
        ensures err { OnErr result (self.new.workers ≡ self.old.workers) }
        ensures undecoded { (f : RslFault) → (result ≡ Err (GiveFault.Undecoded f)) ↔
            IsUnreadableHere input f }
        ensures ended { (worker : ℕ) → result ≡ Err (GiveFault.Ended worker) →
            IsFor input self.old self.new worker }
        ensures asked { (asked : List Receipt) × (self.new.front ≡ self.old.front ++ asked) ×
            MayBeAsked self.old.front input asked }
    {
        let number = number_of(self.alloc, &mut self.front, &input)?;
        let worker = number % self.posts.len();
        let posted = &mut self.posts[worker];
        posted.give(&self.rt, self.alloc, worker, input)
    }

    /// Ends the workers, each by a last letter after its inputs, and waits for them. Then it checks that their receipts and
    /// its own are the desk's history, and that the desk opens with the book with which the office was started.
    ///
    /// Each worker took a beginning of what it was given, in that order: all of it, unless it had no room to keep an input.
    /// What came of each input is as `Controller::handle` says, and its receipts are cut by the turns. Its links passed on
    /// the messages of its turns, in their order; where they refused some, those that they passed on and those that they
    /// refused are as many.
    ///
    /// Where something of this isn't so, the fault is of the desk, the receipts and the workers that are handed out with it.
    pub fn close(self) -> Result<Closed<L, A>, Unclosed<L, A>>
        ensures opening { IfOk result (λ closed. closed.desk.opening ≡ self.opening) }
        ensures legal { IfOk result (λ closed.
            Leads closed.desk.opening closed.desk.history closed.desk.book) }
        ensures receipts { IfOk result (λ closed. Gathers closed.desk.history
            (closed.front.items ++
            flat_map (λ worker. worker.receipts.items) closed.workers.items)) }
        ensures front { IfOk result (λ closed. closed.front.items ≡ self.front) }
        ensures rising { IfOk result (λ closed. IsRising closed.front.items) }
        ensures workers { IfOk result (λ closed.
            AreEnds L.passed L.refused self.workers closed.workers.items) }
        ensures fault { IfErr result (λ unclosed. ClosesNot L.passed L.refused self unclosed) }
    {
        let Office {
            rt,
            alloc,
            opening,
            lock,
            spare,
            front,
            posts,
            ends,
        } = self;
        let workers = close_all(&rt, posts, ends);
        let desk = mem::replace(&mut *lock.lock(&rt), spare);
        let front = front.into_receipts();
        let _entries = desk.len();
        let whole = is_whole(alloc, &desk, &opening, front.as_slice(), workers.as_slice());
        let left = Closed {
            desk,
            front,
            workers,
        };
        match whole {
            Ok(()) => Ok(left),
            Err(fault) => Err(Unclosed { fault, left }),
        }
    }
}
