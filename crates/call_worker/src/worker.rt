//! One worker, which takes inputs from its inbox, handles each, and keeps what came of it.
ghost use Rattle.std.specs.Prelude.{◌≡◌, ◌∷◌, ◌++◌, [], List, true, false};
ghost use Rattle.crossbeam_channel.specs.Claims.{view, IsSeatAt};
ghost use Rattle.crossbeam_channel.specs.Ends.{receives_on};
ghost use Rattle.worker_inbox.specs.Inbox.{log};
ghost use Rattle.radio_desk.specs.Receipts.{receipted};
ghost use Rattle.exchange.specs.declared.Inbound.{Inbound};
ghost use Rattle.ho_procedure.specs.Sent.{Sent, all_sent};
ghost use Rattle.ho_procedure.specs.Going.{last_reports};
ghost use Rattle.call_worker.specs.Turns.{Took, Follows};
ghost use Rattle.call_worker.specs.Finishing.{Finishes};

use crate::gate::{Gate, Gated};
use crate::letter::{Letter, next_input};
use crate::links::{Links, send_all};
use cell_table::Site;
use exchange::{Fault, Inbound, Outbound};
use ho_procedure::controller::Controller;
use radio_desk::seat::Receipt;
use std::alloc::{Allocator, Global};
use std::sync::{Arc, Wait};
use worker_inbox::{Inbox, InboxPass};

/// An input that a worker took, and what came of it.
#[derive(Drop)]
pub struct Turn<A: Allocator = Global> {
    /// What it was given.
    pub input: Inbound<A>,
    /// How many receipts the worker had once this input was handled.
    pub upto: usize,
    /// The input was handled to its end: `Controller::handle` answered Ok.
    pub ok: bool,
}

/// What a worker leaves.
#[derive(Drop)]
pub struct Finished<L, A: Allocator = Global> {
    pub receipts: Vec<Receipt, A>,
    pub taken: Vec<Turn<A>, A>,
    pub links: L,
    pub pass: InboxPass<Letter<A>>,
}

/// Handles an input: the messages that it owes, and whether it was handled to its end.
fn answer<R: Wait + Drop, G: Gate + Drop, A: Allocator + Copy>(
    alloc: A,
    controller: &mut Controller<Gated<R, G, A>, A>,
    input: Inbound<A>,
) -> (Vec<Outbound<A>, A>, bool)
    ensures took { Took controller.old.2
        (receipted controller.old.0) (last_reports controller.old.1) input result.1
        (receipted controller.new.0) (last_reports controller.new.1)
        (all_sent result.0.items) }
    ensures site { controller.new.2 ≡ controller.old.2 }
{
    match controller.handle(input) {
        Ok(out) => (out, true),
        Err(Fault::Undecoded(_, _)) => (Vec::new(alloc), false),
        Err(Fault::NoMemory(out)) => (out, false),
        Err(Fault::Desk(_, out)) => (out, false),
    }
}

/// A worker at its work. `keeps` is false once there was no room to keep an input.
#[derive(Drop)]
struct Worker<R: Wait + Drop, G: Gate + Drop, L: Drop, A: Allocator + Copy> {
    alloc: A,
    controller: Controller<Gated<R, G, A>, A>,
    taken: Vec<Turn<A>, A>,
    links: L,
    keeps: bool,
}

/// Handles an input, and keeps it. Where there is no room to keep it nothing is asked, and no later input is kept.
fn handle_one<R: Wait + Drop, G: Gate + Drop, L: Links + Drop, A: Allocator + Copy>(
    worker: &mut Worker<R, G, L, A>,
    input: Inbound<A>,
)
    requires { worker.old.keeps ≡ true }
    ensures site { worker.new.controller.2 ≡ worker.old.controller.2 }
    ensures follows { (start : List Sent) (got : List (Inbound A)) →
        Follows worker.old.controller.2 start got (receipted worker.old.controller.0)
        (last_reports worker.old.controller.1) worker.old.taken.items
        (L.passed worker.old.links) (L.refused worker.old.links) worker.old.keeps →
        Follows worker.old.controller.2 start (got ++ input ∷ []) (receipted worker.new.controller.0)
        (last_reports worker.new.controller.1) worker.new.taken.items
        (L.passed worker.new.links) (L.refused worker.new.links) worker.new.keeps }
{
    if worker.taken.reserve(1).is_err() {
        worker.keeps = false;
        return;
    }
    let Ok(kept) = input.copy(worker.alloc) else {
        worker.keeps = false;
        return;
    };
    let (out, ok) = answer(worker.alloc, &mut worker.controller, input);
    let upto = worker.controller.view().len();
    send_all(&mut worker.links, out);
    worker.taken.push_reserved(Turn {
        input: kept,
        upto,
        ok,
    });
}

/// What a worker does with an input: it handles and keeps it, or, once it has no room to keep one, drops it.
fn receive<R: Wait + Drop, G: Gate + Drop, L: Links + Drop, A: Allocator + Copy>(
    worker: &mut Worker<R, G, L, A>,
    input: Inbound<A>,
)
    ensures site { worker.new.controller.2 ≡ worker.old.controller.2 }
    ensures follows { (start : List Sent) (got : List (Inbound A)) →
        Follows worker.old.controller.2 start got (receipted worker.old.controller.0)
        (last_reports worker.old.controller.1) worker.old.taken.items
        (L.passed worker.old.links) (L.refused worker.old.links) worker.old.keeps →
        Follows worker.old.controller.2 start (got ++ input ∷ []) (receipted worker.new.controller.0)
        (last_reports worker.new.controller.1) worker.new.taken.items
        (L.passed worker.new.links) (L.refused worker.new.links) worker.new.keeps }
{
    if !worker.keeps {
        drop(input);
        worker.links.done();
        return;
    }
    handle_one(worker, input);
    worker.links.done();
}

/// Takes inputs until the last letter comes.
pub(crate) fn work<R: Wait + Drop, G: Gate + Drop, L: Links + Drop, A: Allocator + Copy>(
    rt: &R,
    alloc: A,
    site: Arc<Site<A>, A>,
    seat: Gated<R, G, A>,
    inbox: Inbox<Letter<A>, A>,
    mut pass: InboxPass<Letter<A>>,
    links: L,
) -> Finished<L, A>
    requires pass { IsSeatAt (receives_on inbox) pass × (view pass ≡ log false true [] []) }
    requires fresh { (seat ≡ []) × (L.refused links ≡ 0) }
    ensures { Finishes L.passed L.refused (IsSeatAt (receives_on inbox)) site.value links result }
{
    let mut worker = Worker {
        alloc,
        controller: Controller::new(alloc, seat, site),
        taken: Vec::new(alloc),
        links,
        keeps: true,
    };
    for _ in rt.forever() {
        let Some(input) = next_input(rt, &inbox, &mut pass) else {
            break;
        };
        receive(&mut worker, input);
    }
    let Worker {
        alloc: _,
        controller,
        taken,
        links,
        keeps: _,
    } = worker;
    Finished {
        receipts: controller.into_view().into_shared().into_receipts(),
        taken,
        links,
        pass,
    }
}
