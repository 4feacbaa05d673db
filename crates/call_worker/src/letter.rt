//! The letters in a worker's inbox.
ghost use Rattle.std.specs.Prelude.{◌≡◌, ◌∷◌, ◌++◌, [], true, MatchBool, MatchOption};
ghost use Rattle.crossbeam_channel.specs.Claims.{view, IsSeatAt};
ghost use Rattle.crossbeam_channel.specs.Ends.{sends_on, receives_on};
ghost use Rattle.call_worker.specs.Turns.{inputs_of};

use exchange::Inbound;
use std::alloc::{Allocator, Global};
use std::sync::Wait;
use worker_inbox::{Inbox, InboxPass, Post, post, take};

/// A letter in a worker's inbox.
#[derive(Drop)]
pub enum Letter<A: Allocator = Global> {
    /// An input that is to be handled.
    Input(Inbound<A>),
    /// The worker ends.
    Last,
}

/// Sends an input, and waits while the inbox is full. False where the worker has ended: nothing was sent.
#[tactic(auto, using(crate::proofs::Turning::input_more))]
pub(crate) fn send_input<R: Wait, A: Allocator>(
    rt: &R,
    end: &Post<Letter<A>, A>,
    pass: &mut InboxPass<Letter<A>>,
    input: Inbound<A>,
) -> bool
    requires seat { IsSeatAt (sends_on end.now) pass.old }
    requires sends { (view pass.old).sends ≡ true }
    ensures seat { IsSeatAt (sends_on end.now) pass.new × ((view pass.new).sends ≡ true) }
    ensures sent { MatchBool result
        (inputs_of (view pass.new).sent ≡ inputs_of (view pass.old).sent ++ input ∷ [])
        (inputs_of (view pass.new).sent ≡ inputs_of (view pass.old).sent) }
{
    match post(rt, end, pass, Letter::Input(input)) {
        Ok(()) => true,
        Err(_) => false,
    }
}

/// Sends the last letter, or finds that the worker has ended.
#[tactic(auto, using(crate::proofs::Turning::last_more))]
pub(crate) fn send_last<R: Wait, A: Allocator>(
    rt: &R,
    end: &Post<Letter<A>, A>,
    pass: &mut InboxPass<Letter<A>>,
)
    requires seat { IsSeatAt (sends_on end.now) pass.old }
    requires sends { (view pass.old).sends ≡ true }
    ensures seat { IsSeatAt (sends_on end.now) pass.new × ((view pass.new).sends ≡ true) }
    ensures sent { inputs_of (view pass.new).sent ≡ inputs_of (view pass.old).sent }
{
    match post(rt, end, pass, Letter::Last) {
        Ok(()) => {}
        Err(_) => {}
    }
}

/// The next input. `None` at the last letter, and where who sends is gone.
#[tactic(auto, using(crate::proofs::Turning::input_more, crate::proofs::Turning::last_more))]
pub(crate) fn next_input<R: Wait, A: Allocator>(
    rt: &R,
    inbox: &Inbox<Letter<A>, A>,
    pass: &mut InboxPass<Letter<A>>,
) -> Option<Inbound<A>>
    requires seat { IsSeatAt (receives_on inbox.now) pass.old }
    requires takes { (view pass.old).takes ≡ true }
    ensures seat { IsSeatAt (receives_on inbox.now) pass.new × ((view pass.new).takes ≡ true) }
    ensures input { MatchOption result
        (inputs_of (view pass.new).taken ≡ inputs_of (view pass.old).taken)
        (λ input. inputs_of (view pass.new).taken ≡
        inputs_of (view pass.old).taken ++ input ∷ []) }
{
    match take(rt, inbox, pass) {
        Ok(Letter::Input(input)) => Some(input),
        Ok(Letter::Last) => None,
        Err(_) => None,
    }
}
