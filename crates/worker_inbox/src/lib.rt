//! An inbox between two threads: one sends, the other takes. What was sent is what was taken, in the same order, followed by
//! what still waits in the inbox.
//!
//! A proof can't look into a channel that threads share. So each of the two carries a *pass*: a value without bytes, which
//! exists in proofs alone and knows what its thread has done so far. [`post`] and [`take`] write it on. Once both passes
//! are in one thread again, [`settle`] compares them.
#![tactic(auto)]

ghost use Rattle.std.specs.Prelude.{◌≡◌, ◌<◌, ◌∷◌, ◌++◌, [], List, true, false, IfOk, MatchResult};
ghost use Rattle.crossbeam_channel.specs.Claims.{view, IsSeatAt};
ghost use Rattle.crossbeam_channel.specs.Ends.{sends_on, receives_on};
ghost use Rattle.crossbeam_channel.specs.Err.{send_message};
ghost use Rattle.worker_inbox.specs.Inbox.{log};

pub mod rule;

use crate::rule::{InOrder, Log, Roles, Sends, Takes, Total};
use crossbeam_channel::{Pass, RecvError, RuledReceiver, RuledSender, SendError, bounded_with};
use std::alloc::{AllocError, Allocator};
use std::sync::Wait;

/// The end that messages are sent to.
pub type Post<T, A> = RuledSender<T, Log<T>, InOrder, A>;

/// The end that messages are taken from.
pub type Inbox<T, A> = RuledReceiver<T, Log<T>, InOrder, A>;

/// What one thread has done at an inbox. No clause can be had without it.
pub type InboxPass<T> = Pass<T, Log<T>>;

/// A new inbox, in which so many messages can wait: its two ends, the pass of who sends, and the pass of who takes.
pub fn open_inbox<T: Drop, A: Allocator + Copy>(
    alloc: A,
    size: usize,
) -> Result<(Post<T, A>, Inbox<T, A>, InboxPass<T>, InboxPass<T>), AllocError>
    requires { 0 < size }
    ensures ends { IfOk result (λ r. receives_on r.1 ≡ sends_on r.0) }
    ensures passes { IfOk result (λ r. IsSeatAt (sends_on r.0) r.2 ×
        IsSeatAt (sends_on r.0) r.3) }
    ensures views { IfOk result (λ r. (view r.2 ≡ log true false [] []) ×
        (view r.3 ≡ log false true [] [])) }
{
    let (post, inbox, mut pass) = bounded_with::<T, Log<T>, InOrder, A>(alloc, size)?;
    let other = post.another::<Roles>(&mut pass);
    Ok((post, inbox, pass, other))
}

/// Sends a message, and waits while the inbox is full. `Err` hands it back: the other end is gone.
pub fn post<T: Drop, R: Wait, A: Allocator>(
    rt: &R,
    end: &Post<T, A>,
    pass: &mut InboxPass<T>,
    message: T,
) -> Result<(), SendError<T>>
    requires seat { IsSeatAt (sends_on end.now) pass.old }
    requires sends { (view pass.old).sends ≡ true }
    ensures seat { IsSeatAt (sends_on end.now) pass.new }
    ensures sent { MatchResult result
        (λ _. view pass.new ≡ log (view pass.old).sends (view pass.old).takes
        ((view pass.old).sent ++ message ∷ []) (view pass.old).taken)
        (λ e. (send_message e ≡ message) × (view pass.new ≡ view pass.old)) }
{
    end.send_as::<Sends, R>(rt, pass, message)
}

/// Takes the message that has waited longest, and waits while there is none. `Err`: there is none, and the other end is
/// gone.
pub fn take<T: Drop, R: Wait, A: Allocator>(
    rt: &R,
    end: &Inbox<T, A>,
    pass: &mut InboxPass<T>,
) -> Result<T, RecvError>
    requires seat { IsSeatAt (receives_on end.now) pass.old }
    requires takes { (view pass.old).takes ≡ true }
    ensures seat { IsSeatAt (receives_on end.now) pass.new }
    ensures taken { MatchResult result
        (λ x. view pass.new ≡ log (view pass.old).sends (view pass.old).takes
        (view pass.old).sent ((view pass.old).taken ++ x ∷ []))
        (λ _. view pass.new ≡ view pass.old) }
{
    end.recv_as::<Takes, R>(rt, pass)
}

/// Puts both passes together: what the one has sent is what the other has taken, and then what is left in the inbox.
pub fn settle<T: Drop, A: Allocator>(end: &Post<T, A>, pass: &mut InboxPass<T>, other: InboxPass<T>)
    requires seats { IsSeatAt (sends_on end.now) pass.old × IsSeatAt (sends_on end.now) other }
    requires roles { ((view pass.old).sends ≡ true) × ((view other).takes ≡ true) }
    ensures order { (left : List T) × ((view pass.old).sent ≡ (view other).taken ++ left) }
{
    end.absorb::<Roles>(pass, other);
    end.learn_as::<Total>(pass);
}
