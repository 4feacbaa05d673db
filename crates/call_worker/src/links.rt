//! Where a worker's messages go.
ghost use Rattle.std.specs.Prelude.{◌≡◌, ◌∷◌, ◌++◌, [], List, ℕ, IfOk, OnOk, OnErr};
ghost use Rattle.ho_procedure.specs.Sent.{Sent, SendsOctets, sent, all_sent};
ghost use Rattle.call_worker.specs.Sending.{one_more, Carries};

use exchange::Outbound;
use octet_elements::Octets;
use std::alloc::{AllocError, Allocator};

/// The links by which a worker sends its messages, whatever memory they are in. Contracts see the messages that were passed
/// on, in order, and how many were refused: a count of 64 bits, which stops at its highest value.
pub trait Links {
    ghost passed: { Self → List Sent };

    ghost refused: { Self → ℕ };

    /// Passes a message on. `Err`: memory was refused, and the message is lost.
    fn send<A: Allocator>(&mut self, message: Outbound<A>) -> Result<(), AllocError>
        ensures ok { OnOk result (passed self.new ≡ passed self.old ++ sent message ∷ []) }
        ensures kept { OnOk result (refused self.new ≡ refused self.old) }
        ensures lost { OnErr result (passed self.new ≡ passed self.old) }
        ensures counted { OnErr result (refused self.new ≡ one_more (refused self.old)) };

    /// An input was taken, and its messages were sent.
    fn done(&mut self)
        ensures passed { passed self.new ≡ passed self.old }
        ensures refused { refused self.new ≡ refused self.old };
}

/// A copy of a message, in memory of `alloc`: links that keep a message keep it in their own. Memory is asked for,
/// for the octets of a message that has some.
pub fn copy_of<A: Allocator + Copy, B: Allocator>(
    alloc: A,
    message: &Outbound<B>,
) -> Result<Outbound<A>, AllocError>
    ensures same { IfOk result (λ copy. sent copy ≡ sent message.now) }
    ensures memory { OnErr result (SendsOctets (sent message.now)) }
{
    match message {
        Outbound::Abis { cell, trx, bytes } => Ok(Outbound::Abis {
            cell: *cell,
            trx: *trx,
            bytes: Octets::new(alloc, bytes.as_slice())?,
        }),
        Outbound::A { call, bytes } => Ok(Outbound::A {
            call: *call,
            bytes: Octets::new(alloc, bytes.as_slice())?,
        }),
    }
}

/// Passes messages on, in their order. One that is refused is lost.
pub(crate) fn send_all<L: Links, A: Allocator>(links: &mut L, out: Vec<Outbound<A>, A>)
    ensures { Carries (L.passed links.old) (L.refused links.old) (all_sent out.items)
        (L.passed links.new) (L.refused links.new) }
{
    for message in out {
        send_one(links, message);
    }
}

#[tactic(auto, using(crate::proofs::Sends::carries_sent, crate::proofs::Sends::carries_refused))]
fn send_one<L: Links, A: Allocator>(links: &mut L, message: Outbound<A>)
    ensures { Carries (L.passed links.old) (L.refused links.old) (sent message ∷ [])
        (L.passed links.new) (L.refused links.new) }
{
    let _ = links.send(message);
}
