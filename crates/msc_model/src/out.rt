//! What the centre sends.
ghost use Rattle.std.specs.Prelude.{◌≡◌, ◌++◌, ◌∷◌, [], IfOk, OnOk};
ghost use Rattle.bssmap_messages.specs.Texts.{HasCanonical};
ghost use Rattle.msc_model.specs.Steps.{out_of};

use crate::connection::Connection;
use bssmap_messages::{Bssmap, Octets, encode};
use std::alloc::{AllocError, Allocator, Global};

/// A message on A that the centre sends a controller.
#[derive(Debug, Drop)]
pub struct CentreOut<A: Allocator = Global> {
    /// The place of the controller's site in the list that the centre was made of.
    pub controller: usize,
    /// The call of the controller that the message is about, by its number there.
    pub call: u16,
    /// The message (TS 48.008 clause 3.2.1).
    pub bytes: Octets<A>,
}

/// What the centre sends, or an allocation failure.
pub type Outs<A> = Result<Vec<CentreOut<A>, A>, AllocError>;

/// Appends a message for a call.
pub fn send<A: Allocator + Copy>(
    alloc: A,
    outs: &mut Vec<CentreOut<A>, A>,
    to: Connection,
    message: &Bssmap<A>,
) -> Result<(), AllocError>
    requires { HasCanonical message.now }
    ensures { OnOk result (outs.new.items ≡ outs.old.items ++ out_of (to, message.now) ∷ []) }
{
    let octets = encode(alloc, message)?;
    outs.push(CentreOut {
        controller: to.controller,
        call: to.call,
        bytes: Octets::from_vec(octets),
    })?;
    Ok(())
}

/// One message.
pub fn one_message<A: Allocator + Copy>(alloc: A, to: Connection, message: &Bssmap<A>) -> Outs<A>
    requires { HasCanonical message.now }
    ensures { IfOk result (λ outs. outs.items ≡ out_of (to, message.now) ∷ []) }
{
    let mut outs = Vec::new(alloc);
    send(alloc, &mut outs, to, message)?;
    Ok(outs)
}

/// One message for two calls.
pub fn for_both<A: Allocator + Copy>(
    alloc: A,
    one: Connection,
    other: Connection,
    message: &Bssmap<A>,
) -> Outs<A>
    requires { HasCanonical message.now }
    ensures { IfOk result (λ outs. outs.items ≡
        out_of (one, message.now) ∷ out_of (other, message.now) ∷ []) }
{
    let mut outs = Vec::new(alloc);
    send(alloc, &mut outs, one, message)?;
    send(alloc, &mut outs, other, message)?;
    Ok(outs)
}
