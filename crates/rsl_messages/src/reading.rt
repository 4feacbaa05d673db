//! Reading a message.
ghost use Rattle.std.specs.Prelude.{Ok, ◌≤◌, length, IfOk, IfErr};
ghost use Rattle.octet_elements.specs.Texts.{Says, HasBodyFault, Decodes};
ghost use Rattle.rsl_messages.specs.Texts.{codec, limit, IsTextOf, HasFault};

use crate::elements::read_elements;
use crate::fault::RslFault;
use crate::head::{MessageKind, read_head};
use crate::message::Rsl;
use crate::table::Abis;
use octet_elements::Found;
use std::alloc::Allocator;

/// A message has at most so many octets.
pub const LIMIT: usize = 1024;

/// Reads the body of a message of this kind.
#[inline(always)]
fn read_body<A: Allocator + Copy>(
    alloc: A,
    kind: MessageKind,
    body: &[u8],
) -> Result<Rsl<A>, RslFault>
    requires { length body.now ≤ limit }
    ensures text { IfOk result (λ v. Says (codec A) kind body.now (Ok v)) }
    ensures fault { IfErr result (HasBodyFault (codec A) kind body.now) }
{
    let mut found = Found::<Abis>::new();
    match found.read(body) {
        Ok(()) => read_elements(alloc, kind, &found),
        Err(offset) => Err(RslFault::Torn(2 + offset)),
    }
}

/// Reads a message: its value, or its first fault.
#[inline(always)]
fn read_message<A: Allocator + Copy>(alloc: A, octets: &[u8]) -> Result<Rsl<A>, RslFault>
    ensures text { IfOk result (λ v. IsTextOf v octets.now) }
    ensures fault { IfErr result (HasFault A octets.now) }
{
    if octets.len() > LIMIT {
        return Err(RslFault::TooLong);
    }
    let (kind, body) = read_head(octets)?;
    read_body(alloc, kind, body)
}

/// Reads a message.
///
/// The elements may stand in any order. A repeated one is taken at its first place, and one that the
/// message has no use for is passed over. An `Err` is the first fault in the order that [`RslFault`] says.
#[inline(always)]
pub fn decode<A: Allocator + Copy>(alloc: A, octets: &[u8]) -> Result<Rsl<A>, RslFault>
    ensures decodes { Decodes (codec A) octets.now result }
{
    read_message(alloc, octets)
}
