//! Reading a message.
ghost use Rattle.octet_elements.specs.Texts.{Decodes};
ghost use Rattle.bssmap_messages.specs.Texts.{codec};

use crate::elements::read_elements;
use crate::fault::BssmapFault;
use crate::head::read_head;
use crate::message::Bssmap;
use crate::table::InterfaceA;
use octet_elements::Found;
use std::alloc::Allocator;

/// Reads a message.
///
/// The order of the elements doesn't matter, nor do those that the message has no use for. Where one
/// comes again the first is read; of the cell identifiers of a HANDOVER REQUEST the first is the serving
/// cell and the second the target cell. An `Err` is the first fault in the order that [`BssmapFault`] says.
#[inline(always)]
pub fn decode<A: Allocator + Copy>(alloc: A, octets: &[u8]) -> Result<Bssmap<A>, BssmapFault>
    ensures decodes { Decodes (codec A) octets.now result }
{
    let (kind, body) = read_head(octets)?;
    let mut found = Found::<InterfaceA>::new();
    match found.read(body) {
        Ok(()) => read_elements(alloc, kind, &found),
        Err(offset) => Err(BssmapFault::Torn(3 + offset)),
    }
}
