//! Reading a message.
ghost use Rattle.std.specs.Prelude.{Ok, IfOk, IfErr, IfSome, IfNone};
ghost use Rattle.octet_elements.specs.Texts.{Says, HasBodyFault, Decodes};
ghost use Rattle.station_messages.specs.Heads.{IsHead, BeginsWithin, HasEarlyFault};
ghost use Rattle.station_messages.specs.Messages.{kind_head};
ghost use Rattle.station_messages.specs.Texts.{codec, IsTextOf, HasFault};

use crate::elements::read_elements;
use crate::head::split;
use crate::message::StationMessage;
use octet_elements::Found;
use rsl_messages::{Abis, RslFault};

/// Which message it is.
#[derive(Clone, Copy, Debug, PartialEq, Eq)]
pub enum MessageKind {
    ReleaseIndication,
    DeactivateSacch,
}

/// Which message has this discriminator, whose bit 1 is ignored, and this type.
fn kind_for(discriminator: u8, message_type: u8) -> Option<MessageKind>
    ensures found { IfSome result (λ kind. IsHead kind_head kind discriminator message_type) }
    ensures none { IfNone result ((kind : MessageKind) →
        IsHead kind_head kind discriminator message_type → ⊥) }
{
    match (discriminator / 2, message_type) {
        (1, 0x09) => Some(MessageKind::ReleaseIndication),
        (4, 0x25) => Some(MessageKind::DeactivateSacch),
        _ => None,
    }
}

/// Which message the octets are, and the elements behind that.
fn read_kind(octets: &[u8]) -> Result<(MessageKind, &[u8]), RslFault>
    ensures found { IfOk result (λ h. BeginsWithin kind_head h.0 octets.now h.1.now) }
    ensures fault { IfErr result (HasEarlyFault kind_head octets.now) }
{
    let (discriminator, message_type, body) = split(octets)?;
    let kind = kind_for(discriminator, message_type).ok_or(RslFault::UnknownType(message_type))?;
    Ok((kind, body))
}

/// Reads the body of a message of this kind.
fn read_body(kind: MessageKind, body: &[u8]) -> Result<StationMessage, RslFault>
    ensures text { IfOk result (λ v. Says codec kind body.now (Ok v)) }
    ensures fault { IfErr result (HasBodyFault codec kind body.now) }
{
    let mut found = Found::<Abis>::new();
    match found.read(body) {
        Ok(()) => read_elements(kind, &found),
        Err(offset) => Err(RslFault::Torn(2 + offset)),
    }
}

/// Reads a message: its value, or its first fault.
fn read(octets: &[u8]) -> Result<StationMessage, RslFault>
    ensures text { IfOk result (λ v. IsTextOf v octets.now) }
    ensures fault { IfErr result (HasFault octets.now) }
{
    let (kind, body) = read_kind(octets)?;
    read_body(kind, body)
}

/// Reads a message.
///
/// The elements may come in any order. If one is repeated, the first counts; elements that the message doesn't use are
/// skipped. An `Err` is the first fault in the order of [`RslFault`]. It takes no memory.
pub fn decode(octets: &[u8]) -> Result<StationMessage, RslFault>
    ensures decodes { Decodes codec octets.now result }
{
    read(octets)
}
