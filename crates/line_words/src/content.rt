//! The contents of a line: its octets, decoded once for all its words.
use crate::rowless::rowless_name;
use bssmap_messages::{Bssmap, BssmapFault};
use channel_fsm::ChanId;
use exchange::{Inbound, Outbound, chan_of};
use octet_elements::sub_of_type;
use rsl_messages::{ChanBits, Rsl, RslFault};
use std::alloc::{AllocError, Allocator, Global};
use trace_text::trace::TraceLine;

/// The place on Abis that octets go to or come from.
#[derive(Clone, Copy, Debug, PartialEq, Eq)]
pub struct Place {
    pub cell: u8,
    pub trx: u8,
    /// The channel that their channel number names, even if they are wrong after it. `None` if they name none, or belong to
    /// another protocol.
    pub chan: Option<ChanId>,
}

/// The content of a line. A message is `None` if the octets are no message.
#[derive(Drop)]
pub enum Content<A: Allocator = Global> {
    /// Octets on Abis.
    Abis(Place, Option<Rsl<A>>),
    /// The name of a message on Abis that the codec doesn't read, because no row uses it.
    Rowless(Place, &'static str),
    /// Octets on A about a call.
    A(u16, Option<Bssmap<A>>),
    /// No octets.
    Nothing,
}

/// The channel that octets name which are no message: their first element is a channel number, of a traffic channel (TS
/// 48.058 clause 9.3.1). It is that of a message with this channel number and nothing else.
fn channel_named(cell: u8, trx: u8, octets: &[u8]) -> Option<ChanId> {
    let identifier = *octets.get(2)?;
    let number = *octets.get(3)?;
    if identifier != 0x01 {
        return None;
    }
    let sub = sub_of_type(number / 8)?;
    let tn = number % 8;
    let message: Rsl = Rsl::RfChannelRelease {
        channel: ChanBits { tn, sub },
    };
    Some(chan_of(cell, trx, &message))
}

/// Whether octets are of another protocol, by their head alone: its first octet says so (TS 48.058 clause 9.1).
fn is_other_protocol<A: Allocator + Copy>(alloc: A, octets: &[u8]) -> Result<bool, AllocError> {
    let head = octets.get(..2).unwrap_or(octets);
    match rsl_messages::decode(alloc, head) {
        Err(RslFault::NoMemory) => Err(AllocError),
        Err(RslFault::NotRsl) => Ok(true),
        Ok(_)
        | Err(
            RslFault::UnknownType(_)
            | RslFault::Missing(_)
            | RslFault::BadElement(_)
            | RslFault::Torn(_)
            | RslFault::TooLong,
        ) => Ok(false),
    }
}

/// The channel of octets that are no message for this reason, where they name one.
fn channel_of_none<A: Allocator + Copy>(
    alloc: A,
    cell: u8,
    trx: u8,
    octets: &[u8],
    fault: RslFault,
) -> Result<Option<ChanId>, AllocError> {
    match fault {
        RslFault::NoMemory => Err(AllocError),
        RslFault::UnknownType(_)
        | RslFault::Missing(_)
        | RslFault::BadElement(_)
        | RslFault::Torn(_) => Ok(channel_named(cell, trx, octets)),
        RslFault::TooLong if is_other_protocol(alloc, octets)? => Ok(None),
        RslFault::TooLong => Ok(channel_named(cell, trx, octets)),
        RslFault::NotRsl => Ok(None),
    }
}

/// What octets on Abis are.
fn on_abis<A: Allocator + Copy>(
    alloc: A,
    cell: u8,
    trx: u8,
    octets: &[u8],
) -> Result<Content<A>, AllocError> {
    match rsl_messages::decode(alloc, octets) {
        Ok(message) => {
            let chan = Some(chan_of(cell, trx, &message));
            Ok(Content::Abis(Place { cell, trx, chan }, Some(message)))
        }
        Err(fault) => {
            let chan = channel_of_none(alloc, cell, trx, octets, fault)?;
            let place = Place { cell, trx, chan };
            Ok(match rowless_name(octets) {
                Some(name) => Content::Rowless(place, name),
                None => Content::Abis(place, None),
            })
        }
    }
}

/// What octets on A are.
fn on_a<A: Allocator + Copy>(alloc: A, call: u16, octets: &[u8]) -> Result<Content<A>, AllocError> {
    let message = match bssmap_messages::decode(alloc, octets) {
        Ok(message) => Some(message),
        Err(BssmapFault::NoMemory) => return Err(AllocError),
        Err(
            BssmapFault::NotBssmap
            | BssmapFault::Length
            | BssmapFault::UnknownType(_)
            | BssmapFault::Missing(_)
            | BssmapFault::BadElement(_)
            | BssmapFault::Torn(_),
        ) => None,
    };
    Ok(Content::A(call, message))
}

/// What an input carries.
fn content_in<A: Allocator + Copy>(alloc: A, input: &Inbound<A>) -> Result<Content<A>, AllocError> {
    match input {
        Inbound::Abis { cell, trx, bytes } => on_abis(alloc, *cell, *trx, bytes.as_slice()),
        Inbound::A { call, bytes } => on_a(alloc, *call, bytes.as_slice()),
        Inbound::Expiry { .. } | Inbound::Operator(_) => Ok(Content::Nothing),
    }
}

/// What a message that is sent carries.
fn content_out<A: Allocator + Copy>(
    alloc: A,
    sent: &Outbound<A>,
) -> Result<Content<A>, AllocError> {
    match sent {
        Outbound::Abis { cell, trx, bytes } => on_abis(alloc, *cell, *trx, bytes.as_slice()),
        Outbound::A { call, bytes } => on_a(alloc, *call, bytes.as_slice()),
    }
}

/// The content of a line.
pub fn content_of<A: Allocator + Copy>(
    alloc: A,
    line: &TraceLine<'_, A>,
) -> Result<Content<A>, AllocError> {
    match line {
        TraceLine::Input(input) => content_in(alloc, *input),
        TraceLine::Sent(sent) => content_out(alloc, *sent),
        TraceLine::Step(_) | TraceLine::Fault(_) | TraceLine::Limit | TraceLine::End(_) => {
            Ok(Content::Nothing)
        }
    }
}
