//! What the octets of an input are.
ghost use Rattle.std.specs.Prelude.{◌≡◌, ◌≢◌, Ok, Err, IfOk, IfErr, OnErr, OnOk};
ghost use Rattle.std.specs.Option.{option_map};
ghost use Rattle.rsl_messages.specs.declared.message.Rsl.{Rsl};
ghost use Rattle.rsl_messages.specs.Messages.{HasOctets};
ghost use Rattle.rsl_messages.specs.Texts as abis;
ghost use Rattle.bssmap_messages.specs.declared.message.Bssmap.{Bssmap};
ghost use Rattle.bssmap_messages.specs.Messages.{KeepsList};
ghost use Rattle.bssmap_messages.specs.Texts as interface_a;
ghost use Rattle.exchange.specs.declared.Link.{Link};
ghost use Rattle.exchange.specs.declared.Bad.{Bad};
ghost use Rattle.ho_procedure.specs.Decoding.{text_inside, IsInside, IsAbis, IsUnreadableAbis, IsUnreadableA, IsUnreadable, IsFaultOf};

use bssmap_messages::{Bssmap, BssmapFault};
use exchange::{Bad, Link};
use rr_messages::{Rr, RrFault};
use rsl_messages::values::MAIN_SIGNALLING;
use rsl_messages::{Rsl, RslFault};
use std::alloc::Allocator;

/// Why octets weren't read.
#[derive(Clone, Copy, PartialEq, Eq)]
pub(crate) enum Unreadable {
    /// They, or the text inside, are no message.
    Undecoded(Link, Bad),
    /// Memory was refused.
    NoMemory,
}

/// The octets of a message on Abis: the message, and the radio resource message of the mobile inside, where it has one
/// that is read.
pub(crate) fn decode_abis<A: Allocator + Copy>(
    alloc: A,
    octets: &[u8],
) -> Result<(Rsl<A>, Option<Rr>), Unreadable>
    ensures text { IfOk result (λ d. IsAbis octets.now d.0 d.1) }
    ensures unreadable { IfErr result (IsUnreadable (IsUnreadableAbis A octets.now)
        ((v : Rsl A) × abis.IsTextOf v octets.now × HasOctets v)) }
{
    match rsl_messages::decode(alloc, octets) {
        Ok(message) => match inside(&message) {
            Ok(rr) => Ok((message, rr)),
            Err(fault) => Err(Unreadable::Undecoded(Link::Rr, Bad::Rr(fault))),
        },
        Err(fault) => Err(unreadable_abis(fault)),
    }
}

/// The octets of a message on A.
pub(crate) fn decode_a<A: Allocator + Copy>(
    alloc: A,
    octets: &[u8],
) -> Result<Bssmap<A>, Unreadable>
    ensures text { IfOk result (λ v. interface_a.IsTextOf v octets.now) }
    ensures unreadable { IfErr result (IsUnreadable (IsUnreadableA A octets.now)
        ((v : Bssmap A) × interface_a.IsTextOf v octets.now × KeepsList v)) }
{
    match bssmap_messages::decode(alloc, octets) {
        Ok(message) => Ok(message),
        Err(fault) => Err(unreadable_a(fault)),
    }
}

/// The radio resource message inside a message on Abis, where it has one that is read.
fn inside<A: Allocator + Copy>(message: &Rsl<A>) -> Result<Option<Rr>, RrFault>
    ensures text { IfOk result (IsInside (text_inside message.now)) }
    ensures fault { IfErr result (IsFaultOf (text_inside message.now)) }
{
    match message {
        Rsl::DataIndication {
            link: MAIN_SIGNALLING,
            layer3,
            ..
        } => Ok(Some(rr_messages::decode(layer3.as_slice())?)),
        Rsl::MeasurementResult {
            layer3: Some(layer3),
            ..
        } => Ok(Some(rr_messages::decode(layer3.as_slice())?)),
        Rsl::DataIndication { .. }
        | Rsl::MeasurementResult { .. }
        | Rsl::DataRequest { .. }
        | Rsl::ChannelActivation { .. }
        | Rsl::ChannelActivationAck { .. }
        | Rsl::ChannelActivationNack { .. }
        | Rsl::ConnectionFailureIndication { .. }
        | Rsl::HandoverDetection { .. }
        | Rsl::RfChannelRelease { .. }
        | Rsl::RfChannelReleaseAck { .. } => Ok(None),
    }
}

/// A fault on Abis.
fn unreadable_abis(fault: RslFault) -> Unreadable
    ensures { IsUnreadable
        (λ l b. (l ≡ Link.Abis) × (b ≡ Bad.Rsl fault) × (fault ≢ RslFault.NoMemory))
        (fault ≡ RslFault.NoMemory) result }
{
    match fault {
        RslFault::NoMemory => Unreadable::NoMemory,
        RslFault::NotRsl
        | RslFault::UnknownType(_)
        | RslFault::Missing(_)
        | RslFault::BadElement(_)
        | RslFault::Torn(_)
        | RslFault::TooLong => Unreadable::Undecoded(Link::Abis, Bad::Rsl(fault)),
    }
}

/// A fault on A.
fn unreadable_a(fault: BssmapFault) -> Unreadable
    ensures { IsUnreadable
        (λ l b. (l ≡ Link.A) × (b ≡ Bad.Bssmap fault) × (fault ≢ BssmapFault.NoMemory))
        (fault ≡ BssmapFault.NoMemory) result }
{
    match fault {
        BssmapFault::NoMemory => Unreadable::NoMemory,
        BssmapFault::NotBssmap
        | BssmapFault::Length
        | BssmapFault::UnknownType(_)
        | BssmapFault::Missing(_)
        | BssmapFault::BadElement(_)
        | BssmapFault::Torn(_) => Unreadable::Undecoded(Link::A, Bad::Bssmap(fault)),
    }
}
