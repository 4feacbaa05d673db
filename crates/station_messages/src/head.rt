//! The head of a station's message: which message it is, and which channel it is about.
ghost use Rattle.std.specs.Prelude.{◌≡◌, ◌∷◌, ◌≤◌, length, Ok, IfOk, IfErr, IfSome, IfNone};
ghost use Rattle.octet_elements.specs.Lookup.{lookup};
ghost use Rattle.octet_elements.specs.Texts.{Answers, Says, HasBodyFault, Decodes, IsTextOf, HasFault};
ghost use Rattle.rsl_messages.specs.Forms.{known};
ghost use Rattle.rsl_messages.specs.Heads.{IsDiscriminator};
ghost use Rattle.rsl_messages.specs.Texts.{limit};
ghost use Rattle.station_messages.specs.Heads.{IsHead, BeginsWithin, HasEarlyFault, HasSplitFault};
ghost use Rattle.octet_elements.specs.Values.{value_seen};
ghost use Rattle.station_messages.specs.Types.{type_head, first_octet, rr_type, head_said, head_codec};

use crate::elements::channel;
use octet_elements::Found;
use rsl_messages::{Abis, ChanBits, RslFault};

/// A message that a station sends about a channel, by its discriminator and type (TS 48.058 clauses 9.1 and 9.2).
#[derive(Clone, Copy, Debug, PartialEq, Eq)]
pub enum MessageType {
    DataIndication,
    ErrorIndication,
    EstablishConfirm,
    EstablishIndication,
    ReleaseConfirm,
    ReleaseIndication,
    UnitDataIndication,
    ChannelActivationAck,
    ChannelActivationNack,
    ConnectionFailureIndication,
    HandoverDetection,
    MeasurementResult,
    ModeModifyAck,
    ModeModifyNack,
    PhysicalContextConfirm,
    PreprocessedMeasurementResult,
    RfChannelReleaseAck,
    TalkerDetection,
    ListenerDetection,
}

/// The head of a message: its type, its channel, and what shows for whom it is, whatever else it contains.
#[derive(Clone, Copy, Debug, PartialEq, Eq)]
pub struct Head {
    pub message: MessageType,
    pub channel: ChanBits,
    /// The link identifier, if it has one (clause 9.3.2); 0 is the main signalling channel with SAPI 0.
    pub link: Option<u8>,
    /// The type of the radio resource message inside (TS 44.018 clause 10.4), if its L3 information begins like such a
    /// message.
    pub rr_type: Option<u8>,
}

// Identifiers (TS 48.058 clause 9.3).
const LINK_IDENTIFIER: u8 = 0x02;

const LAYER3: u8 = 0x0B;

/// A message has at most so many octets.
const LIMIT: usize = 1024;

/// Which message has this discriminator, whose bit 1 is ignored, and this type.
fn type_for(discriminator: u8, message_type: u8) -> Option<MessageType>
    ensures found { IfSome result (λ kind. IsHead type_head kind discriminator message_type) }
    ensures none { IfNone result ((kind : MessageType) →
        IsHead type_head kind discriminator message_type → ⊥) }
{
    match (discriminator / 2, message_type) {
        (1, 0x02) => Some(MessageType::DataIndication),
        (1, 0x03) => Some(MessageType::ErrorIndication),
        (1, 0x05) => Some(MessageType::EstablishConfirm),
        (1, 0x06) => Some(MessageType::EstablishIndication),
        (1, 0x08) => Some(MessageType::ReleaseConfirm),
        (1, 0x09) => Some(MessageType::ReleaseIndication),
        (1, 0x0B) => Some(MessageType::UnitDataIndication),
        (4, 0x22) => Some(MessageType::ChannelActivationAck),
        (4, 0x23) => Some(MessageType::ChannelActivationNack),
        (4, 0x24) => Some(MessageType::ConnectionFailureIndication),
        (4, 0x27) => Some(MessageType::HandoverDetection),
        (4, 0x28) => Some(MessageType::MeasurementResult),
        (4, 0x2A) => Some(MessageType::ModeModifyAck),
        (4, 0x2B) => Some(MessageType::ModeModifyNack),
        (4, 0x2D) => Some(MessageType::PhysicalContextConfirm),
        (4, 0x32) => Some(MessageType::PreprocessedMeasurementResult),
        (4, 0x33) => Some(MessageType::RfChannelReleaseAck),
        (4, 0x35) => Some(MessageType::TalkerDetection),
        (4, 0x36) => Some(MessageType::ListenerDetection),
        _ => None,
    }
}

/// Discriminator and type, and the elements after them.
pub fn split(octets: &[u8]) -> Result<(u8, u8, &[u8]), RslFault>
    ensures short { IfOk result (λ s. length octets.now ≤ limit) }
    ensures octets { IfOk result (λ s. octets.now ≡ s.0 ∷ s.1 ∷ s.2.now) }
    ensures discriminator { IfOk result (λ s. IsDiscriminator s.0) }
    ensures fault { IfErr result (HasSplitFault octets.now) }
{
    if octets.len() > LIMIT {
        return Err(RslFault::TooLong);
    }
    let [discriminator, rest @ ..] = octets else {
        return Err(RslFault::NotRsl);
    };
    if !matches!(*discriminator / 2, 1 | 4) {
        return Err(RslFault::NotRsl);
    }
    let [message_type, body @ ..] = rest else {
        return Err(RslFault::Torn(1));
    };
    Ok((*discriminator, *message_type, body))
}

/// Which message the octets are, and the elements behind that.
fn read_type(octets: &[u8]) -> Result<(MessageType, &[u8]), RslFault>
    ensures found { IfOk result (λ h. BeginsWithin type_head h.0 octets.now h.1.now) }
    ensures fault { IfErr result (HasEarlyFault type_head octets.now) }
{
    let (discriminator, message_type, body) = split(octets)?;
    let kind = type_for(discriminator, message_type).ok_or(RslFault::UnknownType(message_type))?;
    Ok((kind, body))
}

/// The first octet of an element that may be missing, or empty.
fn first_octet(value: Option<&[u8]>) -> Option<u8>
    ensures { result ≡ first_octet (value_seen value.entry) }
{
    match value {
        Some([octet, ..]) => Some(*octet),
        Some([]) | None => None,
    }
}

/// The type of a radio resource message (TS 44.018 clauses 10.2 to 10.4): its discriminator is 6, without a skip indicator.
fn rr_type(layer3: Option<&[u8]>) -> Option<u8>
    ensures { result ≡ rr_type (value_seen layer3.entry) }
{
    match layer3 {
        Some([discriminator, message_type, ..]) if *discriminator == 6 => Some(*message_type),
        Some([_, ..]) | Some([]) | None => None,
    }
}

/// The head of a message with these elements.
fn head_of(message: MessageType, found: &Found<'_, Abis>) -> Result<Head, RslFault>
    ensures { Answers head_codec result (head_said message (lookup known found.now)) }
{
    Ok(Head {
        message,
        channel: channel(found)?,
        link: first_octet(found.first(LINK_IDENTIFIER)),
        rr_type: rr_type(found.first(LAYER3)),
    })
}

/// The head of a message with this body.
fn read_body(message: MessageType, body: &[u8]) -> Result<Head, RslFault>
    ensures text { IfOk result (λ v. Says head_codec message body.now (Ok v)) }
    ensures fault { IfErr result (HasBodyFault head_codec message body.now) }
{
    let mut found = Found::<Abis>::new();
    match found.read(body) {
        Ok(()) => head_of(message, &found),
        Err(offset) => Err(RslFault::Torn(2 + offset)),
    }
}

/// The head of octets.
fn read(octets: &[u8]) -> Result<Head, RslFault>
    ensures text { IfOk result (λ v. IsTextOf head_codec v octets.now) }
    ensures fault { IfErr result (HasFault head_codec octets.now) }
{
    let (message, body) = read_type(octets)?;
    read_body(message, body)
}

/// The head of a station's message: its type, the channel that it names (TS 48.058 clause 9.3.1), and what shows for whom it
/// is. Elements may come in any order. They have to be whole; the contents of other elements aren't looked at. An `Err` is
/// the first fault in the order of [`RslFault`]; it is `NotRsl` for all that isn't about a channel. It takes no memory.
pub fn read_head(octets: &[u8]) -> Result<Head, RslFault>
    ensures decodes { Decodes head_codec octets.now result }
{
    read(octets)
}
