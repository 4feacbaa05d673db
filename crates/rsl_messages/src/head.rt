//! Discriminator and type.
ghost use Rattle.std.specs.Prelude.{◌≡◌, ◌∷◌, [], IfOk, IfErr, IfSome, IfNone};
ghost use Rattle.rsl_messages.specs.Messages.{head_of, kind_of};
ghost use Rattle.rsl_messages.specs.Heads.{IsHead, Begins, HasHeadFault};

use crate::fault::RslFault;
use crate::message::Rsl;
use std::alloc::Allocator;

// Discriminators as they are written (TS 48.058 clause 9.1). What the base station passes on has bit 1.
pub const RADIO_LINK_LAYER: u8 = 0x03;

pub const DEDICATED_CHANNEL: u8 = 0x08;

// Types (clause 9.2): what is read and what is written name them.
pub const DATA_REQUEST: u8 = 0x01;

const DATA_INDICATION: u8 = 0x02;

pub const CHANNEL_ACTIVATION: u8 = 0x21;

const CHANNEL_ACTIVATION_ACK: u8 = 0x22;

const CHANNEL_ACTIVATION_NACK: u8 = 0x23;

const CONNECTION_FAILURE_INDICATION: u8 = 0x24;

const HANDOVER_DETECTION: u8 = 0x27;

const MEASUREMENT_RESULT: u8 = 0x28;

const RF_CHANNEL_RELEASE: u8 = 0x2E;

const RF_CHANNEL_RELEASE_ACK: u8 = 0x33;

/// Which message it is.
#[derive(Clone, Copy, Debug, PartialEq, Eq)]
pub enum MessageKind {
    DataRequest,
    DataIndication,
    ChannelActivation,
    ChannelActivationAck,
    ChannelActivationNack,
    ConnectionFailureIndication,
    HandoverDetection,
    MeasurementResult,
    RfChannelRelease,
    RfChannelReleaseAck,
}

/// Which message has this discriminator, whose bit 1 is ignored, and this type.
fn kind_for(discriminator: u8, message_type: u8) -> Option<MessageKind>
    ensures found { IfSome result (λ kind. IsHead kind discriminator message_type) }
    ensures none { IfNone result ((kind : MessageKind) → IsHead kind discriminator message_type →
        ⊥) }
{
    match (discriminator / 2, message_type) {
        (1, DATA_REQUEST) => Some(MessageKind::DataRequest),
        (1, DATA_INDICATION) => Some(MessageKind::DataIndication),
        (4, CHANNEL_ACTIVATION) => Some(MessageKind::ChannelActivation),
        (4, CHANNEL_ACTIVATION_ACK) => Some(MessageKind::ChannelActivationAck),
        (4, CHANNEL_ACTIVATION_NACK) => Some(MessageKind::ChannelActivationNack),
        (4, CONNECTION_FAILURE_INDICATION) => Some(MessageKind::ConnectionFailureIndication),
        (4, HANDOVER_DETECTION) => Some(MessageKind::HandoverDetection),
        (4, MEASUREMENT_RESULT) => Some(MessageKind::MeasurementResult),
        (4, RF_CHANNEL_RELEASE) => Some(MessageKind::RfChannelRelease),
        (4, RF_CHANNEL_RELEASE_ACK) => Some(MessageKind::RfChannelReleaseAck),
        _ => None,
    }
}

/// Discriminator and type of a message.
pub fn head_octets<A: Allocator>(message: &Rsl<A>) -> [u8; 2]
    ensures { result ≡ (head_of (kind_of message.now)).0 ∷
        (head_of (kind_of message.now)).1 ∷ [] }
{
    match message {
        Rsl::DataRequest { .. } => [RADIO_LINK_LAYER, DATA_REQUEST],
        Rsl::DataIndication { .. } => [RADIO_LINK_LAYER, DATA_INDICATION],
        Rsl::ChannelActivation { .. } => [DEDICATED_CHANNEL, CHANNEL_ACTIVATION],
        Rsl::ChannelActivationAck { .. } => [DEDICATED_CHANNEL, CHANNEL_ACTIVATION_ACK],
        Rsl::ChannelActivationNack { .. } => [DEDICATED_CHANNEL, CHANNEL_ACTIVATION_NACK],
        Rsl::ConnectionFailureIndication { .. } => [
            DEDICATED_CHANNEL,
            CONNECTION_FAILURE_INDICATION,
        ],
        Rsl::HandoverDetection { .. } => [DEDICATED_CHANNEL, HANDOVER_DETECTION],
        Rsl::MeasurementResult { .. } => [DEDICATED_CHANNEL, MEASUREMENT_RESULT],
        Rsl::RfChannelRelease { .. } => [DEDICATED_CHANNEL, RF_CHANNEL_RELEASE],
        Rsl::RfChannelReleaseAck { .. } => [DEDICATED_CHANNEL, RF_CHANNEL_RELEASE_ACK],
    }
}

/// Which message the octets are, and the body after the head.
pub fn read_head(octets: &[u8]) -> Result<(MessageKind, &[u8]), RslFault>
    ensures found { IfOk result (λ h. Begins h.0 octets.now h.1.now) }
    ensures fault { IfErr result (HasHeadFault octets.now) }
{
    let [discriminator, rest @ ..] = octets else {
        return Err(RslFault::NotRsl);
    };
    if !matches!(*discriminator / 2, 1 | 4) {
        return Err(RslFault::NotRsl);
    }
    let [message_type, body @ ..] = rest else {
        return Err(RslFault::Torn(1));
    };
    let kind = kind_for(*discriminator, *message_type).ok_or(RslFault::UnknownType(*message_type))?;
    Ok((kind, body))
}
