//! Discriminator, length and type.
ghost use Rattle.std.specs.Prelude.{◌≡◌, IfOk, IfErr, IfSome, IfNone};
ghost use Rattle.bssmap_messages.specs.Heads.{Begins, HasHeadFault};
ghost use Rattle.bssmap_messages.specs.Messages.{type_of};

use crate::fault::BssmapFault;

/// The greatest length octet.
pub const LIMIT: usize = 253;

// Types (TS 48.008 clause 3.2.2.1): what is read and what is written name them.
pub const HANDOVER_REQUEST: u8 = 0x10;

pub const HANDOVER_REQUIRED: u8 = 0x11;

pub const HANDOVER_REQUEST_ACK: u8 = 0x12;

pub const HANDOVER_COMMAND: u8 = 0x13;

pub const HANDOVER_COMPLETE: u8 = 0x14;

pub const HANDOVER_FAILURE: u8 = 0x16;

pub const HANDOVER_PERFORMED: u8 = 0x17;

pub const HANDOVER_REQUIRED_REJECT: u8 = 0x1A;

pub const HANDOVER_DETECT: u8 = 0x1B;

pub const CLEAR_COMMAND: u8 = 0x20;

pub const CLEAR_COMPLETE: u8 = 0x21;

pub const CLEAR_REQUEST: u8 = 0x22;

/// Which message it is.
#[derive(Clone, Copy, Debug, PartialEq, Eq)]
pub enum MessageKind {
    HandoverRequest,
    HandoverRequired,
    HandoverRequestAck,
    HandoverCommand,
    HandoverComplete,
    HandoverFailure,
    HandoverPerformed,
    HandoverRequiredReject,
    HandoverDetect,
    ClearCommand,
    ClearComplete,
    ClearRequest,
}

/// Which message has this type.
fn kind_for(message_type: u8) -> Option<MessageKind>
    ensures found { IfSome result (λ kind. message_type ≡ type_of kind) }
    ensures none { IfNone result ((kind : MessageKind) → message_type ≡ type_of kind → ⊥) }
{
    match message_type {
        HANDOVER_REQUEST => Some(MessageKind::HandoverRequest),
        HANDOVER_REQUIRED => Some(MessageKind::HandoverRequired),
        HANDOVER_REQUEST_ACK => Some(MessageKind::HandoverRequestAck),
        HANDOVER_COMMAND => Some(MessageKind::HandoverCommand),
        HANDOVER_COMPLETE => Some(MessageKind::HandoverComplete),
        HANDOVER_FAILURE => Some(MessageKind::HandoverFailure),
        HANDOVER_PERFORMED => Some(MessageKind::HandoverPerformed),
        HANDOVER_REQUIRED_REJECT => Some(MessageKind::HandoverRequiredReject),
        HANDOVER_DETECT => Some(MessageKind::HandoverDetect),
        CLEAR_COMMAND => Some(MessageKind::ClearCommand),
        CLEAR_COMPLETE => Some(MessageKind::ClearComplete),
        CLEAR_REQUEST => Some(MessageKind::ClearRequest),
        _ => None,
    }
}

/// Which message the octets are, and the body after the head.
pub fn read_head(octets: &[u8]) -> Result<(MessageKind, &[u8]), BssmapFault>
    ensures found { IfOk result (λ h. Begins h.0 octets.now h.1.now) }
    ensures fault { IfErr result (HasHeadFault octets.now) }
{
    match octets {
        [0, length, message_type, body @ ..]
            if usize::from(*length) == 1 + body.len() && body.len() < LIMIT => {
            let kind = kind_for(*message_type).ok_or(BssmapFault::UnknownType(*message_type))?;
            Ok((kind, body))
        }
        [0, ..] => Err(BssmapFault::Length),
        _ => Err(BssmapFault::NotBssmap),
    }
}
