//! What a message of a station means for the rows of a channel.
ghost use Rattle.std.specs.Prelude.{◌≡◌, ◌/◌, ◌%◌};
ghost use Rattle.link_machine.specs.Stations.{is_main_signalling, has, says, said_in_data, heard_by, said_by};

use channel_fsm::ChanId;
use link_tables::Heard;
use station_messages::{Head, MessageType};

// Types of radio resource messages (TS 44.018 clause 10.4).
const HANDOVER_FAILURE: u8 = 0x28;

const HANDOVER_COMPLETE: u8 = 0x2C;

/// What a message of a station says to a channel.
#[derive(Clone, Copy, Debug, PartialEq, Eq)]
pub struct Said {
    /// The channel that it is about. The site may not have it.
    pub chan: ChanId,
    /// What the rows of the channel hear; nothing if the message is only for the rows of calls.
    pub heard: Option<Heard>,
}

/// Whether an octet is there, and is this one.
fn has(octet: Option<u8>, this: u8) -> bool
    ensures { result ≡ has octet this }
{
    match octet {
        Some(octet) => octet == this,
        None => false,
    }
}

/// Whether a link identifier is that of the main signalling channel with SAPI 0, of any priority (TS 48.058 clause 9.3.2).
fn is_main_signalling(link: Option<u8>) -> bool
    ensures { result ≡ is_main_signalling link }
{
    match link {
        Some(link) => link / 32 == 0 && link % 8 == 0,
        None => false,
    }
}

/// Whether on its main signalling channel the mobile says this.
fn says(head: Head, rr_type: u8) -> bool
    ensures { result ≡ says head rr_type }
{
    is_main_signalling(head.link) && has(head.rr_type, rr_type)
}

/// What the rows of a channel hear in a DATA INDICATION.
fn said_in_data(head: Head) -> Heard
    ensures { result ≡ said_in_data head }
{
    if says(head, HANDOVER_COMPLETE) {
        return Heard::HandoverComplete;
    }
    if says(head, HANDOVER_FAILURE) {
        return Heard::HandoverFailure;
    }
    Heard::DataIndication
}

/// What the rows of a channel hear.
fn heard_by(head: Head) -> Option<Heard>
    ensures { result ≡ heard_by head head.message }
{
    match head.message {
        MessageType::DataIndication => Some(said_in_data(head)),
        MessageType::ReleaseIndication if is_main_signalling(head.link) => Some(
            Heard::ReleaseIndication,
        ),
        MessageType::EstablishIndication => Some(Heard::EstablishIndication),
        MessageType::ChannelActivationAck => Some(Heard::ActivationAck),
        MessageType::ChannelActivationNack => Some(Heard::ActivationNack),
        MessageType::ConnectionFailureIndication => Some(Heard::ConnectionFailure),
        MessageType::HandoverDetection => Some(Heard::HandoverDetection),
        MessageType::MeasurementResult => Some(Heard::MeasurementResult),
        MessageType::RfChannelReleaseAck => Some(Heard::ReleaseAck),
        MessageType::ErrorIndication
        | MessageType::EstablishConfirm
        | MessageType::ReleaseConfirm
        | MessageType::ReleaseIndication
        | MessageType::UnitDataIndication => None,
        MessageType::ModeModifyAck
        | MessageType::ModeModifyNack
        | MessageType::PhysicalContextConfirm
        | MessageType::PreprocessedMeasurementResult
        | MessageType::TalkerDetection
        | MessageType::ListenerDetection => None,
    }
}

/// What a message of a TRX of a cell, which has this head, says to a channel.
pub fn said_by(cell: u8, trx: u8, head: Head) -> Said
    ensures said { result ≡ said_by cell trx head }
{
    let channel = head.channel;
    Said {
        chan: ChanId {
            cell,
            trx,
            tn: channel.tn,
            sub: channel.sub,
        },
        heard: heard_by(head),
    }
}
