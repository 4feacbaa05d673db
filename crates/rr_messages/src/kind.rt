//! Message types.
ghost use Rattle.std.specs.Prelude.{◌≡◌, ◌≢◌, IfSome, IfNone};
ghost use Rattle.rr_messages.specs.Kind.{type_of, part_len};

// Types (TS 44.018 section 10.4): what is read and what is written name them.
const CHANNEL_RELEASE: u8 = 0x0D;

const MEASUREMENT_REPORT: u8 = 0x15;

const HANDOVER_FAILURE: u8 = 0x28;

const HANDOVER_COMMAND: u8 = 0x2B;

const HANDOVER_COMPLETE: u8 = 0x2C;

const PHYSICAL_INFORMATION: u8 = 0x2D;

/// The type of a message.
#[derive(Clone, Copy, Debug, PartialEq, Eq)]
pub(crate) enum MessageType {
    ChannelRelease,
    MeasurementReport,
    HandoverFailure,
    HandoverCommand,
    HandoverComplete,
    PhysicalInformation,
}

impl MessageType {
    /// The type with this octet, if there is one.
    pub(crate) fn at(octet: u8) -> Option<MessageType>
        ensures some { IfSome result (λ kind. type_of kind ≡ octet) }
        ensures none { IfNone result ((kind : MessageType) → octet ≢ type_of kind) }
    {
        match octet {
            CHANNEL_RELEASE => Some(MessageType::ChannelRelease),
            MEASUREMENT_REPORT => Some(MessageType::MeasurementReport),
            HANDOVER_FAILURE => Some(MessageType::HandoverFailure),
            HANDOVER_COMMAND => Some(MessageType::HandoverCommand),
            HANDOVER_COMPLETE => Some(MessageType::HandoverComplete),
            PHYSICAL_INFORMATION => Some(MessageType::PhysicalInformation),
            _ => None,
        }
    }

    /// The octet of the type.
    pub(crate) fn octet(self) -> u8
        ensures { result ≡ type_of self }
    {
        match self {
            MessageType::ChannelRelease => CHANNEL_RELEASE,
            MessageType::MeasurementReport => MEASUREMENT_REPORT,
            MessageType::HandoverFailure => HANDOVER_FAILURE,
            MessageType::HandoverCommand => HANDOVER_COMMAND,
            MessageType::HandoverComplete => HANDOVER_COMPLETE,
            MessageType::PhysicalInformation => PHYSICAL_INFORMATION,
        }
    }

    /// How many octets the mandatory part has.
    pub(crate) fn part_len(self) -> usize
        ensures { result ≡ part_len self }
    {
        match self {
            MessageType::MeasurementReport => 16,
            MessageType::HandoverCommand => 7,
            MessageType::ChannelRelease
            | MessageType::HandoverFailure
            | MessageType::HandoverComplete
            | MessageType::PhysicalInformation => 1,
        }
    }
}
