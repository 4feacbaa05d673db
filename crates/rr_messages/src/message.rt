//! Radio resource messages.
ghost use Rattle.std.specs.Prelude.{◌≡◌};

use crate::kind::MessageType;
use rr_elements::{CellDescription, ChanDescription, MeasResults, Power, RrCause};

/// A radio resource message (TS 44.018 section 9.1), by the fields of its mandatory part.
#[derive(Clone, Copy, Debug, PartialEq, Eq)]
pub enum Rr {
    /// HANDOVER COMMAND (section 9.1.15): non-synchronized, to this cell and channel.
    HandoverCommand {
        cell: CellDescription,
        channel: ChanDescription,
        /// the handover reference, any octet
        reference: u8,
        power: Power,
    },
    /// HANDOVER COMPLETE (section 9.1.16)
    HandoverComplete(RrCause),
    /// HANDOVER FAILURE (section 9.1.17)
    HandoverFailure(RrCause),
    /// CHANNEL RELEASE (section 9.1.7)
    ChannelRelease(RrCause),
    /// PHYSICAL INFORMATION (section 9.1.28), by the timing advance in bit periods, any octet
    PhysicalInformation(u8),
    /// MEASUREMENT REPORT (section 9.1.21)
    MeasurementReport(MeasResults),
}

impl Rr {
    ghost use Rattle.rr_messages.specs.Rr.{kind_of};

    /// The type of the message.
    pub(crate) fn kind(&self) -> MessageType
        ensures { result ≡ kind_of self.now }
    {
        match self {
            Rr::HandoverCommand { .. } => MessageType::HandoverCommand,
            Rr::HandoverComplete(_) => MessageType::HandoverComplete,
            Rr::HandoverFailure(_) => MessageType::HandoverFailure,
            Rr::ChannelRelease(_) => MessageType::ChannelRelease,
            Rr::PhysicalInformation(_) => MessageType::PhysicalInformation,
            Rr::MeasurementReport(_) => MessageType::MeasurementReport,
        }
    }
}
