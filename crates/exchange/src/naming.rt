//! The channel that a message names.
ghost use Rattle.std.specs.Prelude.{◌≡◌};
ghost use Rattle.exchange.specs.Naming.{chan_of};

use channel_fsm::ChanId;
use rsl_messages::Rsl;
use std::alloc::Allocator;

/// The channel that a message from a TRX of a cell names (TS 48.058 clause 9.3.1): that TRX, and the timeslot in the
/// message or the half of it; the timeslot is 0 to 7 where the message was read from octets. Whether the site has it isn't
/// looked at. It takes no memory.
pub fn chan_of<A: Allocator>(cell: u8, trx: u8, message: &Rsl<A>) -> ChanId
    ensures channel { result ≡ chan_of cell trx message.now }
{
    let (Rsl::DataRequest { channel, .. }
    | Rsl::DataIndication { channel, .. }
    | Rsl::ChannelActivation { channel, .. }
    | Rsl::ChannelActivationAck { channel, .. }
    | Rsl::ChannelActivationNack { channel, .. }
    | Rsl::ConnectionFailureIndication { channel, .. }
    | Rsl::HandoverDetection { channel, .. }
    | Rsl::MeasurementResult { channel, .. }
    | Rsl::RfChannelRelease { channel }
    | Rsl::RfChannelReleaseAck { channel }) = message;
    ChanId {
        cell,
        trx,
        tn: channel.tn,
        sub: channel.sub,
    }
}
