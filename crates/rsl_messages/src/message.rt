//! The messages.
use octet_elements::{Octets, Sub};
use std::alloc::{Allocator, Global};

/// A traffic channel of a TRX, as an element names it (TS 48.058 clause 9.3.1).
#[derive(Clone, Copy, Debug, PartialEq, Eq)]
pub struct ChanBits {
    /// The timeslot, from 0 to 7.
    pub tn: u8,
    /// Which of the timeslot's traffic channels it is.
    pub sub: Sub,
}

/// A message on Abis.
#[derive(Debug, Drop)]
pub enum Rsl<A: Allocator = Global> {
    /// DATA REQUEST, TS 48.058 clause 8.3.1.
    DataRequest {
        channel: ChanBits,
        /// The link identifier, any octet (clause 9.3.2); 0 is the main signalling channel with SAPI 0.
        link: u8,
        /// A layer 3 message, from 1 to 1,015 octets (clause 9.3.11).
        layer3: Octets<A>,
    },
    /// DATA INDICATION, TS 48.058 clause 8.3.2.
    DataIndication {
        channel: ChanBits,
        /// The link identifier, any octet (clause 9.3.2); 0 is the main signalling channel with SAPI 0.
        link: u8,
        /// A layer 3 message, from 1 to 1,015 octets (clause 9.3.11).
        layer3: Octets<A>,
    },
    /// CHANNEL ACTIVATION, TS 48.058 clause 8.4.1.
    ChannelActivation {
        channel: ChanBits,
        /// The activation type, any octet (clause 9.3.3): 0 at an immediate assignment, 2 at an asynchronous handover.
        activation: u8,
        /// The channel mode, from 1 to 255 octets (clause 9.3.6).
        mode: Octets<A>,
        /// The handover reference, any octet, for a handover (clause 9.3.9).
        reference: Option<u8>,
    },
    /// CHANNEL ACTIVATION ACKNOWLEDGE, TS 48.058 clause 8.4.2.
    ChannelActivationAck {
        channel: ChanBits,
        /// The frame number, any 16 bits (clause 9.3.8).
        frame: u16,
    },
    /// CHANNEL ACTIVATION NEGATIVE ACKNOWLEDGE, TS 48.058 clause 8.4.3.
    ChannelActivationNack {
        channel: ChanBits,
        /// The first octet of the cause (clause 9.3.26).
        cause: u8,
    },
    /// CONNECTION FAILURE INDICATION, TS 48.058 clause 8.4.4.
    ConnectionFailureIndication {
        channel: ChanBits,
        /// The first octet of the cause (clause 9.3.26).
        cause: u8,
    },
    /// HANDOVER DETECTION, TS 48.058 clause 8.4.7.
    HandoverDetection {
        channel: ChanBits,
        /// The access delay of the handover access, any octet, where it is known (clause 9.3.17).
        delay: Option<u8>,
    },
    /// MEASUREMENT RESULT, TS 48.058 clause 8.4.8.
    MeasurementResult {
        channel: ChanBits,
        /// The measurement result number, any octet (clause 9.3.27).
        number: u8,
        /// The uplink measurements, at most 255 octets (clause 9.3.25).
        uplink: Octets<A>,
        /// The power level of the base station, any octet (clause 9.3.4).
        power: u8,
        /// The layer 3 message with the mobile's measurement report, at least one octet. The whole
        /// message has at most 1,024 octets.
        layer3: Option<Octets<A>>,
    },
    /// RF CHANNEL RELEASE, TS 48.058 clause 8.4.14.
    RfChannelRelease {
        channel: ChanBits,
    },
    /// RF CHANNEL RELEASE ACKNOWLEDGE, TS 48.058 clause 8.4.19.
    RfChannelReleaseAck {
        channel: ChanBits,
    },
}
