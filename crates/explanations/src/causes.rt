//! The names of causes and refusals, for people.
//!
//! The words of causes are the standards'; a value that a standard keeps for later, or leaves to nations or makers, is
//! `reserved`. So is the first octet of an extended cause (its high bit is set): the name would depend on the octet
//! behind it, which isn't kept.
ghost use Rattle.std.specs.Prelude.{◌↔◌, ◌<◌, IsSome};

/// The name of each value that a standard gives none.
pub const RESERVED: &str = "reserved";

/// The name of a cause on A (TS 48.008 clause 3.2.2.5).
pub fn a_cause(cause: u8) -> &'static str {
    match cause {
        0x00 => "radio interface message failure",
        0x01 => "radio interface failure",
        0x02 => "uplink quality",
        0x03 => "uplink strength",
        0x04 => "downlink quality",
        0x05 => "downlink strength",
        0x06 => "distance",
        0x07 => "O and M intervention",
        0x08 => "response to MSC invocation",
        0x09 => "call control",
        0x0A => "radio interface failure, reversion to old channel",
        0x0B => "handover successful",
        0x0C => "better cell",
        0x0D => "directed retry",
        0x0E => "joined group call channel",
        0x0F => "traffic",
        0x10 => "reduce load in serving cell",
        0x11 => "traffic load in target cell higher than in source cell",
        0x12 => "relocation triggered",
        0x14 => "requested option not authorised",
        0x15 => "alternative channel configuration requested",
        0x16 => "response to an INTERNAL HANDOVER ENQUIRY message",
        0x17 => "INTERNAL HANDOVER ENQUIRY reject",
        0x18 => "redundancy level not adequate",
        0x20 => "equipment failure",
        0x21 => "no radio resource available",
        0x22 => "requested terrestrial resource unavailable",
        0x23 => "CCCH overload",
        0x24 => "processor overload",
        0x25 => "BSS not equipped",
        0x26 => "MS not equipped",
        0x27 => "invalid cell",
        0x28 => "traffic load",
        0x29 => "preemption",
        0x2A => "DTM handover: SGSN failure",
        0x2B => "DTM handover: PS allocation failure",
        0x30 => "requested transcoding/rate adaption unavailable",
        0x31 => "circuit pool mismatch",
        0x32 => "switch circuit pool",
        0x33 => "requested speech version unavailable",
        0x34 => "LSA not allowed",
        0x35 => "requested codec type or codec configuration unavailable",
        0x36 => "requested A interface type unavailable",
        0x37 => "invalid CSG cell",
        0x3F => "requested redundancy level not available",
        0x40 => "ciphering algorithm not supported",
        0x41 => "GERAN Iu-mode failure",
        0x42 => "incoming relocation not supported due to PUESBINE feature",
        0x43 => "access restricted due to shared networks",
        0x44 => "requested codec type or codec configuration not supported",
        0x45 => "requested A interface type not supported",
        0x46 => "requested redundancy level not supported",
        0x50 => "terrestrial circuit already allocated",
        0x51 => "invalid message contents",
        0x52 => "information element or field missing",
        0x53 => "incorrect value",
        0x54 => "unknown message type",
        0x55 => "unknown information element",
        0x56 => "DTM handover: invalid PS indication",
        0x57 => "call identifier already allocated",
        0x60 => "protocol error between BSS and MSC",
        0x61 => "VGCS/VBS call non existent",
        0x62 => "DTM handover: timer expiry",
        _ => RESERVED,
    }
}

/// The name of a cause on the radio path (TS 44.018 clause 10.5.2.31).
pub fn rr_cause(cause: u8) -> &'static str {
    match cause {
        0x00 => "normal event",
        0x01 => "abnormal release, unspecified",
        0x02 => "abnormal release, channel unacceptable",
        0x03 => "abnormal release, timer expired",
        0x04 => "abnormal release, no activity on the radio path",
        0x05 => "preemptive release",
        0x06 => "UTRAN configuration unknown",
        0x08 => "handover impossible, timing advance out of range",
        0x09 => "channel mode unacceptable",
        0x0A => "frequency not implemented",
        0x0B => "originator or talker leaving group call area",
        0x0C => "lower layer failure",
        0x41 => "call already cleared",
        0x5F => "semantically incorrect message",
        0x60 => "invalid mandatory information",
        0x61 => "message type non-existent or not implemented",
        0x62 => "message type not compatible with protocol state",
        0x64 => "conditional IE error",
        0x65 => "no cell allocation available",
        0x6F => "protocol error unspecified",
        _ => RESERVED,
    }
}

/// The name of a cause on Abis (TS 48.058 clause 9.3.26).
pub fn abis_cause(cause: u8) -> &'static str {
    match cause {
        0x00 => "radio interface failure",
        0x01 => "radio link failure",
        0x02 => "handover access failure",
        0x03 => "talker access failure",
        0x07 => "O&M intervention",
        0x0F => "normal event, unspecified",
        0x20 => "equipment failure",
        0x21 => "radio resource not available",
        0x22 => "terrestrial channel failure",
        0x23 => "CCCH overload",
        0x24 => "ACCH overload",
        0x25 => "processor overload",
        0x27 => "BTS not equipped",
        0x28 => "remote transcoder failure",
        0x29 => "notification overflow",
        0x2F => "resource not available, unspecified",
        0x30 => "requested transcoding/rate adaption not available",
        0x3F => "service or option not available, unspecified",
        0x40 => "encryption algorithm not implemented",
        0x4F => "service or option not implemented, unspecified",
        0x50 => "radio channel already activated/allocated",
        0x5F => "invalid message, unspecified",
        0x60 => "message discriminator error",
        0x61 => "message type error",
        0x62 => "message sequence error",
        0x63 => "general information element error",
        0x64 => "mandatory information element error",
        0x65 => "optional information element error",
        0x66 => "information element non-existent",
        0x67 => "information element length error",
        0x68 => "invalid information element contents",
        0x6F => "protocol error, unspecified",
        0x7F => "interworking, unspecified",
        _ => RESERVED,
    }
}

/// The name of a refusal of the book, by its number in a trace, from 1 to 9. Ours, of no standard.
pub fn refusal_name(number: u8) -> Option<&'static str>
    ensures some { IsSome result ↔ ((0 < number) × (number < 10)) }
{
    match number {
        1 => Some("NoCall"),
        2 => Some("CallExists"),
        3 => Some("WrongPhase"),
        4 => Some("NoChannel"),
        5 => Some("SameCell"),
        6 => Some("ChannelBusy"),
        7 => Some("RefBusy"),
        8 => Some("Unexpected"),
        9 => Some("NotArmed"),
        _ => None,
    }
}

/// Why the book refused, by the refusal's number in a trace, from 1 to 9. Ours, of no standard.
pub fn refusal_words(number: u8) -> Option<&'static str>
    ensures some { IsSome result ↔ ((0 < number) × (number < 10)) }
{
    match number {
        1 => Some("there is no such call"),
        2 => Some("the call is there already"),
        3 => Some("no attempt is open, or the call or its attempt is at the wrong stage"),
        4 => Some("the site names no such traffic channel"),
        5 => Some("the channel lies in the cell where the call is served"),
        6 => Some("this channel isn't free"),
        7 => Some("this handover reference is in use"),
        8 => Some("no call has this channel, or it doesn't wait for this message of its station"),
        9 => Some("the timer isn't armed for the call"),
        _ => None,
    }
}
