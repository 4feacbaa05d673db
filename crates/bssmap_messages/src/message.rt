//! The messages.
ghost use Rattle.std.specs.Prelude.{◌≡◌};
ghost use Rattle.std.specs.Option.{option_map};
ghost use Rattle.bssmap_messages.specs.Messages.{target_of};

use crate::cells::CellList;
use octet_elements::Octets;
use std::alloc::{Allocator, Global};

/// A cell, as an element identifies it (TS 48.008 clause 3.2.2.17).
#[derive(Clone, Copy, Debug, PartialEq, Eq)]
pub struct CellId {
    /// The location area code. A cell may be read without one, but is written with one alone.
    pub lac: Option<u16>,
    /// The cell identity.
    pub ci: u16,
}

/// A mobile's classmark. Its type says under which identifier it stands.
#[derive(Debug, Drop)]
pub enum Classmark<A: Allocator = Global> {
    /// Classmark information type 1, one octet (TS 48.008 clause 3.2.2.30).
    One(u8),
    /// Classmark information type 2 (TS 48.008 clause 3.2.2.19). It may be empty.
    Two(Octets<A>),
}

/// A message on A. A cause is any octet of TS 48.008 clause 3.2.2.5, and an RR cause any octet of
/// TS 44.018 clause 10.5.2.31.
#[derive(Debug, Drop)]
pub enum Bssmap<A: Allocator = Global> {
    /// HANDOVER REQUEST, TS 48.008 clause 3.2.1.8.
    HandoverRequest {
        /// The channel type, at least two octets.
        channel: Octets<A>,
        /// The encryption information, at least one octet.
        encryption: Octets<A>,
        classmark: Classmark<A>,
        /// The cell that the mobile is in.
        serving: CellId,
        /// The cell that it is to go to.
        target: CellId,
    },
    /// HANDOVER REQUIRED, TS 48.008 clause 3.2.1.9.
    HandoverRequired {
        cause: u8,
        /// Whether a HANDOVER REQUIRED REJECT is asked for.
        response: bool,
        /// The cells to try, the best first: at least one.
        cells: CellList<A>,
    },
    /// HANDOVER REQUEST ACKNOWLEDGE, TS 48.008 clause 3.2.1.10.
    HandoverRequestAck {
        /// The radio resource message for the mobile, at least one octet.
        layer3: Octets<A>,
    },
    /// HANDOVER COMMAND, TS 48.008 clause 3.2.1.11.
    HandoverCommand {
        /// The radio resource message for the mobile, at least one octet.
        layer3: Octets<A>,
    },
    /// HANDOVER COMPLETE, TS 48.008 clause 3.2.1.12.
    HandoverComplete {
        rr: Option<u8>,
    },
    /// HANDOVER FAILURE, TS 48.008 clause 3.2.1.16.
    HandoverFailure {
        cause: u8,
        rr: Option<u8>,
    },
    /// HANDOVER PERFORMED, TS 48.008 clause 3.2.1.25.
    HandoverPerformed {
        cause: u8,
        /// The cell that the mobile is in now.
        cell: CellId,
    },
    /// HANDOVER REQUIRED REJECT, TS 48.008 clause 3.2.1.37.
    HandoverRequiredReject {
        cause: u8,
    },
    /// HANDOVER DETECT, TS 48.008 clause 3.2.1.40.
    HandoverDetect,
    /// CLEAR COMMAND, TS 48.008 clause 3.2.1.21.
    ClearCommand {
        cause: u8,
    },
    /// CLEAR COMPLETE, TS 48.008 clause 3.2.1.22.
    ClearComplete,
    /// CLEAR REQUEST, TS 48.008 clause 3.2.1.20.
    ClearRequest {
        cause: u8,
    },
}

/// The cell that a HANDOVER REQUEST is for; `None` for every other message. It takes no memory.
pub fn target_of<A: Allocator>(message: &Bssmap<A>) -> Option<&CellId>
    ensures target { option_map (λ cell. cell.now) result ≡ target_of message.now }
{
    match message {
        Bssmap::HandoverRequest { target, .. } => Some(target),
        Bssmap::HandoverRequired { .. }
        | Bssmap::HandoverRequestAck { .. }
        | Bssmap::HandoverCommand { .. }
        | Bssmap::HandoverComplete { .. }
        | Bssmap::HandoverFailure { .. }
        | Bssmap::HandoverPerformed { .. }
        | Bssmap::HandoverRequiredReject { .. }
        | Bssmap::HandoverDetect
        | Bssmap::ClearCommand { .. }
        | Bssmap::ClearComplete
        | Bssmap::ClearRequest { .. } => None,
    }
}
