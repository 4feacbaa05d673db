//! RR Cause.
ghost use Rattle.std.specs.Prelude.{◌≡◌, IfOk, IfErr, Ok, length};

use crate::fault::ElementFault;
use octet_elements::{BitReader, BitWriter};
use std::alloc::{AllocError, Allocator};

/// The cause 'normal event'.
pub const NORMAL_EVENT: u8 = 0;

/// The cause 'abnormal release, unspecified'.
pub const ABNORMAL_RELEASE: u8 = 1;

/// Why a connection is released or a handover ended (TS 44.018 section 10.5.2.31): any octet.
#[derive(Clone, Copy, Debug, PartialEq, Eq)]
pub struct RrCause(pub u8);

impl RrCause {
    ghost use Rattle.rr_elements.specs.RrCause.{IsCauseText, cause_text};
    ghost use Rattle.rr_elements.specs.Faults.{HasOtherLength};
    ghost use Rattle.octet_elements.specs.Writing.{Appends};

    /// The cause with this value; each octet is one, so no fault comes.
    pub fn new(value: u8) -> Result<Self, ElementFault>
        ensures ok { result ≡ Ok (record { 0 = value }) }
    {
        Ok(RrCause(value))
    }

    /// The value of the cause.
    pub fn value(&self) -> u8
        ensures value { result ≡ self.now.0 }
    {
        self.0
    }

    /// Appends the element's one octet.
    pub fn encode_into<A: Allocator + Copy>(&self, out: &mut Vec<u8, A>) -> Result<(), AllocError>
        ensures written { Appends (cause_text self.now) out.old out.new result }
        ensures count { length (cause_text self.now) ≡ 1 }
        ensures text { IsCauseText self.now (cause_text self.now) }
    {
        let mut bits = BitWriter::new();
        bits.put(8, self.value());
        bits.append_to(out)
    }

    /// Reads the element's one octet; `Length` where it is not one.
    pub fn decode(octets: &[u8]) -> Result<Self, ElementFault>
        ensures text { IfOk result (λ v. IsCauseText v octets.now) }
        ensures fault { IfErr result (HasOtherLength 1 octets.now) }
    {
        let mut bits = BitReader::new(octets, 1).ok_or(ElementFault::Length)?;
        let cause = bits.take(8);
        Ok(RrCause(cause))
    }
}
