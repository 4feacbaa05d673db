//! Power Command and access type.
ghost use Rattle.std.specs.Prelude.{◌≡◌, ◌<◌, IfOk, IfErr, Ok, Err, length};

use crate::fault::ElementFault;
use octet_elements::{BitReader, BitWriter};
use std::alloc::{AllocError, Allocator};
use std::marker::Model;

/// The power that a mobile is to use, and whether it may leave the handover access out (TS 44.018
/// section 10.5.2.28a).
#[derive(Clone, Copy, Debug, PartialEq, Eq)]
pub struct Power {
    atc: bool,
    level: u8,
}

impl Model for Power {
    ghost use Rattle.rr_elements.specs.Power.{PowerCommand, PowerFits};

    ghost Value = { PowerCommand };

    ghost view = { λ a. record { atc = a.atc; level = a.level } };

    ghost invariant = { λ a. PowerFits (record { atc = a.atc; level = a.level }) };

    ghost inverse = { λ v. record { atc = v.atc; level = v.level } };
}

impl Power {
    ghost use Rattle.rr_elements.specs.Power.{PowerCommand, PowerFits, IsPowerText, power_text};
    ghost use Rattle.rr_elements.specs.Faults.{HasOtherLength};
    ghost use Rattle.octet_elements.specs.Writing.{Appends};

    /// This access type (`true`: the handover access is optional) and power level (0 to 31);
    /// `BadRange` where the level is more.
    pub fn new(atc: bool, level: u8) -> Result<Self, ElementFault>
        ensures ok { PowerFits (record { atc = atc; level = level }) →
            result ≡ Ok (record { atc = atc; level = level }) }
        ensures bad_range { ¬ PowerFits (record { atc = atc; level = level }) →
            result ≡ Err ElementFault.BadRange }
    {
        if level < 32 {
            Ok(Power { atc, level })
        } else {
            Err(ElementFault::BadRange)
        }
    }

    /// Whether the handover access is optional.
    pub fn atc(&self) -> bool
        ensures value { result ≡ self.now.atc }
    {
        self.atc
    }

    /// The power control level, 0 to 31; how many dBm it is depends on the band (TS 45.005 clause 4.1.1).
    pub fn level(&self) -> u8
        ensures value { result ≡ self.now.level }
        ensures range { result < 32 }
    {
        self.level
    }

    /// Appends the element's one octet.
    pub fn encode_into<A: Allocator + Copy>(&self, out: &mut Vec<u8, A>) -> Result<(), AllocError>
        ensures written { Appends (power_text self.now) out.old out.new result }
        ensures count { length (power_text self.now) ≡ 1 }
        ensures text { IsPowerText self.now (power_text self.now) }
    {
        let Power { atc, level } = *self;
        let mut bits = BitWriter::new();
        bits.put(1, u8::from(atc));
        bits.put(2, 0);
        bits.put(5, level);
        bits.append_to(out)
    }

    /// Reads the element's one octet; `Length` where it is not one.
    pub fn decode(octets: &[u8]) -> Result<Self, ElementFault>
        ensures text { IfOk result (λ v. IsPowerText v octets.now) }
        ensures fault { IfErr result (HasOtherLength 1 octets.now) }
    {
        let mut bits = BitReader::new(octets, 1).ok_or(ElementFault::Length)?;
        let atc = bits.take(1) == 1;
        let _ignored = bits.take(2);
        let level = bits.take(5);
        Ok(Power { atc, level })
    }
}
