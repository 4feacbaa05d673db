//! Channel Description 2.
ghost use Rattle.std.specs.Prelude.{◌≡◌, ◌<◌, IfOk, IfErr, Ok, Err, length};

use crate::fault::ElementFault;
use octet_elements::{BitReader, BitWriter, Sub, channel_type, sub_of_type};
use std::alloc::{AllocError, Allocator};
use std::marker::Model;

/// A traffic channel that does not hop (TS 44.018 section 10.5.2.5a).
#[derive(Clone, Copy, Debug, PartialEq, Eq)]
pub struct ChanDescription {
    tn: u8,
    sub: Sub,
    tsc: u8,
    carrier: u16,
}

impl Model for ChanDescription {
    ghost use Rattle.rr_elements.specs.ChanDescription.{Chan, ChanFits};

    ghost Value = { Chan };

    ghost view = { λ a. record { tn = a.tn; sub = a.sub; tsc = a.tsc; carrier = a.carrier } };

    ghost invariant = { λ a. ChanFits (record { tn = a.tn; sub = a.sub; tsc = a.tsc; carrier = a.carrier }) };

    ghost inverse = { λ v. record { tn = v.tn; sub = v.sub; tsc = v.tsc; carrier = v.carrier } };
}

impl ChanDescription {
    ghost use Rattle.rr_elements.specs.ChanDescription.{Chan, ChanFits, IsChanText, chan_text, HasChanFault};
    ghost use Rattle.octet_elements.specs.Writing.{Appends};

    /// This one of the traffic channels of a timeslot, with this training sequence code (timeslot and
    /// code are 0 to 7) and carrier (0 to 1023); `BadRange` where one of them is more.
    pub fn new(tn: u8, sub: Sub, tsc: u8, carrier: u16) -> Result<Self, ElementFault>
        ensures ok { ChanFits (record { tn = tn; sub = sub; tsc = tsc; carrier = carrier }) →
            result ≡ Ok (record { tn = tn; sub = sub; tsc = tsc; carrier = carrier }) }
        ensures bad_range { ¬ ChanFits (record { tn = tn; sub = sub; tsc = tsc; carrier = carrier }) →
            result ≡ Err ElementFault.BadRange }
    {
        if tn < 8 && tsc < 8 && carrier < 1024 {
            Ok(ChanDescription {
                tn,
                sub,
                tsc,
                carrier,
            })
        } else {
            Err(ElementFault::BadRange)
        }
    }

    /// The timeslot, 0 to 7.
    pub fn tn(&self) -> u8
        ensures value { result ≡ self.now.tn }
        ensures range { result < 8 }
    {
        self.tn
    }

    /// Which of the timeslot's traffic channels it is.
    pub fn sub(&self) -> Sub
        ensures value { result ≡ self.now.sub }
    {
        self.sub
    }

    /// The training sequence code, 0 to 7.
    pub fn tsc(&self) -> u8
        ensures value { result ≡ self.now.tsc }
        ensures range { result < 8 }
    {
        self.tsc
    }

    /// The carrier, 0 to 1023.
    pub fn carrier(&self) -> u16
        ensures value { result ≡ self.now.carrier }
        ensures range { result < 1024 }
    {
        self.carrier
    }

    /// Appends the element's three octets.
    pub fn encode_into<A: Allocator + Copy>(&self, out: &mut Vec<u8, A>) -> Result<(), AllocError>
        ensures written { Appends (chan_text self.now) out.old out.new result }
        ensures count { length (chan_text self.now) ≡ 3 }
        ensures text { IsChanText self.now (chan_text self.now) }
    {
        let ChanDescription {
            tn,
            sub,
            tsc,
            carrier,
        } = *self;
        let mut bits = BitWriter::new();
        bits.put(5, channel_type(sub));
        bits.put(3, tn);
        bits.put(3, tsc);
        bits.put(1, 0);
        bits.put(2, 0);
        bits.put(2, (carrier / 256) as u8);
        bits.put(8, (carrier % 256) as u8);
        bits.append_to(out)
    }

    /// Reads the element's three octets. The first fault of `Length` (they are not three),
    /// `BadType` (the type of no traffic channel of one timeslot) and `Hopping` (H is 1) that holds comes.
    pub fn decode(octets: &[u8]) -> Result<Self, ElementFault>
        ensures text { IfOk result (λ v. IsChanText v octets.now) }
        ensures fault { IfErr result (HasChanFault octets.now) }
    {
        let mut bits = BitReader::new(octets, 3).ok_or(ElementFault::Length)?;
        let kind = bits.take(5);
        let tn = bits.take(3);
        let tsc = bits.take(3);
        let hopping = bits.take(1);
        let _spare = bits.take(2);
        let high = bits.take(2);
        let low = bits.take(8);
        let carrier = 256 * u16::from(high) + u16::from(low);
        let Some(sub) = sub_of_type(kind) else {
            return Err(ElementFault::BadType);
        };
        if hopping == 1 {
            return Err(ElementFault::Hopping);
        }
        Ok(ChanDescription {
            tn,
            sub,
            tsc,
            carrier,
        })
    }
}
