//! Cell Description.
ghost use Rattle.std.specs.Prelude.{◌≡◌, ◌<◌, IfOk, IfErr, Ok, Err, length};

use crate::fault::ElementFault;
use octet_elements::{BitReader, BitWriter};
use std::alloc::{AllocError, Allocator};
use std::marker::Model;

/// The carrier of a cell's BCCH and the cell's colour (TS 44.018 section 10.5.2.2).
#[derive(Clone, Copy, Debug, PartialEq, Eq)]
pub struct CellDescription {
    arfcn: u16,
    ncc: u8,
    bcc: u8,
}

impl Model for CellDescription {
    ghost use Rattle.rr_elements.specs.CellDescription.{Cell, CellFits};

    ghost Value = { Cell };

    ghost view = { λ a. record { arfcn = a.arfcn; ncc = a.ncc; bcc = a.bcc } };

    ghost invariant = { λ a. CellFits (record { arfcn = a.arfcn; ncc = a.ncc; bcc = a.bcc }) };

    ghost inverse = { λ v. record { arfcn = v.arfcn; ncc = v.ncc; bcc = v.bcc } };
}

impl CellDescription {
    ghost use Rattle.rr_elements.specs.CellDescription.{Cell, CellFits, IsCellText, cell_text};
    ghost use Rattle.rr_elements.specs.Faults.{HasOtherLength};
    ghost use Rattle.octet_elements.specs.Writing.{Appends};

    /// A description of the cell with this carrier (0 to 1023), network colour code and base
    /// station colour code (0 to 7 each); `BadRange` where one of them is more.
    pub fn new(arfcn: u16, ncc: u8, bcc: u8) -> Result<Self, ElementFault>
        ensures ok { CellFits (record { arfcn = arfcn; ncc = ncc; bcc = bcc }) →
            result ≡ Ok (record { arfcn = arfcn; ncc = ncc; bcc = bcc }) }
        ensures bad_range { ¬ CellFits (record { arfcn = arfcn; ncc = ncc; bcc = bcc }) →
            result ≡ Err ElementFault.BadRange }
    {
        if arfcn < 1024 && ncc < 8 && bcc < 8 {
            Ok(CellDescription { arfcn, ncc, bcc })
        } else {
            Err(ElementFault::BadRange)
        }
    }

    /// The carrier of the BCCH, 0 to 1023.
    pub fn arfcn(&self) -> u16
        ensures value { result ≡ self.now.arfcn }
        ensures range { result < 1024 }
    {
        self.arfcn
    }

    /// The network colour code, 0 to 7.
    pub fn ncc(&self) -> u8
        ensures value { result ≡ self.now.ncc }
        ensures range { result < 8 }
    {
        self.ncc
    }

    /// The base station colour code, 0 to 7.
    pub fn bcc(&self) -> u8
        ensures value { result ≡ self.now.bcc }
        ensures range { result < 8 }
    {
        self.bcc
    }

    /// Appends the element's two octets.
    pub fn encode_into<A: Allocator + Copy>(&self, out: &mut Vec<u8, A>) -> Result<(), AllocError>
        ensures written { Appends (cell_text self.now) out.old out.new result }
        ensures count { length (cell_text self.now) ≡ 2 }
        ensures text { IsCellText self.now (cell_text self.now) }
    {
        let CellDescription { arfcn, ncc, bcc } = *self;
        let mut bits = BitWriter::new();
        bits.put(2, (arfcn / 256) as u8);
        bits.put(3, ncc);
        bits.put(3, bcc);
        bits.put(8, (arfcn % 256) as u8);
        bits.append_to(out)
    }

    /// Reads the element's two octets; `Length` where they are not two.
    pub fn decode(octets: &[u8]) -> Result<Self, ElementFault>
        ensures text { IfOk result (λ v. IsCellText v octets.now) }
        ensures fault { IfErr result (HasOtherLength 2 octets.now) }
    {
        let mut bits = BitReader::new(octets, 2).ok_or(ElementFault::Length)?;
        let high = bits.take(2);
        let network = bits.take(3);
        let station = bits.take(3);
        let low = bits.take(8);
        Ok(CellDescription {
            arfcn: 256 * u16::from(high) + u16::from(low),
            ncc: network,
            bcc: station,
        })
    }
}
