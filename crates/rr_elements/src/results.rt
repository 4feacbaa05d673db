//! Measurement Results.
ghost use Rattle.std.specs.Prelude.{◌≡◌, IfOk, IfErr, Ok, Err, All, length};

use crate::fault::ElementFault;
use crate::measurement::{
    MeasHead, NO_NCELL, Ncell, all_fit, put_head, put_ncells, take_head, take_ncells,
};
use octet_elements::{BitReader, BitWriter};
use std::alloc::{AllocError, Allocator};
use std::marker::Model;

/// What a mobile measured of its serving cell and of up to six neighbours (TS 44.018 section
/// 10.5.2.20).
#[derive(Clone, Copy, Debug, PartialEq, Eq)]
pub struct MeasResults {
    head: MeasHead,
    places: [Ncell; 6],
}

impl Model for MeasResults {
    ghost use Rattle.std.specs.Prelude.{◌++◌, ◌-◌, length, take, replicate};
    ghost use Rattle.rr_elements.specs.MeasResults.{Results, IsKept, used_count, no_ncell};

    ghost Value = { Results };

    ghost view = { λ a. record {
      head = a.head;
      neighbours = take (used_count a.head.count) a.places;
    } };

    ghost invariant = { λ a. IsKept a.head a.places };

    ghost inverse = { λ v. record { head = v.head; places = v.neighbours ++ replicate (6 - length v.neighbours) no_ncell } };

    ghost use Rattle.std.proofs.Common.{ap};
    ghost use Rattle.rr_elements.specs.ResultsKept.{kept_again};

    ghost inverse_ok = { λ a h. ap (λ places. record { head = a.head; places = places }) (kept_again a.head a.places h) };
}

impl MeasResults {
    ghost use Rattle.rr_elements.specs.MeasResults.{Results, ResultsFit, HeadFits, NcellFits, used_count, IsResultsText, results_text};
    ghost use Rattle.rr_elements.specs.Faults.{HasOtherLength};
    ghost use Rattle.octet_elements.specs.Writing.{Appends};

    /// Results with these fields and neighbours. `BadRange` where a field does not fit its bits,
    /// or there are not as many neighbours as the count says (none where it is 7).
    pub fn new(head: MeasHead, neighbours: &[Ncell]) -> Result<Self, ElementFault>
        ensures ok { ResultsFit (record { head = head; neighbours = neighbours.now }) →
            result ≡ Ok (record { head = head; neighbours = neighbours.now }) }
        ensures bad_range { ¬ ResultsFit (record { head = head; neighbours = neighbours.now }) →
            result ≡ Err ElementFault.BadRange }
    {
        let count = neighbours.len();
        if !head.fits() || count != head.used() || !all_fit(neighbours) {
            return Err(ElementFault::BadRange);
        }
        let mut places = [NO_NCELL; 6];
        places[..count].copy_from_slice(neighbours);
        Ok(MeasResults { head, places })
    }

    /// The fields before the neighbours, each in its range.
    pub fn head(&self) -> MeasHead
        ensures value { result ≡ self.now.head }
        ensures fits { HeadFits result }
    {
        let MeasResults { head, .. } = *self;
        head
    }

    /// The neighbours, at most six.
    pub fn neighbours(&self) -> &[Ncell]
        ensures value { result.now ≡ self.now.neighbours }
        ensures fits { All NcellFits result.now }
        ensures count { length result.now ≡ used_count self.now.head.count }
    {
        &self.places[..self.head.used()]
    }

    /// Appends the element's sixteen octets.
    pub fn encode_into<A: Allocator + Copy>(&self, out: &mut Vec<u8, A>) -> Result<(), AllocError>
        ensures written { Appends (results_text self.now) out.old out.new result }
        ensures count { length (results_text self.now) ≡ 16 }
        ensures text { IsResultsText self.now (results_text self.now) }
    {
        let mut bits = BitWriter::new();
        put_head(&mut bits, &self.head);
        put_ncells(&mut bits, self.neighbours());
        bits.pad_to(128);
        bits.append_to(out)
    }

    /// Reads the element's sixteen octets; `Length` where they are not sixteen.
    pub fn decode(octets: &[u8]) -> Result<Self, ElementFault>
        ensures text { IfOk result (λ v. IsResultsText v octets.now) }
        ensures fault { IfErr result (HasOtherLength 16 octets.now) }
    {
        let mut bits = BitReader::sixteen(octets).ok_or(ElementFault::Length)?;
        let head = take_head(&mut bits);
        let places = take_ncells(bits, head.used());
        Ok(MeasResults { head, places })
    }
}
