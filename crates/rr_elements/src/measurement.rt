//! The parts of Measurement Results: the head and the neighbours.
ghost use Rattle.std.specs.Prelude.{◌≡◌, ◌↔◌, ◌+◌, ◌*◌, ◌-◌, ◌≤◌, ◌++◌, IsTrue, All, length, take, drop, replicate, flat_map};
ghost use Rattle.octet_elements.specs.Bits.{cut, after, repeated_widths, bits_written};
ghost use Rattle.rr_elements.specs.MeasResults.{HeadFits, NcellFits, used_count, head_widths, head_numbers, ncell_widths, ncell_numbers, no_ncell};

use octet_elements::{BitReader, BitWriter};

/// What was measured of a neighbour cell.
#[derive(Clone, Copy, Debug, PartialEq, Eq)]
pub struct Ncell {
    /// RXLEV-NCELL: the received level in steps of 1 dB, 0 (below -110 dBm) to 63 (TS 45.008 clause 8.1.4).
    pub level: u8,
    /// BCCH-FREQ-NCELL: the carrier's position in the neighbour list, 0 to 31.
    pub position: u8,
    /// BSIC-NCELL: the base station identity code, 0 to 63.
    pub bsic: u8,
}

/// A place that is not in use.
pub(crate) const NO_NCELL: Ncell = Ncell {
    level: 0,
    position: 0,
    bsic: 0,
};

impl Ncell {
    /// Whether each field is within its range.
    pub fn fits(&self) -> bool
        ensures ranges { IsTrue result ↔ NcellFits self.now }
    {
        self.level < 64 && self.position < 32 && self.bsic < 64
    }
}

/// The fields of measurement results before the neighbours.
#[derive(Clone, Copy, Debug, PartialEq, Eq)]
pub struct MeasHead {
    /// BA-USED: which neighbour list was used.
    pub ba: bool,
    /// DTX-USED: whether discontinuous transmission was used.
    pub dtx: bool,
    /// RXLEV-FULL: the serving cell's level over all frames, 0 to 63, in the steps of [`Ncell::level`].
    pub full: u8,
    /// 3G-BA-USED: which list of other radio systems was used.
    pub ba3g: bool,
    /// Whether the results are valid (MEAS-VALID is 0).
    pub valid: bool,
    /// RXLEV-SUB: the serving cell's level over a subset of frames, 0 to 63, in the steps of [`Ncell::level`].
    pub sub: u8,
    /// SI23-BA-USED: whether the list came from system information 23.
    pub si23: bool,
    /// RXQUAL-FULL: the serving cell's quality over all frames, 0 (fewest bit errors) to 7.
    pub qfull: u8,
    /// RXQUAL-SUB: the serving cell's quality over a subset of frames, 0 to 7.
    pub qsub: u8,
    /// NO-NCELL-M: how many neighbours follow, 0 to 6, or 7: there is no neighbour information.
    pub count: u8,
}

impl MeasHead {
    /// Whether each field is within its range.
    pub fn fits(&self) -> bool
        ensures ranges { IsTrue result ↔ HeadFits self.now }
    {
        self.full < 64 && self.sub < 64 && self.qfull < 8 && self.qsub < 8 && self.count < 8
    }

    /// How many neighbours stand in the results.
    pub(crate) fn used(&self) -> usize
        ensures { result ≡ used_count self.now.count }
    {
        match self.count {
            7 => 0,
            count => usize::from(count),
        }
    }
}

pub(crate) fn take_head(bits: &mut BitReader) -> MeasHead
    requires { 26 ≤ length bits.old }
    ensures numbers { head_numbers result ≡ cut head_widths bits.old }
    ensures fits { HeadFits result }
    ensures rest { bits.new ≡ after head_widths bits.old }
    ensures left { length bits.new + 26 ≡ length bits.old }
{
    MeasHead {
        ba: bits.take(1) == 1,
        dtx: bits.take(1) == 1,
        full: bits.take(6),
        ba3g: bits.take(1) == 1,
        valid: bits.take(1) == 0,
        sub: bits.take(6),
        si23: bits.take(1) == 1,
        qfull: bits.take(3),
        qsub: bits.take(3),
        count: bits.take(3),
    }
}

fn take_ncell(bits: &mut BitReader) -> Ncell
    requires { 17 ≤ length bits.old }
    ensures numbers { ncell_numbers result ≡ cut ncell_widths bits.old }
    ensures fits { NcellFits result }
    ensures rest { bits.new ≡ after ncell_widths bits.old }
    ensures left { length bits.new + 17 ≡ length bits.old }
{
    Ncell {
        level: bits.take(6),
        position: bits.take(5),
        bsic: bits.take(6),
    }
}

// It isn't inlined: else its loop is unrolled, and each place is kept apart until all are known.
#[inline(never)]
pub(crate) fn take_ncells(mut bits: BitReader, used: usize) -> [Ncell; 6]
    requires few { used ≤ 6 }
    requires enough { 17 * used ≤ length bits }
    ensures numbers { flat_map ncell_numbers (take used result) ≡
        cut (repeated_widths used ncell_widths) bits }
    ensures fits { All NcellFits (take used result) }
    ensures others { drop used result ≡ replicate (6 - used) no_ncell }
    ensures six { length result ≡ 6 }
{
    let mut places = [NO_NCELL; 6];
    for i in 0..used {
        places[i] = take_ncell(&mut bits);
    }
    places
}

pub(crate) fn put_head(bits: &mut BitWriter, head: &MeasHead)
    requires fits { HeadFits head.now }
    requires room { length bits.old + 26 ≤ 128 }
    ensures bits { bits.new ≡ bits.old ++ bits_written head_widths (head_numbers head.now) }
    ensures len { length bits.new ≡ length bits.old + 26 }
{
    bits.put(1, u8::from(head.ba));
    bits.put(1, u8::from(head.dtx));
    bits.put(6, head.full);
    bits.put(1, u8::from(head.ba3g));
    bits.put(1, u8::from(!head.valid));
    bits.put(6, head.sub);
    bits.put(1, u8::from(head.si23));
    bits.put(3, head.qfull);
    bits.put(3, head.qsub);
    bits.put(3, head.count);
}

pub(crate) fn put_ncells(bits: &mut BitWriter, ncells: &[Ncell])
    requires fits { All NcellFits ncells.now }
    requires room { length bits.old + 17 * length ncells.now ≤ 128 }
    ensures bits { bits.new ≡ bits.old ++ flat_map
        (λ n. bits_written ncell_widths (ncell_numbers n)) ncells.now }
    ensures len { length bits.new ≡ length bits.old + 17 * length ncells.now }
{
    for ncell in ncells {
        bits.put(6, ncell.level);
        bits.put(5, ncell.position);
        bits.put(6, ncell.bsic);
    }
}

/// Whether each neighbour's fields are within their ranges.
pub(crate) fn all_fit(neighbours: &[Ncell]) -> bool
    ensures { IsTrue result ↔ All NcellFits neighbours.now }
{
    neighbours.iter().all(|neighbour| neighbour.fits())
}
