//! The values that each key of a site file allows. The table is here once, and once among the definitions.
ghost use Rattle.std.specs.Prelude.{◌≡◌, ◌<◌};
ghost use Rattle.cell_table.specs.Limits.{timeslots_of_trx};
ghost use Rattle.cell_table.specs.Ranges.{allowed, arfcn_range, tch_range, up_to, from_one};

use crate::fault::Key;
use crate::limits::{
    MOST_CARRIER, MOST_CELLS, MOST_CODE, MOST_COLOUR, MOST_LEVEL, MOST_OUTSIDE, MOST_POWER,
    MOST_REPORTS, MOST_TRX, TIMESLOTS_OF_TRX,
};

/// Numbers from the least to the greatest.
#[derive(Clone, Copy, Debug, PartialEq, Eq)]
pub struct Allowed {
    pub least: u16,
    pub most: u16,
}

/// From 0 to a number.
pub(crate) fn up_to(most: u16) -> Allowed
    ensures { result ≡ up_to most }
{
    Allowed { least: 0, most }
}

/// From 1 to a number.
fn from_one(most: u16) -> Allowed
    ensures { result ≡ from_one most }
{
    Allowed { least: 1, most }
}

impl Key {
    /// The numbers that the key's value may be, or each entry if it is a list of numbers. For a key with tables: how many
    /// there may be.
    ///
    /// The first TRX of a cell may have less at `arfcn` and `tch`: [`arfcn_range`], [`tch_range`]. An entry of `half` also
    /// has to stand in the TRX's `tch`.
    pub fn allowed(self) -> Allowed
        ensures table { result ≡ allowed self }
    {
        match self {
            Key::Handover => Allowed { least: 1, most: 1 },
            Key::Window => from_one(MOST_REPORTS as u16),
            Key::Margin | Key::Minimum => up_to(MOST_LEVEL),
            Key::Cell => from_one(MOST_CELLS as u16),
            Key::Lac | Key::Ci => up_to(MOST_CODE),
            Key::Bcch | Key::Ba | Key::Arfcn => up_to(MOST_CARRIER),
            Key::Ncc | Key::Bcc => up_to(MOST_COLOUR),
            Key::Power => up_to(MOST_POWER),
            Key::Trx => from_one(MOST_TRX as u16),
            Key::Tch | Key::Half => up_to(TIMESLOTS_OF_TRX as u16 - 1),
            Key::Outside => up_to(MOST_OUTSIDE as u16),
        }
    }
}

/// The carriers that a TRX may have. The first TRX of a cell has the cell's BCCH carrier.
pub fn arfcn_range(bcch: u16, first: bool) -> Allowed
    ensures value { result ≡ arfcn_range bcch first }
{
    if first {
        Allowed {
            least: bcch,
            most: bcch,
        }
    } else {
        Key::Arfcn.allowed()
    }
}

/// The timeslots of a TRX that may carry traffic. Timeslot 0 of a cell's first TRX carries the broadcast channels (TS 45.002
/// clause 7).
pub fn tch_range(first: bool) -> Allowed
    ensures value { result ≡ tch_range first }
    ensures most { result.most < timeslots_of_trx }
{
    let every = Key::Tch.allowed();
    if first {
        Allowed { least: 1, ..every }
    } else {
        every
    }
}
