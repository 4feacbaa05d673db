//! Why a text gives no site.
ghost use Rattle.std.specs.Prelude.{◌≡◌};

use std::alloc::AllocError;
use std::fmt;
use thiserror::Error;

/// A key of a site file.
#[derive(Clone, Copy, Debug, PartialEq, Eq)]
pub enum Key {
    Handover,
    Window,
    Margin,
    Minimum,
    Cell,
    Lac,
    Ci,
    Bcch,
    Ncc,
    Bcc,
    Power,
    Ba,
    Trx,
    Arfcn,
    Tch,
    Half,
    Outside,
}

impl Key {
    ghost use Rattle.cell_table.specs.SiteFile.{key_name};

    /// The key as it is written in the file.
    pub fn name(self) -> &'static str
        ensures name { result.now ≡ key_name self }
    {
        match self {
            Key::Handover => "handover",
            Key::Window => "window",
            Key::Margin => "margin",
            Key::Minimum => "minimum",
            Key::Cell => "cell",
            Key::Lac => "lac",
            Key::Ci => "ci",
            Key::Bcch => "bcch",
            Key::Ncc => "ncc",
            Key::Bcc => "bcc",
            Key::Power => "power",
            Key::Ba => "ba",
            Key::Trx => "trx",
            Key::Arfcn => "arfcn",
            Key::Tch => "tch",
            Key::Half => "half",
            Key::Outside => "outside",
        }
    }
}

/// The key as it is written in the file.
impl fmt::Display for Key {
    fn fmt<W: fmt::Write>(&self, f: &mut fmt::Formatter<W>) -> fmt::Result {
        write!(f, "{}", self.name())
    }
}

/// What a site file may say only once.
#[derive(Clone, Copy, Debug, PartialEq, Eq)]
pub enum What {
    /// Two cells, own or outside, have one location area code and cell identity.
    Identity,
    /// Two cells, own or outside, have one BCCH carrier, network colour code and base station colour code.
    Colour,
    /// A cell has one carrier on two TRX.
    Carrier,
    /// A TRX has one timeslot twice, in `tch` or in `half`.
    Slot,
    /// A cell has one carrier twice in its BA list.
    Neighbour,
}

impl What {
    /// What is there twice, in words, with its keys.
    fn in_words(self) -> &'static str {
        match self {
            What::Identity => "two cells have the same lac and ci",
            What::Colour => "two cells have the same bcch, ncc and bcc",
            What::Carrier => "two trx of a cell have the same arfcn",
            What::Slot => "a trx names a timeslot twice in tch or in half",
            What::Neighbour => "a cell names a carrier twice in ba",
        }
    }
}

/// The kind in lower case.
impl fmt::Display for What {
    fn fmt<W: fmt::Write>(&self, f: &mut fmt::Formatter<W>) -> fmt::Result {
        let name = match self {
            What::Identity => "identity",
            What::Colour => "colour",
            What::Carrier => "carrier",
            What::Slot => "slot",
            What::Neighbour => "neighbour",
        };
        write!(f, "{name}")
    }
}

/// Why `Site::read` gives no site: the first check that the text fails.
#[derive(Clone, Copy, Debug, PartialEq, Eq, Error)]
pub enum SiteFault {
    /// The text isn't TOML.
    #[error("the text isn't TOML")]
    Toml,
    /// A required key is absent.
    #[error("the key {0} is missing")]
    Missing(Key),
    /// The value of a key is of another kind, or out of its range. So is an entry of `half` that isn't in the TRX's `tch`.
    #[error("the value of {0} is of another kind than allowed, or out of its range")]
    Range(Key),
    /// Something that may be said only once is said twice.
    #[error("{}", .0.in_words())]
    Twice(What),
    /// This cell, counted from 0, has no traffic channel.
    #[error("cell {0} has no traffic timeslot at tch")]
    NoTraffic(u8),
    /// Memory was refused.
    #[error("memory is refused")]
    NoMemory,
}

impl From<AllocError> for SiteFault {
    ghost use Rattle.cell_table.specs.declared.fault.SiteFault.TheVariants.{NoMemory};

    ghost from_gives = { λ _ fault. fault ≡ NoMemory };

    fn from(_: AllocError) -> SiteFault {
        SiteFault::NoMemory
    }
}
