//! What a HANDOVER REQUEST asks for.
ghost use Rattle.std.specs.Prelude.{◌≡◌, false};
ghost use Rattle.std.specs.Option.{option_map_or};
ghost use Rattle.cell_table.specs.Site.{identity_at};
ghost use Rattle.ho_procedure.specs.Procedure.{is_speech, rates_by, rates_of, permits_clear, is_in_area, names, own_cell};

use bssmap_messages::CellId;
use cell_table::Site;
use channel_fsm::Rate;
use std::alloc::Allocator;

/// Speech, in the low four bits of the first octet of a channel type (TS 48.008 clause 3.2.2.11).
const SPEECH: u8 = 1;

/// The second octet of a channel type for speech: which rates are permitted, and which of them is preferred.
const HALF_RATE_ALONE: u8 = 0x09;

const FULL_RATE_PREFERRED: u8 = 0x0A;

const HALF_RATE_PREFERRED: u8 = 0x0B;

const FULL_OR_HALF_RATE: u8 = 0x0F;

/// The rates that a channel type permits.
#[derive(Clone, Copy)]
pub(crate) struct PermittedRates {
    /// The one that is tried first.
    pub(crate) preferred: Rate,
    /// The one that is tried where none is free at that rate.
    pub(crate) other: Option<Rate>,
}

/// A channel type asks for speech.
pub(crate) fn is_speech(channel: &[u8]) -> bool
    ensures { result ≡ is_speech channel.now }
{
    match channel {
        [indicator, ..] => *indicator % 16 == SPEECH,
        [] => false,
    }
}

/// The rates that a channel type permits by its second octet. All that isn't named here asks for the full rate.
fn rates_by(octet: u8) -> PermittedRates
    ensures { result ≡ rates_by octet }
{
    let (preferred, other) = match octet {
        HALF_RATE_ALONE => (Rate::Half, None),
        FULL_RATE_PREFERRED | FULL_OR_HALF_RATE => (Rate::Full, Some(Rate::Half)),
        HALF_RATE_PREFERRED => (Rate::Half, Some(Rate::Full)),
        _ => (Rate::Full, None),
    };
    PermittedRates { preferred, other }
}

/// The rates that a channel type permits.
pub(crate) fn rates_of(channel: &[u8]) -> PermittedRates
    ensures { result ≡ rates_of channel.now }
{
    match channel {
        [_, octet, ..] => rates_by(*octet),
        [_] | [] => PermittedRates {
            preferred: Rate::Full,
            other: None,
        },
    }
}

/// Encryption information permits a call that isn't ciphered (TS 48.008 clause 3.2.2.10).
pub(crate) fn permits_clear(encryption: &[u8]) -> bool
    ensures { result ≡ permits_clear encryption.now }
{
    match encryption {
        [algorithms, ..] => *algorithms % 2 == 1,
        [] => false,
    }
}

/// A location area code is the one that is asked for, where one is.
fn is_in_area(area: Option<u16>, lac: u16) -> bool
    ensures { result ≡ is_in_area area lac }
{
    match area {
        Some(area) => lac == area,
        None => true,
    }
}

/// A cell identifier names this cell of the site (TS 48.008 clause 3.2.2.17).
fn names<A: Allocator + Copy>(site: &Site<A>, id: CellId, cell: u8) -> bool
    ensures { result ≡ option_map_or (names id) (identity_at site.now cell) false }
{
    let (Some(lac), Some(ci)) = (site.lac(cell), site.ci(cell)) else {
        return false;
    };
    ci == id.ci && is_in_area(id.lac, lac)
}

/// The first own cell of the site that a cell identifier names.
#[tactic(auto, using(crate::proofs::CellNames::found_first, crate::proofs::CellNames::found_none))]
pub(crate) fn own_cell<A: Allocator + Copy>(site: &Site<A>, id: CellId) -> Option<u8>
    ensures { result ≡ own_cell site.now id }
{
    for cell in 0..site.cells() {
        if names(site, id, cell) {
            return Some(cell);
        }
    }
    None
}
