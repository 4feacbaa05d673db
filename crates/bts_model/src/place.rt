//! Channels of all controllers.
ghost use Rattle.std.specs.Prelude.{◌≡◌};
ghost use Rattle.bts_model.specs.Keys.{is_same_place, key_of};
ghost use Rattle.bts_model.specs.Names.{bits_of, place_in};

use channel_fsm::ChanId;
use rsl_messages::ChanBits;

/// A channel of the world: one of a controller. Controllers are counted from 0 in the order in which the world was given
/// their sites.
#[derive(Clone, Copy, Debug, PartialEq, Eq)]
pub struct Place {
    pub controller: usize,
    pub channel: ChanId,
}

/// Whether two channels are the same.
pub fn is_same_place(one: Place, other: Place) -> bool
    ensures { result ≡ is_same_place one other }
{
    let (channel, beside) = (one.channel, other.channel);
    one.controller == other.controller
        && channel.cell == beside.cell
        && channel.trx == beside.trx
        && channel.tn == beside.tn
        && channel.sub.number() == beside.sub.number()
}

/// A channel as numbers, in whose order the world keeps what it knows of channels.
#[derive(Clone, Copy, Debug, PartialEq, Eq, PartialOrd, Ord)]
pub struct Key {
    pub controller: usize,
    pub cell: u8,
    pub trx: u8,
    pub tn: u8,
    /// The number of the part of the timeslot.
    pub part: u8,
}

/// The numbers of a channel.
pub fn key_of(place: Place) -> Key
    ensures { result ≡ key_of place }
{
    Key {
        controller: place.controller,
        cell: place.channel.cell,
        trx: place.channel.trx,
        tn: place.channel.tn,
        part: place.channel.sub.number(),
    }
}

/// How a message names a channel.
pub fn bits_of(channel: ChanId) -> ChanBits
    ensures { result ≡ bits_of channel }
{
    ChanBits {
        tn: channel.tn,
        sub: channel.sub,
    }
}

/// The channel of a TRX that a message names.
pub fn place_in(controller: usize, cell: u8, trx: u8, channel: ChanBits) -> Place
    ensures { result ≡ place_in controller cell trx channel }
{
    Place {
        controller,
        channel: ChanId {
            cell,
            trx,
            tn: channel.tn,
            sub: channel.sub,
        },
    }
}
