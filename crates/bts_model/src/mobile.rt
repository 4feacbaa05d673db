//! What a mobile does with a message.
ghost use Rattle.std.specs.Prelude.{◌≡◌, ◌<◌, find, IfSome};
ghost use Rattle.bts_model.specs.Mobiles.{place_on, destination_of, is_active_with, is_there, target_of, commanded, response_to, IsOnTimeslot, IsHeard};

use crate::place::Place;
use crate::setting::Habit;
use crate::slots::{Activity, Slots};
use crate::trx::Trx;
use channel_fsm::{ChanId, Sub};
use rr_elements::{CellDescription, ChanDescription};
use rr_messages::{Rr, decode};
use std::alloc::Allocator;

/// What a mobile does with a message.
#[derive(Clone, Copy)]
pub enum Response {
    /// Nothing is heard of it.
    Unheard,
    /// It stays on its channel, or comes back to it, and says that it failed.
    Returned,
    /// It goes to this channel, and says so there.
    Arrived(Place),
}

/// Where a HANDOVER COMMAND sends a mobile: the cell by its colour, the carrier, the timeslot and which of its channels, and
/// the handover reference.
#[derive(Clone, Copy)]
pub struct Destination {
    pub bcch: u16,
    pub ncc: u8,
    pub bcc: u8,
    pub carrier: u16,
    pub tn: u8,
    pub sub: Sub,
    pub reference: u8,
}

fn destination_of(cell: &CellDescription, channel: &ChanDescription, reference: u8) -> Destination
    ensures destination { result ≡ destination_of cell.now channel.now reference }
    ensures timeslot { result.tn < 8 }
{
    Destination {
        bcch: cell.arfcn(),
        ncc: cell.ncc(),
        bcc: cell.bcc(),
        carrier: channel.carrier(),
        tn: channel.tn(),
        sub: channel.sub(),
        reference,
    }
}

/// The channel is active with this handover reference.
fn is_active_with(activity: Activity, reference: u8) -> bool
    ensures { result ≡ is_active_with activity reference }
{
    match activity {
        Activity::Inactive => false,
        Activity::Active(None) => false,
        Activity::Active(Some(own)) => own == reference,
    }
}

/// The channel of a TRX that the destination names.
fn place_on(trx: &Trx, destination: Destination) -> Place
    ensures { result ≡ place_on trx.now destination }
{
    Place {
        controller: trx.controller,
        channel: ChanId {
            cell: trx.cell,
            trx: trx.trx,
            tn: destination.tn,
            sub: destination.sub,
        },
    }
}

/// The destination is on this TRX: colour and carrier are its own, and the channel is active with the reference.
fn is_there<A: Allocator + Copy>(slots: &Slots<A>, destination: Destination, trx: &Trx) -> bool
    ensures { result ≡ is_there slots.now destination trx.now }
{
    trx.bcch == destination.bcch
        && trx.ncc == destination.ncc
        && trx.bcc == destination.bcc
        && trx.carrier == destination.carrier
        && is_active_with(
            slots.get(place_on(trx, destination)).activity,
            destination.reference,
        )
}

/// The first channel that is the destination.
fn target_of<A: Allocator + Copy>(
    trxs: &[Trx],
    slots: &Slots<A>,
    destination: Destination,
) -> Option<Place>
    ensures target { result ≡ target_of trxs.now slots.now destination }
    ensures timeslot { IfSome result (λ place. place.channel.tn ≡ destination.tn) }
{
    trxs.iter()
        .find(|trx| is_there(slots, destination, trx))
        .map(|trx| place_on(trx, destination))
}

/// What the mobile on a channel does that is sent to a destination.
fn sent_to<A: Allocator + Copy>(
    trxs: &[Trx],
    slots: &Slots<A>,
    place: Place,
    destination: Destination,
) -> Response
    requires { destination.tn < 8 }
    ensures response { result ≡ commanded trxs.now slots.now place destination }
    ensures timeslot { IsOnTimeslot result }
{
    let slot = slots.get(place);
    match slot.activity {
        Activity::Inactive => Response::Unheard,
        Activity::Active(_) => match slot.habit {
            Habit::Vanish => Response::Unheard,
            Habit::Return => Response::Returned,
            Habit::Arrive => match target_of(trxs, slots, destination) {
                Some(target) => Response::Arrived(target),
                None => Response::Returned,
            },
        },
    }
}

/// The message that octets say to a mobile, if any.
pub fn heard_in(octets: &[u8]) -> Option<Rr>
    ensures { IsHeard octets.now result }
{
    match decode(octets) {
        Ok(message) => Some(message),
        Err(_) => None,
    }
}

/// What the mobile on a channel does that gets a message.
pub fn response_to<A: Allocator + Copy>(
    trxs: &[Trx],
    slots: &Slots<A>,
    place: Place,
    message: &Rr,
) -> Response
    ensures response { result ≡ response_to trxs.now slots.now place message.now }
    ensures timeslot { IsOnTimeslot result }
{
    match message {
        Rr::HandoverCommand {
            cell,
            channel,
            reference,
            ..
        } => sent_to(
            trxs,
            slots,
            place,
            destination_of(cell, channel, *reference),
        ),
        Rr::HandoverComplete(_)
        | Rr::HandoverFailure(_)
        | Rr::ChannelRelease(_)
        | Rr::PhysicalInformation(_)
        | Rr::MeasurementReport(_) => Response::Unheard,
    }
}
