//! Inputs that the controller is given in another's place.
ghost use Rattle.std.specs.Prelude.{◌≡◌, ◌<◌, IfOk};
ghost use Rattle.rsl_messages.specs.Texts.{HasCanonical};
ghost use Rattle.bsc_runs.specs.Owed.{from_station, refusal_on, release_on, failure_on, ending, in_place, next_for};

use channel_fsm::ChanId;
use exchange::{Inbound, Line};
use link_machine::InPlace;
use octet_elements::Octets;
use radio_book::book::Book;
use rsl_messages::values::EQUIPMENT_FAILURE;
use rsl_messages::{ChanBits, Rsl};
use std::alloc::{AllocError, Allocator, Global};

/// What the controller is to be given next.
#[derive(Drop)]
pub enum Next<A: Allocator = Global> {
    /// It is owed nothing.
    Settled,
    /// What it was owed about this channel needs no input.
    Passed(ChanId),
    /// This, about this channel.
    Given(ChanId, Inbound<A>),
}

/// A message about a channel that its station didn't send.
fn from_station<A: Allocator + Copy>(
    alloc: A,
    chan: ChanId,
    message: &Rsl<A>,
) -> Result<Inbound<A>, AllocError>
    requires { HasCanonical message.now }
    ensures input { IfOk result (λ input. input ≡ from_station chan message.now) }
{
    let octets = rsl_messages::encode(alloc, message)?;
    Ok(Inbound::Abis {
        cell: chan.cell,
        trx: chan.trx,
        bytes: Octets::from_vec(octets),
    })
}

/// CHANNEL ACTIVATION NEGATIVE ACKNOWLEDGE in a station's place.
fn refusal<A: Allocator + Copy>(alloc: A, chan: ChanId) -> Result<Inbound<A>, AllocError>
    requires { chan.tn < 8 }
    ensures input { IfOk result (λ input. input ≡ from_station chan (refusal_on chan)) }
{
    let channel = ChanBits {
        tn: chan.tn,
        sub: chan.sub,
    };
    from_station(
        alloc,
        chan,
        &Rsl::ChannelActivationNack {
            channel,
            cause: EQUIPMENT_FAILURE,
        },
    )
}

/// RF CHANNEL RELEASE ACKNOWLEDGE in a station's place.
fn release<A: Allocator + Copy>(alloc: A, chan: ChanId) -> Result<Inbound<A>, AllocError>
    requires { chan.tn < 8 }
    ensures input { IfOk result (λ input. input ≡ from_station chan (release_on chan)) }
{
    let channel = ChanBits {
        tn: chan.tn,
        sub: chan.sub,
    };
    from_station(alloc, chan, &Rsl::RfChannelReleaseAck { channel })
}

/// CONNECTION FAILURE INDICATION in a station's place.
fn failure<A: Allocator + Copy>(alloc: A, chan: ChanId) -> Result<Inbound<A>, AllocError>
    requires { chan.tn < 8 }
    ensures input { IfOk result (λ input. input ≡ from_station chan (failure_on chan)) }
{
    let channel = ChanBits {
        tn: chan.tn,
        sub: chan.sub,
    };
    from_station(
        alloc,
        chan,
        &Rsl::ConnectionFailureIndication {
            channel,
            cause: EQUIPMENT_FAILURE,
        },
    )
}

/// The input that ends a call, if the call has the channel.
fn ending<A: Allocator + Copy>(call: u16, owner: Option<u16>) -> Option<Inbound<A>>
    ensures input { result ≡ ending call owner }
{
    match owner {
        Some(owner) if owner == call => Some(Inbound::Operator(Line::Clear { call })),
        Some(_) | None => None,
    }
}

/// What the controller is given about a channel in another's place. `None` if the site has no such channel, or if a bar is to
/// end and no longer has the channel. A bar is opened with the number `fresh`.
fn input_in_place<A: Allocator + Copy>(
    alloc: A,
    book: &Book<A>,
    fresh: u16,
    chan: ChanId,
    what: InPlace,
) -> Result<Option<Inbound<A>>, AllocError>
    ensures input { IfOk result (λ input. input ≡ in_place book.now fresh chan what) }
{
    if !book.site().is_traffic(chan) {
        return Ok(None);
    }
    match what {
        InPlace::Refusal => Ok(Some(refusal(alloc, chan)?)),
        InPlace::Release => Ok(Some(release(alloc, chan)?)),
        InPlace::Failure => Ok(Some(failure(alloc, chan)?)),
        InPlace::OpenBar(_) => Ok(Some(Inbound::Operator(Line::Open { call: fresh, chan }))),
        InPlace::EndBar(call) => Ok(ending(call, book.owner(chan))),
    }
}

/// What the controller is to be given next, if this is the first that it is owed.
pub fn next_for<A: Allocator + Copy>(
    alloc: A,
    book: &Book<A>,
    fresh: u16,
    owed: Option<(ChanId, InPlace)>,
) -> Result<Next<A>, AllocError>
    ensures next { IfOk result (λ next. next ≡ next_for book.now fresh owed) }
{
    let Some((chan, what)) = owed else {
        return Ok(Next::Settled);
    };
    match input_in_place(alloc, book, fresh, chan, what)? {
        Some(input) => Ok(Next::Given(chan, input)),
        None => Ok(Next::Passed(chan)),
    }
}
