//! A whole call, from the operator's line to the release of its channel.
use crate::controlled::{Single, controller_of, handle, hear};
use crate::fault::Fault;
use crate::life::book_of;
use crate::varying::Varying;
use exchange::{Inbound, Line};
use sample_sites::{HOME, THREE_CHANNELS};
use std::alloc::Global;

/// The call whose life it is.
const CALL: u16 = 1;

/// RF CHANNEL RELEASE ACKNOWLEDGE (TS 48.058 clause 8.4.19) of timeslot 3.
const RELEASED: [u8; 4] = [0x08, 0x33, 0x01, 0x0B];

/// A whole call: it is opened, its channel is acknowledged by these octets, it is cleared, its channel is released.
fn call_once(alloc: Global, controller: &mut Single, acknowledgement: &[u8]) -> Result<u64, Fault> {
    let open = Line::Open {
        call: CALL,
        chan: HOME,
    };
    let clear = Line::Clear { call: CALL };
    let opened = handle(controller, Inbound::Operator(open))?;
    let confirmed = hear(alloc, controller, HOME, acknowledgement)?;
    let cleared = handle(controller, Inbound::Operator(clear))?;
    let released = hear(alloc, controller, HOME, &RELEASED)?;
    Ok(
        opened
            .wrapping_add(confirmed)
            .wrapping_add(cleared)
            .wrapping_add(released),
    )
}

/// Whole calls of a controller, one in each iteration.
fn calls(
    alloc: Global,
    controller: &mut Single,
    octets: &mut Varying,
    count: u64,
) -> Result<u64, Fault> {
    let mut sum = 0u64;
    for iteration in 0..count {
        sum = sum.wrapping_add(call_once(alloc, controller, octets.at(iteration))?);
    }
    Ok(sum)
}

/// A whole call in each iteration. The sum is that of the octets of all messages that are sent: a CHANNEL ACTIVATION and an
/// RF CHANNEL RELEASE for each call. The desk keeps its history.
pub fn call_by_octets(alloc: Global, octets: &mut Varying, count: u64) -> Result<u64, Fault> {
    let mut controller = controller_of(alloc, book_of(alloc, THREE_CHANNELS)?)?;
    calls(alloc, &mut controller, octets, count)
}
