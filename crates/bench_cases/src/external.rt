//! A whole handover from one controller to another (TS 48.008 clause 3.1.5), from the operator's line to the release of the
//! old channel.
use crate::controlled::{Single, controller_of, handle, hear, hear_centre};
use crate::fault::Fault;
use crate::handover::{COMPLETE, DETECTION, RELEASED};
use crate::life::{CALL, OTHERS, busy_book, chan_at, crowded_book, site_text};
use crate::varying::Varying;
use channel_fsm::Rate;
use exchange::{Inbound, Line};
use std::alloc::{AllocError, Global};

/// The number of the other controller's cell 0 on a site of 64 cells.
const OUTSIDE: u8 = 64;

/// What the switching centre sends for a handover from one controller to the other: its part is played by these octets.
#[derive(Clone, Copy)]
struct Relay {
    /// HANDOVER REQUEST (clause 3.2.1.8), to the new controller.
    request: &'static [u8],
    /// HANDOVER COMMAND (clause 3.2.1.11), to the old one, with the HANDOVER COMMAND (TS 44.018 clause 9.1.15) that the new
    /// one made for the mobile.
    command: &'static [u8],
}

/// From cell 0 of area 1 to cell 0 of area 2, which has colour codes 1 and 0. Its channel is timeslot 1 of carrier 2.
const THERE: Relay = Relay {
    request: &[
        0x00, 0x19, 0x10, 0x0B, 0x03, 0x01, 0x08, 0x01, 0x0A, 0x01, 0x01, 0x1D, 0x33, 0x05, 0x05,
        0x01, 0x00, 0x01, 0x00, 0x00, 0x05, 0x05, 0x01, 0x00, 0x02, 0x00, 0x00,
    ],
    command: &[
        0x00, 0x0C, 0x13, 0x17, 0x09, 0x06, 0x2B, 0x08, 0x00, 0x09, 0x00, 0x02, 0x00, 0x00,
    ],
};

/// From there back, to colour codes 0 and 0.
const BACK: Relay = Relay {
    request: &[
        0x00, 0x19, 0x10, 0x0B, 0x03, 0x01, 0x08, 0x01, 0x0A, 0x01, 0x01, 0x1D, 0x33, 0x05, 0x05,
        0x01, 0x00, 0x02, 0x00, 0x00, 0x05, 0x05, 0x01, 0x00, 0x01, 0x00, 0x00,
    ],
    command: &[
        0x00, 0x0C, 0x13, 0x17, 0x09, 0x06, 0x2B, 0x00, 0x00, 0x09, 0x00, 0x02, 0x00, 0x00,
    ],
};

/// CLEAR COMMAND (clause 3.2.1.21), handover successful.
const CLEAR: [u8; 6] = [0x00, 0x04, 0x20, 0x04, 0x01, 0x0B];

/// The old controller asks for the handover, and the new one activates a channel, which is acknowledged by these octets.
fn prepare(
    alloc: Global,
    old: &mut Single,
    new: &mut Single,
    relay: Relay,
    acknowledgement: &[u8],
) -> Result<u64, Fault> {
    let line = Line::Handover {
        call: CALL,
        cell: OUTSIDE,
    };
    let required = handle(old, Inbound::Operator(line))?;
    let requested = hear_centre(alloc, new, CALL, relay.request)?;
    let acknowledged = hear(alloc, new, chan_at(0, OTHERS), acknowledgement)?;
    Ok(required.wrapping_add(requested).wrapping_add(acknowledged))
}

/// The old controller sends the mobile, the new one finds it, and the call leaves the old one.
fn execute(alloc: Global, old: &mut Single, new: &mut Single, relay: Relay) -> Result<u64, Fault> {
    let chan = chan_at(0, OTHERS);
    let commanded = hear_centre(alloc, old, CALL, relay.command)?;
    let detected = hear(alloc, new, chan, &DETECTION)?;
    let completed = hear(alloc, new, chan, &COMPLETE)?;
    let cleared = hear_centre(alloc, old, CALL, &CLEAR)?;
    let released = hear(alloc, old, chan, &RELEASED)?;
    Ok(
        commanded
            .wrapping_add(detected)
            .wrapping_add(completed)
            .wrapping_add(cleared)
            .wrapping_add(released),
    )
}

/// The call leaves the old controller for the new one.
fn cross(
    alloc: Global,
    old: &mut Single,
    new: &mut Single,
    relay: Relay,
    acknowledgement: &[u8],
) -> Result<u64, Fault> {
    let prepared = prepare(alloc, old, new, relay, acknowledgement)?;
    let executed = execute(alloc, old, new, relay)?;
    Ok(prepared.wrapping_add(executed))
}

/// Handovers of the call, one in each iteration: to the second controller, and in the next iteration back to the first.
fn crossings(
    alloc: Global,
    first: &mut Single,
    second: &mut Single,
    octets: &mut Varying,
    count: u64,
) -> Result<u64, Fault> {
    let mut sum = 0u64;
    for iteration in 0..count {
        let acknowledgement = octets.at(iteration);
        let crossed = match iteration % 2 {
            0 => cross(alloc, first, second, THERE, acknowledgement)?,
            _ => cross(alloc, second, first, BACK, acknowledgement)?,
        };
        sum = sum.wrapping_add(crossed);
    }
    Ok(sum)
}

/// The site file of the other side: areas 1 and 2 change places, and network colour codes 0 and 1.
fn other_side(alloc: Global, text: &str) -> Result<String, AllocError> {
    let mut other = String::new(alloc);
    for line in text.lines() {
        other.push_str(match line {
            "lac = 1" => "lac = 2",
            "lac = 2" => "lac = 1",
            "ncc = 0" => "ncc = 1",
            "ncc = 1" => "ncc = 0",
            same => same,
        })?;
        other.push('\n')?;
    }
    Ok(other)
}

/// A whole handover to another controller in each iteration, beside 1,024 other calls that are steady on 64 cells of each
/// controller. The switching centre's part is played by octets that are always the same. The sum is that of the octets of
/// all messages that either controller sends: a HANDOVER REQUIRED, a CHANNEL ACTIVATION, a HANDOVER REQUEST ACKNOWLEDGE, a
/// DATA REQUEST with the HANDOVER COMMAND, a HANDOVER DETECT, a HANDOVER COMPLETE, an RF CHANNEL RELEASE and a CLEAR
/// COMPLETE for each. The desks keep their histories.
pub fn external_by_octets(alloc: Global, octets: &mut Varying, count: u64) -> Result<u64, Fault> {
    let text = site_text(alloc, 1)?;
    let mut first = controller_of(alloc, busy_book(alloc, text.as_str(), Rate::Full)?)?;
    let other = other_side(alloc, text.as_str())?;
    let mut second = controller_of(alloc, crowded_book(alloc, other.as_str(), Rate::Full)?)?;
    crossings(alloc, &mut first, &mut second, octets, count)
}
