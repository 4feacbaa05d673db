//! A whole handover, from the operator's line to the release of the old channel.
ghost use Rattle.std.specs.Prelude.{◌<◌};

use crate::controlled::{Single, controller_of, handle, hear};
use crate::fault::Fault;
use crate::life::{CALL, CELLS, OTHERS, busy_book, chan_at, site_text};
use crate::varying::Varying;
use channel_fsm::Rate;
use exchange::{Inbound, Line};
use std::alloc::Global;

/// HANDOVER DETECTION (TS 48.058 clause 8.4.7) of timeslot 1, with access delay 2.
pub(crate) const DETECTION: [u8; 6] = [0x08, 0x27, 0x01, 0x09, 0x11, 0x02];

/// DATA INDICATION (TS 48.058 clause 8.3.2) of timeslot 1 with a HANDOVER COMPLETE (TS 44.018 clause 9.1.16).
pub(crate) const COMPLETE: [u8; 12] = [
    0x03, 0x02, 0x01, 0x09, 0x02, 0x00, 0x0B, 0x00, 0x03, 0x06, 0x2C, 0x00,
];

/// RF CHANNEL RELEASE ACKNOWLEDGE of timeslot 1.
pub(crate) const RELEASED: [u8; 4] = [0x08, 0x33, 0x01, 0x09];

/// The call moves from this cell to the next. Its channel in each is the first that the others leave free, timeslot 1 of
/// TRX 2. The target is acknowledged by these octets.
fn move_once(
    alloc: Global,
    controller: &mut Single,
    cell: u8,
    acknowledgement: &[u8],
) -> Result<u64, Fault>
    requires { cell < 64 }
{
    let next = (cell + 1) % CELLS;
    let (old, new) = (chan_at(cell, OTHERS), chan_at(next, OTHERS));
    let line = Line::Handover {
        call: CALL,
        cell: next,
    };
    let begun = handle(controller, Inbound::Operator(line))?;
    let commanded = hear(alloc, controller, new, acknowledgement)?;
    let detected = hear(alloc, controller, new, &DETECTION)?;
    let completed = hear(alloc, controller, new, &COMPLETE)?;
    let released = hear(alloc, controller, old, &RELEASED)?;
    Ok(
        begun
            .wrapping_add(commanded)
            .wrapping_add(detected)
            .wrapping_add(completed)
            .wrapping_add(released),
    )
}

/// Handovers of the call, one in each iteration, from cell to cell.
fn moves(
    alloc: Global,
    controller: &mut Single,
    octets: &mut Varying,
    count: u64,
) -> Result<u64, Fault> {
    let mut sum = 0u64;
    for iteration in 0..count {
        let cell = (iteration % u64::from(CELLS)) as u8;
        let moved = move_once(alloc, controller, cell, octets.at(iteration))?;
        sum = sum.wrapping_add(moved);
    }
    Ok(sum)
}

/// A whole handover in each iteration, beside 1,024 other calls that are steady on 64 cells. The sum is that of the octets of
/// all messages that are sent: a CHANNEL ACTIVATION, a DATA REQUEST with the HANDOVER COMMAND, an RF CHANNEL RELEASE and a
/// HANDOVER PERFORMED for each. The desk keeps its history.
pub fn handover_by_octets(alloc: Global, octets: &mut Varying, count: u64) -> Result<u64, Fault> {
    let text = site_text(alloc, 0)?;
    let mut controller = controller_of(alloc, busy_book(alloc, text.as_str(), Rate::Full)?)?;
    moves(alloc, &mut controller, octets, count)
}
