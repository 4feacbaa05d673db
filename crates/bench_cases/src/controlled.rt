//! What the cases on a whole controller share.
use crate::fault::Fault;
use crate::varying::octets_sum;
use channel_fsm::ChanId;
use exchange::{Inbound, Outbound};
use ho_procedure::controller::Controller;
use ho_procedure::solo::Solo;
use radio_book::book::Book;
use radio_desk::desk::Desk;
use rsl_messages::Octets;
use std::alloc::{AllocError, Global};

/// A controller at a desk of its own, and the list in which it puts messages.
#[derive(Drop)]
pub(crate) struct Single {
    controller: Controller<Solo, Global>,
    sent: Vec<Outbound, Global>,
}

/// The controller of a book, at a desk that opens with it.
pub(crate) fn controller_of(alloc: Global, book: Book) -> Result<Single, AllocError> {
    let site = book.site().clone()?;
    let view = Solo::new(Desk::new(alloc, book)?);
    Ok(Single {
        controller: Controller::new(alloc, view, site),
        sent: Vec::new(alloc),
    })
}

/// The sum of the octets of a message.
fn message_sum(message: &Outbound) -> u64 {
    match message {
        Outbound::Abis { bytes, .. } | Outbound::A { bytes, .. } => octets_sum(bytes.as_slice()),
    }
}

/// Handles one input. The sum is that of the octets of all messages that are sent.
pub(crate) fn handle(single: &mut Single, input: Inbound) -> Result<u64, Fault> {
    single.controller.handle_into(input, &mut single.sent)?;
    let mut sum = 0u64;
    for message in &single.sent {
        sum = sum.wrapping_add(message_sum(message));
    }
    Ok(sum)
}

/// Handles what a station sends on a channel's TRX.
pub(crate) fn hear(
    alloc: Global,
    controller: &mut Single,
    chan: ChanId,
    octets: &[u8],
) -> Result<u64, Fault> {
    let bytes = Octets::new(alloc, octets)?;
    let ChanId { cell, trx, .. } = chan;
    handle(controller, Inbound::Abis { cell, trx, bytes })
}

/// Handles what the switching centre sends about a call.
pub(crate) fn hear_centre(
    alloc: Global,
    controller: &mut Single,
    call: u16,
    octets: &[u8],
) -> Result<u64, Fault> {
    let bytes = Octets::new(alloc, octets)?;
    handle(controller, Inbound::A { call, bytes })
}
