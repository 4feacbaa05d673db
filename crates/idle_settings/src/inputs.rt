//! Inputs of which nothing comes, and of which nothing could come in any state of the book; and calls that a script opened under
//! a number that the switching centre asks for.
use crate::lack::Lack;
use bssmap_messages::Bssmap;
use bts_model::Restart;
use cell_table::Site;
use channel_fsm::ChanId;
use exchange::{Inbound, Line, chan_of};
use lab_script::script::Side;
use radio_book::book::Book;
use radio_book::event::{Event, Refusal, Reply};
use run_listeners::{Answer, Source, Turn};
use std::alloc::{AllocError, Allocator};
use timeslots::Rate;
use trace_text::trace::Step;

/// Whether a site has a cell, own or another controller's.
fn has_cell<A: Allocator + Copy>(site: &Site<A>, cell: u8) -> bool {
    site.ci(cell).is_some()
}

/// What a site lacks of a TRX of an own cell.
fn lack_of_trx<A: Allocator + Copy>(site: &Site<A>, side: Side, cell: u8, trx: u8) -> Option<Lack> {
    match site.trx(cell) {
        None => Some(Lack::Cell(side, cell)),
        Some(count) if count <= trx => Some(Lack::Trx(side, cell, trx)),
        Some(_) => None,
    }
}

/// What a site lacks of a channel.
fn lack_of_chan<A: Allocator + Copy>(site: &Site<A>, side: Side, chan: ChanId) -> Option<Lack> {
    if site.is_traffic(chan) {
        None
    } else {
        Some(Lack::Channel(side, chan))
    }
}

/// What a site lacks of the stations that restart.
pub(crate) fn lack_of_restart<A: Allocator + Copy>(
    site: &Site<A>,
    side: Side,
    restart: Restart,
) -> Option<Lack> {
    lack_of_trx(site, side, restart.cell, restart.trx.unwrap_or(0))
}

/// What a site lacks of what a message on Abis is about: its TRX, or its channel. Octets that are no message are about none.
fn lack_on_abis<A: Allocator + Copy>(
    alloc: A,
    site: &Site<A>,
    side: Side,
    cell: u8,
    trx: u8,
    octets: &[u8],
) -> Result<Option<Lack>, AllocError> {
    if let Some(lack) = lack_of_trx(site, side, cell, trx) {
        return Ok(Some(lack));
    }
    match rsl_messages::decode(alloc, octets) {
        Ok(message) => Ok(lack_of_chan(site, side, chan_of(cell, trx, &message))),
        Err(fault) if fault.is_memory() => Err(AllocError),
        Err(_) => Ok(None),
    }
}

/// Whether a TRX of an own cell has a traffic channel of a rate.
fn has_rate<A: Allocator + Copy>(site: &Site<A>, cell: u8, trx: u8, rate: Rate) -> bool {
    let slots = match rate {
        Rate::Full => site.tch(cell, trx),
        Rate::Half => site.half(cell, trx),
    };
    slots.is_some_and(|slots| !slots.is_empty())
}

/// What a site lacks of a channel of a rate in an own cell.
fn lack_of_rate<A: Allocator + Copy>(
    site: &Site<A>,
    side: Side,
    cell: u8,
    rate: Rate,
) -> Option<Lack> {
    let Some(count) = site.trx(cell) else {
        return Some(Lack::Cell(side, cell));
    };
    if (0..count).any(|trx| has_rate(site, cell, trx, rate)) {
        None
    } else {
        Some(Lack::Rate(side, cell, rate))
    }
}

/// What a site lacks of what an operator names.
fn lack_of_line<A: Allocator + Copy>(site: &Site<A>, side: Side, line: Line) -> Option<Lack> {
    match line {
        Line::Open { chan, .. } => lack_of_chan(site, side, chan),
        Line::Seize { cell, rate, .. } => lack_of_rate(site, side, cell, rate),
        Line::Handover { cell, .. } if !has_cell(site, cell) => Some(Lack::Cell(side, cell)),
        Line::Handover { .. } | Line::Undo { .. } | Line::Clear { .. } => None,
    }
}

/// What a site lacks of what an input names.
fn lack_in_site<A: Allocator + Copy>(
    alloc: A,
    site: &Site<A>,
    side: Side,
    input: &Inbound<A>,
) -> Result<Option<Lack>, AllocError> {
    match input {
        Inbound::Abis { cell, trx, bytes } => {
            lack_on_abis(alloc, site, side, *cell, *trx, bytes.as_slice())
        }
        Inbound::Operator(line) => Ok(lack_of_line(site, side, *line)),
        Inbound::A { .. } | Inbound::Expiry { .. } => Ok(None),
    }
}

/// The call of an event, where it was refused because there is no such call.
fn absent_in(step: &Step) -> Option<u16> {
    match *step {
        Step::Asked(
            Event::Look(call) | Event::Undo(call, _) | Event::Clear(call),
            Reply::Refused(Refusal::NoCall),
        ) => Some(call),
        Step::Asked(..) | Step::NoneFree(..) => None,
    }
}

/// The call of a message on A, where a book has none of its number.
fn absent_on_a<A: Allocator + Copy>(book: &Book<A>, input: &Inbound<A>) -> Option<u16> {
    match input {
        Inbound::A { call, .. } if book.record(*call).is_none() => Some(*call),
        Inbound::A { .. } | Inbound::Abis { .. } | Inbound::Expiry { .. } | Inbound::Operator(_) =>
            None,
    }
}

/// Whether an event changed the book: it wasn't refused, and isn't one that reads.
fn does_something(step: &Step) -> bool {
    match step {
        Step::Asked(Event::Look(_) | Event::Owner(_), _) => false,
        Step::Asked(_, reply) => reply.is_accepted(),
        Step::NoneFree(..) => false,
    }
}

/// Whether something came of an input that a script gives: a message, a fault of its octets, or a change of the book.
pub(crate) fn has_effect<A: Allocator>(turn: &Turn<A>) -> bool {
    let is_answered = match &turn.answer {
        Answer::Sent(sent) => !sent.is_empty(),
        Answer::Undecoded(_) => true,
    };
    turn.source == Source::Script && (is_answered || turn.steps.iter().any(does_something))
}

/// Whether messages came of an input.
fn is_answered<A: Allocator>(turn: &Turn<A>) -> bool {
    match &turn.answer {
        Answer::Sent(sent) => !sent.is_empty(),
        Answer::Undecoded(_) => false,
    }
}

/// The call that there isn't, which an input is about. Octets that are no message are about none.
fn absent_call<A: Allocator + Copy>(book: &Book<A>, turn: &Turn<A>) -> Option<u16> {
    match &turn.answer {
        Answer::Sent(_) => {
            let refused = turn.steps.iter().find_map(absent_in);
            refused.or(absent_on_a(book, &turn.input))
        }
        Answer::Undecoded(_) => None,
    }
}

/// What there isn't, so that no message came of an input, and none could in any state of the book: what the site lacks, or the
/// call. It is asked of the inputs that a script gives, with the book as it is then. CLEAR COMMAND and HANDOVER REQUEST are
/// answered, whether there is the call or not.
pub(crate) fn lack_of<A: Allocator + Copy>(
    alloc: A,
    book: &Book<A>,
    turn: &Turn<A>,
) -> Result<Option<Lack>, AllocError> {
    if turn.source != Source::Script || is_answered(turn) {
        return Ok(None);
    }
    if let Some(lack) = lack_in_site(alloc, book.site(), turn.side, &turn.input)? {
        return Ok(Some(lack));
    }
    Ok(absent_call(book, turn).map(Lack::Call))
}

/// The call that a script opened by an input.
pub(crate) fn opened_in<A: Allocator>(turn: &Turn<A>) -> Option<u16> {
    match (turn.source, turn.steps.as_slice()) {
        (Source::Script, [Step::Asked(Event::Open(call, _), Reply::Done), ..]) => Some(*call),
        (Source::Script | Source::Simulator, [..]) => None,
    }
}

/// The call for which the simulated switching centre asks in vain by HANDOVER REQUEST: there is one with its number.
pub(crate) fn taken_in<A: Allocator + Copy>(
    alloc: A,
    turn: &Turn<A>,
) -> Result<Option<u16>, AllocError> {
    let (
        Source::Simulator,
        Inbound::A { call, bytes },
        [Step::Asked(Event::Look(_), Reply::Record(..))],
    ) = (turn.source, &turn.input, turn.steps.as_slice()) else {
        return Ok(None);
    };
    match bssmap_messages::decode(alloc, bytes.as_slice()) {
        Ok(Bssmap::HandoverRequest { .. }) => Ok(Some(*call)),
        Ok(_) => Ok(None),
        Err(fault) if fault.is_memory() => Err(AllocError),
        Err(_) => Ok(None),
    }
}
