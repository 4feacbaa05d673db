//! The elements of each message: how they are read, how many octets they take, and how they are written.
ghost use Rattle.std.specs.Prelude.{◌≡◌, ◌≤◌, ◌<◌, ◌+◌, ◌*◌, ◌^◌, ◌-◌, ◌++◌, ◌↔◌, min, IsTrue, is_some, length, map, flat_map, Ok, vec_len, vec_capacity};
ghost use Rattle.std.specs.List.{list_all};
ghost use Rattle.octet_elements.specs.Elements.{Fits, all_octets, element_octets};
ghost use Rattle.octet_elements.specs.Lookup.{lookup, values_in};
ghost use Rattle.octet_elements.specs.Texts.{Answers};
ghost use Rattle.octet_elements.specs.Writing.{HasRoom, Adds};
ghost use Rattle.bssmap_messages.specs.Forms.{interface_a, known};
ghost use Rattle.bssmap_messages.specs.Heads.{limit};
ghost use Rattle.bssmap_messages.specs.Messages.{said, kind_of, elements_of, handover_request, handover_required};
ghost use Rattle.bssmap_messages.specs.Texts.{codec};
ghost use Rattle.bssmap_messages.specs.Values.{cell_octets, cell_value, classmark_element};

use crate::cells::{cell, cells, read_cells};
use crate::fault::BssmapFault;
use crate::head::MessageKind;
use crate::message::{Bssmap, CellId, Classmark};
use crate::table::{
    CAUSE, CELL_IDENTIFIER, CELL_IDENTIFIER_LIST, CHANNEL_TYPE, CLASSMARK_1, CLASSMARK_2,
    ENCRYPTION_INFORMATION, InterfaceA, LAYER_3_INFORMATION, RESPONSE_REQUEST, RR_CAUSE,
};
use crate::values::{channel_type, classmark, keep_classmark};
use octet_elements::values::u16_octets;
use octet_elements::{
    Found, Octets, append_element, append_octet, append_octets, append_optional_octet,
    append_presence, element_len, octet_len, optional_octet_len, presence_len,
};
use std::alloc::Allocator;

/// The message that elements say, or their first fault.
type Read<A> = Result<Bssmap<A>, BssmapFault>;

/// HANDOVER REQUEST. Memory is asked for once the elements are read.
#[tactic(auto, unfolding(crate::specs::Messages::handover_request))]
#[inline(always)]
fn read_request<A: Allocator + Copy>(alloc: A, found: &Found<'_, InterfaceA>) -> Read<A>
    ensures { Answers (codec A) result (said MessageKind.HandoverRequest (lookup known found.now)) }
{
    let channel = channel_type(found.first(CHANNEL_TYPE))?;
    let encryption = found.octets(ENCRYPTION_INFORMATION)?;
    let classmark = classmark::<A>(found.first(CLASSMARK_1), found.first(CLASSMARK_2))?;
    let serving = cell(found.first(CELL_IDENTIFIER))?;
    let target = cell(found.second(CELL_IDENTIFIER))?;
    Ok(Bssmap::HandoverRequest {
        channel: Octets::new(alloc, channel)?,
        encryption: Octets::new(alloc, encryption)?,
        classmark: keep_classmark(alloc, classmark)?,
        serving,
        target,
    })
}

/// HANDOVER REQUIRED. Memory is asked for once the elements are read.
#[tactic(auto, unfolding(crate::specs::Messages::handover_required))]
#[inline(always)]
fn read_required<A: Allocator + Copy>(alloc: A, found: &Found<'_, InterfaceA>) -> Read<A>
    ensures { Answers (codec A) result (said MessageKind.HandoverRequired (lookup known found.now)) }
{
    let cause = found.octet(CAUSE)?;
    let response = found.first(RESPONSE_REQUEST).is_some();
    let (discriminator, octets) = cells(found.first(CELL_IDENTIFIER_LIST))?;
    Ok(Bssmap::HandoverRequired {
        cause,
        response,
        cells: read_cells(alloc, discriminator, octets)?,
    })
}

/// What the elements of a message of this kind say, element by element.
#[tactic(auto, unfolding(crate::specs::Messages::layer_3_alone, crate::specs::Messages::handover_complete, crate::specs::Messages::handover_failure, crate::specs::Messages::handover_performed, crate::specs::Messages::cause_alone))]
#[inline(always)]
pub fn read_elements<A: Allocator + Copy>(
    alloc: A,
    kind: MessageKind,
    found: &Found<'_, InterfaceA>,
) -> Result<Bssmap<A>, BssmapFault>
    ensures { Answers (codec A) result (said kind (lookup known found.now)) }
{
    match kind {
        MessageKind::HandoverRequest => read_request(alloc, found),
        MessageKind::HandoverRequired => read_required(alloc, found),
        MessageKind::HandoverRequestAck => Ok(Bssmap::HandoverRequestAck {
            layer3: Octets::new(alloc, found.octets(LAYER_3_INFORMATION)?)?,
        }),
        MessageKind::HandoverCommand => Ok(Bssmap::HandoverCommand {
            layer3: Octets::new(alloc, found.octets(LAYER_3_INFORMATION)?)?,
        }),
        MessageKind::HandoverComplete => Ok(Bssmap::HandoverComplete {
            rr: found.optional_octet(RR_CAUSE)?,
        }),
        MessageKind::HandoverFailure => Ok(Bssmap::HandoverFailure {
            cause: found.octet(CAUSE)?,
            rr: found.optional_octet(RR_CAUSE)?,
        }),
        MessageKind::HandoverPerformed => Ok(Bssmap::HandoverPerformed {
            cause: found.octet(CAUSE)?,
            cell: cell(found.first(CELL_IDENTIFIER))?,
        }),
        MessageKind::HandoverRequiredReject => Ok(Bssmap::HandoverRequiredReject {
            cause: found.octet(CAUSE)?,
        }),
        MessageKind::HandoverDetect => Ok(Bssmap::HandoverDetect),
        MessageKind::ClearCommand => Ok(Bssmap::ClearCommand {
            cause: found.octet(CAUSE)?,
        }),
        MessageKind::ClearComplete => Ok(Bssmap::ClearComplete),
        MessageKind::ClearRequest => Ok(Bssmap::ClearRequest {
            cause: found.octet(CAUSE)?,
        }),
    }
}

/// The identifiers of the elements that a message uses (TS 48.008 clause 3.2.1), in the order in which they are written: one
/// that may be left out where the message has it, and the cell identifier of a HANDOVER REQUEST twice.
#[tactic(auto, unfolding(crate::specs::Messages::handover_request, crate::specs::Messages::handover_required, crate::specs::Messages::layer_3_alone, crate::specs::Messages::handover_complete, crate::specs::Messages::handover_failure, crate::specs::Messages::handover_performed, crate::specs::Messages::cause_alone))]
pub fn used_identifiers<A: Allocator>(message: &Bssmap<A>) -> &'static [u8]
    ensures identifiers { result.now ≡ map (λ element. element.0) (elements_of message.now) }
{
    match message {
        Bssmap::HandoverRequest {
            classmark: Classmark::One(_),
            ..
        } => &[
            CHANNEL_TYPE,
            ENCRYPTION_INFORMATION,
            CLASSMARK_1,
            CELL_IDENTIFIER,
            CELL_IDENTIFIER,
        ],
        Bssmap::HandoverRequest {
            classmark: Classmark::Two(_),
            ..
        } => &[
            CHANNEL_TYPE,
            ENCRYPTION_INFORMATION,
            CLASSMARK_2,
            CELL_IDENTIFIER,
            CELL_IDENTIFIER,
        ],
        Bssmap::HandoverRequired { response: true, .. } => {
            &[CAUSE, RESPONSE_REQUEST, CELL_IDENTIFIER_LIST]
        }
        Bssmap::HandoverRequired {
            response: false,
            ..
        } => &[CAUSE, CELL_IDENTIFIER_LIST],
        Bssmap::HandoverRequestAck { .. } | Bssmap::HandoverCommand { .. } => {
            &[LAYER_3_INFORMATION]
        }
        Bssmap::HandoverComplete { rr: Some(_) } => &[RR_CAUSE],
        Bssmap::HandoverComplete { rr: None } => &[],
        Bssmap::HandoverFailure { rr: Some(_), .. } => &[CAUSE, RR_CAUSE],
        Bssmap::HandoverFailure { rr: None, .. } => &[CAUSE],
        Bssmap::HandoverPerformed { .. } => &[CAUSE, CELL_IDENTIFIER],
        Bssmap::HandoverRequiredReject { .. }
        | Bssmap::ClearCommand { .. }
        | Bssmap::ClearRequest { .. } => &[CAUSE],
        Bssmap::HandoverDetect | Bssmap::ClearComplete => &[],
    }
}

/// Whether the elements of a message say it, once they are written: octets are long enough, there is a cell, and
/// each cell has a location area code.
#[tactic(auto, using(crate::proofs::Written::said_again, crate::proofs::Written::can_be_said))]
pub fn can_be_said<A: Allocator>(message: &Bssmap<A>) -> bool
    ensures { IsTrue result ↔
        (said (kind_of message.now) (values_in (elements_of message.now)) ≡ Ok message.now) }
{
    match message {
        Bssmap::HandoverRequest {
            channel,
            encryption,
            serving,
            target,
            ..
        } => {
            1 < channel.as_slice().len()
                && !encryption.as_slice().is_empty()
                && serving.lac.is_some()
                && target.lac.is_some()
        }
        Bssmap::HandoverRequired { cells, .. } => {
            !cells.as_slice().is_empty() && have_areas(cells.as_slice())
        }
        Bssmap::HandoverRequestAck { layer3 } | Bssmap::HandoverCommand { layer3 } => {
            !layer3.as_slice().is_empty()
        }
        Bssmap::HandoverPerformed { cell, .. } => cell.lac.is_some(),
        Bssmap::HandoverComplete { .. }
        | Bssmap::HandoverFailure { .. }
        | Bssmap::HandoverRequiredReject { .. }
        | Bssmap::HandoverDetect
        | Bssmap::ClearCommand { .. }
        | Bssmap::ClearComplete
        | Bssmap::ClearRequest { .. } => true,
    }
}

/// Whether each cell has a location area code.
fn have_areas(cells: &[CellId]) -> bool
    ensures { result ≡ list_all (λ cell. is_some cell.lac) cells.now }
{
    cells.iter().all(|cell| cell.lac.is_some())
}

/// How many octets a cell has in an element: location area code and cell identity.
const CELL_LEN: usize = 4;

/// How many octets stand before the cells of an element: identifier, length octet and discriminator.
const CELLS_HEAD: usize = 3;

/// How many octets the elements of a message take; the greatest number, where that is too great.
#[tactic(auto, unfolding(crate::specs::Messages::layer_3_alone, crate::specs::Messages::handover_complete, crate::specs::Messages::handover_failure, crate::specs::Messages::handover_performed, crate::specs::Messages::cause_alone))]
pub fn elements_len<A: Allocator>(message: &Bssmap<A>) -> usize
    ensures { result ≡ min (length (all_octets interface_a (elements_of message.now))) (2 ^ 64 - 1) }
{
    match message {
        Bssmap::HandoverRequest {
            channel,
            encryption,
            classmark,
            ..
        } => {
            let encryption = encryption.as_slice();
            element_len::<InterfaceA>(CHANNEL_TYPE, channel.as_slice())
                .saturating_add(element_len::<InterfaceA>(ENCRYPTION_INFORMATION, encryption))
                .saturating_add(classmark_len(classmark))
                .saturating_add(2 * (CELLS_HEAD + CELL_LEN))
        }
        Bssmap::HandoverRequired {
            response,
            cells,
            ..
        } => {
            let response_len = presence_len::<InterfaceA>(RESPONSE_REQUEST, *response);
            let cells_len = cells.as_slice().len().saturating_mul(CELL_LEN);
            (octet_len::<InterfaceA>(CAUSE) + response_len + CELLS_HEAD).saturating_add(cells_len)
        }
        Bssmap::HandoverRequestAck { layer3 } | Bssmap::HandoverCommand { layer3 } => {
            element_len::<InterfaceA>(LAYER_3_INFORMATION, layer3.as_slice())
        }
        Bssmap::HandoverComplete { rr } => optional_octet_len::<InterfaceA>(RR_CAUSE, *rr),
        Bssmap::HandoverFailure { rr, .. } => octet_len::<InterfaceA>(CAUSE)
            + optional_octet_len::<InterfaceA>(RR_CAUSE, *rr),
        Bssmap::HandoverPerformed { .. } => octet_len::<InterfaceA>(CAUSE) + CELLS_HEAD + CELL_LEN,
        Bssmap::HandoverRequiredReject { .. }
        | Bssmap::ClearCommand { .. }
        | Bssmap::ClearRequest { .. } => octet_len::<InterfaceA>(CAUSE),
        Bssmap::HandoverDetect | Bssmap::ClearComplete => 0,
    }
}

/// How many octets the element of a classmark takes.
fn classmark_len<A: Allocator>(classmark: &Classmark<A>) -> usize
    ensures { result ≡ length (element_octets interface_a (classmark_element classmark.now)) }
{
    match classmark {
        Classmark::One(_) => octet_len::<InterfaceA>(CLASSMARK_1),
        Classmark::Two(octets) => element_len::<InterfaceA>(CLASSMARK_2, octets.as_slice()),
    }
}

/// Appends a classmark, for which the list has room. In an arm of its own the compiler knows each identifier.
fn append_classmark<A: Allocator>(out: &mut Vec<u8, A>, classmark: &Classmark<A>)
    requires fits { Fits interface_a (classmark_element classmark.now) }
    requires room { HasRoom (element_octets interface_a (classmark_element classmark.now)) out.old }
    ensures { Adds (element_octets interface_a (classmark_element classmark.now)) out.old out.new }
{
    match classmark {
        Classmark::One(octet) => append_octet::<InterfaceA, A>(out, CLASSMARK_1, *octet),
        Classmark::Two(octets) => {
            append_element::<InterfaceA, A>(out, CLASSMARK_2, octets.as_slice());
        }
    }
}

/// Location area code and cell identity.
fn cell_octets(cell: CellId) -> [u8; 4]
    ensures { result ≡ cell_octets cell }
{
    let [area_high, area_low] = u16_octets(cell.lac.unwrap_or(0));
    let [high, low] = u16_octets(cell.ci);
    [area_high, area_low, high, low]
}

/// The discriminator of location area code and cell identity.
const AREA_AND_CELL: u8 = 1;

/// Appends a cell identifier, whose value has five octets; the list has room for it.
fn append_cell<A: Allocator>(out: &mut Vec<u8, A>, cell: CellId)
    requires { HasRoom (element_octets interface_a (CELL_IDENTIFIER, cell_value cell)) out.old }
    ensures { Adds (element_octets interface_a (CELL_IDENTIFIER, cell_value cell)) out.old out.new }
{
    let [a, b, c, d] = cell_octets(cell);
    append_octets(out, &[CELL_IDENTIFIER, 5, AREA_AND_CELL, a, b, c, d]);
}

/// Appends the elements of a HANDOVER REQUEST, for which the list has room.
#[tactic(auto, unfolding(crate::specs::Messages::handover_request))]
fn append_request<A: Allocator + Copy>(
    out: &mut Vec<u8, A>,
    channel: &Octets<A>,
    encryption: &Octets<A>,
    classmark: &Classmark<A>,
    serving: CellId,
    target: CellId,
)
    requires short { length (all_octets interface_a
        (handover_request.written (channel.now, (encryption.now, (classmark.now, (serving, target)))))) < limit }
    requires room { HasRoom (all_octets interface_a
        (handover_request.written (channel.now, (encryption.now, (classmark.now, (serving, target)))))) out.old }
    ensures { Adds (all_octets interface_a (handover_request.written
        (channel.now, (encryption.now, (classmark.now, (serving, target)))))) out.old out.new }
{
    append_element::<InterfaceA, A>(out, CHANNEL_TYPE, channel.as_slice());
    append_element::<InterfaceA, A>(out, ENCRYPTION_INFORMATION, encryption.as_slice());
    append_classmark(out, classmark);
    append_cell(out, serving);
    append_cell(out, target);
}

/// Appends cells, for which the list has room.
fn append_cells<A: Allocator>(out: &mut Vec<u8, A>, cells: &[CellId])
    requires { vec_len out.old + 4 * length cells.now ≤ vec_capacity out.old }
    ensures items { out.new.items ≡ out.old.items ++ flat_map cell_octets cells.now }
    ensures capacity { vec_capacity out.new ≡ vec_capacity out.old }
{
    for cell in cells {
        append_octets(out, &cell_octets(*cell));
    }
}

/// Appends the elements of a HANDOVER REQUIRED, for which the list has room.
#[tactic(auto, using(crate::proofs::Lengths::required_length), unfolding(crate::specs::Messages::handover_required))]
pub fn append_required<A: Allocator>(
    out: &mut Vec<u8, A>,
    cause: u8,
    response: bool,
    cells: &[CellId],
)
    requires short { length (all_octets interface_a (handover_required.written (cause, (response, cells.now)))) < limit }
    requires room { HasRoom (all_octets interface_a (handover_required.written (cause, (response, cells.now)))) out.old }
    ensures items { out.new.items ≡ out.old.items ++
        all_octets interface_a (handover_required.written (cause, (response, cells.now))) }
    ensures capacity { vec_capacity out.new ≡ vec_capacity out.old }
{
    append_octet::<InterfaceA, A>(out, CAUSE, cause);
    append_presence::<InterfaceA, A>(out, RESPONSE_REQUEST, response);
    let len = 1 + CELL_LEN * cells.len();
    append_octets(out, &[CELL_IDENTIFIER_LIST, len as u8, AREA_AND_CELL]);
    append_cells(out, cells);
}

/// Appends the elements of a message, for which the list has room.
#[tactic(auto, unfolding(crate::specs::Messages::layer_3_alone, crate::specs::Messages::handover_complete, crate::specs::Messages::handover_failure, crate::specs::Messages::handover_performed, crate::specs::Messages::cause_alone))]
pub fn append_elements<A: Allocator + Copy>(message: &Bssmap<A>, out: &mut Vec<u8, A>)
    requires short { length (all_octets interface_a (elements_of message.now)) < limit }
    requires room { HasRoom (all_octets interface_a (elements_of message.now)) out.old }
    ensures items { out.new.items ≡ out.old.items ++ all_octets interface_a (elements_of message.now) }
    ensures capacity { vec_capacity out.new ≡ vec_capacity out.old }
{
    match message {
        Bssmap::HandoverRequest {
            channel,
            encryption,
            classmark,
            serving,
            target,
        } => append_request(out, channel, encryption, classmark, *serving, *target),
        Bssmap::HandoverRequired {
            cause,
            response,
            cells,
        } => append_required(out, *cause, *response, cells.as_slice()),
        Bssmap::HandoverRequestAck { layer3 } | Bssmap::HandoverCommand { layer3 } => {
            append_element::<InterfaceA, A>(out, LAYER_3_INFORMATION, layer3.as_slice());
        }
        Bssmap::HandoverComplete { rr } => append_optional_octet::<InterfaceA, A>(
            out, RR_CAUSE, *rr,
        ),
        Bssmap::HandoverFailure { cause, rr } => {
            append_octet::<InterfaceA, A>(out, CAUSE, *cause);
            append_optional_octet::<InterfaceA, A>(out, RR_CAUSE, *rr);
        }
        Bssmap::HandoverPerformed { cause, cell } => {
            append_octet::<InterfaceA, A>(out, CAUSE, *cause);
            append_cell(out, *cell);
        }
        Bssmap::HandoverRequiredReject { cause }
        | Bssmap::ClearCommand { cause }
        | Bssmap::ClearRequest { cause } => append_octet::<InterfaceA, A>(out, CAUSE, *cause),
        Bssmap::HandoverDetect | Bssmap::ClearComplete => {}
    }
}
