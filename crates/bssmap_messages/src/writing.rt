//! Writing a message.
ghost use Rattle.std.specs.Prelude.{◌≡◌, ◌↔◌, ◌<◌, ◌≤◌, ◌∷◌, [], IsTrue, IsSome, IfOk, length};
ghost use Rattle.octet_elements.specs.Writing.{Appends};
ghost use Rattle.bssmap_messages.specs.Messages.{kind_of, type_of};
ghost use Rattle.bssmap_messages.specs.Texts.{HasCanonical, canonical_text};

use crate::elements::{append_elements, append_required, can_be_said, elements_len};
use crate::head::{
    CLEAR_COMMAND, CLEAR_COMPLETE, CLEAR_REQUEST, HANDOVER_COMMAND, HANDOVER_COMPLETE,
    HANDOVER_DETECT, HANDOVER_FAILURE, HANDOVER_PERFORMED, HANDOVER_REQUEST, HANDOVER_REQUEST_ACK,
    HANDOVER_REQUIRED, HANDOVER_REQUIRED_REJECT, LIMIT,
};
use crate::message::{Bssmap, CellId};
use crate::table::{InterfaceA, LAYER_3_INFORMATION, RESPONSE_REQUEST};
use octet_elements::{append_element, append_octets, make_room, presence_len};
use std::alloc::{AllocError, Allocator};

/// Whether the message has a canonical text.
pub fn fits<A: Allocator + Copy>(message: &Bssmap<A>) -> bool
    ensures canonical { IsTrue result ↔ HasCanonical message.now }
{
    can_be_said(message) && elements_len(message) < LIMIT
}

/// The type of a message.
fn message_type<A: Allocator>(message: &Bssmap<A>) -> u8
    ensures { result ≡ type_of (kind_of message.now) }
{
    match message {
        Bssmap::HandoverRequest { .. } => HANDOVER_REQUEST,
        Bssmap::HandoverRequired { .. } => HANDOVER_REQUIRED,
        Bssmap::HandoverRequestAck { .. } => HANDOVER_REQUEST_ACK,
        Bssmap::HandoverCommand { .. } => HANDOVER_COMMAND,
        Bssmap::HandoverComplete { .. } => HANDOVER_COMPLETE,
        Bssmap::HandoverFailure { .. } => HANDOVER_FAILURE,
        Bssmap::HandoverPerformed { .. } => HANDOVER_PERFORMED,
        Bssmap::HandoverRequiredReject { .. } => HANDOVER_REQUIRED_REJECT,
        Bssmap::HandoverDetect => HANDOVER_DETECT,
        Bssmap::ClearCommand { .. } => CLEAR_COMMAND,
        Bssmap::ClearComplete => CLEAR_COMPLETE,
        Bssmap::ClearRequest { .. } => CLEAR_REQUEST,
    }
}

/// Appends the canonical text of a message. A list with room for it is not moved: no memory is asked for, and its
/// capacity stays what it was.
pub fn encode_into<A: Allocator + Copy>(
    message: &Bssmap<A>,
    out: &mut Vec<u8, A>,
) -> Result<(), AllocError>
    requires { HasCanonical message.now }
    ensures appends { Appends (canonical_text message.now) out.old out.new result }
{
    let len = 1 + elements_len(message);
    make_room(out, 2 + len)?;
    append_octets(out, &[0, len as u8, message_type(message)]);
    append_elements(message, out);
    Ok(())
}

/// Appends the canonical text of a HANDOVER REQUEST ACKNOWLEDGE (TS 48.008 clause 3.2.1.10) whose radio resource message,
/// from 1 to 250 octets, is lent. A list with room for it is not moved: no memory is asked for.
#[tactic(auto, unfolding(crate::specs::Messages::layer_3_alone))]
pub fn encode_request_ack_into<A: Allocator + Copy>(
    layer3: &[u8],
    out: &mut Vec<u8, A>,
) -> Result<(), AllocError>
    requires some { 0 < length layer3.now }
    requires short { length layer3.now ≤ 250 }
    ensures appends { Appends (canonical_text {A = A} (Bssmap.HandoverRequestAck layer3.now))
        out.old out.new result }
{
    let body = 3 + layer3.len();
    make_room(out, 2 + body)?;
    append_octets(out, &[0, body as u8, HANDOVER_REQUEST_ACK]);
    append_element::<InterfaceA, A>(out, LAYER_3_INFORMATION, layer3);
    Ok(())
}

/// Appends the canonical text of a HANDOVER REQUIRED (TS 48.008 clause 3.2.1.9) for one cell, which has a location area
/// code. A list with room for it is not moved: no memory is asked for.
#[tactic(auto, unfolding(crate::specs::Messages::handover_required))]
pub fn encode_required_into<A: Allocator + Copy>(
    cause: u8,
    response: bool,
    cell: CellId,
    out: &mut Vec<u8, A>,
) -> Result<(), AllocError>
    requires area { IsSome cell.lac }
    ensures appends { Appends
        (canonical_text {A = A} (Bssmap.HandoverRequired cause response (cell ∷ [])))
        out.old out.new result }
{
    let body = 11 + presence_len::<InterfaceA>(RESPONSE_REQUEST, response);
    make_room(out, 2 + body)?;
    append_octets(out, &[0, body as u8, HANDOVER_REQUIRED]);
    append_required(out, cause, response, &[cell]);
    Ok(())
}

/// The canonical text of a message.
pub fn encode<A: Allocator + Copy>(alloc: A, message: &Bssmap<A>) -> Result<Vec<u8, A>, AllocError>
    requires { HasCanonical message.now }
    ensures text { IfOk result (λ text. text.items ≡ canonical_text message.now) }
{
    let mut text = Vec::new(alloc);
    encode_into(message, &mut text)?;
    Ok(text)
}
