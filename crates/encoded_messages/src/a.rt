//! Messages on A from words (TS 48.008 clause 3.2.1).
ghost use Rattle.std.specs.Prelude.{◌≡◌, ◌≢◌, ◌++◌, ◌∷◌, [], Some, None, OnOk, IfOk, IfErr, codes, length, option_map, is_some};
ghost use Rattle.encoded_messages.specs.FieldFaults.{Value, read_of, fault_of, Answers};
ghost use Rattle.encoded_messages.specs.Fields.{only_keys};
ghost use Rattle.encoded_messages.specs.Forms.{keys_of};
ghost use Rattle.encoded_messages.specs.Words.{parts_of};
ghost use Rattle.encoded_messages.specs.declared.field_fault.Allowed.TheVariants.{Cell, Cells};
ghost use Rattle.encoded_messages.specs.declared.field_fault.FieldFault.TheVariants.{NoMemory};
ghost use Rattle.encoded_messages.specs.Faults as faults;
ghost use Rattle.encoded_messages.specs.A as said;

use crate::fault::MessageFault;
use crate::field_fault::{Allowed, FieldFault};
use crate::fields::{only_fields, value};
use crate::form::{FieldForm, MessageForm};
use crate::name::name_and_fields;
use crate::values::cell_in;
use crate::visit::{FieldValue, Fields, hand_on};
use crate::words::first_part;
use bssmap_messages::{Bssmap, CellId, CellList, Classmark, Octets, encode, fits};
use std::alloc::{Allocator, Global};

/// The fields of messages on A.
const CHANNEL: FieldForm<'static> = FieldForm("channel", Allowed::Octets(2));

const ENCRYPTION: FieldForm<'static> = FieldForm("encryption", Allowed::Octets(1));

const CLASSMARK: FieldForm<'static> = FieldForm("classmark", Allowed::Octets(0));

const SERVING: FieldForm<'static> = FieldForm("serving", Allowed::Cell);

const TARGET: FieldForm<'static> = FieldForm("target", Allowed::Cell);

const CAUSE: FieldForm<'static> = FieldForm("cause", Allowed::Cause);

const RESPONSE: FieldForm<'static> = FieldForm("response", Allowed::Flag);

const CELLS: FieldForm<'static> = FieldForm("cells", Allowed::Cells);

const LAYER3: FieldForm<'static> = FieldForm("layer3", Allowed::Octets(1));

const RR: FieldForm<'static> = FieldForm("rr", Allowed::OptionalOctet);

const CELL: FieldForm<'static> = FieldForm("cell", Allowed::Cell);

/// TS 48.008 clause 3.2.1.8.
const HANDOVER_REQUEST: MessageForm<'static> = MessageForm {
    name: "HANDOVER REQUEST",
    fields: &[CHANNEL, ENCRYPTION, CLASSMARK, SERVING, TARGET],
};
/// TS 48.008 clause 3.2.1.9.
const HANDOVER_REQUIRED: MessageForm<'static> = MessageForm {
    name: "HANDOVER REQUIRED",
    fields: &[CAUSE, RESPONSE, CELLS],
};
/// TS 48.008 clause 3.2.1.10.
const HANDOVER_REQUEST_ACK: MessageForm<'static> = MessageForm {
    name: "HANDOVER REQUEST ACKNOWLEDGE",
    fields: &[LAYER3],
};
/// TS 48.008 clause 3.2.1.11.
const HANDOVER_COMMAND: MessageForm<'static> = MessageForm {
    name: "HANDOVER COMMAND",
    fields: &[LAYER3],
};
/// TS 48.008 clause 3.2.1.12.
const HANDOVER_COMPLETE: MessageForm<'static> = MessageForm {
    name: "HANDOVER COMPLETE",
    fields: &[RR],
};
/// TS 48.008 clause 3.2.1.16.
const HANDOVER_FAILURE: MessageForm<'static> = MessageForm {
    name: "HANDOVER FAILURE",
    fields: &[CAUSE, RR],
};
/// TS 48.008 clause 3.2.1.20.
const CLEAR_REQUEST: MessageForm<'static> = MessageForm {
    name: "CLEAR REQUEST",
    fields: &[CAUSE],
};
/// TS 48.008 clause 3.2.1.21.
const CLEAR_COMMAND: MessageForm<'static> = MessageForm {
    name: "CLEAR COMMAND",
    fields: &[CAUSE],
};
/// TS 48.008 clause 3.2.1.22.
const CLEAR_COMPLETE: MessageForm<'static> = MessageForm {
    name: "CLEAR COMPLETE",
    fields: &[],
};
/// TS 48.008 clause 3.2.1.25.
const HANDOVER_PERFORMED: MessageForm<'static> = MessageForm {
    name: "HANDOVER PERFORMED",
    fields: &[CAUSE, CELL],
};
/// TS 48.008 clause 3.2.1.37.
const HANDOVER_REQUIRED_REJECT: MessageForm<'static> = MessageForm {
    name: "HANDOVER REQUIRED REJECT",
    fields: &[CAUSE],
};
/// TS 48.008 clause 3.2.1.40.
const HANDOVER_DETECT: MessageForm<'static> = MessageForm {
    name: "HANDOVER DETECT",
    fields: &[],
};

/// The messages on A, in the order in which they are listed.
pub const A_FORMS: &[MessageForm<'static>] = &[
    HANDOVER_REQUIRED,
    HANDOVER_REQUIRED_REJECT,
    HANDOVER_REQUEST,
    HANDOVER_REQUEST_ACK,
    HANDOVER_COMMAND,
    HANDOVER_DETECT,
    HANDOVER_COMPLETE,
    HANDOVER_FAILURE,
    HANDOVER_PERFORMED,
    CLEAR_REQUEST,
    CLEAR_COMMAND,
    CLEAR_COMPLETE,
];

/// The form of a message on A.
fn form_of<A: Allocator>(message: &Bssmap<A>) -> MessageForm<'static> {
    match message {
        Bssmap::HandoverRequest { .. } => HANDOVER_REQUEST,
        Bssmap::HandoverRequired { .. } => HANDOVER_REQUIRED,
        Bssmap::HandoverRequestAck { .. } => HANDOVER_REQUEST_ACK,
        Bssmap::HandoverCommand { .. } => HANDOVER_COMMAND,
        Bssmap::HandoverComplete { .. } => HANDOVER_COMPLETE,
        Bssmap::HandoverFailure { .. } => HANDOVER_FAILURE,
        Bssmap::HandoverPerformed { .. } => HANDOVER_PERFORMED,
        Bssmap::HandoverRequiredReject { .. } => HANDOVER_REQUIRED_REJECT,
        Bssmap::HandoverDetect => HANDOVER_DETECT,
        Bssmap::ClearCommand { .. } => CLEAR_COMMAND,
        Bssmap::ClearComplete => CLEAR_COMPLETE,
        Bssmap::ClearRequest { .. } => CLEAR_REQUEST,
    }
}

/// The name of a message on A.
pub fn a_name<A: Allocator>(message: &Bssmap<A>) -> &'static str {
    form_of(message).name
}

/// The value of a mobile's classmark: the octets of its element.
fn classmark_value<A: Allocator>(classmark: &Classmark<A>) -> FieldValue<'_> {
    match classmark {
        Classmark::One(octet) => FieldValue::HexOctet(*octet),
        Classmark::Two(octets) => FieldValue::Octets(octets.as_slice()),
    }
}

/// Hands on the fields of a message on A.
pub fn visit_a<'m, A: Allocator, V: Fields<'m>>(
    message: &'m Bssmap<A>,
    visitor: &mut V,
) -> Result<(), V::Stop> {
    let form = form_of(message);
    match message {
        Bssmap::HandoverRequest {
            channel,
            encryption,
            classmark,
            serving,
            target,
        } => {
            let values = [
                FieldValue::Octets(channel.as_slice()),
                FieldValue::Octets(encryption.as_slice()),
                classmark_value(classmark),
                FieldValue::Cell(*serving),
                FieldValue::Cell(*target),
            ];
            hand_on(form, &values, visitor)
        }
        Bssmap::HandoverRequired {
            cause,
            response,
            cells,
        } => {
            let values = [
                FieldValue::Cause(*cause),
                FieldValue::Flag(*response),
                FieldValue::Cells(cells.as_slice()),
            ];
            hand_on(form, &values, visitor)
        }
        Bssmap::HandoverRequestAck { layer3 } | Bssmap::HandoverCommand { layer3 } => hand_on(
            form,
            &[FieldValue::Layer3(Some(layer3.as_slice()))],
            visitor,
        ),
        Bssmap::HandoverComplete { rr } => hand_on(form, &[FieldValue::RrCause(*rr)], visitor),
        Bssmap::HandoverFailure { cause, rr } => hand_on(
            form,
            &[FieldValue::Cause(*cause), FieldValue::RrCause(*rr)],
            visitor,
        ),
        Bssmap::HandoverPerformed { cause, cell } => hand_on(
            form,
            &[FieldValue::Cause(*cause), FieldValue::Cell(*cell)],
            visitor,
        ),
        Bssmap::HandoverRequiredReject { cause }
        | Bssmap::ClearCommand { cause }
        | Bssmap::ClearRequest { cause } => hand_on(form, &[FieldValue::Cause(*cause)], visitor),
        Bssmap::HandoverDetect | Bssmap::ClearComplete => Ok(()),
    }
}

/// The cell that a text names.
fn cell_of(text: &str) -> Option<CellId>
    ensures { result ≡ said.cell_of text.now }
{
    let (area, ci) = cell_in(text)?;
    Some(CellId {
        lac: Some(area),
        ci,
    })
}

/// The cell of a field.
#[tactic(auto, unfolding(crate::specs::A::cell_at))]
fn cell<'a>(fields: &'a str, form: FieldForm<'static>) -> Result<CellId, FieldFault<'a>>
    requires { form.1 ≡ Cell }
    ensures { read_of result ≡ said.cell_at form.entry.0.now fields.now }
{
    let FieldForm(key, allowed) = form;
    let value = value(fields, key)?;
    cell_of(value).ok_or(FieldFault::Value {
        key,
        value,
        allowed,
    })
}

/// Adds the cell of a part of a list, which is the value of a field.
fn add_cell<'a, A: Allocator>(
    cells: &mut Vec<CellId, A>,
    value: &'a str,
    part: &str,
) -> Result<(), FieldFault<'a>>
    ensures read { OnOk result (option_map (λ cell. cells.old.items ++ cell ∷ [])
        (said.cell_of part.now) ≡ Some cells.new.items) }
    ensures unreadable { IfErr result (λ fault. fault ≢ NoMemory → (said.cell_of part.now ≡ None)
        × (fault_of fault ≡ Value (codes "cells") value.now Cells)) }
{
    let Some(cell) = cell_of(part) else {
        return Err(FieldFault::Value {
            key: CELLS.0,
            value,
            allowed: CELLS.1,
        });
    };
    cells.push(cell).map_err(|_| FieldFault::NoMemory)
}

/// Adds the cells of a list, which is the value of a field. The list may be as long as a text, so its parts take turns in
/// one frame of the stack.
fn add_cells<'a, A: Allocator>(
    cells: &mut Vec<CellId, A>,
    value: &'a str,
) -> Result<(), FieldFault<'a>>
    ensures read { OnOk result (option_map (λ more. cells.old.items ++ more)
        (said.cells_of (parts_of value.now)) ≡ Some cells.new.items) }
    ensures unreadable { IfErr result (λ fault. fault ≢ NoMemory →
        (said.cells_of (parts_of value.now) ≡ None)
        × (fault_of fault ≡ Value (codes "cells") value.now Cells)) }
{
    let mut left = value;
    while let Some((part, rest)) = first_part(left) {
        add_cell(cells, value, part)?;
        left = rest;
    }
    add_cell(cells, value, left)
}

/// The cells of a HANDOVER REQUIRED.
#[tactic(auto, unfolding(crate::specs::A::cells_at))]
fn cells<A: Allocator + Copy>(alloc: A, fields: &str) -> Result<CellList<A>, FieldFault<'_>>
    ensures { Answers result (said.cells_at fields.now) }
{
    let value = value(fields, CELLS.0)?;
    let mut cells = Vec::new(alloc);
    add_cells(&mut cells, value)?;
    CellList::new(alloc, &cells).map_err(|_| FieldFault::NoMemory)
}

/// The classmark of a HANDOVER REQUEST: of type 1 where it is one octet.
#[tactic(auto, unfolding(crate::specs::A::classmark_at))]
fn classmark<A: Allocator>(alloc: A, fields: &str) -> Result<Classmark<A>, FieldFault<'_>>
    ensures { Answers result (said.classmark_at fields.now) }
{
    let octets = CLASSMARK.octets(alloc, fields)?;
    if let [octet] = octets.as_slice() {
        return Ok(Classmark::One(*octet));
    }
    Ok(Classmark::Two(Octets::from_vec(octets)))
}

/// The serving cell and the target cell of a HANDOVER REQUEST.
#[tactic(auto, unfolding(crate::specs::A::request_cells))]
fn request_cells(fields: &str) -> Result<(CellId, CellId), FieldFault<'_>>
    ensures { read_of result ≡ said.request_cells fields.now }
{
    let serving = cell(fields, SERVING)?;
    let target = cell(fields, TARGET)?;
    Ok((serving, target))
}

/// Refuses a word that is no field of HANDOVER REQUEST.
#[tactic(auto, unfolding(crate::specs::A::request_keys))]
fn only_in_request(fields: &str) -> Result<(), FieldFault<'_>>
    ensures { read_of result ≡ only_keys said.request_keys fields.now }
{
    only_fields(fields, HANDOVER_REQUEST)
}

/// HANDOVER REQUEST
#[tactic(auto, unfolding(crate::specs::A::handover_request))]
fn handover_request<A: Allocator + Copy>(
    alloc: A,
    fields: &str,
) -> Result<Bssmap<A>, FieldFault<'_>>
    ensures { Answers result (said.handover_request fields.now) }
{
    only_in_request(fields)?;
    let channel = Octets::from_vec(CHANNEL.octets(alloc, fields)?);
    let encryption = Octets::from_vec(ENCRYPTION.octets(alloc, fields)?);
    let classmark = classmark(alloc, fields)?;
    let (serving, target) = request_cells(fields)?;
    Ok(Bssmap::HandoverRequest {
        channel,
        encryption,
        classmark,
        serving,
        target,
    })
}

/// HANDOVER REQUIRED
#[tactic(auto, unfolding(crate::specs::A::handover_required))]
fn handover_required<A: Allocator + Copy>(
    alloc: A,
    fields: &str,
) -> Result<Bssmap<A>, FieldFault<'_>>
    ensures { Answers result (said.handover_required fields.now) }
{
    only_fields(fields, HANDOVER_REQUIRED)?;
    let cause = CAUSE.cause(fields)?;
    let response = RESPONSE.flag(fields)?;
    let cells = cells(alloc, fields)?;
    Ok(Bssmap::HandoverRequired {
        cause,
        response,
        cells,
    })
}

/// The layer 3 message of a message that has nothing else.
#[tactic(auto, unfolding(crate::specs::A::layer3_alone))]
fn layer3_alone<'a, A: Allocator>(
    alloc: A,
    fields: &'a str,
    form: MessageForm<'static>,
) -> Result<Octets<A>, FieldFault<'a>>
    requires { keys_of form.fields.now ≡ codes "layer3" ∷ [] }
    ensures { Answers result (said.layer3_alone fields.now) }
{
    only_fields(fields, form)?;
    Ok(Octets::from_vec(LAYER3.octets(alloc, fields)?))
}

/// HANDOVER COMPLETE
#[tactic(auto, unfolding(crate::specs::A::handover_complete))]
fn handover_complete<A: Allocator>(fields: &str) -> Result<Bssmap<A>, FieldFault<'_>>
    ensures { read_of result ≡ said.handover_complete fields.now }
{
    only_fields(fields, HANDOVER_COMPLETE)?;
    Ok(Bssmap::HandoverComplete {
        rr: RR.optional_octet(fields)?,
    })
}

/// HANDOVER FAILURE
#[tactic(auto, unfolding(crate::specs::A::handover_failure))]
fn handover_failure<A: Allocator>(fields: &str) -> Result<Bssmap<A>, FieldFault<'_>>
    ensures { read_of result ≡ said.handover_failure fields.now }
{
    only_fields(fields, HANDOVER_FAILURE)?;
    Ok(Bssmap::HandoverFailure {
        cause: CAUSE.cause(fields)?,
        rr: RR.optional_octet(fields)?,
    })
}

/// HANDOVER PERFORMED
#[tactic(auto, unfolding(crate::specs::A::handover_performed))]
fn handover_performed<A: Allocator>(fields: &str) -> Result<Bssmap<A>, FieldFault<'_>>
    ensures { read_of result ≡ said.handover_performed fields.now }
{
    only_fields(fields, HANDOVER_PERFORMED)?;
    Ok(Bssmap::HandoverPerformed {
        cause: CAUSE.cause(fields)?,
        cell: cell(fields, CELL)?,
    })
}

/// The cause of a message that has nothing else.
#[tactic(auto, unfolding(crate::specs::A::cause_alone))]
fn cause_alone<'a>(fields: &'a str, form: MessageForm<'static>) -> Result<u8, FieldFault<'a>>
    requires { keys_of form.fields.now ≡ codes "cause" ∷ [] }
    ensures { read_of result ≡ said.cause_alone fields.now }
{
    only_fields(fields, form)?;
    CAUSE.cause(fields)
}

/// A message without fields.
#[tactic(auto, unfolding(crate::specs::A::no_fields))]
fn alone<'a, A: Allocator>(
    fields: &'a str,
    form: MessageForm<'static>,
    message: Bssmap<A>,
) -> Result<Bssmap<A>, FieldFault<'a>>
    requires { keys_of form.fields.now ≡ [] }
    ensures { read_of result ≡ said.no_fields fields.now message }
{
    only_fields(fields, form)?;
    Ok(message)
}

/// The message of a name and its fields that has no list.
#[tactic(auto, unfolding(crate::specs::A::short_message))]
fn short_message<'a, A: Allocator>(
    name: &'a str,
    fields: &'a str,
) -> Result<Bssmap<A>, MessageFault<'a>>
    ensures { faults.read_of result ≡ said.short_message name.now fields.now }
{
    if name == HANDOVER_COMPLETE.name {
        Ok(handover_complete(fields)?)
    } else if name == HANDOVER_FAILURE.name {
        Ok(handover_failure(fields)?)
    } else if name == HANDOVER_PERFORMED.name {
        Ok(handover_performed(fields)?)
    } else if name == HANDOVER_REQUIRED_REJECT.name {
        let cause = cause_alone(fields, HANDOVER_REQUIRED_REJECT)?;
        Ok(Bssmap::HandoverRequiredReject { cause })
    } else if name == HANDOVER_DETECT.name {
        Ok(alone(fields, HANDOVER_DETECT, Bssmap::HandoverDetect)?)
    } else if name == CLEAR_COMMAND.name {
        let cause = cause_alone(fields, CLEAR_COMMAND)?;
        Ok(Bssmap::ClearCommand { cause })
    } else if name == CLEAR_COMPLETE.name {
        Ok(alone(fields, CLEAR_COMPLETE, Bssmap::ClearComplete)?)
    } else if name == CLEAR_REQUEST.name {
        let cause = cause_alone(fields, CLEAR_REQUEST)?;
        Ok(Bssmap::ClearRequest { cause })
    } else {
        Err(MessageFault::Name(name))
    }
}

/// The message of a name and its fields.
#[tactic(auto, unfolding(crate::specs::A::message_of))]
fn message_of<'a, A: Allocator + Copy>(
    alloc: A,
    name: &'a str,
    fields: &'a str,
) -> Result<Bssmap<A>, MessageFault<'a>>
    ensures { faults.Answers result (said.message_of name.now fields.now) }
{
    if name == HANDOVER_REQUEST.name {
        Ok(handover_request(alloc, fields)?)
    } else if name == HANDOVER_REQUIRED.name {
        Ok(handover_required(alloc, fields)?)
    } else if name == HANDOVER_REQUEST_ACK.name {
        let layer3 = layer3_alone(alloc, fields, HANDOVER_REQUEST_ACK)?;
        Ok(Bssmap::HandoverRequestAck { layer3 })
    } else if name == HANDOVER_COMMAND.name {
        let layer3 = layer3_alone(alloc, fields, HANDOVER_COMMAND)?;
        Ok(Bssmap::HandoverCommand { layer3 })
    } else {
        short_message(name, fields)
    }
}

/// The octets of the message on A that a text says: its canonical text.
#[tactic(auto, using(crate::proofs::ALemmas::said_octets, crate::proofs::ALemmas::said_too_long, crate::proofs::ALemmas::said_nothing))]
pub fn encode_a<A: Allocator + Copy>(alloc: A, text: &str) -> Result<Vec<u8, A>, MessageFault<'_>>
    ensures octets { IfOk result (λ octets. said.Writes A text.now octets.items) }
    ensures said { IfOk result (λ octets. said.octets_said text.now ≡ Some octets.items) }
    ensures fault { IfErr result (λ fault. fault ≢ MessageFault.NoMemory →
        said.HasFault A text.now (faults.fault_of fault)) }
    ensures unsaid { IfErr result (λ fault. fault ≢ MessageFault.NoMemory →
        said.octets_said text.now ≡ None) }
{
    let (name, fields) = name_and_fields(text);
    let message = message_of(alloc, name, fields)?;
    if !fits(&message) {
        return Err(MessageFault::TooLong);
    }
    Ok(encode(alloc, &message)?)
}

/// Whether each part of a list of cells names one; answers how many there are. Takes no memory.
fn cells_len(list: &str) -> Option<usize>
    ensures { result ≡ option_map (λ cells. length cells) (said.cells_of (parts_of list.now)) }
{
    if list.split(',').all(|part| cell_of(part).is_some()) {
        Some(list.split(',').count())
    } else {
        None
    }
}

/// Whether the only field of cells has so many or fewer.
#[tactic(auto, unfolding(crate::specs::A::cells_at))]
fn says_cells(fields: &str, most: usize) -> bool
    ensures { result ≡ said.few_cells_at most fields.now }
{
    let Ok(list) = value(fields, CELLS.0) else {
        return false;
    };
    match cells_len(list) {
        Some(cells) => cells <= most,
        None => false,
    }
}

/// Whether fields say a HANDOVER REQUIRED that can be written.
#[tactic(auto, unfolding(crate::specs::A::handover_required))]
fn says_required(fields: &str) -> bool
    ensures { result ≡ said.can_be_written_of (said.handover_required {A = Unit} fields.now) }
{
    only_fields(fields, HANDOVER_REQUIRED).is_ok()
        && CAUSE.cause(fields).is_ok()
        && RESPONSE.flag(fields).is_ok()
        && says_cells(fields, 61)
}

/// Whether so many octets of the channel type, of the encryption information and of the classmark have room in a HANDOVER
/// REQUEST.
fn request_fits(channel: usize, encryption: usize, classmark: usize) -> bool
    ensures { result ≡ said.request_fits channel encryption classmark }
{
    if channel > 255 || encryption > 255 || classmark > 255 {
        return false;
    }
    let most = if classmark == 1 { 233 } else { 232 };
    channel + encryption + classmark <= most
}

/// Whether fields say a HANDOVER REQUEST that can be written.
#[tactic(auto, using(crate::proofs::ALemmas::classmark_octets), unfolding(crate::specs::A::handover_request, crate::specs::A::classmark_at))]
fn says_request(fields: &str) -> bool
    ensures { result ≡ said.can_be_written_of (said.handover_request {A = Unit} fields.now) }
{
    let lengths = (
        CHANNEL.octets_len(fields),
        ENCRYPTION.octets_len(fields),
        CLASSMARK.octets_len(fields),
    );
    only_in_request(fields).is_ok()
        && request_cells(fields).is_ok()
        && match lengths {
            (Some(channel), Some(encryption), Some(classmark)) => {
                request_fits(channel, encryption, classmark)
            }
            (None, _, _) | (_, None, _) | (_, _, None) => false,
        }
}

/// Whether fields are a layer 3 message alone that can be written.
#[tactic(auto, unfolding(crate::specs::A::layer3_alone))]
fn says_layer3(fields: &str, form: MessageForm<'static>) -> bool
    requires { keys_of form.fields.now ≡ codes "layer3" ∷ [] }
    ensures { result ≡ said.short_layer3 (said.layer3_alone fields.now) }
{
    let layer3 = LAYER3.octets_len(fields);
    only_fields(fields, form).is_ok()
        && match layer3 {
            Some(octets) => octets <= 250,
            None => false,
        }
}

/// Whether a name and its fields say a message without a list, which can always be written.
fn says_short(name: &str, fields: &str) -> bool
    ensures { result ≡ said.can_be_written_in (said.short_message {A = Unit} name.now fields.now) }
{
    short_message::<Global>(name, fields).is_ok()
}

/// Whether a name and its fields say a message that can be written.
#[tactic(auto, using(crate::proofs::ALemmas::written_of_fields, crate::proofs::ALemmas::written_of_layer3), unfolding(crate::specs::A::message_of))]
fn says_message(name: &str, fields: &str) -> bool
    ensures { result ≡ said.can_be_written_in (said.message_of {A = Unit} name.now fields.now) }
{
    if name == HANDOVER_REQUEST.name {
        says_request(fields)
    } else if name == HANDOVER_REQUIRED.name {
        says_required(fields)
    } else if name == HANDOVER_REQUEST_ACK.name {
        says_layer3(fields, HANDOVER_REQUEST_ACK)
    } else if name == HANDOVER_COMMAND.name {
        says_layer3(fields, HANDOVER_COMMAND)
    } else {
        says_short(name, fields)
    }
}

/// Whether a text says a message on A that can be written: [`encode_a`] gives its octets, memory aside. Takes no memory.
#[tactic(auto, using(crate::proofs::ALemmas::says_octets))]
pub fn says_a(text: &str) -> bool
    ensures said { result ≡ is_some (said.octets_said text.now) }
{
    let (name, fields) = name_and_fields(text);
    says_message(name, fields)
}
