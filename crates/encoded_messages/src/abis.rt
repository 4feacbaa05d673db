//! Messages on Abis from words (TS 48.058 clause 8).
ghost use Rattle.std.specs.Prelude.{◌≡◌, ◌≢◌, ◌∷◌, [], List, ℕ, Some, None, Err, IfOk, IfErr, IsOkAnd, codes, is_some};
ghost use Rattle.encoded_messages.specs.Fields.{only_keys};
ghost use Rattle.encoded_messages.specs.Forms.{keys_of};
ghost use Rattle.encoded_messages.specs.FieldFaults.{read_of, Answers};
ghost use Rattle.encoded_messages.specs.Faults as faults;
ghost use Rattle.encoded_messages.specs.Abis as said;
ghost use Rattle.encoded_messages.specs.Rr as rr;
ghost use Rattle.rr_messages.specs.Rr.{rr_text};

use crate::fault::MessageFault;
use crate::field_fault::{Allowed, FieldFault};
use crate::fields::only_fields;
use crate::form::{FieldForm, MessageForm};
use crate::layer3::{message_with, says_with};
use crate::name::name_and_fields;
use crate::rr::{encode_rr, says_rr};
use crate::visit::{FieldValue, Fields, hand_on};
use crate::words::around_semicolon;
use rsl_messages::{ChanBits, Octets, Rsl, encode, fits};
use std::alloc::{Allocator, Global};

/// The fields of messages on Abis.
pub(crate) const TN: FieldForm<'static> = FieldForm("tn", Allowed::TrafficChannel);

pub(crate) const LINK: FieldForm<'static> = FieldForm("link", Allowed::Number(255));

const LAYER3: FieldForm<'static> = FieldForm("layer3", Allowed::Octets(1));

const ACTIVATION: FieldForm<'static> = FieldForm("activation", Allowed::Number(255));

const MODE: FieldForm<'static> = FieldForm("mode", Allowed::Octets(1));

const REFERENCE: FieldForm<'static> = FieldForm("reference", Allowed::OptionalOctet);

const FRAME: FieldForm<'static> = FieldForm("frame", Allowed::Number(65535));

const CAUSE: FieldForm<'static> = FieldForm("cause", Allowed::Cause);

const DELAY: FieldForm<'static> = FieldForm("delay", Allowed::OptionalOctet);

pub(crate) const NUMBER: FieldForm<'static> = FieldForm("number", Allowed::Number(255));

pub(crate) const UPLINK: FieldForm<'static> = FieldForm("uplink", Allowed::Octets(0));

pub(crate) const POWER: FieldForm<'static> = FieldForm("power", Allowed::Number(255));

const REPORT: FieldForm<'static> = FieldForm("layer3", Allowed::OptionalOctets(1));

/// TS 48.058 clause 8.3.1.
pub(crate) const DATA_REQUEST: MessageForm<'static> = MessageForm {
    name: "DATA REQUEST",
    fields: &[TN, LINK, LAYER3],
};
/// TS 48.058 clause 8.3.2.
pub(crate) const DATA_INDICATION: MessageForm<'static> = MessageForm {
    name: "DATA INDICATION",
    fields: &[TN, LINK, LAYER3],
};
/// TS 48.058 clause 8.4.1.
const CHANNEL_ACTIVATION: MessageForm<'static> = MessageForm {
    name: "CHANNEL ACTIVATION",
    fields: &[TN, ACTIVATION, MODE, REFERENCE],
};
/// TS 48.058 clause 8.4.2.
const CHANNEL_ACTIVATION_ACK: MessageForm<'static> = MessageForm {
    name: "CHANNEL ACTIVATION ACK",
    fields: &[TN, FRAME],
};
/// TS 48.058 clause 8.4.3.
const CHANNEL_ACTIVATION_NACK: MessageForm<'static> = MessageForm {
    name: "CHANNEL ACTIVATION NACK",
    fields: &[TN, CAUSE],
};
/// TS 48.058 clause 8.4.4.
const CONNECTION_FAILURE_INDICATION: MessageForm<'static> = MessageForm {
    name: "CONNECTION FAILURE INDICATION",
    fields: &[TN, CAUSE],
};
/// TS 48.058 clause 8.4.7.
const HANDOVER_DETECTION: MessageForm<'static> = MessageForm {
    name: "HANDOVER DETECTION",
    fields: &[TN, DELAY],
};
/// TS 48.058 clause 8.4.8.
pub(crate) const MEASUREMENT_RESULT: MessageForm<'static> = MessageForm {
    name: "MEASUREMENT RESULT",
    fields: &[TN, NUMBER, UPLINK, POWER, REPORT],
};
/// TS 48.058 clause 8.4.14.
const RF_CHANNEL_RELEASE: MessageForm<'static> = MessageForm {
    name: "RF CHANNEL RELEASE",
    fields: &[TN],
};
/// TS 48.058 clause 8.4.19.
const RF_CHANNEL_RELEASE_ACK: MessageForm<'static> = MessageForm {
    name: "RF CHANNEL RELEASE ACK",
    fields: &[TN],
};

/// The messages on Abis, in the order in which they are listed.
pub const ABIS_FORMS: &[MessageForm<'static>] = &[
    CHANNEL_ACTIVATION,
    CHANNEL_ACTIVATION_ACK,
    CHANNEL_ACTIVATION_NACK,
    RF_CHANNEL_RELEASE,
    RF_CHANNEL_RELEASE_ACK,
    CONNECTION_FAILURE_INDICATION,
    DATA_REQUEST,
    DATA_INDICATION,
    HANDOVER_DETECTION,
    MEASUREMENT_RESULT,
];

/// The form of a message on Abis.
fn form_of<A: Allocator>(message: &Rsl<A>) -> MessageForm<'static> {
    match message {
        Rsl::DataRequest { .. } => DATA_REQUEST,
        Rsl::DataIndication { .. } => DATA_INDICATION,
        Rsl::ChannelActivation { .. } => CHANNEL_ACTIVATION,
        Rsl::ChannelActivationAck { .. } => CHANNEL_ACTIVATION_ACK,
        Rsl::ChannelActivationNack { .. } => CHANNEL_ACTIVATION_NACK,
        Rsl::ConnectionFailureIndication { .. } => CONNECTION_FAILURE_INDICATION,
        Rsl::HandoverDetection { .. } => HANDOVER_DETECTION,
        Rsl::MeasurementResult { .. } => MEASUREMENT_RESULT,
        Rsl::RfChannelRelease { .. } => RF_CHANNEL_RELEASE,
        Rsl::RfChannelReleaseAck { .. } => RF_CHANNEL_RELEASE_ACK,
    }
}

/// The name of a message on Abis.
pub fn abis_name<A: Allocator>(message: &Rsl<A>) -> &'static str {
    form_of(message).name
}

/// The value of the channel that a message is about.
fn channel_value<'m>(channel: ChanBits) -> FieldValue<'m> {
    FieldValue::Channel(channel.tn, channel.sub)
}

/// The value of an octet.
fn octet_value<'m>(octet: u8) -> FieldValue<'m> {
    FieldValue::Number(u16::from(octet))
}

/// Hands on the fields of a message on Abis.
pub fn visit_abis<'m, A: Allocator, V: Fields<'m>>(
    message: &'m Rsl<A>,
    visitor: &mut V,
) -> Result<(), V::Stop> {
    let form = form_of(message);
    match message {
        Rsl::DataRequest {
            channel,
            link,
            layer3,
        }
        | Rsl::DataIndication {
            channel,
            link,
            layer3,
        } => {
            let layer3 = FieldValue::Layer3(Some(layer3.as_slice()));
            hand_on(
                form,
                &[channel_value(*channel), octet_value(*link), layer3],
                visitor,
            )
        }
        Rsl::ChannelActivation {
            channel,
            activation,
            mode,
            reference,
        } => {
            let mode = FieldValue::Octets(mode.as_slice());
            let reference = FieldValue::OptionalOctet(*reference);
            let values = [
                channel_value(*channel),
                octet_value(*activation),
                mode,
                reference,
            ];
            hand_on(form, &values, visitor)
        }
        Rsl::ChannelActivationAck { channel, frame } => hand_on(
            form,
            &[channel_value(*channel), FieldValue::Number(*frame)],
            visitor,
        ),
        Rsl::ChannelActivationNack { channel, cause }
        | Rsl::ConnectionFailureIndication { channel, cause } => hand_on(
            form,
            &[channel_value(*channel), FieldValue::Cause(*cause)],
            visitor,
        ),
        Rsl::HandoverDetection { channel, delay } => hand_on(
            form,
            &[channel_value(*channel), FieldValue::OptionalOctet(*delay)],
            visitor,
        ),
        Rsl::MeasurementResult {
            channel,
            number,
            uplink,
            power,
            layer3,
        } => {
            let values = [
                channel_value(*channel),
                octet_value(*number),
                FieldValue::Octets(uplink.as_slice()),
                octet_value(*power),
                FieldValue::Layer3(report_in(layer3)),
            ];
            hand_on(form, &values, visitor)
        }
        Rsl::RfChannelRelease { channel } | Rsl::RfChannelReleaseAck { channel } => hand_on(
            form,
            &[channel_value(*channel)],
            visitor,
        ),
    }
}

/// The octets of the mobile's measurement report, where there are any.
fn report_in<A: Allocator>(layer3: &Option<Octets<A>>) -> Option<&[u8]> {
    match layer3 {
        Some(layer3) => Some(layer3.as_slice()),
        None => None,
    }
}

/// The channel that a message is about.
#[tactic(auto, unfolding(crate::specs::Abis::channel))]
pub(crate) fn channel(fields: &str) -> Result<ChanBits, FieldFault<'_>>
    ensures { read_of result ≡ said.channel fields.now }
{
    let (tn, sub) = TN.traffic_channel(fields)?;
    Ok(ChanBits { tn, sub })
}

/// DATA REQUEST
#[tactic(auto, unfolding(crate::specs::Abis::data_request))]
fn data_request<A: Allocator>(alloc: A, fields: &str) -> Result<Rsl<A>, FieldFault<'_>>
    ensures { Answers result (said.data_request fields.now) }
{
    only_fields(fields, DATA_REQUEST)?;
    let channel = channel(fields)?;
    let link = LINK.octet(fields)?;
    let layer3 = Octets::from_vec(LAYER3.octets(alloc, fields)?);
    Ok(Rsl::DataRequest {
        channel,
        link,
        layer3,
    })
}

/// DATA INDICATION
#[tactic(auto, unfolding(crate::specs::Abis::data_indication))]
fn data_indication<A: Allocator>(alloc: A, fields: &str) -> Result<Rsl<A>, FieldFault<'_>>
    ensures { Answers result (said.data_indication fields.now) }
{
    only_fields(fields, DATA_INDICATION)?;
    let channel = channel(fields)?;
    let link = LINK.octet(fields)?;
    let layer3 = Octets::from_vec(LAYER3.octets(alloc, fields)?);
    Ok(Rsl::DataIndication {
        channel,
        link,
        layer3,
    })
}

/// Refuses a word that is no field of CHANNEL ACTIVATION.
#[tactic(auto, unfolding(crate::specs::Abis::activation_keys))]
fn only_in_activation(fields: &str) -> Result<(), FieldFault<'_>>
    ensures { read_of result ≡ only_keys said.activation_keys fields.now }
{
    only_fields(fields, CHANNEL_ACTIVATION)
}

/// CHANNEL ACTIVATION
#[tactic(auto, unfolding(crate::specs::Abis::activation))]
fn activation<A: Allocator>(alloc: A, fields: &str) -> Result<Rsl<A>, FieldFault<'_>>
    ensures { Answers result (said.activation fields.now) }
{
    only_in_activation(fields)?;
    let channel = channel(fields)?;
    let activation = ACTIVATION.octet(fields)?;
    let mode = Octets::from_vec(MODE.octets(alloc, fields)?);
    let reference = REFERENCE.optional_octet(fields)?;
    Ok(Rsl::ChannelActivation {
        channel,
        activation,
        mode,
        reference,
    })
}

/// CHANNEL ACTIVATION ACK
#[tactic(auto, unfolding(crate::specs::Abis::activation_ack))]
fn activation_ack<A: Allocator>(fields: &str) -> Result<Rsl<A>, FieldFault<'_>>
    ensures { read_of result ≡ said.activation_ack fields.now }
{
    only_fields(fields, CHANNEL_ACTIVATION_ACK)?;
    Ok(Rsl::ChannelActivationAck {
        channel: channel(fields)?,
        frame: FRAME.number(fields)?,
    })
}

/// The fields of CHANNEL ACTIVATION NACK and of CONNECTION FAILURE INDICATION: channel and cause.
#[tactic(auto, unfolding(crate::specs::Abis::cause))]
fn cause<'a>(fields: &'a str, form: MessageForm<'static>) -> Result<(ChanBits, u8), FieldFault<'a>>
    requires { keys_of form.fields.now ≡ codes "tn" ∷ codes "cause" ∷ [] }
    ensures { read_of result ≡ said.cause fields.now }
{
    only_fields(fields, form)?;
    let channel = channel(fields)?;
    let cause = CAUSE.cause(fields)?;
    Ok((channel, cause))
}

/// HANDOVER DETECTION
#[tactic(auto, unfolding(crate::specs::Abis::detection))]
fn detection<A: Allocator>(fields: &str) -> Result<Rsl<A>, FieldFault<'_>>
    ensures { read_of result ≡ said.detection fields.now }
{
    only_fields(fields, HANDOVER_DETECTION)?;
    Ok(Rsl::HandoverDetection {
        channel: channel(fields)?,
        delay: DELAY.optional_octet(fields)?,
    })
}

/// Refuses a word that is no field of MEASUREMENT RESULT.
#[tactic(auto, unfolding(crate::specs::Abis::measurement_keys))]
fn only_in_measurement(fields: &str) -> Result<(), FieldFault<'_>>
    ensures { read_of result ≡ only_keys said.measurement_keys fields.now }
{
    only_fields(fields, MEASUREMENT_RESULT)
}

/// MEASUREMENT RESULT
#[tactic(auto, unfolding(crate::specs::Abis::measurement))]
fn measurement<A: Allocator + Copy>(alloc: A, fields: &str) -> Result<Rsl<A>, FieldFault<'_>>
    ensures { Answers result (said.measurement fields.now) }
{
    only_in_measurement(fields)?;
    let channel = channel(fields)?;
    let number = NUMBER.octet(fields)?;
    let uplink = Octets::from_vec(UPLINK.octets(alloc, fields)?);
    let power = POWER.octet(fields)?;
    let layer3 = REPORT
        .optional_octets(alloc, fields)?
        .map(|octets| Octets::from_vec(octets));
    Ok(Rsl::MeasurementResult {
        channel,
        number,
        uplink,
        power,
        layer3,
    })
}

/// The channel of a message that has nothing else.
#[tactic(auto, unfolding(crate::specs::Abis::channel_alone))]
fn channel_alone<'a>(
    fields: &'a str,
    form: MessageForm<'static>,
) -> Result<ChanBits, FieldFault<'a>>
    requires { keys_of form.fields.now ≡ codes "tn" ∷ [] }
    ensures { read_of result ≡ said.channel_alone fields.now }
{
    only_fields(fields, form)?;
    channel(fields)
}

/// The message of a name and its fields that has no octets.
#[tactic(auto, unfolding(crate::specs::Abis::short_message))]
fn short_message<'a, A: Allocator>(
    name: &'a str,
    fields: &'a str,
) -> Result<Rsl<A>, MessageFault<'a>>
    ensures { faults.read_of result ≡ said.short_message name.now fields.now }
{
    if name == CHANNEL_ACTIVATION_ACK.name {
        Ok(activation_ack(fields)?)
    } else if name == CHANNEL_ACTIVATION_NACK.name {
        let (channel, cause) = cause(fields, CHANNEL_ACTIVATION_NACK)?;
        Ok(Rsl::ChannelActivationNack { channel, cause })
    } else if name == CONNECTION_FAILURE_INDICATION.name {
        let (channel, cause) = cause(fields, CONNECTION_FAILURE_INDICATION)?;
        Ok(Rsl::ConnectionFailureIndication { channel, cause })
    } else if name == HANDOVER_DETECTION.name {
        Ok(detection(fields)?)
    } else if name == RF_CHANNEL_RELEASE.name {
        let channel = channel_alone(fields, RF_CHANNEL_RELEASE)?;
        Ok(Rsl::RfChannelRelease { channel })
    } else if name == RF_CHANNEL_RELEASE_ACK.name {
        let channel = channel_alone(fields, RF_CHANNEL_RELEASE_ACK)?;
        Ok(Rsl::RfChannelReleaseAck { channel })
    } else {
        Err(MessageFault::Name(name))
    }
}

/// The message of a name and its fields.
#[tactic(auto, unfolding(crate::specs::Abis::message_of))]
fn message_of<'a, A: Allocator + Copy>(
    alloc: A,
    name: &'a str,
    fields: &'a str,
) -> Result<Rsl<A>, MessageFault<'a>>
    ensures { faults.Answers result (said.message_of name.now fields.now) }
{
    if name == DATA_REQUEST.name {
        Ok(data_request(alloc, fields)?)
    } else if name == DATA_INDICATION.name {
        Ok(data_indication(alloc, fields)?)
    } else if name == CHANNEL_ACTIVATION.name {
        Ok(activation(alloc, fields)?)
    } else if name == MEASUREMENT_RESULT.name {
        Ok(measurement(alloc, fields)?)
    } else {
        short_message(name, fields)
    }
}

/// The octets of the radio resource message that a text says, which is the layer 3 of another.
fn layer3_in<A: Allocator + Copy>(alloc: A, text: &str) -> Result<Vec<u8, A>, MessageFault<'_>>
    ensures octets { IfOk result (λ octets. IsOkAnd (faults.as_layer3 (rr.message_in text.now))
        (λ layer3. octets.items ≡ rr_text layer3)) }
    ensures fault { IfErr result (λ fault. fault ≢ MessageFault.NoMemory →
        faults.as_layer3 (rr.message_in text.now) ≡ Err (faults.fault_of fault)) }
{
    match encode_rr(alloc, text) {
        Err(MessageFault::Name(name)) => Err(MessageFault::Layer3(name)),
        read => read,
    }
}

/// The message that a text says.
fn message_in<A: Allocator + Copy>(alloc: A, text: &str) -> Result<Rsl<A>, MessageFault<'_>>
    ensures { faults.Answers result (said.message_in text.now) }
{
    match around_semicolon(text) {
        Some((front, behind)) => {
            let layer3 = layer3_in(alloc, behind)?;
            let (name, fields) = name_and_fields(front);
            message_with(alloc, name, fields, layer3)
        }
        None => {
            let (name, fields) = name_and_fields(text);
            message_of(alloc, name, fields)
        }
    }
}

/// The octets of the message on Abis that a text says: its canonical text. The radio resource message that is its layer 3 may stand
/// in words, too, behind a `;` and in place of the field `layer3`.
#[tactic(auto, using(crate::proofs::AbisLemmas::said_octets, crate::proofs::AbisLemmas::said_too_long, crate::proofs::AbisLemmas::said_nothing))]
pub fn encode_abis<A: Allocator + Copy>(
    alloc: A,
    text: &str,
) -> Result<Vec<u8, A>, MessageFault<'_>>
    ensures octets { IfOk result (λ octets. said.Writes A text.now octets.items) }
    ensures said { IfOk result (λ octets. said.octets_said text.now ≡ Some octets.items) }
    ensures fault { IfErr result (λ fault. fault ≢ MessageFault.NoMemory →
        said.HasFault A text.now (faults.fault_of fault)) }
    ensures unsaid { IfErr result (λ fault. fault ≢ MessageFault.NoMemory →
        said.octets_said text.now ≡ None) }
{
    let message = message_in(alloc, text)?;
    if !fits(&message) {
        return Err(MessageFault::TooLong);
    }
    Ok(encode(alloc, &message)?)
}

/// Whether a field has octets, and at most so many.
fn is_within(octets: Option<usize>, most: usize) -> bool
    ensures { result ≡ is_some (said.up_to most octets) }
{
    match octets {
        Some(octets) => octets <= most,
        None => false,
    }
}

/// Whether fields say a DATA REQUEST that can be written, and so a DATA INDICATION, whose fields are the same.
#[tactic(auto, unfolding(crate::specs::Abis::data_request, crate::specs::Abis::data_indication))]
fn says_data(fields: &str, form: MessageForm<'static>) -> bool
    requires { keys_of form.fields.now ≡ codes "tn" ∷ codes "link" ∷ codes "layer3" ∷ [] }
    ensures request { result ≡ said.can_be_written_of (said.data_request {A = Unit} fields.now) }
    ensures indication { result ≡ said.can_be_written_of (said.data_indication {A = Unit} fields.now) }
{
    only_fields(fields, form).is_ok()
        && channel(fields).is_ok()
        && LINK.octet(fields).is_ok()
        && is_within(LAYER3.octets_len(fields), 1015)
}

/// Whether fields say a CHANNEL ACTIVATION that can be written.
#[tactic(auto, unfolding(crate::specs::Abis::activation))]
fn says_activation(fields: &str) -> bool
    ensures { result ≡ said.can_be_written_of (said.activation {A = Unit} fields.now) }
{
    only_in_activation(fields).is_ok()
        && channel(fields).is_ok()
        && ACTIVATION.octet(fields).is_ok()
        && is_within(MODE.octets_len(fields), 255)
        && REFERENCE.optional_octet(fields).is_ok()
}

/// Whether so many octets of uplink measurements and, if there is one, of a report have room in a MEASUREMENT RESULT.
fn measured_fit(uplink: usize, report: Option<usize>) -> bool
    ensures { result ≡ said.measured_fit uplink report }
{
    match report {
        None => uplink <= 255,
        Some(report) => uplink <= 255 && report <= 1011 - uplink,
    }
}

/// Whether fields say a MEASUREMENT RESULT that can be written.
#[tactic(auto, unfolding(crate::specs::Abis::measurement))]
fn says_measurement(fields: &str) -> bool
    ensures { result ≡ said.can_be_written_of (said.measurement {A = Unit} fields.now) }
{
    let lengths = (
        UPLINK.octets_len(fields),
        REPORT.optional_octets_len(fields),
    );
    only_in_measurement(fields).is_ok()
        && channel(fields).is_ok()
        && NUMBER.octet(fields).is_ok()
        && POWER.octet(fields).is_ok()
        && match lengths {
            (Some(uplink), Some(report)) => measured_fit(uplink, report),
            (None, _) | (_, None) => false,
        }
}

/// Whether a name and its fields say a message without octets, which can always be written.
fn says_short(name: &str, fields: &str) -> bool
    ensures { result ≡ said.can_be_written_in (said.short_message {A = Unit} name.now fields.now) }
{
    short_message::<Global>(name, fields).is_ok()
}

/// Whether a name and its fields say a message that can be written.
#[tactic(auto, using(crate::proofs::AbisLemmas::written_of_fields), unfolding(crate::specs::Abis::message_of))]
fn says_message(name: &str, fields: &str) -> bool
    ensures { result ≡ said.can_be_written_in (said.message_of {A = Unit} name.now fields.now) }
{
    if name == DATA_REQUEST.name {
        says_data(fields, DATA_REQUEST)
    } else if name == DATA_INDICATION.name {
        says_data(fields, DATA_INDICATION)
    } else if name == CHANNEL_ACTIVATION.name {
        says_activation(fields)
    } else if name == MEASUREMENT_RESULT.name {
        says_measurement(fields)
    } else {
        says_short(name, fields)
    }
}

/// Whether a text with its layer 3 in words behind it says a message that can be written. Takes no memory.
#[tactic(auto, using(crate::proofs::AbisLemmas::parts_said))]
fn says_parts(front: &str, words: &str) -> bool
    ensures { (text : List ℕ) → result ≡
        said.can_be_written_in (said.in_parts {A = Unit} text (Some (front.now, words.now))) }
{
    let (name, fields) = name_and_fields(front);
    says_rr(words) && says_with(name, fields)
}

/// Whether a text says a message on Abis that can be written: [`encode_abis`] gives its octets, memory aside. Takes no memory.
#[tactic(auto, using(crate::proofs::AbisLemmas::says_octets))]
pub fn says_abis(text: &str) -> bool
    ensures said { result ≡ is_some (said.octets_said text.now) }
{
    match around_semicolon(text) {
        Some((front, words)) => says_parts(front, words),
        None => {
            let (name, fields) = name_and_fields(text);
            says_message(name, fields)
        }
    }
}
