//! The elements of each message: how they are read, and beside it how they are written.
ghost use Rattle.std.specs.Prelude.{◌≡◌, ◌+◌, ◌-◌, ◌/◌, ◌%◌, ◌^◌, ◌<◌, ◌≤◌, ◌↔◌, min, length, map, Ok, Err, IsTrue, IfSome};
ghost use Rattle.std.specs.Option.{option_map};
ghost use Rattle.octet_elements.specs.ChannelTypes.{sub_of};
ghost use Rattle.octet_elements.specs.Elements.{all_octets};
ghost use Rattle.octet_elements.specs.Lookup.{lookup};
ghost use Rattle.octet_elements.specs.Texts.{Answers};
ghost use Rattle.octet_elements.specs.Writing.{HasRoom, Adds};
ghost use Rattle.rsl_messages.specs.Forms.{abis, known};
ghost use Rattle.rsl_messages.specs.Messages.{CanBeSaid, said, elements_of, data_rows, activation_rows, activation_ack_rows, cause_rows, detection_rows, measurement_rows};
ghost use Rattle.rsl_messages.specs.Texts.{codec, limit, HasCanonical};
ghost use Rattle.rsl_messages.specs.Values.{channel_with, channel_in, channel_octet};

use crate::fault::RslFault;
use crate::head::MessageKind;
use crate::message::{ChanBits, Rsl};
use crate::table::{
    ACCESS_DELAY, ACTIVATION_TYPE, Abis, CAUSE, CHANNEL_MODE, CHANNEL_NUMBER, FRAME_NUMBER,
    HANDOVER_REFERENCE, LAYER3, LINK_IDENTIFIER, POWER, RESULT_NUMBER, UPLINK_MEASUREMENTS,
};
use octet_elements::values::u16_octets;
use octet_elements::{
    Found, Octets, ValueFault, append_element, append_octet, append_optional_octet, channel_type,
    element_len, octet_len, optional_octet_len, sub_of_type,
};
use std::alloc::Allocator;

/// The message that elements say, or their first fault.
type Read<A> = Result<Rsl<A>, RslFault>;

/// The channel number.
fn channel(found: &Found<'_, Abis>) -> Result<ChanBits, ValueFault>
    ensures { result ≡ channel_in ((lookup known found.now).first CHANNEL_NUMBER) }
{
    match found.first(CHANNEL_NUMBER) {
        None => Err(ValueFault::Absent(CHANNEL_NUMBER)),
        Some([octet, ..]) => channel_of(*octet),
        Some([]) => Err(ValueFault::Bad(CHANNEL_NUMBER)),
    }
}

/// The channel that a channel number's octet names.
fn channel_of(octet: u8) -> Result<ChanBits, ValueFault>
    ensures { result ≡ channel_with (sub_of (octet / 8)) (octet % 8) }
{
    match sub_of_type(octet / 8) {
        Some(sub) => Ok(ChanBits { tn: octet % 8, sub }),
        None => Err(ValueFault::Bad(CHANNEL_NUMBER)),
    }
}

/// The channel number's octet.
fn channel_octet(channel: ChanBits) -> u8
    requires { channel.tn < 8 }
    ensures { result ≡ channel_octet channel }
{
    8 * channel_type(channel.sub) + channel.tn
}

/// The message that elements say.
#[inline(always)]
pub fn read_elements<A: Allocator + Copy>(
    alloc: A,
    kind: MessageKind,
    found: &Found<'_, Abis>,
) -> Result<Rsl<A>, RslFault>
    ensures { Answers (codec A) result (said kind (lookup known found.now)) }
{
    match kind {
        MessageKind::DataRequest => read_data_request(alloc, found),
        MessageKind::DataIndication => read_data_indication(alloc, found),
        MessageKind::ChannelActivation => read_activation(alloc, found),
        MessageKind::ChannelActivationAck => Ok(Rsl::ChannelActivationAck {
            channel: channel(found)?,
            frame: found.u16_be(FRAME_NUMBER)?,
        }),
        MessageKind::ChannelActivationNack => Ok(Rsl::ChannelActivationNack {
            channel: channel(found)?,
            cause: found.octet(CAUSE)?,
        }),
        MessageKind::ConnectionFailureIndication => Ok(Rsl::ConnectionFailureIndication {
            channel: channel(found)?,
            cause: found.octet(CAUSE)?,
        }),
        MessageKind::HandoverDetection => Ok(Rsl::HandoverDetection {
            channel: channel(found)?,
            delay: found.optional_octet(ACCESS_DELAY)?,
        }),
        MessageKind::MeasurementResult => read_measurement(alloc, found),
        MessageKind::RfChannelRelease => Ok(Rsl::RfChannelRelease {
            channel: channel(found)?,
        }),
        MessageKind::RfChannelReleaseAck => Ok(Rsl::RfChannelReleaseAck {
            channel: channel(found)?,
        }),
    }
}

/// Appends the elements of a message, for which the list has room.
pub fn append_elements<A: Allocator>(message: &Rsl<A>, out: &mut Vec<u8, A>)
    requires canonical { HasCanonical message.now }
    requires room { HasRoom (all_octets abis (elements_of message.now)) out.old }
    ensures { Adds (all_octets abis (elements_of message.now)) out.old out.new }
{
    match message {
        Rsl::DataRequest {
            channel,
            link,
            layer3,
        }
        | Rsl::DataIndication {
            channel,
            link,
            layer3,
        } => append_data(out, *channel, *link, layer3.as_slice()),
        Rsl::ChannelActivation {
            channel,
            activation,
            mode,
            reference,
        } => append_activation(out, *channel, *activation, mode.as_slice(), *reference),
        Rsl::ChannelActivationAck { channel, frame } => append_ack(out, *channel, *frame),
        Rsl::ConnectionFailureIndication { channel, cause }
        | Rsl::ChannelActivationNack { channel, cause } => append_cause(out, *channel, *cause),
        Rsl::HandoverDetection { channel, delay } => append_detection(out, *channel, *delay),
        Rsl::MeasurementResult {
            channel,
            number,
            uplink,
            power,
            layer3,
        } => append_measurement(out, *channel, *number, uplink, *power, layer3.as_ref()),
        Rsl::RfChannelRelease { channel } | Rsl::RfChannelReleaseAck { channel } => {
            append_octet::<Abis, A>(out, CHANNEL_NUMBER, channel_octet(*channel));
        }
    }
}

/// DATA REQUEST. Memory is asked for once the elements are read.
#[inline(always)]
fn read_data_request<A: Allocator + Copy>(alloc: A, found: &Found<'_, Abis>) -> Read<A>
    ensures { Answers (codec A) result (said MessageKind.DataRequest (lookup known found.now)) }
{
    Ok(Rsl::DataRequest {
        channel: channel(found)?,
        link: found.octet(LINK_IDENTIFIER)?,
        layer3: Octets::new(alloc, found.octets(LAYER3)?)?,
    })
}

/// DATA INDICATION. Memory is asked for once the elements are read.
#[inline(always)]
fn read_data_indication<A: Allocator + Copy>(alloc: A, found: &Found<'_, Abis>) -> Read<A>
    ensures { Answers (codec A) result (said MessageKind.DataIndication (lookup known found.now)) }
{
    Ok(Rsl::DataIndication {
        channel: channel(found)?,
        link: found.octet(LINK_IDENTIFIER)?,
        layer3: Octets::new(alloc, found.octets(LAYER3)?)?,
    })
}

/// Appends the elements of a DATA message.
pub fn append_data<A: Allocator>(out: &mut Vec<u8, A>, channel: ChanBits, link: u8, layer3: &[u8])
    requires channel { channel.tn < 8 }
    requires layer3 { length layer3.now ≤ limit }
    requires room { HasRoom (all_octets abis (data_rows.written (channel, (link, layer3.now)))) out.old }
    ensures { Adds (all_octets abis (data_rows.written (channel, (link, layer3.now)))) out.old out.new }
{
    append_octet::<Abis, A>(out, CHANNEL_NUMBER, channel_octet(channel));
    append_octet::<Abis, A>(out, LINK_IDENTIFIER, link);
    append_element::<Abis, A>(out, LAYER3, layer3);
}

/// CHANNEL ACTIVATION. Memory is asked for once the elements are read.
#[inline(always)]
fn read_activation<A: Allocator + Copy>(alloc: A, found: &Found<'_, Abis>) -> Read<A>
    ensures { Answers (codec A) result
        (said MessageKind.ChannelActivation (lookup known found.now)) }
{
    let channel = channel(found)?;
    let activation = found.octet(ACTIVATION_TYPE)?;
    let mode = found.octets(CHANNEL_MODE)?;
    let reference = found.optional_octet(HANDOVER_REFERENCE)?;
    Ok(Rsl::ChannelActivation {
        channel,
        activation,
        mode: Octets::new(alloc, mode)?,
        reference,
    })
}

/// Appends the elements of a CHANNEL ACTIVATION.
pub fn append_activation<A: Allocator>(
    out: &mut Vec<u8, A>,
    channel: ChanBits,
    activation: u8,
    mode: &[u8],
    reference: Option<u8>,
)
    requires channel { channel.tn < 8 }
    requires mode { length mode.now < 256 }
    requires room { HasRoom (all_octets abis
        (activation_rows.written (channel, (activation, (mode.now, reference))))) out.old }
    ensures { Adds (all_octets abis
        (activation_rows.written (channel, (activation, (mode.now, reference))))) out.old out.new }
{
    append_octet::<Abis, A>(out, CHANNEL_NUMBER, channel_octet(channel));
    append_octet::<Abis, A>(out, ACTIVATION_TYPE, activation);
    append_element::<Abis, A>(out, CHANNEL_MODE, mode);
    append_optional_octet::<Abis, A>(out, HANDOVER_REFERENCE, reference);
}

/// Appends the elements of a CHANNEL ACTIVATION ACKNOWLEDGE.
fn append_ack<A: Allocator>(out: &mut Vec<u8, A>, channel: ChanBits, frame: u16)
    requires channel { channel.tn < 8 }
    requires room { HasRoom (all_octets abis (activation_ack_rows.written (channel, frame))) out.old }
    ensures { Adds (all_octets abis (activation_ack_rows.written (channel, frame))) out.old out.new }
{
    append_octet::<Abis, A>(out, CHANNEL_NUMBER, channel_octet(channel));
    append_element::<Abis, A>(out, FRAME_NUMBER, &u16_octets(frame));
}

/// Appends the elements of a message with a cause.
fn append_cause<A: Allocator>(out: &mut Vec<u8, A>, channel: ChanBits, cause: u8)
    requires channel { channel.tn < 8 }
    requires room { HasRoom (all_octets abis (cause_rows.written (channel, cause))) out.old }
    ensures { Adds (all_octets abis (cause_rows.written (channel, cause))) out.old out.new }
{
    append_octet::<Abis, A>(out, CHANNEL_NUMBER, channel_octet(channel));
    append_octet::<Abis, A>(out, CAUSE, cause);
}

/// Appends the elements of a HANDOVER DETECTION.
fn append_detection<A: Allocator>(out: &mut Vec<u8, A>, channel: ChanBits, delay: Option<u8>)
    requires channel { channel.tn < 8 }
    requires room { HasRoom (all_octets abis (detection_rows.written (channel, delay))) out.old }
    ensures { Adds (all_octets abis (detection_rows.written (channel, delay))) out.old out.new }
{
    append_octet::<Abis, A>(out, CHANNEL_NUMBER, channel_octet(channel));
    append_optional_octet::<Abis, A>(out, ACCESS_DELAY, delay);
}

/// MEASUREMENT RESULT. Memory is asked for once the elements are read.
#[inline(always)]
fn read_measurement<A: Allocator + Copy>(alloc: A, found: &Found<'_, Abis>) -> Read<A>
    ensures { Answers (codec A) result
        (said MessageKind.MeasurementResult (lookup known found.now)) }
{
    let channel = channel(found)?;
    let number = found.octet(RESULT_NUMBER)?;
    let uplink = found.any_octets(UPLINK_MEASUREMENTS)?;
    let power = found.octet(POWER)?;
    let layer3 = found.optional_octets(LAYER3)?;
    Ok(Rsl::MeasurementResult {
        channel,
        number,
        uplink: Octets::new(alloc, uplink)?,
        power,
        layer3: match layer3 {
            None => None,
            Some(layer3) => Some(Octets::new(alloc, layer3)?),
        },
    })
}

/// Appends the elements of a MEASUREMENT RESULT.
fn append_measurement<A: Allocator>(
    out: &mut Vec<u8, A>,
    channel: ChanBits,
    number: u8,
    uplink: &Octets<A>,
    power: u8,
    layer3: Option<&Octets<A>>,
)
    requires channel { channel.tn < 8 }
    requires uplink { length uplink.now < 256 }
    requires layer3 { IfSome layer3 (λ l. length l.now ≤ limit) }
    requires room { HasRoom (all_octets abis (measurement_rows.written
        (channel, (number, (uplink.now, (power, option_map (λ l. l.now) layer3)))))) out.old }
    ensures { Adds (all_octets abis (measurement_rows.written
        (channel, (number, (uplink.now, (power, option_map (λ l. l.now) layer3.entry)))))) out.old out.new }
{
    append_octet::<Abis, A>(out, CHANNEL_NUMBER, channel_octet(channel));
    append_octet::<Abis, A>(out, RESULT_NUMBER, number);
    append_element::<Abis, A>(out, UPLINK_MEASUREMENTS, uplink.as_slice());
    append_octet::<Abis, A>(out, POWER, power);
    if let Some(layer3) = layer3 {
        append_element::<Abis, A>(out, LAYER3, layer3.as_slice());
    }
}

/// Whether the fields of a message can be said by elements, how long they may be together aside.
pub fn can_be_said<A: Allocator>(message: &Rsl<A>) -> bool
    ensures { IsTrue result ↔ CanBeSaid message.now }
{
    match message {
        Rsl::DataRequest {
            channel,
            layer3,
            ..
        }
        | Rsl::DataIndication {
            channel,
            layer3,
            ..
        } => channel.tn < 8 && !layer3.as_slice().is_empty(),
        Rsl::ChannelActivation { channel, mode, .. } => {
            channel.tn < 8 && matches!(mode.as_slice().len(), 1..=255)
        }
        Rsl::MeasurementResult {
            channel,
            uplink,
            layer3,
            ..
        } => {
            channel.tn < 8
                && uplink.as_slice().len() < 256
                && match layer3 {
                    None => true,
                    Some(layer3) => !layer3.as_slice().is_empty(),
                }
        }
        Rsl::ChannelActivationAck { channel, .. }
        | Rsl::ChannelActivationNack { channel, .. }
        | Rsl::ConnectionFailureIndication { channel, .. }
        | Rsl::HandoverDetection { channel, .. }
        | Rsl::RfChannelRelease { channel }
        | Rsl::RfChannelReleaseAck { channel } => channel.tn < 8,
    }
}

/// How many octets the elements of a message take, or the greatest length where they are more.
pub fn elements_len<A: Allocator>(message: &Rsl<A>) -> usize
    ensures { result ≡ min (length (all_octets abis (elements_of message.now))) (2 ^ 64 - 1) }
{
    let others = match message {
        Rsl::DataRequest { layer3, .. } | Rsl::DataIndication { layer3, .. } => {
            octet_len::<Abis>(LINK_IDENTIFIER) + element_len::<Abis>(LAYER3, layer3.as_slice())
        }
        Rsl::ChannelActivation {
            mode,
            reference,
            ..
        } => {
            octet_len::<Abis>(ACTIVATION_TYPE)
                + element_len::<Abis>(CHANNEL_MODE, mode.as_slice())
                + optional_octet_len::<Abis>(HANDOVER_REFERENCE, *reference)
        }
        Rsl::ChannelActivationAck { .. } => element_len::<Abis>(FRAME_NUMBER, &[0, 0]),
        Rsl::ChannelActivationNack { .. } | Rsl::ConnectionFailureIndication { .. } => {
            octet_len::<Abis>(CAUSE)
        }
        Rsl::HandoverDetection { delay, .. } => optional_octet_len::<Abis>(ACCESS_DELAY, *delay),
        Rsl::MeasurementResult { uplink, layer3, .. } => {
            let measured = octet_len::<Abis>(RESULT_NUMBER)
                + element_len::<Abis>(UPLINK_MEASUREMENTS, uplink.as_slice())
                + octet_len::<Abis>(POWER);
            match layer3 {
                None => measured,
                Some(layer3) => {
                    measured.saturating_add(element_len::<Abis>(LAYER3, layer3.as_slice()))
                }
            }
        }
        Rsl::RfChannelRelease { .. } | Rsl::RfChannelReleaseAck { .. } => 0,
    };
    others.saturating_add(octet_len::<Abis>(CHANNEL_NUMBER))
}

/// The identifiers of the elements that a message uses (TS 48.058 clause 8), in the order in which they are written: of one that
/// may be left out where the message has it.
pub fn used_identifiers<A: Allocator>(message: &Rsl<A>) -> &'static [u8]
    ensures identifiers { result.now ≡ map (λ element. element.0) (elements_of message.now) }
{
    match message {
        Rsl::DataRequest { .. } | Rsl::DataIndication { .. } => {
            &[CHANNEL_NUMBER, LINK_IDENTIFIER, LAYER3]
        }
        Rsl::ChannelActivation {
            reference: Some(_),
            ..
        } => {
            &[
                CHANNEL_NUMBER,
                ACTIVATION_TYPE,
                CHANNEL_MODE,
                HANDOVER_REFERENCE,
            ]
        }
        Rsl::ChannelActivation {
            reference: None,
            ..
        } => { &[CHANNEL_NUMBER, ACTIVATION_TYPE, CHANNEL_MODE] }
        Rsl::ChannelActivationAck { .. } => &[CHANNEL_NUMBER, FRAME_NUMBER],
        Rsl::ChannelActivationNack { .. } | Rsl::ConnectionFailureIndication { .. } => {
            &[CHANNEL_NUMBER, CAUSE]
        }
        Rsl::HandoverDetection { delay: Some(_), .. } => &[CHANNEL_NUMBER, ACCESS_DELAY],
        Rsl::HandoverDetection { delay: None, .. } => &[CHANNEL_NUMBER],
        Rsl::MeasurementResult {
            layer3: Some(_),
            ..
        } => {
            &[
                CHANNEL_NUMBER,
                RESULT_NUMBER,
                UPLINK_MEASUREMENTS,
                POWER,
                LAYER3,
            ]
        }
        Rsl::MeasurementResult { layer3: None, .. } => {
            &[CHANNEL_NUMBER, RESULT_NUMBER, UPLINK_MEASUREMENTS, POWER]
        }
        Rsl::RfChannelRelease { .. } | Rsl::RfChannelReleaseAck { .. } => &[CHANNEL_NUMBER],
    }
}
