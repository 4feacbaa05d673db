//! Messages on Abis whose layer 3 stands in words behind them: `DATA INDICATION tn=1 link=0; HANDOVER COMPLETE cause=0`.
ghost use Rattle.std.specs.Prelude.{◌≡◌, ◌≤◌, ℕ, List, length};
ghost use Rattle.encoded_messages.specs.Fields.{only_keys};
ghost use Rattle.encoded_messages.specs.FieldFaults.{read_of, Answers};
ghost use Rattle.encoded_messages.specs.Faults as faults;
ghost use Rattle.encoded_messages.specs.Abis as said;

use crate::abis::{
    DATA_INDICATION, DATA_REQUEST, LINK, MEASUREMENT_RESULT, NUMBER, POWER, TN, UPLINK, channel,
};
use crate::fault::MessageFault;
use crate::field_fault::FieldFault;
use crate::fields::only_fields;
use crate::form::MessageForm;
use rsl_messages::{ChanBits, Octets, Rsl};
use std::alloc::Allocator;

/// What stands in front of the words of layer 3: the messages that have one, without that field.
const REQUEST: MessageForm<'static> = MessageForm {
    name: "DATA REQUEST",
    fields: &[TN, LINK],
};

const INDICATION: MessageForm<'static> = MessageForm {
    name: "DATA INDICATION",
    fields: &[TN, LINK],
};

const MEASUREMENT: MessageForm<'static> = MessageForm {
    name: "MEASUREMENT RESULT",
    fields: &[TN, NUMBER, UPLINK, POWER],
};

pub(crate) const FRONT_FORMS: &[MessageForm<'static>] = &[REQUEST, INDICATION, MEASUREMENT];

/// What DATA REQUEST and DATA INDICATION have beside their layer 3.
#[tactic(auto, unfolding(crate::specs::Abis::data_head))]
fn data_head(fields: &str) -> Result<(ChanBits, u8), FieldFault<'_>>
    ensures { read_of result ≡ said.data_head fields.now }
{
    only_fields(fields, REQUEST)?;
    let channel = channel(fields)?;
    let link = LINK.octet(fields)?;
    Ok((channel, link))
}

/// Refuses a word that is no field of MEASUREMENT RESULT, or is its layer 3.
#[tactic(auto, unfolding(crate::specs::Abis::measurement_keys_with))]
fn only_in_measurement(fields: &str) -> Result<(), FieldFault<'_>>
    ensures { read_of result ≡ only_keys said.measurement_keys_with fields.now }
{
    only_fields(fields, MEASUREMENT)
}

/// MEASUREMENT RESULT with this layer 3.
#[tactic(auto, unfolding(crate::specs::Abis::measurement_with))]
fn measurement_with<A: Allocator + Copy>(
    alloc: A,
    fields: &str,
    layer3: Vec<u8, A>,
) -> Result<Rsl<A>, FieldFault<'_>>
    ensures { Answers result (said.measurement_with layer3.items fields.now) }
{
    only_in_measurement(fields)?;
    let channel = channel(fields)?;
    let number = NUMBER.octet(fields)?;
    let uplink = Octets::from_vec(UPLINK.octets(alloc, fields)?);
    let power = POWER.octet(fields)?;
    Ok(Rsl::MeasurementResult {
        channel,
        number,
        uplink,
        power,
        layer3: Some(Octets::from_vec(layer3)),
    })
}

/// The message of a name and its fields with this layer 3.
#[tactic(auto, unfolding(crate::specs::Abis::message_with))]
pub(crate) fn message_with<'a, A: Allocator + Copy>(
    alloc: A,
    name: &'a str,
    fields: &'a str,
    layer3: Vec<u8, A>,
) -> Result<Rsl<A>, MessageFault<'a>>
    ensures { faults.Answers result (said.message_with name.now fields.now layer3.items) }
{
    if name == DATA_REQUEST.name {
        let (channel, link) = data_head(fields)?;
        let layer3 = Octets::from_vec(layer3);
        Ok(Rsl::DataRequest {
            channel,
            link,
            layer3,
        })
    } else if name == DATA_INDICATION.name {
        let (channel, link) = data_head(fields)?;
        let layer3 = Octets::from_vec(layer3);
        Ok(Rsl::DataIndication {
            channel,
            link,
            layer3,
        })
    } else if name == MEASUREMENT_RESULT.name {
        Ok(measurement_with(alloc, fields, layer3)?)
    } else {
        Err(MessageFault::NoLayer3(name))
    }
}

/// Whether fields say a MEASUREMENT RESULT that can be written with any layer 3 of a radio resource message.
#[tactic(auto, unfolding(crate::specs::Abis::measurement_with))]
fn says_measurement_with(fields: &str) -> bool
    ensures { (layer3 : List ℕ) → length layer3 ≤ 255 → result ≡
        said.can_be_written_of (said.measurement_with {A = Unit} layer3 fields.now) }
{
    only_in_measurement(fields).is_ok()
        && channel(fields).is_ok()
        && NUMBER.octet(fields).is_ok()
        && POWER.octet(fields).is_ok()
        && match UPLINK.octets_len(fields) {
            Some(uplink) => uplink <= 255,
            None => false,
        }
}

/// Whether a name and its fields say a message that can be written with any layer 3 of a radio resource message. Takes no memory.
#[tactic(auto, using(crate::proofs::AbisLemmas::written_of_fields, crate::proofs::AbisLemmas::request_written, crate::proofs::AbisLemmas::indication_written), unfolding(crate::specs::Abis::message_with))]
pub(crate) fn says_with(name: &str, fields: &str) -> bool
    ensures { (layer3 : List ℕ) → length layer3 ≤ 255 → result ≡
        said.can_be_written_in (said.message_with {A = Unit} name.now fields.now layer3) }
{
    if name == DATA_REQUEST.name || name == DATA_INDICATION.name {
        data_head(fields).is_ok()
    } else {
        name == MEASUREMENT_RESULT.name && says_measurement_with(fields)
    }
}
