//! What is wrong with a message in words, found without memory. No clause says what: it is shown by tests that `encode_abis` and
//! `encode_a` say the same.
use crate::a::{A_FORMS, says_a};
use crate::abis::{ABIS_FORMS, says_abis};
use crate::fault::MessageFault;
use crate::field_fault::{Allowed, FieldFault};
use crate::fields::{only_fields, small, value};
use crate::form::{FieldForm, MessageForm};
use crate::layer3::FRONT_FORMS;
use crate::name::name_and_fields;
use crate::rr::{RR_FORMS, says_rr};
use crate::values::{
    cause_in, cell_in, flag_in, neighbour_in, number_in, octet_in, octets_len, traffic_channel_in,
};
use crate::words::{around_semicolon, key_and_value};

/// Whether a value is as it may be.
fn is_allowed(allowed: Allowed, value: &str) -> bool {
    match allowed {
        Allowed::Number(most) => number_in(value, most).is_some(),
        Allowed::Cause => cause_in(value).is_some(),
        Allowed::OptionalOctet => value == "-" || octet_in(value, 255).is_some(),
        Allowed::TrafficChannel => traffic_channel_in(value).is_some(),
        Allowed::Flag => flag_in(value).is_some(),
        Allowed::Octets(least) => octets_len(value, least).is_some(),
        Allowed::OptionalOctets(least) => value == "-" || octets_len(value, least).is_some(),
        Allowed::Cell => cell_in(value).is_some(),
        Allowed::Cells => value.split(',').all(|part| cell_in(part).is_some()),
        Allowed::Neighbour => neighbour_in(value).is_some(),
    }
}

/// What is wrong with the neighbours among fields, of which any number may stand.
fn neighbour_fault<'a>(key: &'static str, fields: &'a str) -> Option<FieldFault<'a>> {
    let word = fields.split(' ').find(|word| match key_and_value(word) {
        Some((found, value)) => found == key && neighbour_in(value).is_none(),
        None => false,
    })?;
    let (_, value) = key_and_value(word)?;
    Some(FieldFault::Value {
        key,
        value,
        allowed: Allowed::Neighbour,
    })
}

/// What is wrong with a field.
fn field_fault<'a>(field: FieldForm<'static>, fields: &'a str) -> Option<FieldFault<'a>> {
    let FieldForm(key, allowed) = field;
    if allowed == Allowed::Neighbour {
        return neighbour_fault(key, fields);
    }
    match value(fields, key) {
        Ok(value) if is_allowed(allowed, value) => None,
        Ok(value) => Some(FieldFault::Value {
            key,
            value,
            allowed,
        }),
        Err(fault) => Some(fault),
    }
}

/// The first thing that is wrong with the fields of a message of this form.
fn fields_fault<'a>(form: MessageForm<'static>, fields: &'a str) -> Option<FieldFault<'a>> {
    if let Err(fault) = only_fields(fields, form) {
        return Some(fault);
    }
    for field in form.fields {
        if let Some(fault) = field_fault(*field, fields) {
            return Some(fault);
        }
    }
    None
}

/// The first thing that is wrong with a text that is to say one of these messages, but that it is too long.
fn short_fault<'a>(
    forms: &'static [MessageForm<'static>],
    text: &'a str,
) -> Option<MessageFault<'a>> {
    let (name, fields) = name_and_fields(text);
    let Some(form) = forms.iter().find(|form| form.name == name) else {
        return Some(MessageFault::Name(name));
    };
    match fields_fault(*form, fields) {
        Some(fault) => Some(MessageFault::Field(fault)),
        None => None,
    }
}

/// How many neighbours the fields of a MEASUREMENT REPORT have, where its count says another number.
fn neighbours_fault<'a>(text: &'a str) -> Option<MessageFault<'a>> {
    if says_rr(text) {
        return None;
    }
    let (_, fields) = name_and_fields(text);
    let count = small(fields, "count", 7).ok()?;
    let found = fields
        .split(' ')
        .filter(|word| word.starts_with("n="))
        .count();
    Some(MessageFault::Neighbours { count, found })
}

/// The first thing that is wrong with a text that is to say the layer 3 of a message; nothing if it says one.
fn layer3_fault(text: &str) -> Option<MessageFault<'_>> {
    match short_fault(RR_FORMS, text) {
        Some(MessageFault::Name(name)) => Some(MessageFault::Layer3(name)),
        Some(fault) => Some(fault),
        None => neighbours_fault(text),
    }
}

/// The first thing that is wrong with a text in front of a layer 3; nothing if it may stand there.
fn front_fault(text: &str) -> Option<MessageFault<'_>> {
    match short_fault(FRONT_FORMS, text) {
        Some(MessageFault::Name(name)) => Some(MessageFault::NoLayer3(name)),
        fault => fault,
    }
}

/// The first thing that is wrong with a text that is to say a message on Abis, but that it is too long.
fn parts_fault(text: &str) -> Option<MessageFault<'_>> {
    match around_semicolon(text) {
        Some((front, words)) => layer3_fault(words).or_else(|| front_fault(front)),
        None => short_fault(ABIS_FORMS, text),
    }
}

/// The first thing that is wrong with a text that is to say a message on Abis; nothing if it says one.
pub fn abis_fault(text: &str) -> Option<MessageFault<'_>> {
    match parts_fault(text) {
        Some(fault) => Some(fault),
        None if says_abis(text) => None,
        None => Some(MessageFault::TooLong),
    }
}

/// What is wrong with a text as a message on A.
pub fn a_fault(text: &str) -> Option<MessageFault<'_>> {
    match short_fault(A_FORMS, text) {
        Some(fault) => Some(fault),
        None if says_a(text) => None,
        None => Some(MessageFault::TooLong),
    }
}
