//! What the fields of a message say, each of which stands once.
//!
//! A reader of one field answers the first of these that is so: the field is missing; it stands twice; its value is
//! another than it may be, and then the fault has the value and what it may be.
ghost use Rattle.std.specs.Prelude.{◌≡◌, ◌≢◌, ◌<◌, ◌≤◌, ◌∷◌, [], Ok, Err, IfOk, IfSome, MatchOption, MatchResult, length, option_map};
ghost use Rattle.std.specs.Result.{result_map_both};
ghost use Rattle.encoded_messages.specs.Words.{words_of, values_of};
ghost use Rattle.encoded_messages.specs.FieldFaults.{read_of, fault_of};
ghost use Rattle.encoded_messages.specs.Fields as said;
ghost use Rattle.encoded_messages.specs.Forms.{keys_of};
ghost use Rattle.encoded_messages.specs.declared.field_fault.FieldFault.TheVariants.{NoMemory};

use crate::field_fault::{Allowed, FieldFault};
use crate::form::MessageForm;
use crate::values::{cause_in, flag_in, number_in, octet_in, octets_in, traffic_channel_in};
use crate::words::{first_unknown, first_value};
use rsl_messages::Sub;
use std::alloc::Allocator;

/// Refuses the first word that is no field of a message of this form.
#[tactic(auto, unfolding(crate::specs::Fields::only_keys))]
pub(crate) fn only_fields<'a>(
    fields: &'a str,
    form: MessageForm<'static>,
) -> Result<(), FieldFault<'a>>
    ensures { read_of result ≡ said.only_keys (keys_of form.entry.fields.now) fields.now }
{
    if fields.is_empty() {
        return Ok(());
    }
    match first_unknown(form.fields, fields) {
        Some(word) => Err(FieldFault::Unknown(word)),
        None => Ok(()),
    }
}

/// The value of the first field with this key, and the fields behind it.
pub fn leading_value<'a>(fields: &'a str, key: &str) -> Option<(&'a str, &'a str)>
    ensures values { MatchOption result (values_of key.now (words_of fields.now) ≡ [])
        (λ found. values_of key.now (words_of fields.now) ≡
        found.0.now ∷ values_of key.now (words_of found.1.now)) }
    ensures less { IfSome result (λ found. length found.1.now < length fields.now) }
{
    first_value(fields, key)
}

/// The value of the only field with this key.
#[tactic(auto, unfolding(crate::specs::Fields::value_at))]
pub fn value<'a>(fields: &'a str, key: &'static str) -> Result<&'a str, FieldFault<'a>>
    ensures value { result_map_both (λ value. value.now) fault_of result ≡
        said.value_at key.now fields.now }
{
    let Some((value, rest)) = first_value(fields, key) else {
        return Err(FieldFault::Missing(key));
    };
    match first_value(rest, key) {
        Some(_) => Err(FieldFault::Twice(key)),
        None => Ok(value),
    }
}

/// The number of a field, which is at most this one.
#[tactic(auto, unfolding(crate::specs::Fields::number_at))]
pub fn number<'a>(fields: &'a str, key: &'static str, most: u16) -> Result<u16, FieldFault<'a>>
    ensures number { read_of result ≡ said.number_at most key.now fields.now }
    ensures most { IfOk result (λ number. number ≤ most) }
{
    let value = value(fields, key)?;
    let allowed = Allowed::Number(most);
    number_in(value, most).ok_or(FieldFault::Value {
        key,
        value,
        allowed,
    })
}

/// The octet of a field, in decimal, which is at most this one.
#[tactic(auto, unfolding(crate::specs::Fields::number_at))]
pub fn small<'a>(fields: &'a str, key: &'static str, most: u8) -> Result<u8, FieldFault<'a>>
    ensures number { read_of result ≡ said.number_at most key.now fields.now }
    ensures most { IfOk result (λ number. number ≤ most) }
{
    let value = value(fields, key)?;
    let allowed = Allowed::Number(u16::from(most));
    octet_in(value, most).ok_or(FieldFault::Value {
        key,
        value,
        allowed,
    })
}

/// The octet of a field, in decimal.
pub fn octet<'a>(fields: &'a str, key: &'static str) -> Result<u8, FieldFault<'a>>
    ensures number { read_of result ≡ said.number_at 255 key.now fields.now }
{
    small(fields, key, 255)
}

/// The cause of a field, in decimal, or in hexadecimal behind `0x`.
#[tactic(auto, unfolding(crate::specs::Fields::cause_at))]
pub fn cause<'a>(fields: &'a str, key: &'static str) -> Result<u8, FieldFault<'a>>
    ensures cause { read_of result ≡ said.cause_at key.now fields.now }
{
    let value = value(fields, key)?;
    let allowed = Allowed::Cause;
    cause_in(value).ok_or(FieldFault::Value {
        key,
        value,
        allowed,
    })
}

/// The octet of a field, in decimal, or `-`.
#[tactic(auto, unfolding(crate::specs::Fields::optional_octet_at))]
pub fn optional_octet<'a>(fields: &'a str, key: &'static str) -> Result<Option<u8>, FieldFault<'a>>
    ensures number { read_of result ≡ said.optional_octet_at key.now fields.now }
{
    let value = value(fields, key)?;
    if value == "-" {
        return Ok(None);
    }
    match octet_in(value, 255) {
        Some(octet) => Ok(Some(octet)),
        None => Err(FieldFault::Value {
            key,
            value,
            allowed: Allowed::OptionalOctet,
        }),
    }
}

/// The timeslot of a field, and which of its traffic channels it is.
#[tactic(auto, unfolding(crate::specs::Fields::traffic_channel_at))]
pub fn traffic_channel<'a>(fields: &'a str, key: &'static str) -> Result<(u8, Sub), FieldFault<'a>>
    ensures channel { read_of result ≡ said.traffic_channel_at key.now fields.now }
    ensures timeslot { IfOk result (λ channel. channel.0 < 8) }
{
    let value = value(fields, key)?;
    let allowed = Allowed::TrafficChannel;
    traffic_channel_in(value).ok_or(FieldFault::Value {
        key,
        value,
        allowed,
    })
}

/// The flag of a field.
#[tactic(auto, unfolding(crate::specs::Fields::flag_at))]
pub fn flag<'a>(fields: &'a str, key: &'static str) -> Result<bool, FieldFault<'a>>
    ensures flag { read_of result ≡ said.flag_at key.now fields.now }
{
    let value = value(fields, key)?;
    let allowed = Allowed::Flag;
    flag_in(value).ok_or(FieldFault::Value {
        key,
        value,
        allowed,
    })
}

/// The octets of a field, in hexadecimal, so many or more. `NoMemory`: memory was refused, and nothing is said of the text.
#[tactic(auto, unfolding(crate::specs::Fields::octets_at))]
pub fn octets<'a, A: Allocator>(
    alloc: A,
    fields: &'a str,
    key: &'static str,
    least: usize,
) -> Result<Vec<u8, A>, FieldFault<'a>>
    ensures octets { MatchResult result
        (λ octets. said.octets_at least key.now fields.now ≡ Ok octets.items)
        (λ fault. fault ≢ NoMemory →
        said.octets_at least key.now fields.now ≡ Err (fault_of fault)) }
{
    let value = value(fields, key)?;
    match octets_in(alloc, value, least) {
        Ok(Some(octets)) => Ok(octets),
        Ok(None) => Err(FieldFault::Value {
            key,
            value,
            allowed: Allowed::Octets(least),
        }),
        Err(_) => Err(FieldFault::NoMemory),
    }
}

/// The octets of a field, in hexadecimal, so many or more, or `-`. `NoMemory` as of [`octets`].
#[tactic(auto, unfolding(crate::specs::Fields::optional_octets_at))]
pub fn optional_octets<'a, A: Allocator>(
    alloc: A,
    fields: &'a str,
    key: &'static str,
    least: usize,
) -> Result<Option<Vec<u8, A>>, FieldFault<'a>>
    ensures octets { MatchResult result
        (λ found. said.optional_octets_at least key.now fields.now ≡
        Ok (option_map (λ octets. octets.items) found))
        (λ fault. fault ≢ NoMemory →
        said.optional_octets_at least key.now fields.now ≡ Err (fault_of fault)) }
{
    let value = value(fields, key)?;
    if value == "-" {
        return Ok(None);
    }
    match octets_in(alloc, value, least) {
        Ok(Some(octets)) => Ok(Some(octets)),
        Ok(None) => Err(FieldFault::Value {
            key,
            value,
            allowed: Allowed::OptionalOctets(least),
        }),
        Err(_) => Err(FieldFault::NoMemory),
    }
}
