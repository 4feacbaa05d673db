//! The forms of messages in words, by which they are read, printed and listed.
ghost use Rattle.std.specs.Prelude.{◌≡◌, ◌≢◌, ◌≤◌, ◌<◌, Ok, Err, IfOk, MatchResult, length, option_map};
ghost use Rattle.std.specs.Result.{result_ok};
ghost use Rattle.encoded_messages.specs.FieldFaults.{read_of, fault_of};
ghost use Rattle.encoded_messages.specs.Fields as said;
ghost use Rattle.encoded_messages.specs.Forms as form;
ghost use Rattle.encoded_messages.specs.declared.field_fault.Allowed.TheVariants as may;
ghost use Rattle.encoded_messages.specs.declared.field_fault.FieldFault.TheVariants.{NoMemory};

use crate::field_fault::{Allowed, FieldFault};
use crate::fields::{
    cause, flag, number, octets, optional_octet, optional_octets, small, traffic_channel, value,
};
use crate::values::octets_len;
use rsl_messages::Sub;
use std::alloc::Allocator;

/// A field of a message: its key, and what its value may be.
#[derive(Clone, Copy, Debug, PartialEq, Eq)]
pub struct FieldForm<'s>(pub &'s str, pub Allowed);

/// A message in words: its name, and its fields in their order.
#[derive(Clone, Copy, Debug, PartialEq, Eq)]
pub struct MessageForm<'s> {
    pub name: &'s str,
    pub fields: &'s [FieldForm<'s>],
}

impl FieldForm<'static> {
    /// The number of this field.
    pub(crate) fn number(self, fields: &str) -> Result<u16, FieldFault<'_>>
        requires { form.IsNumber self.1 }
        ensures number { read_of result ≡
            said.number_at (form.most_of self.entry.1) self.entry.0.now fields.now }
        ensures most { IfOk result (λ number. number ≤ form.most_of self.entry.1) }
    {
        match self.1 {
            Allowed::Number(most) => number(fields, self.0, most),
            _ => unreachable!(),
        }
    }

    /// The number of this field, which is an octet.
    pub(crate) fn octet(self, fields: &str) -> Result<u8, FieldFault<'_>>
        requires number { form.IsNumber self.1 }
        requires octet { form.most_of self.1 < 256 }
        ensures number { read_of result ≡
            said.number_at (form.most_of self.entry.1) self.entry.0.now fields.now }
        ensures most { IfOk result (λ number. number ≤ form.most_of self.entry.1) }
    {
        match self.1 {
            Allowed::Number(most) => small(fields, self.0, most as u8),
            _ => unreachable!(),
        }
    }

    /// The cause of this field.
    pub(crate) fn cause(self, fields: &str) -> Result<u8, FieldFault<'_>>
        requires { self.1 ≡ may.Cause }
        ensures { read_of result ≡ said.cause_at self.entry.0.now fields.now }
    {
        cause(fields, self.0)
    }

    /// The octet of this field, or `-`.
    pub(crate) fn optional_octet(self, fields: &str) -> Result<Option<u8>, FieldFault<'_>>
        requires { self.1 ≡ may.OptionalOctet }
        ensures { read_of result ≡ said.optional_octet_at self.entry.0.now fields.now }
    {
        optional_octet(fields, self.0)
    }

    /// The timeslot of this field, and which of its traffic channels it is.
    pub(crate) fn traffic_channel(self, fields: &str) -> Result<(u8, Sub), FieldFault<'_>>
        requires { self.1 ≡ may.TrafficChannel }
        ensures channel { read_of result ≡ said.traffic_channel_at self.entry.0.now fields.now }
        ensures timeslot { IfOk result (λ channel. channel.0 < 8) }
    {
        traffic_channel(fields, self.0)
    }

    /// The flag of this field.
    pub(crate) fn flag(self, fields: &str) -> Result<bool, FieldFault<'_>>
        requires { self.1 ≡ may.Flag }
        ensures { read_of result ≡ said.flag_at self.entry.0.now fields.now }
    {
        flag(fields, self.0)
    }

    /// The octets of this field.
    pub(crate) fn octets<A: Allocator>(
        self,
        alloc: A,
        fields: &str,
    ) -> Result<Vec<u8, A>, FieldFault<'_>>
        requires { form.IsOctets self.1 }
        ensures { MatchResult result
            (λ octets. said.octets_at (form.least_of self.entry.1) self.entry.0.now fields.now ≡
            Ok octets.items)
            (λ fault. fault ≢ NoMemory →
            said.octets_at (form.least_of self.entry.1) self.entry.0.now fields.now ≡
            Err (fault_of fault)) }
    {
        match self.1 {
            Allowed::Octets(least) => octets(alloc, fields, self.0, least),
            _ => unreachable!(),
        }
    }

    /// The octets of this field, or `-`.
    pub(crate) fn optional_octets<A: Allocator>(
        self,
        alloc: A,
        fields: &str,
    ) -> Result<Option<Vec<u8, A>>, FieldFault<'_>>
        requires { form.IsOptionalOctets self.1 }
        ensures { MatchResult result
            (λ found.
            said.optional_octets_at (form.least_of self.entry.1) self.entry.0.now fields.now ≡
            Ok (option_map (λ octets. octets.items) found))
            (λ fault. fault ≢ NoMemory →
            said.optional_octets_at (form.least_of self.entry.1) self.entry.0.now fields.now ≡
            Err (fault_of fault)) }
    {
        match self.1 {
            Allowed::OptionalOctets(least) => optional_octets(alloc, fields, self.0, least),
            _ => unreachable!(),
        }
    }

    /// How many octets this field has; nothing if it isn't as it may be. Takes no memory.
    #[tactic(auto, unfolding(crate::specs::Fields::octets_at))]
    pub(crate) fn octets_len(self, fields: &str) -> Option<usize>
        requires { form.IsOctets self.1 }
        ensures { result ≡ option_map (λ octets. length octets)
            (result_ok (said.octets_at (form.least_of self.entry.1) self.entry.0.now fields.now)) }
    {
        let Ok(value) = value(fields, self.0) else {
            return None;
        };
        match self.1 {
            Allowed::Octets(least) => octets_len(value, least),
            _ => unreachable!(),
        }
    }

    /// How many octets this field has, or that it is `-`; nothing if it isn't as it may be. Takes no memory.
    #[tactic(auto, unfolding(crate::specs::Fields::optional_octets_at))]
    pub(crate) fn optional_octets_len(self, fields: &str) -> Option<Option<usize>>
        requires { form.IsOptionalOctets self.1 }
        ensures { result ≡ option_map (λ found. option_map (λ octets. length octets) found)
            (result_ok (said.optional_octets_at (form.least_of self.entry.1) self.entry.0.now fields.now)) }
    {
        let Ok(value) = value(fields, self.0) else {
            return None;
        };
        if value == "-" {
            return Some(None);
        }
        match self.1 {
            Allowed::OptionalOctets(least) => Some(Some(octets_len(value, least)?)),
            _ => unreachable!(),
        }
    }
}
