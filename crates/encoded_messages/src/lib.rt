//! Messages from words: the name and the fields that a message is printed as, read and written in octets.
//!
//! A text has words with one blank between any two: those of the message's name, and behind it its fields, `key=value`
//! each, in any order. Numbers are in decimal, flags 0 or 1, octets two hexadecimal digits each, in either case, and `-`
//! stands for what is absent. A cause is an octet in decimal, or `0x` and two hexadecimal digits. A timeslot's number is its
//! full-rate channel; with `/0` or `/1` behind it, one of its half-rate channels. Fields are handed on as the text behind the
//! name. Ours, of no standard.
//!
//! A message on Abis that has layer 3 may have it in words: `;`, a blank and a radio resource message stand behind its fields, in
//! place of the field `layer3`, as in `DATA INDICATION tn=1 link=0; HANDOVER COMPLETE cause=0`. If both are wrong, the fault is
//! that of the words behind the `;`.
//!
//! Each message's name and fields stand once, as its form: a `const` of `abis`, `a` or `rr`. By it a message is read, what is
//! wrong with a text is said, messages are printed (`visit_abis`, `visit_a`, `visit_rr`) and listed (`ABIS_FORMS`, `A_FORMS`,
//! `RR_FORMS`).
//!
//! Where a text says no message that can be written, the fault is the first of these: the name is none of the link's; a
//! word behind it is no field of the message, where the first such word is named; a field, in the order of the form, is
//! missing, stands twice, or has a value that it may not have, where of several `n` the first such is named; there are
//! other than so many `n` as `count` says; the message is too long.
#![tactic(auto)]

mod a;
mod abis;
mod checked;
mod fault;
mod field_fault;
mod fields;
mod form;
mod layer3;
mod name;
mod rr;
mod values;
mod visit;
mod words;

pub use a::{A_FORMS, a_name, encode_a, says_a, visit_a};
pub use abis::{ABIS_FORMS, abis_name, encode_abis, says_abis, visit_abis};
pub use checked::{a_fault, abis_fault};
pub use fault::MessageFault;
pub use field_fault::{Allowed, FieldFault, Shown};
pub use fields::{
    flag, leading_value, number, octet, octets, optional_octet, optional_octets, small,
    traffic_channel, value,
};
pub use form::{FieldForm, MessageForm};
pub use name::name_and_fields;
pub use rr::{RR_FORMS, encode_rr, rr_name, says_rr, visit_rr};
pub use values::{cell_in, neighbour_in};
pub use visit::{FieldValue, Fields};
pub use words::first_part;
