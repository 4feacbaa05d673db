//! What is only printed: the lines of a trace, why octets are no message, and messages in words, whose names and fields are
//! those of `encoded_messages`.
//!
//! A field of a message in words is a blank and `field=value`. Numbers are in decimal, flags are 0 or 1, octets are two
//! small hexadecimal digits each, what is absent is `-`, and a list without octets has nothing after `=`. A half-rate channel
//! has `/0` or `/1` behind its timeslot.
#![tactic(auto)]

pub mod abis;
pub mod bad;
pub mod bssmap;
mod fields;
pub mod rr;
mod text;
pub mod trace;
