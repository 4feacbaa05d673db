//! Messages between a base station controller and a base station, on Abis (TS 48.058), beyond those of `rsl_messages`.
//!
//! [`read_head`] says which message of a station octets are, and which channel it is about, even if nothing else here reads
//! the message. [`decode`] reads a [`StationMessage`], [`encode_into`] writes one. Elements and faults are those of
//! `rsl_messages`.
#![tactic(auto)]

mod elements;
mod head;
mod laws;
mod message;
mod reading;
mod writing;

pub use head::{Head, MessageType, read_head};
pub use laws::{canonical_is_text, heads_are_unique, reading_is_unique};
pub use message::StationMessage;
pub use reading::decode;
pub use rsl_messages::{ChanBits, RslFault, Sub};
pub use writing::{encode_into, fits};
