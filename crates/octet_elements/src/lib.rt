//! Elements: an identifier octet and a value, one after the other in a message.
//!
//! A message on Abis (TS 48.058 clause 9.3) or on A (TS 48.008 clause 3.2.2) is a head and then
//! elements. How many octets an element's value has is fixed for its identifier, or stands in a
//! length of one octet or of two before the value. A codec gives its table of elements
//! ([`ElementTable`]); [`Found::read`] reads the octets once and keeps the values that its messages
//! use, [`values`] says what a value holds, and [`append_element`] writes. Where fields of a
//! value aren't whole octets, [`BitReader`] and [`BitWriter`] read and write them bit by bit.
//! [`channel_type`] and [`sub_of_type`] are the one table of channel types, for all elements that name a traffic channel.
#![tactic(auto)]

mod bits;
mod channel_types;
mod element;
mod form;
mod found;
mod laws;
mod octets;
pub mod values;
mod write;

pub use bits::{BitReader, BitWriter};
pub use channel_types::{channel_type, sub_of_type};
pub use element::{Leading, leading_element};
pub use form::{ElementTable, Form, PLACES};
pub use found::Found;
pub use laws::{channel_types_are_unique, spelling_is_unique, split_is_unique};
pub use octets::Octets;
pub use timeslots::Sub;
pub use values::ValueFault;
pub use write::{
    append_element, append_octet, append_octets, append_optional_octet, append_presence,
    element_len, make_room, octet_len, optional_octet_len, presence_len,
};
