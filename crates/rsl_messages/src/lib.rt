//! Messages between a base station controller and a base station, on Abis (TS 48.058).
//!
//! A message is a discriminator, a type and then elements. [`decode`] reads one, [`encode`] and
//! [`encode_into`] write one, and [`fits`] says whether a value can be written.
#![tactic(auto)]

mod elements;
mod fault;
mod head;
mod laws;
mod message;
mod reading;
mod table;
pub mod values;
mod writing;

pub use elements::used_identifiers;
pub use fault::RslFault;
pub use laws::{canonical_is_text, reading_is_unique};
pub use message::{ChanBits, Rsl};
pub use octet_elements::{Octets, Sub};
pub use reading::decode;
pub use table::Abis;
pub use writing::{encode, encode_activation_into, encode_data_request_into, encode_into, fits};
