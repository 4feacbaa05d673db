//! Messages between a base station controller and a switching centre, on A (BSSMAP, TS 48.008).
//!
//! A message is a discriminator, a length octet, a type and then elements. [`decode`] reads one,
//! [`encode`] and [`encode_into`] write one, and [`fits`] says whether a value can be written.
#![tactic(auto)]

pub mod causes;
mod cells;
mod elements;
mod fault;
mod head;
mod laws;
mod message;
mod reading;
mod table;
mod values;
mod writing;

pub use cells::CellList;
pub use elements::used_identifiers;
pub use fault::BssmapFault;
pub use laws::{canonical_is_text, reading_is_unique};
pub use message::{Bssmap, CellId, Classmark, target_of};
pub use octet_elements::Octets;
pub use reading::decode;
pub use table::InterfaceA;
pub use writing::{encode, encode_into, encode_request_ack_into, encode_required_into, fits};
