//! Radio resource messages (TS 44.018 sections 9.1 and 10).
#![tactic(auto)]

mod fault;
mod kind;
pub mod laws;
mod message;
mod reading;
mod writing;

pub use fault::RrFault;
pub use message::Rr;
pub use reading::decode;
pub use writing::{encode, encode_into};
