//! Events of a radio book as text: as a trace shows them, and read back.
#![tactic(auto)]

pub mod laws;
pub mod reading;
pub mod writing;
