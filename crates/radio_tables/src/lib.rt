//! The tables of a radio book: channels with their states, what is kept of calls, and handover references, behind one trait.
#![tactic(auto)]

mod dense;
mod entry;
pub mod kinds;
pub mod maps;
mod stage;
pub mod tables;
mod trees;

pub use dense::DenseTables;
pub use entry::CallEntry;
