//! The cells that a mobile may be handed over to, by its measurement reports. The rule for candidates, and their order, are
//! this project's own.
#![tactic(auto)]

pub mod laws;
mod listed;
mod looked;

pub use listed::Candidate;
pub use looked::candidates;
