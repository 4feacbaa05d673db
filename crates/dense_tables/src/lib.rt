//! Tables in which everything is found by its place: the states of a site's channels, what is kept of calls, and the calls
//! of handover references. Contracts see each as a finite map. Memory is asked for where a table is made or copied and
//! where a call is added, and nowhere else.
#![tactic(auto)]

mod blocks;
pub mod calls;
pub mod channels;
mod references;

pub use references::{Reference, ReferenceRows};
