//! A site as it was read, cell by cell, what is allowed in its file and surely meant otherwise, and where the first mistake of
//! a file is that gives no site; and the text of a site that two words describe.
#![tactic(auto)]

mod cells;
mod document;
mod peer;
mod reason;
mod uniform;
mod warnings;

pub use cells::print_cells;
pub use document::{Place, entries};
pub use peer::print_peer_warnings;
pub use reason::say_reason;
pub use uniform::{Timeslots, UniformSite};
pub use warnings::print_warnings;
