//! The files of a journal in its folder: the locked folder (`folder`), the list of its files (`listing`), and the journal
//! that is open for writing (`journal`).
//!
//! No clause says what a file system does. Clauses say which octets are handed to a file, and that none is forgotten.
#![tactic(auto)]

mod folder;
mod journal;
mod listing;
mod locking;
mod lost;
mod names;

pub use folder::Folder;
pub use journal::{BeginFault, Journal};
pub use listing::Listing;
pub use locking::Locking;
pub use lost::{Lost, WhenLost};
