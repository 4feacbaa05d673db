//! The events in the lines of a trace, each with what the book replied (`entries`), and the text of a reply (`replies`).
#![tactic(auto)]

pub mod entries;
pub mod replies;
