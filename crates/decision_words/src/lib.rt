//! Lines about the decision after each report of a call that has no attempt at handover.
//!
//! What the controller asked of its book shows for which call a report counts, and what was tried. The last reports of each
//! call are kept here once more, in windows like the controller's.
#![tactic(auto)]

mod kept;
mod last;
mod noted;
mod told;
mod words;

pub use told::Decisions;
