//! Which events lead from the empty book of a site to a book: first the channels whose release is awaited, and then call by
//! call. So a book can be written down as events, and made again by them.
#![tactic(auto)]

mod attempts;
mod calls;
mod listing;

pub use listing::{OpeningFault, events_to};
