//! The desk at which events are judged: the radio book, the book that it opened with, and every event that was asked of
//! it since, with its reply. It is what callers on threads share under one lock; each has a seat. Whether two replies are
//! the same is told here too.
#![tactic(auto)]

pub mod audit;
pub mod desk;
pub mod entry;
mod followers;
mod room;
mod rows;
pub mod seat;
pub mod tally;
