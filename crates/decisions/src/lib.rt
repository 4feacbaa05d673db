//! What the last reports of a mobile make of each cell, and why: which cell a report names, what is asked of its sum, and what
//! the sum lacks. Which cells are candidates is said in `ho_candidates`: a cell whose sum lacks nothing is one, once the window
//! is full.
#![tactic(auto)]

mod judged;
mod named;

pub use judged::{Judged, Lack, LeastSums, asked_of, judge};
pub use named::{Named, named_by};
