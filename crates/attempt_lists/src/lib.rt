//! Takes each undone attempt at handover out of a trace, one at a time, and prints a line for each (`list`), of one
//! controller or of each of two (`sides`). The other events are named by their lines (`ranges`).
#![tactic(auto)]

mod list;
mod ranges;
mod sides;

pub use list::list_run;
pub use sides::{first_unmarked, is_of_two, side_text};
