//! What the lines of runs tell, counted.
//!
//! A trace is a list of lines. A line tells something that is counted or not (`told`): a call is opened or cleared, a channel's
//! activation is asked for or confirmed, an attempt at handover opens, is completed, or is undone for a cause, no channel is
//! free, a message comes or is sent, octets are no message. What is counted has a place: the cell that it is about, and the cell
//! that it leads to, where a line tells one (`report`). Each kind in each cell is counted as the lines come (`counts`), so that
//! nothing has to be kept of them (`summary`) but the names of messages (`names`).
#![tactic(auto)]

mod counts;
mod names;
mod report;
mod summary;
mod told;

pub use names::Names;
pub use report::{Report, What};
pub use summary::Summary;
pub use told::{Cause, Told, Way, asked};
