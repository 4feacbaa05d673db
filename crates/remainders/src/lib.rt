//! What stays of a list of events without attempts at handover that were undone: which events stay, which choices would come
//! out otherwise then, and what differs.
//!
//! A choice is no event: a channel that a row of the procedure took because it was free, or that it found none. So what is
//! proved of events says nothing of choices, and they are told beside.
#![tactic(auto)]

mod choices;
mod differences;
mod kept;
mod told;

pub use choices::{Choice, other_choices};
pub use differences::print_difference;
pub use kept::kept_places;
pub use told::{AskedLines, choices_in, print_choices, taken_in};
