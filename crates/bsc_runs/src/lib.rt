//! A controller of a site, and the links of its stations beside it: turn by turn.
//!
//! [`Links`] has both. In a turn ([`Links::give`]) the controller handles one input, and the links follow: timers of calls,
//! failures that were kept, and each channel by its row (docs/LINKS.md). What the controller is owed after that is given to
//! it in another's place, one input after the other ([`Links::next_in_place`]).
#![tactic(auto)]

mod heard;
mod in_place;
mod links;
mod sent;
mod steps;

pub use in_place::Next;
pub use links::{Links, LinksFault};
pub use steps::Acts;
