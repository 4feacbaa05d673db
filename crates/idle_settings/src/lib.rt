//! What a script gives and comes to nothing: what it asks of simulated stations and mobiles, where the same comes without it, or of a
//! channel that the site lacks; what it asks of a controller's book, in vain; and inputs of which nothing could come.
//!
//! No clause says which these are: that is shown by tests. Of `let`, `arrive` and `restart`, which set back, nothing is said.
#![tactic(auto)]

mod found;
mod inputs;
mod lack;
mod lines;
mod played;

pub use found::{Cause, Found, Idle, idle_settings};
pub use lack::Lack;
pub use played::{Taken, Texts};
