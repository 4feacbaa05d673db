//! What a person is shown on a screen: texts without what would steer a terminal ([`Escaped`]), why a file can't be read or
//! written ([`Reason`]), and how far a long piece of work is.
//!
//! Of the writers that stand between such work and its output,
//!
//! - [`Progress`] says on a terminal how far the work is, where its output goes elsewhere;
//! - [`Erasing`] says so on the terminal that shows the output too;
//! - [`Keeping`] keeps why the output couldn't be written.
//!
//! What is written to them passes on as it is.
#![tactic(auto)]

mod erasing;
mod escaped;
mod fault;
mod keeping;
mod laws;
mod progress;
mod reason;
mod tally;

pub use erasing::Erasing;
pub use escaped::{Escaped, end_of};
pub use fault::PrintFault;
pub use keeping::Keeping;
pub use laws::lines_are_counted;
pub use progress::Progress;
pub use reason::Reason;
pub use tally::Counted;
