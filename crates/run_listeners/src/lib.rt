//! Listeners, which are told what comes of the lines of a script, or of lines as they come: turn by turn (`Turn`), with the
//! book as it is then. One listener prints the trace (`Printing`), one prints it line by line (`LivePrinting`). This crate
//! needs no controller. Views of runs depend on it, and not on the crate that runs scripts.
#![tactic(auto)]

mod fault;
mod listener;
mod live_listener;
mod turn;
mod unmet;

pub use fault::LabFault;
pub use listener::{Listener, Printing, print_no_site, print_unreadable};
pub use live_listener::{LiveListener, LivePrinting};
pub use turn::{Answer, Source, Turn};
pub use unmet::Unmet;
