//! A controller that is given its lines one by one, as they come. Each line is handled at once, and a listener is told what
//! came of it before the next line is read.
//!
//! A line is read by the rules of scripts (`line`). A line that can't be read changes nothing; its number and the reason are
//! told (`unreadable`). A live controller is a controller over its book, and the simulators around it once a line has
//! attached them (`taking`). Turns aren't kept. It takes the lines of a reader, which may give them in pieces, to the end
//! (`lines`).
#![tactic(auto)]

mod fault;
mod line;
mod lines;
mod taking;
mod unreadable;

pub use fault::LiveFault;
pub use lines::{LineReader, Rules, live_run};
pub use taking::Live;
pub use unreadable::{Unreadable, unreadable_of};
