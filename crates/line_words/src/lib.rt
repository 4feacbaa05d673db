//! The words after a line of a trace, for people: the call, the message in words, the names of causes and refusals. Also the
//! lines that say what a book holds.
//!
//! The parts are joined by `; `. The first is the call, or `no call` if none is known.
#![tactic(auto)]

mod calls;
mod causes;
mod content;
mod failures;
mod held;
mod names;
mod passed;
mod rowless;
mod state;
mod words;

pub use calls::Calls;
pub use content::{Content, Place, content_of};
pub use failures::failure_name;
pub use names::message_name;
pub use passed::{Passed, passed_on};
pub use state::StateLines;
pub use words::{print_ignored, print_out_of_stage, print_words};
