//! Why a line of a script can't be read: which of its words is wrong, and what is allowed in its place.
//!
//! Each line has a form: a keyword, followed by words of certain kinds. The first word gives the form. Then the other words
//! are looked at in order; the first that is wrong is the reason.
#![tactic(auto)]

mod reasons;
mod text;

pub use lab_script::forms::{Form, Slot};
pub use reasons::{Fault, Reason, line_reason, script_reason};
pub use text::LoneReason;
