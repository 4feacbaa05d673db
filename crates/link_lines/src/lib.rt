//! The lines of the program `bsc`: read ([`read_link_line`]) and written ([`LinkInputText`], [`LinkOutputText`]).
//!
//! A line has words with one blank between any two. Operators' five lines, and messages in their octets or in words, are those of
//! scripts (`lab_script`); a message may stand behind `for`, which is said in another's place, or behind `send`. What a line is read
//! as, and why it can't be read, is the first thing that its definition gives (`specs/Lines`); what is written is read back as
//! what it was ([`reads_texts`]).
#![tactic(auto)]

mod fault;
mod laws;
mod reading;
mod steps;
mod words;
mod writing;

pub use fault::{LineFault, Place};
pub use laws::reads_texts;
pub use reading::{LinkLine, read_link_line};
pub use words::TimerName;
pub use writing::{LinkInputText, LinkOutputText};
