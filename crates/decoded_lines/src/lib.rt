//! Messages in words: one, with what stands in its octets and isn't used by it, or those of lines of octet texts, answered
//! one by one, or why they are none.
//!
//! Lines are read one by one from a reader, in memory of a fixed size. Of each it is known where its octets, its first word and
//! its note stand, and which octets a text writes.
#![tactic(auto)]

mod answers;
mod file;
mod messages;
mod notes;
mod octets;
mod parts;
mod reader;
mod unused;

pub use answers::{Asked, Counts, LinesFault, answer_lines};
pub use explanations::LinkName;
pub use file::answer_file;
pub use messages::{Detail, link_named, print_message, print_or_fault};
pub use octets::read_octets;
pub use parts::{is_blank, said_in, text_and_note, without_return, word_and_rest};
pub use reader::{Found, LONGEST_LINE, next_line};
pub use screen_text::PrintFault;
pub use unused::{print_a_unused, print_abis_unused, print_rr_rest};
