//! The records of a journal: what came of each line that a controller was given, with the line's number, and with checksums
//! that reveal octets that were cut or changed.
#![tactic(auto)]

mod crc;
mod file;
mod numerals;
mod record;

pub use crc::checksum;
pub use file::{FIRST_LINE, FileFault, behind_first_line};
pub use record::{Record, RecordFault, append_record, first_record};
