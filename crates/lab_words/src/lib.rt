//! Reads the words of the command line: what they ask for, or why they are refused.
#![tactic(auto)]

mod cells_words;
mod explain_words;
mod help;
mod journal_words;
mod refused_words;
mod rows;
mod script_words;
mod site_paths;
mod storm_words;
mod trace_paths;
mod trace_words;
mod view_words;
mod words;

pub use journal_words::JournalWords;
pub use script_words::TestFiles;
pub use site_paths::{GivenPaths, SitePaths};
pub use storm_words::StormSize;
pub use trace_paths::{TraceEnd, TracePath};
pub use view_words::Ending;
pub use words::{Job, WordsFault, read_words};
