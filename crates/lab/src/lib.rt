//! The laboratory of the base station controller: its commands, which read and write files. `run` runs a script, and shows
//! views of the run beside its trace. `live` runs the lines of standard input as they come. `rewind` takes an undone attempt
//! out of a trace, `audit` all of them. `summary` counts what a trace has. `check` shows the cells of a site and warnings.
//! `decode` prints one message, or those of many lines, in words; `encode` prints a message's octets; `explain` prints the
//! words for a number. `test` and `record` are for scripts that test themselves. `storm` moves many calls at once, with
//! workers on threads.
//!
//! Crates below run, test and record scripts, read traces back, and read the words of the command line. They are exported
//! here too, as are the reader of scripts (`script`) and the trace (`trace`, `bad`).
#![tactic(auto)]

mod absences;
pub mod check;
pub mod decoded;
pub mod encoded;
mod explained;
mod faults;
pub mod files;
mod flaws;
mod journal_text;
mod journals;
mod junit;
mod kept;
pub mod live;
mod name_flaws;
mod octet_causes;
pub mod program;
mod run_reason;
pub mod script_files;
mod script_names;
mod script_notes;
mod script_sites;
pub mod site_files;
mod slips;
pub mod storm;
pub mod summaries;
mod trace_ends;
pub mod trace_files;
mod undecoded;
mod view_paths;

pub use audits::traced;
pub use journal_files::Locking;
pub use lab_runs::{controllers, course, noting, run, turn, verdict};
pub use lab_script::script;
pub use lab_words as words;
pub use read_traces::rewound;
pub use run_listeners::LabFault;
pub use storm::storm_run;
pub use tested_scripts::{Reasons, recorded, tested};
pub use trace_entries::entries;
pub use trace_text::{bad, trace};
pub use undone_runs::tried;
