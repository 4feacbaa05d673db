//! Counts of the runs of controllers, in all and for each cell: calls, attempts at handover and their ends, messages by name
//! and direction, faults.
//!
//! It is counted beside the book's history: from the lines that a run tells (`lines`), or from those of a trace (`traces`).
//! What counts as what is said in `run_counts`. Here it is told what a message is the cause of (`causes`), the counts of
//! one controller or two are kept (`runs`), it is said how much of what was tried succeeded (`rates`), and all is shown, in words
//! (`words`) or as JSON (`json`).
#![tactic(auto)]

mod causes;
mod figures;
mod json;
mod lines;
mod rates;
mod runs;
mod traces;
mod words;

pub use json::json_text;
pub use runs::RunSummary;
pub use traces::{TraceFault, summary_of_trace};
pub use words::SummaryWords;
