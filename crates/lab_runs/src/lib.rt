//! Runs a script with one controller or two on one thread, and the simulators around them. Listeners are told what came of
//! each input, turn by turn; one listener prints the trace.
//!
//! A controller's view of its desk also notes when no channel was free (`noting`). A turn is one input and what came of it
//! (`turn`). Lines that ask a controller's book are answered (`asked`): the channel of a call (`calls`), and the report of a
//! mobile there (`reports`). A course has the one controller or two of a run (`controllers`) and the simulators around them
//! (`simulators`), with their waiting messages (`waiting`), and plays the lines of a script with both (`course`, `run`). The
//! audit of a desk's history gives a line and a status (`verdict`).
#![tactic(auto)]

pub mod asked;
mod calls;
pub mod controllers;
pub mod course;
pub mod noting;
mod reports;
pub mod run;
mod simulators;
pub mod turn;
pub mod verdict;
pub mod waiting;
